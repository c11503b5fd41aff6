//! What a program reads, writes and draws: sources, sinks and entropy.
//!
//! Each of them counts its faults. A call that answers [`Failed`] raises the count of the object
//! that it was made on by one, and no other call changes it. It has 64 bits, and stays at its last
//! value. So who holds the object before and after a longer run knows whose fault it was, and that
//! nothing failed where no fault was answered.
//!
//! An object may tell its bytes: a source and an entropy those that are left, a sink those that
//! were written. Those in memory tell them. Files and pipes don't, and their clauses on bytes say
//! nothing.
#![tactic(auto)]

ghost use Rattle.std.specs.Prelude.{◌≡◌, ℕ, ◌<◌, ◌≤◌, List, [], length, take, Option, IsOk, IfOk, OnOk, OnErr, MatchResult};
ghost use Rattle.std.specs.Io.KnownBytes.{Appends, Consumes, IsAtEnd};
ghost use Rattle.std.specs.Result.{is_err};
ghost use Rattle.mask_io.specs.Outside.{faults_after, Gives, Accepts, Takes, Stays, AppendsProperPrefix};

mod adapters;
mod calls;
mod memory;
mod opened;
mod seed;
#[cfg(test)]
mod tests;

pub use adapters::{FileEntropy, StdSink, StdSource};
pub use memory::{ClosedEntropy, ClosedSource, MemEntropy, MemSink, MemSource, SureSource};
pub use opened::{OpenEntropy, OpenSource};
pub use seed::SeedEntropy;

/// The one fault of the outside. Which object failed is told by its count.
#[derive(Clone, Copy, Debug, PartialEq, Eq)]
pub struct Failed;

/// Bytes to be read.
pub trait Source {
    // The bytes left, where the source tells them.
    ghost left: { Self → Option (List ℕ) };

    // The count of faults.
    ghost faults: { Self → ℕ };

    /// Reads bytes into the front of `buf` and says how many. None come only where `buf` is empty
    /// or the source is at its end.
    fn read(&mut self, buf: &mut [u8]) -> Result<usize, Failed>
        ensures ok { IfOk result (Gives (left self.old) (left self.new) buf.old buf.new) }
        ensures err { OnErr result (Stays (left self.old) (left self.new)) }
        ensures counts { faults self.new ≡ faults_after (is_err result) (faults self.old) };
}

/// A place to write bytes to.
pub trait Sink {
    // The bytes written, where the sink tells them.
    ghost written: { Self → Option (List ℕ) };

    // The count of faults.
    ghost faults: { Self → ℕ };

    /// Appends bytes from the front of `piece` and says how many: at least one, where there is one.
    fn write(&mut self, piece: &[u8]) -> Result<usize, Failed>
        ensures ok { IfOk result (Accepts (written self.old) (written self.new) piece.now) }
        ensures err { OnErr result (Stays (written self.old) (written self.new)) }
        ensures counts { faults self.new ≡ faults_after (is_err result) (faults self.old) };
}

/// Random bytes, drawn whole or not at all.
pub trait Entropy {
    // The bytes left, where the entropy tells them.
    ghost left: { Self → Option (List ℕ) };

    // The count of faults.
    ghost faults: { Self → ℕ };

    // The length of the buffer of the latest `fill` that failed, and 0 before any.
    ghost wanted: { Self → ℕ };

    /// Fills `buf` with the next bytes. It fails where fewer than these are left, and then takes
    /// none. What `buf` holds after a failure isn't said.
    fn fill(&mut self, buf: &mut [u8]) -> Result<(), Failed>
        ensures ok { OnOk result (Takes (left self.old) (left self.new) buf.new) }
        ensures err { OnErr result (Stays (left self.old) (left self.new)) }
        ensures counts { faults self.new ≡ faults_after (is_err result) (faults self.old) }
        ensures wants { MatchResult result
            (λ _. wanted self.new ≡ wanted self.old)
            (λ _. wanted self.new ≡ length buf.old) };
}

/// Writes the whole piece, in as many calls as the sink takes.
///
/// On a failure a part of the piece was written, and never all of it. An empty piece needs no call.
pub fn write_all<O: Sink>(sink: &mut O, piece: &[u8]) -> Result<(), Failed>
    ensures whole { OnOk result (Appends (O.written sink.old) (O.written sink.new) piece.now) }
    ensures part { OnErr result
        (AppendsProperPrefix (O.written sink.old) (O.written sink.new) piece.now) }
    ensures counts { O.faults sink.new ≡ faults_after (is_err result) (O.faults sink.old) }

    // Nothing to write: the sink isn't called.
    ensures nothing { piece.now ≡ [] → IsOk result × (sink.new ≡ sink.old) }
{
    let mut rest = piece;
    while !rest.is_empty() {
        let taken = sink.write(rest)?;
        rest = &rest[taken..];
    }
    Ok(())
}

/// Reads into the buffer until it is full or nothing is left, and says how many bytes came.
///
/// On a failure those that came before it are lost.
pub fn read_full<S: Source>(source: &mut S, buf: &mut [u8]) -> Result<usize, Failed>
    ensures bound { IfOk result (λ n. n ≤ length buf.old) }
    ensures room { length buf.new ≡ length buf.old }
    ensures taken { IfOk result (λ n. Consumes (S.left source.old) (S.left source.new) (take n buf.new)) }
    ensures end { IfOk result (λ n. n < length buf.old → IsAtEnd (S.left source.new)) }
    ensures part { OnErr result ((bytes : List ℕ) × Consumes (S.left source.old) (S.left source.new) bytes
        × (length bytes < length buf.old)) }
    ensures counts { S.faults source.new ≡ faults_after (is_err result) (S.faults source.old) }
{
    let mut came = 0;
    while came < buf.len() {
        let count = match source.read(&mut buf[came..]) {
            Ok(count) => count,
            Err(failed) => return Err(failed),
        };
        if count == 0 {
            return Ok(came);
        }
        came += count;
    }
    Ok(came)
}
