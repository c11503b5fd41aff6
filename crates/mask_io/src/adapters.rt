//! Files, pipes and terminals as sources, sinks and entropy.
//!
//! They tell no bytes: what a file holds isn't known here. A write that is done and a flush that
//! fails would break a promise on what was written, too.

ghost use Rattle.std.specs.Prelude.{◌≡◌, length, take, None, IfOk, OnOk, OnErr, MatchResult};
ghost use Rattle.std.specs.Result.{is_err};
ghost use Rattle.std.specs.Io.{WritesAtMost};
ghost use Rattle.std.specs.Io.KnownBytes.{Appends, Consumes, ReadConsumes};
ghost use Rattle.mask_io.specs.Outside.{faults_after, Gives, Accepts, Takes, Stays};

use crate::{Entropy, Failed, Sink, Source};
use std::io::{self, Read, Write};
use std::marker::Model;

const CHUNK: usize = 4096;

/// A reader as a source.
#[derive(Drop)]
pub struct StdSource<R: Read> {
    inner: R,
    faults: u64,
}

impl<R: Read> Model for StdSource<R> {
    ghost use Rattle.mask_io.specs.Adapters.{Counted};

    ghost Value = { Counted R };

    ghost view = { λ s. record { inner = s.inner; faults = s.faults } };
}

impl<R: Read> StdSource<R> {
    /// Reads from `inner`.
    pub fn new(inner: R) -> StdSource<R>
        ensures untold { ⟦<StdSource<R> as Source>⟧.left result ≡ None }
        ensures no_fault { ⟦<StdSource<R> as Source>⟧.faults result ≡ 0 }
        ensures inner { result.inner ≡ inner }
    {
        StdSource { inner, faults: 0 }
    }
}

impl<R: Read> Source for StdSource<R> {
    ghost left = { λ _. None };

    ghost faults = { λ s. s.faults };

    // The reader writes into a chunk of this call, so that it can't touch the rest of the buffer.
    fn read(&mut self, buf: &mut [u8]) -> Result<usize, Failed>
        ensures ok { IfOk result (Gives None None buf.old buf.new) }
        ensures err { OnErr result (Stays None None) }
        ensures counts { self.new.faults ≡ faults_after (is_err result) self.old.faults }

        // Where the reader's bytes are known, the source passes them on.
        ensures passes { ReadConsumes (R.remaining self.old.inner) (R.remaining self.new.inner)
            result buf.new }
    {
        let mut chunk = [0; CHUNK];
        let room = buf.len().min(CHUNK);
        match self.inner.read(&mut chunk[..room]) {
            Ok(count) => {
                buf[..count].copy_from_slice(&chunk[..count]);
                Ok(count)
            }
            Err(_) => {
                self.faults = self.faults.saturating_add(1);
                Err(Failed)
            }
        }
    }
}

/// A writer as a sink. Each write is flushed.
#[derive(Drop)]
pub struct StdSink<W: Write> {
    inner: W,
    faults: u64,
}

impl<W: Write> Model for StdSink<W> {
    ghost use Rattle.mask_io.specs.Adapters.{Counted};

    ghost Value = { Counted W };

    ghost view = { λ s. record { inner = s.inner; faults = s.faults } };
}

impl<W: Write> StdSink<W> {
    /// Writes to `inner`.
    pub fn new(inner: W) -> StdSink<W>
        ensures untold { ⟦<StdSink<W> as Sink>⟧.written result ≡ None }
        ensures no_fault { ⟦<StdSink<W> as Sink>⟧.faults result ≡ 0 }
        ensures inner { result.inner ≡ inner }
    {
        StdSink { inner, faults: 0 }
    }
}

impl<W: Write> Sink for StdSink<W> {
    ghost written = { λ _. None };

    ghost faults = { λ s. s.faults };

    // A write of no bytes, where there are some, is a failure.
    fn write(&mut self, piece: &[u8]) -> Result<usize, Failed>
        ensures ok { IfOk result (Accepts None None piece.now) }
        ensures err { OnErr result (Stays None None) }
        ensures counts { self.new.faults ≡ faults_after (is_err result) self.old.faults }

        // Where the writer's bytes are known, the sink passes them on.
        ensures passes { IfOk result
            (λ n. Appends (W.contents self.old.inner) (W.contents self.new.inner) (take n piece.now)) }
    {
        match write_and_flush(&mut self.inner, piece) {
            Ok(count) if count > 0 || piece.is_empty() => Ok(count),
            _ => {
                self.faults = self.faults.saturating_add(1);
                Err(Failed)
            }
        }
    }
}

fn write_and_flush<W: Write>(inner: &mut W, piece: &[u8]) -> io::Result<usize>
    ensures bound { WritesAtMost result piece.now }
    ensures bytes { IfOk result
        (λ n. Appends (W.contents inner.old) (W.contents inner.new) (take n piece.now)) }
{
    let count = inner.write(piece)?;
    inner.flush()?;
    Ok(count)
}

/// A reader as entropy. It reads until the buffer is full; that the reader ends before is a failure.
#[derive(Drop)]
pub struct FileEntropy<R: Read> {
    inner: R,
    faults: u64,
    wanted: usize,
}

impl<R: Read> Model for FileEntropy<R> {
    ghost use Rattle.mask_io.specs.Adapters.{Drawn};

    ghost Value = { Drawn R };

    ghost view = { λ s. record { inner = s.inner; faults = s.faults; wanted = s.wanted } };
}

impl<R: Read> FileEntropy<R> {
    /// Draws from `inner`.
    pub fn new(inner: R) -> FileEntropy<R>
        ensures untold { ⟦<FileEntropy<R> as Entropy>⟧.left result ≡ None }
        ensures no_fault { ⟦<FileEntropy<R> as Entropy>⟧.faults result ≡ 0 }
        ensures no_want { ⟦<FileEntropy<R> as Entropy>⟧.wanted result ≡ 0 }
        ensures inner { result.inner ≡ inner }
    {
        FileEntropy {
            inner,
            faults: 0,
            wanted: 0,
        }
    }
}

impl<R: Read> Entropy for FileEntropy<R> {
    ghost left = { λ _. None };

    ghost faults = { λ s. s.faults };

    ghost wanted = { λ s. s.wanted };

    fn fill(&mut self, buf: &mut [u8]) -> Result<(), Failed>
        ensures ok { OnOk result (Takes None None buf.new) }
        ensures err { OnErr result (Stays None None) }
        ensures wants { MatchResult result
            (λ _. self.new.wanted ≡ self.old.wanted)
            (λ _. self.new.wanted ≡ length buf.old) }
        ensures counts { self.new.faults ≡ faults_after (is_err result) self.old.faults }

        // Where the reader's bytes are known, the entropy passes them on.
        ensures passes { OnOk result
            (Consumes (R.remaining self.old.inner) (R.remaining self.new.inner) buf.new) }
    {
        if self.inner.read_exact(buf).is_err() {
            self.faults = self.faults.saturating_add(1);
            self.wanted = buf.len();
            return Err(Failed);
        }
        Ok(())
    }
}
