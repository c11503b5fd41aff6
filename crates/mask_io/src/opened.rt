//! What a program opened by name: one type for each of the ways in which that may go.

ghost use Rattle.std.specs.Prelude.{◌≡◌, ℕ, ◌+◌, ◌%◌, ◌^◌, length, None, IsOk, IsErr, IfOk, OnOk, OnErr, MatchResult, slice_index, EachIndex};
ghost use Rattle.std.specs.Io.KnownBytes.{Consumes, ReadConsumes};
ghost use Rattle.std.specs.Result.{is_err};
ghost use Rattle.mask_io.specs.Outside.{faults_after, Gives, Takes, Stays};
ghost use Rattle.mask_io.specs.Seeded.{Seeded, stream_byte};
ghost use Rattle.mask_io.specs.Adapters.{Counted, Drawn};
ghost use Rattle.mask_io.specs.Memory.{Refusals};

use crate::{
    ClosedEntropy, ClosedSource, Entropy, Failed, FileEntropy, SeedEntropy, Source, StdSource,
};
use std::io::Read;

/// A file, or nothing.
#[derive(Drop)]
pub enum OpenSource<R: Read> {
    File(StdSource<R>),
    Closed(ClosedSource),
}

/// The stream of a seed, a file, or nothing.
#[derive(Drop)]
pub enum OpenEntropy<R: Read> {
    Seed(SeedEntropy),
    File(FileEntropy<R>),
    Closed(ClosedEntropy),
}

impl<R: Read> Source for OpenSource<R> {
    ghost use Rattle.mask_io.specs.Opened.{source_faults};
    ghost use Rattle.mask_io.specs.declared.opened.OpenSource.TheVariants as sources;

    ghost left = { λ _. None };

    ghost faults = { λ s. source_faults s };

    fn read(&mut self, buf: &mut [u8]) -> Result<usize, Failed>
        ensures ok { IfOk result (Gives None None buf.old buf.new) }
        ensures err { OnErr result (Stays None None) }
        ensures counts { source_faults self.new
            ≡ faults_after (is_err result) (source_faults self.old) }

        // Each kind reads as it does by itself, and stays what it is.
        ensures file { (s : Counted R) → self.old ≡ sources.File s → (t : Counted R)
            × (self.new ≡ sources.File t)
            × ReadConsumes (R.remaining s.inner) (R.remaining t.inner) result buf.new }
        ensures closed { (faults : ℕ) → self.old ≡ sources.Closed faults → IsErr result }
    {
        match self {
            OpenSource::File(source) => source.read(buf),
            OpenSource::Closed(source) => source.read(buf),
        }
    }
}

impl<R: Read> Entropy for OpenEntropy<R> {
    ghost use Rattle.mask_io.specs.Opened.{entropy_faults, entropy_wanted};
    ghost use Rattle.mask_io.specs.declared.opened.OpenEntropy.TheVariants as entropies;

    ghost left = { λ _. None };

    ghost faults = { λ e. entropy_faults e };

    ghost wanted = { λ e. entropy_wanted e };

    fn fill(&mut self, buf: &mut [u8]) -> Result<(), Failed>
        ensures ok { OnOk result (Takes None None buf.new) }
        ensures err { OnErr result (Stays None None) }
        ensures counts { entropy_faults self.new
            ≡ faults_after (is_err result) (entropy_faults self.old) }
        ensures wants { MatchResult result
            (λ _. entropy_wanted self.new ≡ entropy_wanted self.old)
            (λ _. entropy_wanted self.new ≡ length buf.old) }

        // Each kind gives what it does by itself, and stays what it is.
        ensures seed { (s : Seeded) → self.old ≡ entropies.Seed s → IsOk result
            × (self.new ≡ entropies.Seed (record s { place = (s.place + length buf.old) % 2 ^ 70 }))
            × EachIndex buf.new (λ i. slice_index buf.new i ≡ stream_byte s.key (s.place + i)) }
        ensures file { (s : Drawn R) → self.old ≡ entropies.File s → (t : Drawn R)
            × (self.new ≡ entropies.File t)
            × OnOk result (Consumes (R.remaining s.inner) (R.remaining t.inner) buf.new) }
        ensures closed { (s : Refusals) → self.old ≡ entropies.Closed s → IsErr result }
    {
        match self {
            OpenEntropy::Seed(entropy) => entropy.fill(buf),
            OpenEntropy::File(entropy) => entropy.fill(buf),
            OpenEntropy::Closed(entropy) => entropy.fill(buf),
        }
    }
}
