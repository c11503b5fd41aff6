//! Sources, sinks and entropy in memory, and those that are closed.

ghost use Rattle.std.specs.Prelude.{◌≡◌, ℕ, ◌+◌, ◌<◌, ◌≤◌, ◌↔◌, ◌⊎◌, min, [], length, drop, None, Some, IsOk, IsErr, IfOk, OnOk, OnErr, MatchResult, Contains};
ghost use Rattle.std.specs.Result.{is_err};
ghost use Rattle.mask_io.specs.Outside.{faults_after, Gives, Accepts, Takes, Stays};
ghost use Rattle.mask_io.specs.Memory.{after_call};

use crate::calls::Calls;
use crate::{Entropy, Failed, Sink, Source};
use std::alloc::{AllocError, Global};
use std::marker::Model;

/// A source of bytes in memory, of which chosen calls fail. Calls are numbered from 0.
#[derive(Drop)]
pub struct MemSource {
    bytes: Vec<u8>,
    at: usize,
    piece: usize,
    calls: Calls,
}

impl Model for MemSource {
    ghost use Rattle.std.specs.Prelude.{◌≤◌, length, drop};
    ghost use Rattle.mask_io.specs.Memory.{Feed};

    ghost Value = { Feed };

    ghost view = { λ s. record {
      left = drop s.at s.bytes.items;
      piece = s.piece;
      script = s.calls;
    } };

    ghost invariant = { λ s. (s.at ≤ length s.bytes.items) × (1 ≤ s.piece) };
}

impl MemSource {
    /// Gives `bytes`, at most `piece` of them in a call. The calls whose numbers stand in `fails`
    /// fail.
    pub fn new(bytes: Vec<u8>, piece: usize, fails: Vec<u32>) -> MemSource
        requires { 1 ≤ piece }
        ensures told { ⟦<MemSource as Source>⟧.left result ≡ Some bytes.items }
        ensures no_fault { ⟦<MemSource as Source>⟧.faults result ≡ 0 }
        ensures value { result ≡ record {
          left = bytes.items;
          piece = piece;
          script = record { fails = fails.items; made = 0; faults = 0 };
        } }
    {
        MemSource {
            bytes,
            at: 0,
            piece,
            calls: Calls::new(fails),
        }
    }
}

impl Source for MemSource {
    ghost left = { λ s. Some s.left };

    ghost faults = { λ s. s.script.faults };

    fn read(&mut self, buf: &mut [u8]) -> Result<usize, Failed>
        ensures ok { IfOk result (Gives (Some self.old.left) (Some self.new.left) buf.old buf.new) }
        ensures err { OnErr result (Stays (Some self.old.left) (Some self.new.left)) }
        ensures counts { self.new.script.faults
            ≡ faults_after (is_err result) self.old.script.faults }
        ensures fails { IsErr result ↔ Contains self.old.script.fails self.old.script.made }
        ensures count { IfOk result
            (λ n. n ≡ min self.old.piece (min (length buf.old) (length self.old.left))) }
        ensures after { self.new ≡ record {
          left = self.new.left;
          piece = self.old.piece;
          script = after_call self.old.script (is_err result);
        } }
    {
        self.calls.answer(true)?;
        let count = copy_front(&self.bytes[self.at..], self.piece, buf);
        self.at += count;
        Ok(count)
    }
}

// Copies as many bytes as there are, as fit, and as `most` allows.
fn copy_front(from: &[u8], most: usize, into: &mut [u8]) -> usize
    requires { 0 < length into.old → 0 < most }
    ensures count { result ≡ min most (min (length into.old) (length from.now)) }
    ensures gives { Gives (Some from.now) (Some (drop result from.now)) into.old into.new result }
{
    let count = most.min(into.len()).min(from.len());
    into[..count].copy_from_slice(&from[..count]);
    count
}

/// A source of bytes in memory that never fails.
#[derive(Drop)]
pub struct SureSource {
    bytes: Vec<u8>,
    at: usize,
}

impl Model for SureSource {
    ghost use Rattle.std.specs.Prelude.{ℕ, ◌≤◌, List, length, drop};

    ghost Value = { List ℕ };

    ghost view = { λ s. drop s.at s.bytes.items };

    ghost invariant = { λ s. s.at ≤ length s.bytes.items };
}

impl SureSource {
    /// Gives `bytes`.
    pub fn new(bytes: Vec<u8>) -> SureSource
        ensures told { ⟦<SureSource as Source>⟧.left result ≡ Some bytes.items }
        ensures no_fault { ⟦<SureSource as Source>⟧.faults result ≡ 0 }
    {
        SureSource { bytes, at: 0 }
    }
}

impl Source for SureSource {
    ghost left = { λ s. Some s };

    ghost faults = { λ _. 0 };

    fn read(&mut self, buf: &mut [u8]) -> Result<usize, Failed>
        ensures ok { IfOk result (Gives (Some self.old) (Some self.new) buf.old buf.new) }
        ensures err { OnErr result (Stays (Some self.old) (Some self.new)) }
        ensures counts { ◌≡◌ {A = ℕ} 0 (faults_after (is_err result) 0) }
        ensures never_fails { IsOk result }
        ensures count { IfOk result (λ n. n ≡ min (length buf.old) (length self.old)) }
    {
        let count = copy_front(&self.bytes[self.at..], buf.len(), buf);
        self.at += count;
        Ok(count)
    }
}

/// A source of which every call fails. It tells no bytes.
#[derive(Drop)]
pub struct ClosedSource {
    faults: u64,
}

impl Model for ClosedSource {
    ghost Value = { ℕ };

    ghost view = { λ s. s.faults };
}

impl ClosedSource {
    /// No call was made yet.
    pub fn new() -> ClosedSource
        ensures untold { ⟦<ClosedSource as Source>⟧.left result ≡ None }
        ensures no_fault { ⟦<ClosedSource as Source>⟧.faults result ≡ 0 }
    {
        ClosedSource { faults: 0 }
    }
}

impl Source for ClosedSource {
    ghost left = { λ _. None };

    ghost faults = { λ s. s };

    fn read(&mut self, buf: &mut [u8]) -> Result<usize, Failed>
        ensures ok { IfOk result (Gives None None buf.old buf.new) }
        ensures err { OnErr result (Stays None None) }
        ensures counts { self.new ≡ faults_after (is_err result) self.old }
        ensures closed { IsErr result }
    {
        self.faults = self.faults.saturating_add(1);
        Err(Failed)
    }
}

/// A sink in memory of fixed room, of which chosen calls fail. Calls are numbered from 0.
#[derive(Drop)]
pub struct MemSink {
    bytes: Vec<u8>,
    // How many more bytes fit. Memory for them is there.
    room: usize,
    piece: usize,
    calls: Calls,
}

impl Model for MemSink {
    ghost use Rattle.std.specs.Prelude.{◌+◌, ◌≤◌};
    ghost use Rattle.std.specs.Vec.{vec_len, vec_capacity};
    ghost use Rattle.mask_io.specs.Memory.{Store};

    ghost Value = { Store };

    ghost view = { λ s. record {
      written = s.bytes.items;
      room = s.room;
      piece = s.piece;
      script = s.calls;
    } };

    ghost invariant = { λ s. (vec_len s.bytes + s.room ≤ vec_capacity s.bytes) × (1 ≤ s.piece) };
}

impl MemSink {
    /// Takes `room` bytes in all, and at most `piece` of them in a call. The calls whose numbers
    /// stand in `fails` fail.
    pub fn new(
        alloc: Global,
        room: usize,
        piece: usize,
        fails: Vec<u32>,
    ) -> Result<MemSink, AllocError>
        requires { 1 ≤ piece }
        ensures told { IfOk result (λ s. ⟦<MemSink as Sink>⟧.written s ≡ Some []) }
        ensures no_fault { IfOk result (λ s. ⟦<MemSink as Sink>⟧.faults s ≡ 0) }
        ensures value { IfOk result (λ s. s ≡ record {
          written = [];
          room = room;
          piece = piece;
          script = record { fails = fails.items; made = 0; faults = 0 };
        }) }
    {
        let bytes = Vec::with_capacity(alloc, room)?;
        Ok(MemSink {
            bytes,
            room,
            piece,
            calls: Calls::new(fails),
        })
    }

    /// The bytes written.
    pub fn bytes(&self) -> &[u8]
        ensures value { result.now ≡ self.now.written }
        ensures told { Some result.now ≡ ⟦<MemSink as Sink>⟧.written self.now }
    {
        self.bytes.as_slice()
    }
}

impl Sink for MemSink {
    ghost written = { λ s. Some s.written };

    ghost faults = { λ s. s.script.faults };

    fn write(&mut self, piece: &[u8]) -> Result<usize, Failed>
        ensures ok { IfOk result (Accepts (Some self.old.written) (Some self.new.written) piece.now) }
        ensures err { OnErr result (Stays (Some self.old.written) (Some self.new.written)) }
        ensures counts { self.new.script.faults
            ≡ faults_after (is_err result) self.old.script.faults }
        ensures fails { IsErr result
            ↔ (Contains self.old.script.fails self.old.script.made
            ⊎ ((0 < length piece.now) × (self.old.room ≡ 0))) }
        ensures count { IfOk result
            (λ n. n ≡ min self.old.piece (min (length piece.now) self.old.room)) }
        ensures room { MatchResult result
            (λ n. self.old.room ≡ self.new.room + n)
            (λ _. self.new.room ≡ self.old.room) }
        ensures after { self.new ≡ record {
          written = self.new.written;
          room = self.new.room;
          piece = self.old.piece;
          script = after_call self.old.script (is_err result);
        } }
    {
        self.calls.answer(piece.is_empty() || self.room > 0)?;
        let count = self.piece.min(piece.len()).min(self.room);
        // It can't be refused: there is room.
        let _ = self.bytes.extend_from_slice(&piece[..count]);
        self.room -= count;
        Ok(count)
    }
}

/// Entropy in memory, of which chosen calls fail. Calls are numbered from 0.
#[derive(Drop)]
pub struct MemEntropy {
    bytes: Vec<u8>,
    at: usize,
    wanted: usize,
    calls: Calls,
}

impl Model for MemEntropy {
    ghost use Rattle.std.specs.Prelude.{◌≤◌, length, drop};
    ghost use Rattle.mask_io.specs.Memory.{Supply};

    ghost Value = { Supply };

    ghost view = { λ s. record {
      left = drop s.at s.bytes.items;
      wanted = s.wanted;
      script = s.calls;
    } };

    ghost invariant = { λ s. s.at ≤ length s.bytes.items };
}

impl MemEntropy {
    /// Gives `bytes`. The calls whose numbers stand in `fails` fail.
    pub fn new(bytes: Vec<u8>, fails: Vec<u32>) -> MemEntropy
        ensures told { ⟦<MemEntropy as Entropy>⟧.left result ≡ Some bytes.items }
        ensures no_fault { ⟦<MemEntropy as Entropy>⟧.faults result ≡ 0 }
        ensures no_want { ⟦<MemEntropy as Entropy>⟧.wanted result ≡ 0 }
        ensures value { result ≡ record {
          left = bytes.items;
          wanted = 0;
          script = record { fails = fails.items; made = 0; faults = 0 };
        } }
    {
        MemEntropy {
            bytes,
            at: 0,
            wanted: 0,
            calls: Calls::new(fails),
        }
    }
}

impl Entropy for MemEntropy {
    ghost left = { λ s. Some s.left };

    ghost faults = { λ s. s.script.faults };

    ghost wanted = { λ s. s.wanted };

    fn fill(&mut self, buf: &mut [u8]) -> Result<(), Failed>
        ensures ok { OnOk result (Takes (Some self.old.left) (Some self.new.left) buf.new) }
        ensures err { OnErr result (Stays (Some self.old.left) (Some self.new.left)) }
        ensures counts { self.new.script.faults
            ≡ faults_after (is_err result) self.old.script.faults }
        ensures wants { MatchResult result
            (λ _. self.new.wanted ≡ self.old.wanted)
            (λ _. self.new.wanted ≡ length buf.old) }
        ensures fails { IsErr result
            ↔ (Contains self.old.script.fails self.old.script.made
            ⊎ (length self.old.left < length buf.old)) }
        ensures script { self.new.script ≡ after_call self.old.script (is_err result) }
    {
        let rest = &self.bytes[self.at..];
        let length = buf.len();
        if self.calls.answer(length <= rest.len()).is_err() {
            self.wanted = length;
            return Err(Failed);
        }
        copy_whole(rest, buf);
        self.at += length;
        Ok(())
    }
}

// Fills `into` from the front of `from`.
fn copy_whole(from: &[u8], into: &mut [u8])
    requires { length into.old ≤ length from.now }
    ensures { Takes (Some from.now) (Some (drop (length into.old) from.now)) into.new }
{
    into.copy_from_slice(&from[..into.len()]);
}

/// Entropy of which every call fails. It tells no bytes.
#[derive(Drop)]
pub struct ClosedEntropy {
    faults: u64,
    wanted: usize,
}

impl Model for ClosedEntropy {
    ghost use Rattle.mask_io.specs.Memory.{Refusals};

    ghost Value = { Refusals };

    ghost view = { λ s. record { faults = s.faults; wanted = s.wanted } };
}

impl ClosedEntropy {
    /// No call was made yet.
    pub fn new() -> ClosedEntropy
        ensures untold { ⟦<ClosedEntropy as Entropy>⟧.left result ≡ None }
        ensures no_fault { ⟦<ClosedEntropy as Entropy>⟧.faults result ≡ 0 }
        ensures no_want { ⟦<ClosedEntropy as Entropy>⟧.wanted result ≡ 0 }
    {
        ClosedEntropy {
            faults: 0,
            wanted: 0,
        }
    }
}

impl Entropy for ClosedEntropy {
    ghost left = { λ _. None };

    ghost faults = { λ s. s.faults };

    ghost wanted = { λ s. s.wanted };

    fn fill(&mut self, buf: &mut [u8]) -> Result<(), Failed>
        ensures ok { OnOk result (Takes None None buf.new) }
        ensures err { OnErr result (Stays None None) }
        ensures counts { self.new.faults ≡ faults_after (is_err result) self.old.faults }
        ensures wants { MatchResult result
            (λ _. self.new.wanted ≡ self.old.wanted)
            (λ _. self.new.wanted ≡ length buf.old) }
        ensures closed { IsErr result }
    {
        self.faults = self.faults.saturating_add(1);
        self.wanted = buf.len();
        Err(Failed)
    }
}
