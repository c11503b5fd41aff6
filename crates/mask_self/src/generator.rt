//! What is made of a seed.

ghost use Rattle.std.specs.Prelude.{◌≡◌, ℕ, length, min, Some, IsOk, IfOk, OnErr};
ghost use Rattle.std.specs.Result.{is_err};
ghost use Rattle.mask_io.specs.Outside.{faults_after, Gives, Stays};
ghost use Rattle.mask_self.specs.Generator.{next, number_at, top_byte, bytes_from};

use mask_io::{Failed, Source};
use std::marker::Model;

const MULTIPLIER: u64 = 6_364_136_223_846_793_005;

const INCREMENT: u64 = 1_442_695_040_888_963_407;

/// A generator that stands at a number of its sequence, and gives the bytes of those behind it.
#[derive(Drop)]
pub(crate) struct Generator {
    number: u64,
}

impl Model for Generator {
    ghost use Rattle.std.specs.Prelude.{ℕ};

    ghost Value = { ℕ };

    ghost view = { λ g. g.number };
}

impl Generator {
    pub(crate) fn new(seed: u64) -> Generator
        ensures { result ≡ seed }
    {
        Generator { number: seed }
    }

    fn next_byte(&mut self) -> u8
        ensures byte { result ≡ top_byte (next self.old) }
        ensures after { self.new ≡ next self.old }
    {
        self.number = MULTIPLIER.wrapping_mul(self.number).wrapping_add(INCREMENT);
        (self.number >> 56) as u8
    }

    /// Fills the room with the next bytes.
    pub(crate) fn fill(&mut self, room: &mut [u8])
        ensures bytes { room.new ≡ bytes_from self.old 0 (length room.old) }
        ensures after { self.new ≡ number_at self.old (length room.old) }
    {
        for k in 0..room.len() {
            room[k] = self.next_byte();
        }
    }
}

/// The next bytes of a generator, so many of them, as a source that never fails.
#[derive(Drop)]
pub(crate) struct Message {
    generator: Generator,
    left: usize,
}

impl Model for Message {
    ghost use Rattle.std.specs.Prelude.{ℕ, List};
    ghost use Rattle.mask_self.specs.Generator.{bytes_from};

    ghost Value = { List ℕ };

    ghost view = { λ m. bytes_from m.generator 0 m.left };
}

impl Message {
    pub(crate) fn new(generator: Generator, count: usize) -> Message
        ensures { result ≡ bytes_from generator 0 count }
    {
        Message {
            generator,
            left: count,
        }
    }
}

impl Source for Message {
    ghost left = { λ m. Some m };

    ghost faults = { λ _. 0 };

    fn read(&mut self, buf: &mut [u8]) -> Result<usize, Failed>
        ensures ok { IfOk result (Gives (Some self.old) (Some self.new) buf.old buf.new) }
        ensures err { OnErr result (Stays (Some self.old) (Some self.new)) }
        ensures counts { ◌≡◌ {A = ℕ} 0 (faults_after (is_err result) 0) }
        ensures never_fails { IsOk result }
    {
        let count = buf.len().min(self.left);
        self.generator.fill(&mut buf[..count]);
        self.left -= count;
        Ok(count)
    }
}
