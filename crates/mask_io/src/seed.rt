//! Entropy from a seed.

ghost use Rattle.std.specs.Prelude.{◌≡◌, ℕ, ◌+◌, ◌%◌, ◌^◌, length, None, IsOk, OnOk, OnErr, slice_index, EachIndex};
ghost use Rattle.std.specs.Result.{is_err};
ghost use Rattle.rand_chacha.specs.ChaCha.{key_of};
ghost use Rattle.mask_io.specs.Outside.{faults_after, Takes, Stays};
ghost use Rattle.mask_io.specs.Seeded.{stream_byte};

use crate::{Entropy, Failed};
use rand_chacha::ChaCha20Rng;
use rand_core::SeedableRng;
use rand_core::utils::NextWord;
use std::marker::Model;

/// The bytes of ChaCha20's words from a seed, each word's lowest byte first. It never fails.
///
/// It tells no list of bytes, since they don't end. Its own clauses say which bytes come.
#[derive(Drop)]
pub struct SeedEntropy {
    rng: ChaCha20Rng,
    word: [u8; 4],
    // How many bytes of `word` were given.
    used: usize,
}

impl Model for SeedEntropy {
    ghost use Rattle.std.specs.Prelude.{◌≡◌, ℕ, ◌+◌, ◌-◌, ◌*◌, ◌%◌, ◌^◌, ◌<◌, ◌≤◌, slice_index};
    ghost use Rattle.mask_io.specs.Seeded.{Seeded, stream_byte};

    ghost Value = { Seeded };

    ghost view = { λ s. record {
      key = s.rng.key;
      place = ((s.rng.word_pos + (2 ^ 68 - 1)) % 2 ^ 68 * 4 + s.used) % 2 ^ 70;
    } };

    // The bytes of `word` that weren't given are those of the word before the generator's next.
    ghost invariant = { λ s. (s.used ≤ 4) × (s.rng.stream ≡ 0) × (s.rng.word_pos < 2 ^ 68)
        × ((i : ℕ) → s.used ≤ i → i < 4
        → slice_index s.word i
        ≡ stream_byte s.rng.key ((s.rng.word_pos + (2 ^ 68 - 1)) % 2 ^ 68 * 4 + i)) };
}

impl SeedEntropy {
    /// Begins at the start of the stream.
    pub fn new(seed: [u8; 32]) -> SeedEntropy
        ensures untold { ⟦<SeedEntropy as Entropy>⟧.left result ≡ None }
        ensures no_fault { ⟦<SeedEntropy as Entropy>⟧.faults result ≡ 0 }
        ensures no_want { ⟦<SeedEntropy as Entropy>⟧.wanted result ≡ 0 }
        ensures start { result ≡ record { key = key_of seed; place = 0 } }
    {
        SeedEntropy {
            rng: ChaCha20Rng::from_seed(seed),
            word: [0; 4],
            used: 4,
        }
    }

    fn next_byte(&mut self) -> u8
        ensures byte { result ≡ stream_byte self.old.key self.old.place }
        ensures after { self.new ≡ record self.old { place = (self.old.place + 1) % 2 ^ 70 } }
    {
        if self.used == 4 {
            self.word = self.rng.next_word().to_le_bytes();
            self.used = 0;
        }
        let byte = self.word[self.used];
        self.used += 1;
        byte
    }
}

impl Entropy for SeedEntropy {
    ghost left = { λ _. None };

    ghost faults = { λ _. 0 };

    ghost wanted = { λ _. 0 };

    fn fill(&mut self, buf: &mut [u8]) -> Result<(), Failed>
        ensures ok { OnOk result (Takes None None buf.new) }
        ensures err { OnErr result (Stays None None) }
        ensures counts { ◌≡◌ {A = ℕ} 0 (faults_after (is_err result) 0) }
        ensures never_fails { IsOk result }

        // The buffer holds the next bytes of the stream.
        ensures bytes { EachIndex buf.new
            (λ i. slice_index buf.new i ≡ stream_byte self.old.key (self.old.place + i)) }
        ensures after { self.new
            ≡ record self.old { place = (self.old.place + length buf.old) % 2 ^ 70 } }
    {
        // No effect at run time. The proof reads from this use that the place is below 2^70.
        let _ = &self.used;
        for byte in buf.iter_mut() {
            *byte = self.next_byte();
        }
        Ok(())
    }
}
