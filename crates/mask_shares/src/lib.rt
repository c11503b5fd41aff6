//! Shares of machine words: N words whose exclusive or is the word that they share.
//!
//! Each bit of a word is a lane of its own, so one value of [`Shares`] holds N shares of up to 64
//! bits. All calls act share by share but [`Shares::unmask`], which alone brings shares together.
#![tactic(auto)]

ghost use Rattle.std.specs.Prelude.{◌≡◌, ℕ, ◌^◌, ◌-◌, ◌<◌, ◌≤◌, ◌==◌, cond, length, slice_index, bit_xor};
ghost use Rattle.mask_bits.specs.Lanes.{lane};
ghost use Rattle.mask_bits.specs.Reading.{bit};
ghost use Rattle.mask_circuit.specs.Ring.{words};
ghost use Rattle.mask_circuit.specs.Wires.{each, on_first};
ghost use Rattle.mask_shares.specs.Sharing.{unmasked};

use std::marker::Model;

#[cfg(test)]
mod tests;

/// N shares of a word.
///
/// No code outside this crate reads or writes a share but by these calls.
#[derive(Clone, Copy)]
pub struct Shares<const N: usize> {
    words: [u64; N],
}

impl<const N: usize> Model for Shares<N> {
    ghost use Rattle.std.specs.Prelude.{ℕ, List};

    ghost Value = { List ℕ };

    ghost view = { λ s. s.words };

    ghost inverse = { λ words. record { words = words } };
}

impl<const N: usize> Shares<N> {
    /// A word that all may know: share 0 is the word, and the others are 0.
    pub fn public(word: u64) -> Shares<N>
        requires some { 0 < N }
        requires few { N ≤ 8 }
        ensures { result ≡ each (on_first words word) N }
    {
        let mut words = [0; N];
        words[0] = word;
        Shares { words }
    }

    /// These shares.
    pub fn from_parts(parts: [u64; N]) -> Shares<N>
        requires { N ≤ 8 }
        ensures value { result ≡ parts.entry }
        ensures count { length result ≡ N }
    {
        Shares { words: parts }
    }

    /// The sum, share by share.
    pub fn xor(self, other: Shares<N>) -> Shares<N>
        requires { N ≤ 8 }
        ensures { result ≡ each (λ i. bit_xor (slice_index self.entry i) (slice_index other.entry i)) N }
    {
        let mut words = [0; N];
        for i in 0..N {
            words[i] = self.words[i] ^ other.words[i];
        }
        Shares { words }
    }

    /// The complement: all bits of share 0 are flipped, and the other shares stay.
    pub fn not(self) -> Shares<N>
        requires some { 0 < N }
        requires few { N ≤ 8 }
        ensures { result ≡ each (λ i. cond (i == 0) (bit_xor (slice_index self.entry i) (2 ^ 64 - 1)) (slice_index self.entry i)) N }
    {
        self.xor(Shares::public(u64::MAX))
    }

    /// The shares that these have in lane 0, in each of the 64 lanes.
    pub fn in_all_lanes(&self) -> Shares<N>
        requires { N ≤ 8 }
        ensures { (l : ℕ) → l < 64 → lane l result ≡ lane 0 self.now }
    {
        let mut words = self.parts();
        for i in 0..N {
            words[i] = first_lane(words[i]);
        }
        Shares { words }
    }

    /// Share `i`.
    pub fn share(&self, i: usize) -> u64
        requires { i < N }
        ensures { result ≡ slice_index self.now i }
    {
        self.words[i]
    }

    /// All shares, by their numbers.
    pub fn parts(&self) -> [u64; N]
        requires { N ≤ 8 }
        ensures value { result ≡ self.now }
        ensures count { length self.now ≡ N }
    {
        self.words
    }

    /// How many shares there are.
    pub fn count(&self) -> usize
        ensures value { result ≡ N }
        ensures length { length self.now ≡ N }
    {
        let _words = &self.words;
        N
    }

    /// The word that is shared: the exclusive or of all shares.
    ///
    /// Who calls it ends the masking of this word.
    pub fn unmask(self) -> u64
        requires { N ≤ 8 }
        ensures { result ≡ unmasked words self.entry }
    {
        self.words.iter().fold(0, |sum, share| sum ^ share)
    }
}

// Bit 0 of the word in all places. It doesn't branch on the word, which is a share.
fn first_lane(word: u64) -> u64
    ensures { (l : ℕ) → l < 64 → bit l result ≡ bit 0 word }
{
    (word & 1) * u64::MAX
}
