//! Sets of shares of a value, and for each input one.

ghost use Rattle.std.specs.Prelude.{◌≡◌, ℕ, ◌<◌, ◌≤◌, ◌==◌, ◌||◌, length, take, All};
ghost use Rattle.mask_sni.specs.Asked.{bit_shares, in_places, members};
ghost use Rattle.mask_probe.specs.Asking.{has_share};

use mask_bits::bit_of;
use mask_sni::Places;
use std::marker::Model;

/// A set of shares of one value. Contracts see a number whose bit i is share i.
#[derive(Clone, Copy)]
pub(crate) struct ShareSet {
    bits: u8,
}

impl Model for ShareSet {
    ghost Value = { ℕ };

    ghost view = { λ s. s.bits };

    ghost inverse = { λ n. record { bits = n } };
}

impl ShareSet {
    /// The empty set.
    pub(crate) fn new() -> ShareSet
        ensures { result ≡ 0 }
    {
        ShareSet { bits: 0 }
    }

    /// Whether a share is in the set.
    pub(crate) fn has(self, share: usize) -> bool
        requires { share < 8 }
        ensures { result ≡ bit_shares self share }
    {
        bit_of(self.bits as u64, share as u32)
    }

    /// The set with a share more.
    pub(crate) fn with(self, share: u8) -> ShareSet
        requires { share < 8 }
        ensures { (i : ℕ) → bit_shares result i ≡ (bit_shares self i || share == i) }
    {
        ShareSet {
            bits: self.bits | 1 << share,
        }
    }

    /// The shares that are in one of two sets.
    pub(crate) fn union(self, other: ShareSet) -> ShareSet
        ensures { (i : ℕ) → bit_shares result i ≡ (bit_shares self i || bit_shares other i) }
    {
        ShareSet {
            bits: self.bits | other.bits,
        }
    }

    /// The set of these shares.
    pub(crate) fn of(places: &Places) -> ShareSet
        requires { All (λ i. i < 8) places.now.items }
        ensures { (i : ℕ) → bit_shares result i ≡ in_places places.now.items i }
    {
        let shares = places.as_slice();
        let mut set = ShareSet::new();
        for &share in shares {
            set = set.with(share);
        }
        set
    }

    /// The shares below `N` of the set, rising.
    pub(crate) fn places<const N: usize>(self) -> Places
        requires { N ≤ 8 }
        ensures { result.items ≡ members N (bit_shares self) }
    {
        let mut places = Places::new();
        for share in 0..N as u8 {
            if self.has(share as usize) {
                places.push(share);
            }
        }
        places
    }
}

/// For each input a set of shares.
#[derive(Drop)]
pub struct Needs {
    sets: Vec<ShareSet>,
}

impl Model for Needs {
    ghost use Rattle.std.specs.Prelude.{ℕ, ◌≤◌, List, length};

    ghost Value = { List ℕ };

    ghost view = { λ n. n.sets.items };

    ghost invariant = { λ n. length n.sets.items ≤ 1_000_000 };
}

impl Needs {
    /// The sets of the first so many values.
    pub(crate) fn first(mut sets: Vec<ShareSet>, inputs: u32) -> Needs
        requires known { inputs ≤ length sets.items }
        requires few { inputs ≤ 1_000_000 }
        ensures { result ≡ take inputs sets.items }
    {
        sets.truncate(inputs as usize);
        Needs { sets }
    }

    /// How many inputs there are.
    pub fn inputs(&self) -> u32
        ensures { result ≡ length self.now }
    {
        self.sets.len() as u32
    }

    /// Whether a share of an input is in its set.
    pub fn has(&self, input: u32, share: u32) -> bool
        requires input { input < length self.now }
        requires share { share < 8 }
        ensures { result ≡ has_share self.now input share }
    {
        self.sets[input as usize].has(share as usize)
    }
}
