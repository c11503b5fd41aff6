//! Keys and key lines, which lie in the value itself.

ghost use Rattle.std.specs.Prelude.{◌≡◌, ◌*◌, ◌/◌, ◌<◌, ◌≤◌, [], length, slice_index_or};
ghost use Rattle.std.specs.List.{concat};
ghost use Rattle.mask_keys.specs.Lines.{AreKeyLines, line_length, lines_of};

use arrayvec::ArrayVec;
use std::marker::Model;

/// A key, or a share of one: 1 to 64 bytes.
#[derive(Drop)]
pub struct KeyBytes {
    bytes: ArrayVec<u8, 64>,
}

impl Model for KeyBytes {
    ghost use Rattle.std.specs.Prelude.{ℕ, ◌≤◌, List, length};

    ghost Value = { List ℕ };

    ghost view = { λ k. k.bytes.items };

    ghost invariant = { λ k. (1 ≤ length k.bytes.items) × (length k.bytes.items ≤ 64) };
}

impl KeyBytes {
    /// The key of these bytes.
    pub fn new(bytes: &[u8]) -> KeyBytes
        requires some { 1 ≤ length bytes.now }
        requires few { length bytes.now ≤ 64 }
        ensures { result ≡ bytes.now }
    {
        let mut key = ArrayVec::new();
        key.try_extend_from_slice(bytes).unwrap();
        KeyBytes { bytes: key }
    }

    /// The bytes, in order.
    pub fn as_slice(&self) -> &[u8]
        ensures bytes { result.now ≡ self.now }
        ensures some { 1 ≤ length self.now }
        ensures few { length self.now ≤ 64 }
    {
        self.bytes.as_slice()
    }
}

/// 1 to 8 key lines of one length, which is 1 to 64 bytes.
#[derive(Drop)]
pub struct KeyLines {
    // All lines, one behind the other.
    bytes: ArrayVec<u8, 512>,
    count: usize,
    size: usize,
}

impl Model for KeyLines {
    ghost use Rattle.std.specs.Prelude.{◌≡◌, ℕ, ◌*◌, ◌≤◌, List, length};
    ghost use Rattle.mask_keys.specs.Lines.{lines_of};

    ghost Value = { List (List ℕ) };

    ghost view = { λ k. lines_of k.count k.size k.bytes.items };

    ghost invariant = { λ k. (1 ≤ k.count) × (k.count ≤ 8) × (1 ≤ k.size) × (k.size ≤ 64)
        × (length k.bytes.items ≡ k.count * k.size) };
}

impl KeyLines {
    pub(crate) fn new(bytes: ArrayVec<u8, 512>, count: usize, size: usize) -> KeyLines
        requires some { 1 ≤ count }
        requires few { count ≤ 8 }
        requires filled { 1 ≤ size }
        requires short { size ≤ 64 }
        requires whole { length bytes.items ≡ count * size }
        ensures { result ≡ lines_of count size bytes.items }
    {
        KeyLines { bytes, count, size }
    }

    /// Cuts the bytes, in order, into this many lines of one length.
    pub fn cut(bytes: &[u8], lines: u32) -> KeyLines
        requires some { 1 ≤ lines }
        requires few { lines ≤ 8 }
        requires filled { 1 ≤ length bytes.now / lines }
        requires short { length bytes.now / lines ≤ 64 }
        requires whole { lines * (length bytes.now / lines) ≡ length bytes.now }
        ensures bytes { concat result ≡ bytes.now }
        ensures count { length result ≡ lines }
        ensures lines { AreKeyLines result }
    {
        let count = lines as usize;
        let mut all = ArrayVec::new();
        all.try_extend_from_slice(bytes).unwrap();
        KeyLines::new(all, count, bytes.len() / count)
    }

    /// How many lines there are.
    pub fn count(&self) -> u32
        ensures value { result ≡ length self.now }
        ensures lines { AreKeyLines self.now }
    {
        self.count as u32
    }

    /// How many bytes each line has.
    pub fn length(&self) -> u32
        ensures value { result ≡ line_length self.now }
        ensures lines { AreKeyLines self.now }
    {
        self.size as u32
    }

    /// Line `i`, counted from 0.
    pub fn line(&self, i: u32) -> &[u8]
        requires { i < length self.now }
        ensures line { result.now ≡ slice_index_or self.now i [] }
        ensures length { length result.now ≡ line_length self.now }
    {
        let start = i as usize * self.size;
        &self.bytes.as_slice()[start..start + self.size]
    }
}
