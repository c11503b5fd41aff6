//! Joining key lines.

ghost use Rattle.std.specs.Prelude.{◌≡◌, ℕ, ◌<◌, List, map, slice_index};
ghost use Rattle.mask_circuit.specs.Ring.{words};
ghost use Rattle.mask_circuit.specs.Sharing.{unmasked};
ghost use Rattle.mask_keys.specs.Lines.{joined, line_length};

use crate::lines::{KeyBytes, KeyLines};

/// The key that the lines are shares of: their exclusive or.
pub fn join_key(lines: &KeyLines) -> KeyBytes
    ensures { result ≡ joined lines.now }
{
    let length = lines.length() as usize;
    let mut key = [0; 64];
    for b in 0..length {
        key[b] = joined_byte(lines, b);
    }
    KeyBytes::new(&key[..length])
}

fn joined_byte(lines: &KeyLines, b: usize) -> u8
    requires { b < line_length lines.now }
    ensures { result ≡ unmasked words (map (λ (line : List ℕ). slice_index line b) lines.now) }
{
    let mut byte = 0;
    for i in 0..lines.count() {
        byte ^= lines.line(i)[b];
    }
    byte
}
