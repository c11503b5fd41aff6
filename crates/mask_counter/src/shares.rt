//! The key's shares and public words among the inputs of an evaluation.

ghost use Rattle.std.specs.Prelude.{◌≡◌, ℕ, ◌+◌, ◌<◌, ◌≤◌, ◌++◌, length, take, drop, map};
ghost use Rattle.mask_bits.specs.Lanes.{lane};
ghost use Rattle.mask_circuit.specs.Ring.{words};
ghost use Rattle.mask_circuit.specs.Wires.{each, on_first};

use mask_shares::Shares;

/// Puts the shares that these have in lane 0 into all lanes of the first inputs.
pub(crate) fn put_in_all_lanes<const N: usize>(shares: &[Shares<N>], inputs: &mut [Shares<N>])
    requires few { N ≤ 8 }
    requires room { length shares.now ≤ length inputs.old }
    ensures lanes { (l : ℕ) → l < 64 → map (lane l) (take (length shares.now) inputs.new) ≡ map (lane 0) shares.now }
    ensures rest { drop (length shares.now) inputs.new ≡ drop (length shares.now) inputs.old }
{
    for (k, shared) in shares.iter().enumerate() {
        inputs[k] = shared.in_all_lanes();
    }
}

/// Puts words that all may know behind the first inputs.
pub(crate) fn put_public<const N: usize>(publics: &[u64], start: usize, inputs: &mut [Shares<N>])
    requires some { 2 ≤ N }
    requires few { N ≤ 8 }
    requires room { start + length publics.now ≡ length inputs.old }
    ensures { inputs.new ≡ take start inputs.old ++ map (λ w. each (on_first words w) N) publics.now }
{
    for (k, word) in publics.iter().enumerate() {
        inputs[start + k] = Shares::public(*word);
    }
}
