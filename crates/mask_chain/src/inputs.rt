//! The shares of inputs, laid one after another.

ghost use Rattle.std.specs.Prelude.{◌≡◌, ◌+◌, ◌<◌, ◌≤◌, ◌++◌, length, map, take, drop, All};
ghost use Rattle.mask_circuit.specs.Ring.{words};
ghost use Rattle.mask_circuit.specs.Wires.{each, on_first};
ghost use Rattle.mask_chain.specs.Evaluations.{IsThere, laid, all_laid};

use crate::evaluations::Source;
use mask_shares::Shares;

/// Lays the shares of all bits of these sources from this place on, and says where they end.
pub(crate) fn lay<const N: usize>(
    sources: &[Source],
    key: &[Shares<N>],
    state: &[Shares<N>],
    start: usize,
    inputs: &mut [Shares<N>],
) -> usize
    requires some { 2 ≤ N }
    requires few { N ≤ 8 }
    requires there { All (IsThere (length key.now) (length state.now)) sources.now }
    requires room { start + length (all_laid N key.now state.now sources.now) ≤ length inputs.old }
    ensures end { result ≡ start + length (all_laid N key.now state.now sources.now) }
    ensures laid { take result inputs.new ≡ take start inputs.old ++ all_laid N key.now state.now sources.now }
{
    let mut at = start;
    for source in sources {
        at = lay_one(source, key, state, at, inputs);
    }
    at
}

// Those of one source.
fn lay_one<const N: usize>(
    source: &Source,
    key: &[Shares<N>],
    state: &[Shares<N>],
    start: usize,
    inputs: &mut [Shares<N>],
) -> usize
    requires some { 2 ≤ N }
    requires few { N ≤ 8 }
    requires there { IsThere (length key.now) (length state.now) source.now }
    requires room { start + length (laid N key.now state.now source.now) ≤ length inputs.old }
    ensures end { result ≡ start + length (laid N key.now state.now source.now) }
    ensures laid { take result inputs.new ≡ take start inputs.old ++ laid N key.now state.now source.now }
{
    match *source {
        Source::Key { from, count } => {
            put(&key[from..from + count], start, inputs);
            start + count
        }
        Source::State { count } => {
            put(&state[..count], start, inputs);
            start + count
        }
        Source::Public(bits) => {
            put_public(bits, start, inputs);
            start + bits.len()
        }
    }
}

/// Puts these shares at the places from this one on.
pub(crate) fn put<const N: usize>(shares: &[Shares<N>], start: usize, places: &mut [Shares<N>])
    requires room { start + length shares.now ≤ length places.old }
    ensures front { take (start + length shares.now) places.new ≡ take start places.old ++ shares.now }
    ensures rest { drop (start + length shares.now) places.new ≡ drop (start + length shares.now) places.old }
    ensures counts { All (λ s. length s ≡ N) shares.now }
{
    for (k, shared) in shares.iter().enumerate() {
        // There are N of each.
        let _count = shared.count();
        places[start + k] = *shared;
    }
}

// Puts words that all may know there.
fn put_public<const N: usize>(publics: &[u64], start: usize, places: &mut [Shares<N>])
    requires some { 2 ≤ N }
    requires few { N ≤ 8 }
    requires room { start + length publics.now ≤ length places.old }
    ensures { take (start + length publics.now) places.new ≡ take start places.old ++ map (λ w. each (on_first words w) N) publics.now }
{
    for (k, word) in publics.iter().enumerate() {
        places[start + k] = Shares::public(*word);
    }
}
