//! The refresh of a value: the same value under shares that are new.

ghost use Rattle.std.specs.Prelude.{◌≡◌, ℕ, suc, ◌+◌, ◌-◌, ◌*◌, ◌<◌, ◌≤◌, [], ◌∷◌, length, map, slice_index, slice_set, bit_xor};
ghost use Rattle.mask_circuit.specs.declared.gates.Gate.TheVariants.{Ref};
ghost use Rattle.mask_circuit.specs.Ring.{words};
ghost use Rattle.mask_circuit.specs.Wires.{pairs, refresh_wire, refresh_names, gate_out, gate_wires};
ghost use Rattle.mask_shares.specs.Sharing.{all_listed};
ghost use Rattle.mask_tape.specs.Drawn.{Drawn, left};
ghost use Rattle.mask_gadget.specs.Wiring.{told_more};
ghost use Rattle.mask_gadget.specs.Gadgets.{IsAtRow, RowsDone, coins_of, pair_coin, update_row};

use crate::wiring::Wiring;

/// The same value under new shares.
///
/// For each pair `i < j` in order, a coin is added to share i and to share j. The wires are for each pair the coin, and
/// then share i and share j with it.
pub(crate) fn refresh<const N: usize, W: Wiring>(
    x: &[W::Word; N],
    out: &mut [W::Word; N],
    coins: &mut W::Coins,
    wires: &mut W,
)
    requires some { 2 ≤ N }
    requires few { N ≤ 8 }
    requires coins { length (pairs N) ≤ left (W.drawn coins.old) }
    requires room { length (refresh_names N) ≤ W.room wires.old }
    ensures shares { map W.carried out.new
        ≡ gate_out words N (Ref 0) (all_listed words (map W.carried x.now ∷ [])) (coins_of N (W.drawn coins.old)) }
    ensures told { W.told wires.new ≡ told_more (W.told wires.old)
        (gate_wires words N (Ref 0) (all_listed words (map W.carried x.now ∷ [])) (coins_of N (W.drawn coins.old))) }
    ensures room { W.room wires.old ≤ W.room wires.new + length (refresh_names N) }
    ensures spent { (W.drawn coins.new).used ≡ (W.drawn coins.old).used + length (pairs N) }
    ensures same { (W.drawn coins.new).words ≡ (W.drawn coins.old).words }
{
    copy_shares::<N, W>(x, out);
    for i in 0..N {
        add_to_row(out, i, coins, wires);
    }
}

// Copies the shares, the last one first: copied as a block, words that were just written would be waited for.
fn copy_shares<const N: usize, W: Wiring>(x: &[W::Word; N], out: &mut [W::Word; N])
    requires few { N ≤ 8 }
    ensures { out.new ≡ x.now }
{
    for i in 0..N {
        out[N - 1 - i] = x[N - 1 - i];
    }
}

// Adds a coin to each pair of share `i` with a later share. The bounds are the same for each share, so that the loop is unrolled.
fn add_to_row<const N: usize, W: Wiring>(
    parts: &mut [W::Word; N],
    i: usize,
    coins: &mut W::Coins,
    wires: &mut W,
)
    requires few { N ≤ 8 }
    requires row { i < N }
    requires coins { N - suc i ≤ left (W.drawn coins.old) }
    requires room { 3 * (N - suc i) ≤ W.room wires.old }
    ensures parts { (a : ℕ → ℕ) (first : Drawn) → IsAtRow N i first (W.drawn coins.old) →
        RowsDone N a (pair_coin N first) i (map W.carried parts.old) → RowsDone N a (pair_coin N first) (i + 1) (map W.carried parts.new) }
    ensures told { (a : ℕ → ℕ) (first : Drawn) → IsAtRow N i first (W.drawn coins.old) →
        RowsDone N a (pair_coin N first) i (map W.carried parts.old) →
        W.told wires.new ≡ told_more (W.told wires.old)
        (map (refresh_wire words N a (pair_coin N first)) (update_row N i (N - suc i))) }
    ensures room { W.room wires.old ≤ W.room wires.new + 3 * (N - suc i) }
    ensures spent { (W.drawn coins.new).used ≡ (W.drawn coins.old).used + (N - suc i) }
    ensures same { (W.drawn coins.new).words ≡ (W.drawn coins.old).words }
{
    for j in 0..N {
        if j <= i {
            continue;
        }
        let coin = wires.fresh(coins);
        add_to_pair(parts, i, j, coin, wires);
    }
}

// Adds a coin to two shares.
fn add_to_pair<const N: usize, W: Wiring>(
    parts: &mut [W::Word; N],
    i: usize,
    j: usize,
    coin: W::Word,
    wires: &mut W,
)
    requires order { i < j }
    requires bound { j < N }
    requires room { 2 ≤ W.room wires.old }
    ensures parts { map W.carried parts.new ≡ slice_set (slice_set (map W.carried parts.old) i (bit_xor (slice_index (map W.carried parts.old) i) (W.carried coin)))
        j (bit_xor (slice_index (map W.carried parts.old) j) (W.carried coin)) }
    ensures told { W.told wires.new ≡ told_more (W.told wires.old)
        (bit_xor (slice_index (map W.carried parts.old) i) (W.carried coin) ∷ bit_xor (slice_index (map W.carried parts.old) j) (W.carried coin) ∷ []) }
    ensures room { W.room wires.old ≤ W.room wires.new + 2 }
{
    parts[i] = wires.xor(parts[i], coin);
    parts[j] = wires.xor(parts[j], coin);
}
