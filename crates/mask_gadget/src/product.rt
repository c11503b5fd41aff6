//! The product of two values: the gadget of Ishai, Sahai and Wagner (2003).

ghost use Rattle.std.specs.Prelude.{◌≡◌, ℕ, suc, ◌+◌, ◌-◌, ◌*◌, ◌<◌, ◌≤◌, [], ◌∷◌, length, map, slice_index, bit_and};
ghost use Rattle.mask_circuit.specs.declared.gates.Gate.TheVariants.{And};
ghost use Rattle.mask_circuit.specs.Ring.{words};
ghost use Rattle.mask_circuit.specs.declared.gates.Wire.TheVariants.{Share};
ghost use Rattle.mask_circuit.specs.Wires.{Shares, each, joined, pairs, other, row_sum, product_wire, product_names, gate_out, gate_wires};
ghost use Rattle.mask_shares.specs.Sharing.{all_listed};
ghost use Rattle.mask_tape.specs.Drawn.{Drawn, left};
ghost use Rattle.mask_gadget.specs.Wiring.{told_more, cell, IsSquare};
ghost use Rattle.mask_gadget.specs.Gadgets.{IsAtRow, Mixed, coins_of, pair_coin, pair_row, row_names};

use crate::wiring::Wiring;
use mask_circuit::other;

/// The product of two values.
///
/// With one coin `r_ij` for each pair `i < j`, and `r_ji = (r_ij + a_i · b_j) + a_j · b_i`, output share i is the sum of
/// `a_i · b_i` and all `r_ij`. The wires are all `a_i · b_j`, then `r_ij`, `r_ij + a_i · b_j` and `r_ji` for each pair,
/// then the partial sums of each row. They are computed in this order.
pub(crate) fn product<const N: usize, W: Wiring>(
    x: &[W::Word; N],
    y: &[W::Word; N],
    out: &mut [W::Word; N],
    coins: &mut W::Coins,
    wires: &mut W,
)
    requires some { 2 ≤ N }
    requires few { N ≤ 8 }
    requires coins { length (pairs N) ≤ left (W.drawn coins.old) }
    requires room { length (product_names N) ≤ W.room wires.old }
    ensures shares { map W.carried out.new
        ≡ gate_out words N (And 0 1) (all_listed words (map W.carried x.now ∷ map W.carried y.now ∷ [])) (coins_of N (W.drawn coins.old)) }
    ensures told { W.told wires.new ≡ told_more (W.told wires.old)
        (gate_wires words N (And 0 1) (all_listed words (map W.carried x.now ∷ map W.carried y.now ∷ [])) (coins_of N (W.drawn coins.old))) }
    ensures room { W.room wires.old ≤ W.room wires.new + length (product_names N) }
    ensures spent { (W.drawn coins.new).used ≡ (W.drawn coins.old).used + length (pairs N) }
    ensures same { (W.drawn coins.new).words ≡ (W.drawn coins.old).words }
{
    let mut terms = [[x[0]; N]; N];
    multiply(x, y, &mut terms, wires);
    mix(&mut terms, coins, wires);
    sum_rows(&terms, out, wires);
}

// All a_i · b_j, row by row.
fn multiply<const N: usize, W: Wiring>(
    x: &[W::Word; N],
    y: &[W::Word; N],
    terms: &mut [[W::Word; N]; N],
    wires: &mut W,
)
    requires few { N ≤ 8 }
    requires room { N * N ≤ W.room wires.old }
    requires square { IsSquare N terms.old }
    ensures square { IsSquare N terms.new }
    ensures cells { (i j : ℕ) → i < N → j < N → cell W.carried terms.new i j
        ≡ bit_and (slice_index (map W.carried x.now) i) (slice_index (map W.carried y.now) j) }
    ensures told { W.told wires.new ≡ told_more (W.told wires.old)
        (joined (λ i. each (λ j. bit_and (slice_index (map W.carried x.now) i) (slice_index (map W.carried y.now) j)) N) N) }
    ensures room { W.room wires.old ≤ W.room wires.new + N * N }
{
    for i in 0..N {
        multiply_row(x[i], y, &mut terms[i], wires);
    }
}

// a · b_j for each j.
fn multiply_row<const N: usize, W: Wiring>(
    share: W::Word,
    y: &[W::Word; N],
    row: &mut [W::Word; N],
    wires: &mut W,
)
    requires few { N ≤ 8 }
    requires room { N ≤ W.room wires.old }
    ensures row { map W.carried row.new ≡ each (λ j. bit_and (W.carried share) (slice_index (map W.carried y.now) j)) N }
    ensures told { W.told wires.new ≡ told_more (W.told wires.old)
        (each (λ j. bit_and (W.carried share) (slice_index (map W.carried y.now) j)) N) }
    ensures room { W.room wires.old ≤ W.room wires.new + N }
{
    for j in 0..N {
        row[j] = wires.and(share, y[j]);
    }
}

// Puts r_ij in the place of a_i · b_j and r_ji in that of a_j · b_i, for each pair.
fn mix<const N: usize, W: Wiring>(
    terms: &mut [[W::Word; N]; N],
    coins: &mut W::Coins,
    wires: &mut W,
)
    requires few { N ≤ 8 }
    requires coins { length (pairs N) ≤ left (W.drawn coins.old) }
    requires room { 3 * length (pairs N) ≤ W.room wires.old }
    requires square { IsSquare N terms.old }
    ensures square { IsSquare N terms.new }
    ensures cells { (a b : Shares ℕ) → Mixed N a b (pair_coin N (W.drawn coins.old)) 0 1 (cell W.carried terms.old) →
        Mixed N a b (pair_coin N (W.drawn coins.old)) N (suc N) (cell W.carried terms.new) }
    ensures told { (a b : Shares ℕ) → Mixed N a b (pair_coin N (W.drawn coins.old)) 0 1 (cell W.carried terms.old) →
        W.told wires.new ≡ told_more (W.told wires.old)
        (map (product_wire words N a b (pair_coin N (W.drawn coins.old))) (joined (λ i. pair_row i (N - suc i)) N)) }
    ensures room { W.room wires.old ≤ W.room wires.new + 3 * length (pairs N) }
    ensures spent { (W.drawn coins.new).used ≡ (W.drawn coins.old).used + length (pairs N) }
    ensures same { (W.drawn coins.new).words ≡ (W.drawn coins.old).words }
{
    for i in 0..N {
        mix_row(terms, i, coins, wires);
    }
}

// Does so for the pairs of share `i` with each later share. The bounds are the same for each share, so that the loop is unrolled.
fn mix_row<const N: usize, W: Wiring>(
    terms: &mut [[W::Word; N]; N],
    i: usize,
    coins: &mut W::Coins,
    wires: &mut W,
)
    requires few { N ≤ 8 }
    requires row { i < N }
    requires coins { N - suc i ≤ left (W.drawn coins.old) }
    requires room { 3 * (N - suc i) ≤ W.room wires.old }
    requires square { IsSquare N terms.old }
    ensures square { IsSquare N terms.new }
    ensures cells { (a b : Shares ℕ) (first : Drawn) → IsAtRow N i first (W.drawn coins.old) →
        Mixed N a b (pair_coin N first) i (suc i) (cell W.carried terms.old) →
        Mixed N a b (pair_coin N first) (suc i) (suc (suc i)) (cell W.carried terms.new) }
    ensures told { (a b : Shares ℕ) (first : Drawn) → IsAtRow N i first (W.drawn coins.old) →
        Mixed N a b (pair_coin N first) i (suc i) (cell W.carried terms.old) →
        W.told wires.new ≡ told_more (W.told wires.old)
        (map (product_wire words N a b (pair_coin N first)) (pair_row i (N - suc i))) }
    ensures room { W.room wires.old ≤ W.room wires.new + 3 * (N - suc i) }
    ensures spent { (W.drawn coins.new).used ≡ (W.drawn coins.old).used + (N - suc i) }
    ensures same { (W.drawn coins.new).words ≡ (W.drawn coins.old).words }
{
    for j in 0..N {
        if j <= i {
            continue;
        }
        // The coin hides the first term before the second is added.
        let fresh = wires.fresh(coins);
        let left = wires.xor(fresh, terms[i][j]);
        let right = wires.xor(left, terms[j][i]);
        terms[i][j] = fresh;
        terms[j][i] = right;
    }
}

// The sum of each row, which begins with its own term.
fn sum_rows<const N: usize, W: Wiring>(
    terms: &[[W::Word; N]; N],
    out: &mut [W::Word; N],
    wires: &mut W,
)
    requires some { 2 ≤ N }
    requires few { N ≤ 8 }
    requires room { N * (N - 1) ≤ W.room wires.old }
    requires square { IsSquare N terms.now }
    ensures shares { (a b : Shares ℕ) (r : ℕ → ℕ → ℕ) → Mixed N a b r N (suc N) (cell W.carried terms.now) →
        map W.carried out.new ≡ each (λ i. product_wire words N a b r (Share i)) N }
    ensures told { (a b : Shares ℕ) (r : ℕ → ℕ → ℕ) → Mixed N a b r N (suc N) (cell W.carried terms.now) →
        W.told wires.new ≡ told_more (W.told wires.old) (map (product_wire words N a b r) (joined (row_names N) N)) }
    ensures room { W.room wires.old ≤ W.room wires.new + N * (N - 1) }
{
    for i in 0..N {
        out[i] = sum_row(&terms[i], i, wires);
    }
}

// The sum of row `i`: its own term, and then the others one after another.
fn sum_row<const N: usize, W: Wiring>(row: &[W::Word; N], i: usize, wires: &mut W) -> W::Word
    requires some { 2 ≤ N }
    requires few { N ≤ 8 }
    requires row { i < N }
    requires room { N - 1 ≤ W.room wires.old }
    ensures sum { W.carried result
        ≡ row_sum words (slice_index (map W.carried row.now) i) (slice_index (map W.carried row.now)) i (N - 1) }
    ensures told { W.told wires.new ≡ told_more (W.told wires.old)
        (each (λ m. row_sum words (slice_index (map W.carried row.now) i) (slice_index (map W.carried row.now)) i (other i m)) (N - 1)) }
    ensures room { W.room wires.old ≤ W.room wires.new + (N - 1) }
{
    let mut sum = row[i];
    for m in 0..N - 1 {
        sum = wires.xor(sum, row[other(i, m)]);
    }
    sum
}
