//! The gadgets on shares, whose wires are kept in a list.

ghost use Rattle.std.specs.Prelude.{◌≡◌, ℕ, ◌+◌, ◌<◌, ◌≤◌, [], ◌∷◌, ◌&&◌, not, length};
ghost use Rattle.mask_bits.specs.Lanes.{lane};
ghost use Rattle.mask_circuit.specs.declared.gates.Gate.TheVariants.{Xor, Not, And, Ref};
ghost use Rattle.mask_circuit.specs.Value.{xor};
ghost use Rattle.mask_circuit.specs.Ring.{bits, words};
ghost use Rattle.mask_circuit.specs.Wires.{pairs, gate_out, gate_wires};
ghost use Rattle.mask_shares.specs.Sharing.{all_listed, unmasked};
ghost use Rattle.mask_tape.specs.Drawn.{left};
ghost use Rattle.mask_gadget.specs.Gadgets.{coins_of};

use crate::Wires;
use crate::linear::{not, xor};
use crate::machines::Unheard;
use crate::product::product;
use crate::refresh::refresh;
use mask_shares::Shares;
use mask_tape::Coins;

/// The exclusive or of two values.
pub fn xor_gadget<const N: usize>(x: Shares<N>, y: Shares<N>) -> Shares<N>
    requires { N ≤ 8 }
    ensures words { result ≡ gate_out words N (Xor 0 1) (all_listed words (x.entry ∷ y.entry ∷ [])) [] }
    ensures shares { (l : ℕ) → lane l result
        ≡ gate_out bits N (Xor 0 1) (all_listed bits (lane l x.entry ∷ lane l y.entry ∷ [])) [] }
    ensures bit { (l : ℕ) → unmasked bits (lane l result)
        ≡ xor (unmasked bits (lane l x.entry)) (unmasked bits (lane l y.entry)) }
{
    prove!(x.count() == N);
    prove!(y.count() == N);
    let mut parts = x.parts();
    xor(&x.parts(), &y.parts(), &mut parts, &mut Unheard);
    Shares::from_parts(parts)
}

/// The complement of a value.
pub fn not_gadget<const N: usize>(x: Shares<N>) -> Shares<N>
    requires some { 0 < N }
    requires few { N ≤ 8 }
    ensures words { result ≡ gate_out words N (Not 0) (all_listed words (x.entry ∷ [])) [] }
    ensures shares { (l : ℕ) → l < 64 → lane l result
        ≡ gate_out bits N (Not 0) (all_listed bits (lane l x.entry ∷ [])) [] }
    ensures bit { (l : ℕ) → l < 64 → unmasked bits (lane l result) ≡ not (unmasked bits (lane l x.entry)) }
{
    prove!(x.count() == N);
    let mut parts = x.parts();
    not(&x.parts(), &mut parts, &mut Unheard);
    Shares::from_parts(parts)
}

/// The product of two values, and its wires by their local numbers.
///
/// With one coin `r_ij` for each pair `i < j`, and `r_ji = (r_ij + a_i · b_j) + a_j · b_i`, output share i is the sum of
/// `a_i · b_i` and all `r_ij` (Ishai, Sahai and Wagner 2003). The wires are all `a_i · b_j`, then `r_ij`,
/// `r_ij + a_i · b_j` and `r_ji` for each pair, then the partial sums of each row. What `wires` held before is dropped.
pub fn and_gadget<const N: usize>(
    x: Shares<N>,
    y: Shares<N>,
    coins: &mut Coins,
    wires: &mut Wires,
) -> Shares<N>
    requires some { 2 ≤ N }
    requires few { N ≤ 8 }
    requires coins { length (pairs N) ≤ left coins.old }
    ensures words { result
        ≡ gate_out words N (And 0 1) (all_listed words (x.entry ∷ y.entry ∷ [])) (coins_of N coins.old) }
    ensures word_wires { wires.new.items
        ≡ gate_wires words N (And 0 1) (all_listed words (x.entry ∷ y.entry ∷ [])) (coins_of N coins.old) }
    ensures shares { (l : ℕ) → lane l result
        ≡ gate_out bits N (And 0 1) (all_listed bits (lane l x.entry ∷ lane l y.entry ∷ [])) (lane l (coins_of N coins.old)) }
    ensures wires { (l : ℕ) → lane l wires.new.items
        ≡ gate_wires bits N (And 0 1) (all_listed bits (lane l x.entry ∷ lane l y.entry ∷ [])) (lane l (coins_of N coins.old)) }
    ensures bit { (l : ℕ) → unmasked bits (lane l result)
        ≡ (unmasked bits (lane l x.entry) && unmasked bits (lane l y.entry)) }
    ensures spent { coins.new.used ≡ coins.old.used + length (pairs N) }
    ensures same { coins.new.words ≡ coins.old.words }
{
    prove!(x.count() == N);
    prove!(y.count() == N);
    wires.clear();
    let mut parts = x.parts();
    product(&x.parts(), &y.parts(), &mut parts, coins, wires);
    Shares::from_parts(parts)
}

/// The same value under new shares, and the wires by their local numbers.
///
/// For each pair `i < j` in order, a coin is added to share i and to share j (Barthe and others 2016). The wires are for
/// each pair the coin, and then share i and share j with it. What `wires` held before is dropped.
pub fn ref_gadget<const N: usize>(x: Shares<N>, coins: &mut Coins, wires: &mut Wires) -> Shares<N>
    requires some { 2 ≤ N }
    requires few { N ≤ 8 }
    requires coins { length (pairs N) ≤ left coins.old }
    ensures words { result
        ≡ gate_out words N (Ref 0) (all_listed words (x.entry ∷ [])) (coins_of N coins.old) }
    ensures word_wires { wires.new.items
        ≡ gate_wires words N (Ref 0) (all_listed words (x.entry ∷ [])) (coins_of N coins.old) }
    ensures shares { (l : ℕ) → lane l result
        ≡ gate_out bits N (Ref 0) (all_listed bits (lane l x.entry ∷ [])) (lane l (coins_of N coins.old)) }
    ensures wires { (l : ℕ) → lane l wires.new.items
        ≡ gate_wires bits N (Ref 0) (all_listed bits (lane l x.entry ∷ [])) (lane l (coins_of N coins.old)) }
    ensures bit { (l : ℕ) → unmasked bits (lane l result) ≡ unmasked bits (lane l x.entry) }
    ensures spent { coins.new.used ≡ coins.old.used + length (pairs N) }
    ensures same { coins.new.words ≡ coins.old.words }
{
    prove!(x.count() == N);
    wires.clear();
    let mut parts = x.parts();
    refresh(&x.parts(), &mut parts, coins, wires);
    Shares::from_parts(parts)
}
