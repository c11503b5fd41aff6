//! The gates that act share by share. Their wires are their output shares.

ghost use Rattle.std.specs.Prelude.{◌≡◌, ℕ, ◌+◌, ◌<◌, ◌≤◌, [], ◌∷◌, map};
ghost use Rattle.mask_circuit.specs.declared.gates.Gate.TheVariants.{Xor, Not};
ghost use Rattle.mask_circuit.specs.Ring.{words};
ghost use Rattle.mask_circuit.specs.Wires.{each, on_first, gate_out};
ghost use Rattle.mask_shares.specs.Sharing.{all_listed};
ghost use Rattle.mask_gadget.specs.Wiring.{told_more};

use crate::wiring::Wiring;

/// A value that all may know: share 0 is the word, and the others are 0.
pub(crate) fn constant<const N: usize, W: Wiring>(word: u64, out: &mut [W::Word; N], wires: &mut W)
    requires some { 0 < N }
    requires few { N ≤ 8 }
    requires room { N ≤ W.room wires.old }
    ensures shares { map W.carried out.new ≡ each (on_first words word) N }
    ensures told { W.told wires.new ≡ told_more (W.told wires.old) (map W.carried out.new) }
    ensures room { W.room wires.old ≤ W.room wires.new + N }
{
    out[0] = wires.public(word);
    for i in 1..N {
        out[i] = wires.public(0);
    }
}

/// The exclusive or of two values.
pub(crate) fn xor<const N: usize, W: Wiring>(
    x: &[W::Word; N],
    y: &[W::Word; N],
    out: &mut [W::Word; N],
    wires: &mut W,
)
    requires few { N ≤ 8 }
    requires room { N ≤ W.room wires.old }
    ensures shares { map W.carried out.new
        ≡ gate_out words N (Xor 0 1) (all_listed words (map W.carried x.now ∷ map W.carried y.now ∷ [])) [] }
    ensures told { W.told wires.new ≡ told_more (W.told wires.old) (map W.carried out.new) }
    ensures room { W.room wires.old ≤ W.room wires.new + N }
{
    for i in 0..N {
        out[i] = wires.xor(x[i], y[i]);
    }
}

/// The complement of a value. Share 0 alone is computed, and the others are wires again.
pub(crate) fn not<const N: usize, W: Wiring>(
    x: &[W::Word; N],
    out: &mut [W::Word; N],
    wires: &mut W,
)
    requires some { 0 < N }
    requires few { N ≤ 8 }
    requires room { N ≤ W.room wires.old }
    ensures shares { map W.carried out.new ≡ gate_out words N (Not 0) (all_listed words (map W.carried x.now ∷ [])) [] }
    ensures told { W.told wires.new ≡ told_more (W.told wires.old) (map W.carried out.new) }
    ensures room { W.room wires.old ≤ W.room wires.new + N }
{
    out[0] = wires.not(x[0]);
    for i in 1..N {
        out[i] = wires.same(x[i]);
    }
}
