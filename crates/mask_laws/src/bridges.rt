//! Laws that lead from the definitions of masking to plain values, to what is computed of acceptance, and to places.

ghost use Rattle.mask_laws.specs.Clashes.{TidyIsAccepted, ClashIsUnique, ClashRefutes, ClashDecides, TableReaches};
ghost use Rattle.mask_laws.specs.Numbering.{WiresInOrder, WiresAreCounted, SharesHavePlaces, WiresAreGates};
ghost use Rattle.mask_laws.specs.Sharing.{ValuesUnmask, OutputsUnmask};

/// The shares of each value of a circuit sum to its plain value on the bits that the input shares sum to.
#[tactic(auto, using(crate::proofs::Unmasking::values_unmask))]
pub fn values_unmask()
    ensures { ValuesUnmask }
{}

/// The shares of each output sum to the plain output.
#[tactic(auto, using(crate::proofs::Unmasking::outputs_unmask))]
pub fn outputs_unmask()
    ensures { OutputsUnmask }
{}

/// A circuit with tidy gates is accepted.
pub fn tidy_accepted()
    ensures { TidyIsAccepted }
{}

/// The computed table holds just which value reaches which source.
#[tactic(auto, using(crate::proofs::Reaching::table_reaches))]
pub fn table_reaches()
    ensures { TableReaches }
{}

/// A circuit has one clash at most.
pub fn clash_is_unique()
    ensures { ClashIsUnique }
{}

/// A circuit with a clash isn't accepted.
pub fn clash_refutes()
    ensures { ClashRefutes }
{}

/// The computed clash is None just where the circuit is accepted, and else it is the clash.
pub fn clash_decides()
    ensures { ClashDecides }
{}

/// Wires are numbered value by value: the wire of local number `k` of a value stands `k` after all those of earlier
/// values.
#[tactic(auto, using(crate::proofs::Numbering::wires_in_order))]
pub fn wires_in_order()
    ensures { WiresInOrder }
{}

/// The wires of all values are all the wires of a circuit.
#[tactic(auto, using(crate::proofs::Numbering::wires_are_counted))]
pub fn wires_are_counted()
    ensures { WiresAreCounted }
{}

/// The number that is given for a share of a value is that of the wire of this name, for two shares or more.
#[tactic(auto, using(crate::proofs::Numbering::shares_have_places))]
pub fn shares_have_places()
    ensures { SharesHavePlaces }
{}

/// What the wires of a circuit carry: an input its shares, and a gate what its gadget makes of the shares of its operands
/// and of its own stretch of fresh bits.
pub fn wires_are_gates()
    ensures { WiresAreGates }
{}
