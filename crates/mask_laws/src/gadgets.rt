//! What is proved of a single gate: which wires it has, what is kept where it is watched, and how little it demands.
ghost use Rattle.mask_laws.specs.Gadgets.{GadgetsAreSNI, GateKeeps, MaskIsSymmetric};
ghost use Rattle.mask_laws.specs.Masks.{MasksAtOnce};
ghost use Rattle.mask_laws.specs.Names.{AllNamesInOrder, GateHasNames};
ghost use Rattle.mask_laws.specs.Needs.{NeedsAreSmall};

/// Which wires a gate has, for two shares or more. A product has each `a_i · b_j`; for each pair `i < j` the fresh bit
/// `r_ij`, then `v_ij = r_ij + a_i · b_j` and `r_ji = v_ij + a_j · b_i`; and for each row its partial sums, of which the
/// last is an output share. A refresh has the fresh bit of each pair and each share after each of its updates. Every
/// other gate has its output shares alone.
pub fn gates_have_names()
    ensures { GateHasNames }
{}

/// The local number of each wire of a gate: its place in the gate's list of names. With `w = n · (n - 1) / 2` pairs of
/// `n` shares, a product has `n² + 3w + n(n - 1)` wires and a refresh `3w`.
pub fn names_stand_in_order()
    ensures { AllNamesInOrder }
{}

/// Inner probes on a product demand no more shares of either operand than there are probes, and those on a refresh no
/// more shares of its operand: each probe adds one share at most.
pub fn probes_demand_few_shares()
    ensures { NeedsAreSmall }
{}

/// Each gate keeps what is watched, product and refresh by their fresh bits. Take inner probes and
/// demanded output shares of a gate, together fewer than its shares, and two sides of operands that agree on the shares
/// that the probes and the gate demand. Then each probed wire and each demanded output share carries, on the first side
/// with any fresh bits, what it carries on the second with those fresh bits xored with the gate's mask. Adding a mask only
/// reorders the fresh bits, so over all of them the watched wires show the same on both sides.
pub fn gates_keep_what_is_watched()
    ensures { GateKeeps }
{}

/// The mask of a gate is the same with the sides changed: what leads from fresh bits of the first side to those of the
/// second leads back.
pub fn masks_are_symmetric()
    ensures { MaskIsSymmetric }
{}

/// The mask of a product or a refresh is what its rule gives row by row: the demanded rows that no probe touches are taken
/// in rising order. Where output share i of a product would change under the mask so far, or share i of a refresh's operand
/// changed, the bit of the pair of i and its partner is flipped.
pub fn masks_row_by_row()
    ensures { MasksAtOnce }
{}

/// Product and refresh are strongly non-interfering: in a circuit of one of them any t wires that are no output shares,
/// together with output shares, all fewer than the shares, are simulated from t shares of each input.
pub fn gadgets_are_sni()
    ensures { GadgetsAreSNI }
{}
