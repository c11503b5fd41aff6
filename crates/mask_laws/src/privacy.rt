//! What is proved of privacy: d wires show nothing of the bits that are shared.
ghost use Rattle.mask_laws.specs.Privacy.{AcceptedCallIsPrivate, AcceptedIsPrivate, StrongRunIsPrivate};

/// An accepted circuit is private: what fewer wires than shares show has, over all sharings of the inputs and all tapes,
/// the same distribution whatever the input bits are.
#[tactic(auto, using(crate::proofs::Hiding::accepted_is_private))]
pub fn accepted_is_private()
    ensures { AcceptedIsPrivate }
{}

/// So is a call of it that shares its inputs with the first coins of the tape that its products and refreshes draw from.
pub fn accepted_call_is_private()
    ensures { AcceptedCallIsPrivate }
{}

/// A run of strong calls is private: what fewer wires of all its calls than shares show has, over all sharings of the
/// variables and all tapes, the same distribution whatever the bits of the variables are.
#[tactic(auto, using(crate::proofs::Hiding::strong_run_is_private))]
pub fn strong_run_is_private()
    ensures { StrongRunIsPrivate }
{}
