//! What is proved of a strong plan: it is a strong run in the probing model, and few of its wires show nothing.
ghost use Rattle.mask_trace.specs.Laws.{PlansArePrivate, PlansAreRuns};

/// A strong plan is a strong run in the probing model, and its wires are those of the run: any few of them need few shares
/// of each bit of the key and the message.
pub fn plans_are_runs()
    ensures { PlansAreRuns }
{}

/// Any few wires of all evaluations of a strong plan show nothing of its key and its message.
pub fn plans_are_private()
    ensures { PlansArePrivate }
{}
