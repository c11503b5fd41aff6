//! What is proved of every run of steps.
ghost use Rattle.mask_trace.specs.Laws.{DrawnIsDrew, DrawsJoin, PartsAreBeginnings, RunsJoin, TapeIsEnough, TracesSplit};

/// A run splits anywhere.
#[tactic(auto, using(crate::proofs::Traces::traces_split))]
pub fn traces_split()
    ensures { TracesSplit }
{}

/// A run reads just the bits that its steps take.
#[tactic(auto, using(crate::proofs::Traces::tape_is_enough))]
pub fn tape_is_enough()
    ensures { TapeIsEnough }
{}

/// What was evaluated in two parts, one behind the other, was evaluated, and either part may have stopped.
#[tactic(auto, using(crate::proofs::Drawing::runs_join))]
pub fn runs_join()
    ensures { RunsJoin }
{}

/// What was drawn in two parts was drawn, and fewer than eight bits are kept behind it.
#[tactic(auto, using(crate::proofs::Drawing::draws_join))]
pub fn draws_join()
    ensures { DrawsJoin }
{}

/// What a run told before it stopped is the beginning of what all its steps tell, however the tape goes on.
pub fn parts_are_beginnings()
    ensures { PartsAreBeginnings }
{}

/// What a tape gives is drawn: the bits of all lanes.
pub fn drawn_is_drew()
    ensures { DrawnIsDrew }
{}
