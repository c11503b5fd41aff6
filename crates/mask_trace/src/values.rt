//! What is proved of the values of a run: what its shares stand for, and that what it tells are evaluations.
ghost use Rattle.mask_trace.specs.Values.{RunsAreComputed, RunsCompute, TracesAreEvaluations};

/// Whatever the tape, the shares of a run stand for what its steps compute on plain bits.
#[tactic(auto, using(crate::proofs::Computing::runs_compute))]
pub fn runs_compute()
    ensures { RunsCompute }
{}

/// A strong plan is told as evaluations of strong circuits.
pub fn traces_are_evaluations()
    ensures { TracesAreEvaluations }
{}

/// Both of what was drawn and told of a run.
pub fn runs_are_computed()
    ensures { RunsAreComputed }
{}
