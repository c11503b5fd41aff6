//! What is proved of a run: strong calls in order, of which each takes public bits, variables and outputs of earlier
//! calls, and none takes the same variable or output twice.
ghost use Rattle.mask_laws.specs.Runs.{RunNeed, StrongRunsBegin, StrongRunsGrow};

/// Any t wires of all calls of a run, fewer than the shares, are simulated from their need, which has at most t shares of
/// each variable: how often they show what, over all tapes, depends on these shares alone.
pub fn run_needs_few_shares()
    ensures { RunNeed }
{}

/// The first calls of a run are a run.
pub fn strong_runs_begin()
    ensures { StrongRunsBegin }
{}

/// Strong calls that follow a run make it a longer one.
pub fn strong_runs_grow()
    ensures { StrongRunsGrow }
{}
