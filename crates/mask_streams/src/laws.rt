//! What is proved of a run of Trivium.
ghost use Rattle.mask_streams.specs.Laws.{OutputFits, OutputGoesOn, OutputsAreBits, PlansAreStrong, PlansSplit, RegistersGoOn, RunBits, RunsArePrivate};

/// The steps of a message split behind any whole blocks.
pub fn plans_split()
    ensures { PlansSplit }
{}

/// The steps of a message are a strong plan, and depend on the message in its bits alone.
pub fn plans_are_strong()
    ensures { PlansAreStrong }
{}

/// Few wires of a run show nothing of the key and the message, wherever it breaks off.
pub fn runs_are_private()
    ensures { RunsArePrivate }
{}

/// How many bits a run takes from the tape.
pub fn run_bits()
    ensures { RunBits }
{}

/// The output is as long as its message, begins with that of each beginning, and encrypts to the message.
pub fn output_fits()
    ensures { OutputFits }
{}

/// Behind whole blocks the output goes on from what the run holds there.
pub fn output_goes_on()
    ensures { OutputGoesOn }
{}

/// The key stays what it is, and a run can go on from what it holds.
pub fn registers_go_on()
    ensures { RegistersGoOn }
{}

/// Which bit of the state is which bit of the output.
pub fn outputs_are_bits()
    ensures { OutputsAreBits }
{}
