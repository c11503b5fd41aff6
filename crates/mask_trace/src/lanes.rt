//! What is proved of steps that are evaluated side by side, each in a lane of its own.
ghost use Rattle.mask_trace.specs.Lanes.{InputsStandInParts, LaneIsStep, LanesAreSteps, WordsAreInputs};

/// One evaluation in many lanes is the evaluation of many steps that keep nothing.
pub fn lanes_are_steps()
    ensures { LanesAreSteps }
{}

/// One evaluation in one lane is that of a step, whatever it keeps.
pub fn lane_is_step()
    ensures { LaneIsStep }
{}

/// The shares of inputs stand part by part.
#[tactic(auto, using(crate::proofs::Inputs::inputs_stand_in_parts))]
pub fn inputs_stand_in_parts()
    ensures { InputsStandInParts }
{}

/// Words of a key, of public bits and of shared message bits are in each lane the shares of such inputs.
pub fn words_are_inputs()
    ensures { WordsAreInputs }
{}
