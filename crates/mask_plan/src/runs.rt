//! The run inside a session.

ghost use Rattle.std.specs.Prelude.{◌≡◌};
ghost use Rattle.mask_plan.specs.Inside.{HasOutputs, outputs};

use mask_counter::CounterRun;
use mask_keystream::StreamRun;
use mask_shares::Shares;
use mask_tagging::TagRun;

/// A run of a block cipher in counter mode, or one of Trivium, or one of a message authentication code.
#[derive(Drop)]
pub enum TaskRun<const N: usize> {
    Counter(CounterRun<N>),
    Stream(StreamRun<N>),
    Tag(TagRun<N>),
}

/// The words of the latest outputs.
pub(crate) fn outputs_of<const N: usize>(run: &TaskRun<N>) -> &[Shares<N>]
    ensures value { result.now ≡ outputs run.now }
    ensures count { HasOutputs run.now }
{
    match run {
        TaskRun::Counter(run) => run.outputs(),
        TaskRun::Stream(run) => run.outputs(),
        TaskRun::Tag(run) => run.outputs(),
    }
}
