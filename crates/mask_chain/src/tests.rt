ghost use Rattle.std.specs.Prelude.{◌≡◌, ◌<◌, length, IfOk};
ghost use Rattle.std.specs.Option.{IfSome};

use super::{ChainRun, Evaluation, Keep, Part, Source};
use mask_check::{admit, strengthen};
use mask_circuit::{Builder, Circuit, CircuitError, Steps};
use mask_eval::NoWatch;
use mask_io::MemEntropy;
use mask_shares::Shares;
use mask_tape::Tape;
use std::alloc::Global;
use std::marker::Brand;
use std::sync::ledger::{Blank, Ledger};
use std::test::Fail;

// The refreshed sum of two inputs.
fn example(alloc: Global) -> Result<Circuit, CircuitError> {
    let mut builder = Builder::new(alloc, 2)?;
    if builder.values() == 2 {
        let sum = builder.xor(0, 1)?;
        let fresh = builder.refresh(sum)?;
        builder.out(fresh)?;
    }
    Ok(builder.finish())
}

fn sum<L: Ledger>(alloc: Global, steps: &mut Steps<L>) -> Result<Option<Part<2>>, Fail>
    ensures inputs { IfOk result (λ part. IfSome part (λ p. p.inputs ≡ 2)) }
    ensures outputs { IfOk result (λ part. IfSome part (λ p. length p.outputs ≡ 1)) }
{
    let admitted = admit(alloc, example(alloc)?, steps)?;
    let strong = strengthen(alloc, admitted)?;
    let circuit = strong.admitted().circuit();
    if circuit.inputs() != 2 || circuit.outputs().len() != 1 {
        return Ok(None);
    }
    let part = Part::new(alloc, strong)?;
    Ok(Some(part))
}

// The state is the sum of the second bit of the key and a public one.
fn state_of_one<L: Ledger>(
    alloc: Global,
    part: &mut Part<2>,
    steps: &mut Steps<L>,
) -> Result<u64, Fail>
    requires inputs { part.old.inputs ≡ 2 }
    requires outputs { length part.old.outputs ≡ 1 }
    ensures { part.new ≡ part.old }
{
    let key = [Shares::from_parts([1, 1]), Shares::from_parts([0, 1])];
    let mut run = ChainRun::<2>::new(alloc, &key)?;
    let own = Evaluation {
        before: &[Source::Key { from: 1, count: 1 }, Source::Public(&[1])],
        message: &[],
        behind: &[],
        keep: Keep::AsState,
    };
    let mut tape = Tape::new();
    let mut entropy = MemEntropy::new(vec![in alloc; 0xa5]?, Vec::new(alloc));
    run.take(
        alloc,
        part,
        &own,
        &mut tape,
        &mut entropy,
        &mut NoWatch,
        steps,
    )?;
    Ok(run.state()[0].unmask() % 2)
}

// The state becomes the sum of the second bit of the key and a bit of the message, and then the sum of that and the first bit
// of the key.
fn state_of_two<L: Ledger>(
    alloc: Global,
    first: &mut Part<2>,
    part: &mut Part<2>,
    steps: &mut Steps<L>,
) -> Result<u64, Fail>
    requires first_inputs { first.old.inputs ≡ 2 }
    requires first_outputs { length first.old.outputs ≡ 1 }
    requires inputs { part.old.inputs ≡ 2 }
    requires outputs { length part.old.outputs ≡ 1 }
{
    let key = [Shares::from_parts([1, 1]), Shares::from_parts([0, 1])];
    let mut run = ChainRun::<2>::new(alloc, &key)?;
    let ahead = Evaluation {
        before: &[Source::Key { from: 1, count: 1 }],
        message: &[0],
        behind: &[],
        keep: Keep::AsState,
    };
    let own = Evaluation {
        before: &[Source::Key { from: 0, count: 1 }],
        message: &[],
        behind: &[Source::State { count: 1 }],
        keep: Keep::AsState,
    };
    let mut tape = Tape::new();
    let mut entropy = MemEntropy::new(vec![in alloc; 0xa5]?, Vec::new(alloc));
    run.take_two(
        alloc,
        first,
        &ahead,
        part,
        &own,
        &mut tape,
        &mut entropy,
        &mut NoWatch,
        steps,
    )?;
    Ok(run.state()[0].unmask() % 2)
}

fn states_of<L: Ledger>(alloc: Global, blank: Blank) -> Result<(u64, u64), Fail>
    requires name { blank.name ≡ L.name }
    requires parts { blank.parts ≡ L.parts }
    requires some_parts { 0 < L.parts }
{
    let mut steps = Steps::<L>::new(blank);
    let Some(mut first) = sum(alloc, &mut steps)? else {
        return Ok((9, 9))
    };
    let Some(mut part) = sum(alloc, &mut steps)? else {
        return Ok((9, 9))
    };
    let one = state_of_one(alloc, &mut first, &mut steps)?;
    let two = state_of_two(alloc, &mut first, &mut part, &mut steps)?;
    Ok((one, two))
}

fn states(alloc: Global) -> Result<(u64, u64), Fail> {
    let both = states_of::<Brand>(alloc, Blank::new(1))?;
    Ok(both)
}

#[test]
fn keys_become_states(rt: HostRuntime) -> Result<(), Fail> {
    assert_eq!(rt; states(rt.alloc())?, (0, 1));
    Ok(())
}
