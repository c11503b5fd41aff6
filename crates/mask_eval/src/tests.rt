ghost use Rattle.std.specs.Prelude.{◌≡◌, ◌<◌, ◌≤◌};

use super::{Frame, ListWatch, NoWatch, Watch, coin_room, eval, evaluate};
use mask_check::admit;
use mask_circuit::{Builder, Circuit, CircuitError, Steps};
use mask_io::MemEntropy;
use mask_shares::Shares;
use mask_tape::Tape;
use std::alloc::Global;
use std::marker::Brand;
use std::sync::ledger::{Blank, Ledger};
use std::test::Fail;

// The product of an input and the refreshed sum of both.
fn example(alloc: Global) -> Result<Circuit, CircuitError> {
    let mut builder = Builder::new(alloc, 2)?;
    if builder.values() == 2 {
        let sum = builder.xor(0, 1)?;
        let fresh = builder.refresh(sum)?;
        let product = builder.and(0, fresh)?;
        builder.out(product)?;
    }
    Ok(builder.finish())
}

// The shares of its output.
fn output<const N: usize, L: Ledger>(
    alloc: Global,
    blank: Blank,
    x: Shares<N>,
    y: Shares<N>,
    tape: Vec<u8>,
    lanes: u32,
) -> Result<Shares<N>, Fail>
    requires name { blank.name ≡ L.name }
    requires parts { blank.parts ≡ L.parts }
    requires some_parts { 0 < L.parts }
    requires some { 2 ≤ N }
    requires few { N ≤ 8 }
    requires some_lanes { 1 ≤ lanes }
    requires few_lanes { lanes ≤ 64 }
{
    let order = N as u32 - 1;
    let mut steps = Steps::<L>::new(blank);
    let admitted = admit(alloc, example(alloc)?, &mut steps)?;
    let mut frame = Frame::<N>::new(alloc, &admitted)?;
    let circuit = admitted.circuit();
    let draws = circuit.draws(order);
    if circuit.inputs() != 2 || circuit.outputs().len() != 1 || draws > 1000 {
        return Ok(x);
    }
    frame.set(0, x);
    frame.set(1, y);
    let mut watch = NoWatch;
    watch.room(circuit, order, lanes)?;
    let mut entropy = MemEntropy::new(tape, Vec::new(alloc));
    let mut coins = Tape::new().reserve(alloc, &mut entropy, lanes, draws)?;
    eval(
        &admitted, &mut frame, lanes, &mut coins, &mut watch, &mut steps,
    );
    coins.finish();
    Ok(frame.outputs()[0])
}

// The sum (1, 0) gets the coin 1, and the product the coin 0.
fn two_shares<L: Ledger>(alloc: Global, blank: Blank) -> Result<(u64, u64), Fail>
    requires name { blank.name ≡ L.name }
    requires parts { blank.parts ≡ L.parts }
    requires some_parts { 0 < L.parts }
{
    let tape = vec![in alloc; 0b01]?;
    let x = Shares::from_parts([1, 0]);
    let y = Shares::from_parts([0, 0]);
    let shares = output::<2, L>(alloc, blank, x, y, tape, 1)?;
    Ok((shares.share(0), shares.share(1)))
}

// The shared bits are 0011 and 0101, one in each lane.
fn eight_shares<L: Ledger>(alloc: Global, blank: Blank) -> Result<u64, Fail>
    requires name { blank.name ≡ L.name }
    requires parts { blank.parts ≡ L.parts }
    requires some_parts { 0 < L.parts }
{
    let tape = vec![in alloc; 0xa5; 28]?;
    let x = Shares::public(0b0011);
    let y = Shares::from_parts([0b0101, 0b1010, 0b1010, 0, 0, 0, 0, 0]);
    let shares = output::<8, L>(alloc, blank, x, y, tape, 4)?;
    Ok(shares.unmask())
}

// The shared words are 11 and 01, and each is shared with one coin.
fn shared_words<L: Ledger>(alloc: Global, blank: Blank) -> Result<u64, Fail>
    requires name { blank.name ≡ L.name }
    requires parts { blank.parts ≡ L.parts }
    requires some_parts { 0 < L.parts }
{
    let mut steps = Steps::<L>::new(blank);
    let admitted = admit(alloc, example(alloc)?, &mut steps)?;
    let mut frame = Frame::<2>::new(alloc, &admitted)?;
    let circuit = admitted.circuit();
    if circuit.inputs() != 2 || circuit.outputs().len() != 1 {
        return Ok(0);
    }
    let room = coin_room(alloc, &admitted, 1, 2, 2)?;
    let mut tape = Tape::new();
    let mut entropy = MemEntropy::new(vec![in alloc; 0xa5]?, Vec::new(alloc));
    let mut watch = NoWatch;
    evaluate(
        &admitted,
        2,
        &[],
        &[0b11, 0b01],
        &[],
        &mut frame,
        room,
        &mut tape,
        &mut entropy,
        &mut watch,
        &mut steps,
    )?;
    Ok(frame.outputs()[0].unmask())
}

fn outputs(alloc: Global) -> Result<(u64, u64, u64, u64), Fail> {
    let (first, second) = two_shares::<Brand>(alloc, Blank::new(1))?;
    let product = eight_shares::<Brand>(alloc, Blank::new(1))?;
    let of_words = shared_words::<Brand>(alloc, Blank::new(1))?;
    Ok((first, second, product, of_words))
}

#[test]
fn evaluates_the_example(rt: HostRuntime) -> Result<(), Fail> {
    assert_eq!(rt; outputs(rt.alloc())?, (0, 1, 0b0010, 0b10));
    Ok(())
}

// Told of the example on two shares, in two lanes.
fn listed(alloc: Global) -> Result<ListWatch, Fail> {
    let circuit = example(alloc)?;
    let mut watch = ListWatch::new(alloc);
    if circuit.inputs() == 2 && circuit.draws(1) == 2 && circuit.outputs().len() == 1 {
        watch.room(&circuit, 1, 2)?;
        watch.report(&circuit, 1, &[1, 0, 2, 0], &[3, 1], &[1, 2], 2);
    }
    Ok(watch)
}

#[test]
fn keeps_a_record_for_each_lane(rt: HostRuntime) -> Result<(), Fail> {
    let watch = listed(rt.alloc())?;
    assert_eq!(rt; watch.len(), 2);
    if watch.len() == 2 {
        let seen = watch.get(1);
        assert_eq!(rt; (seen.order, seen.inputs.len(), seen.tape.len()), (1, 4, 2));
        if seen.outputs.len() == 2 {
            assert_eq!(rt; (seen.outputs.get(0), seen.outputs.get(1)), (false, true));
        }
    }
    Ok(())
}
