ghost use Rattle.std.specs.Prelude.{◌≡◌, ◌<◌, ◌≤◌, length};

use super::{Needs, ProbeError, needs, shift_tape};
use mask_bits::Bits;
use mask_check::{AdmitError, Admitted, admit};
use mask_circuit::{Builder, Circuit, Steps};
use std::alloc::Global;
use std::marker::Brand;
use std::sync::ledger::{Blank, Ledger};
use std::test::Fail;

fn counted_admit<L: Ledger>(
    alloc: Global,
    blank: Blank,
    circuit: Circuit,
) -> Result<Admitted, AdmitError>
    requires name { blank.name ≡ L.name }
    requires parts { blank.parts ≡ L.parts }
    requires some { 0 < L.parts }
{
    let mut steps = Steps::<L>::new(blank);
    admit(alloc, circuit, &mut steps)
}

fn try_admit(alloc: Global, circuit: Circuit) -> Result<Admitted, AdmitError> {
    counted_admit::<Brand>(alloc, Blank::new(1), circuit)
}

// The product of two inputs, of which the second is refreshed or not.
fn product(rt: &HostRuntime, refreshed: bool) -> Result<Admitted, Fail> {
    let mut builder = Builder::new(rt.alloc(), 2)?;
    if builder.values() == 2 {
        let right = if refreshed { builder.refresh(1)? } else { 1 };
        let product = builder.and(0, right)?;
        builder.out(product)?;
    }
    Ok(try_admit(rt.alloc(), builder.finish())?)
}

// Which of the first three shares of an input are needed.
fn shares(needs: &Needs, input: u32) -> Option<[bool; 3]> {
    if input >= needs.inputs() {
        return None;
    }
    Some([
        needs.has(input, 0),
        needs.has(input, 1),
        needs.has(input, 2),
    ])
}

// On two shares wire 8 is a_0 · b_1: it needs share 0 of the first input, and of the second none, since that is
// refreshed.
#[test]
fn a_refresh_takes_needs_away(rt: HostRuntime) -> Result<(), Fail> {
    let circuit = product(&rt, true)?;
    let found = needs::<2>(rt.alloc(), &circuit, [8].as_slice())?;
    assert!(rt; shares(&found, 0) == Some([true, false, false]));
    assert!(rt; shares(&found, 1) == Some([false, false, false]));
    assert!(rt; shares(&found, 2).is_none());
    Ok(())
}

// On three shares wire 24 is the first partial sum of share 0 and wire 16 is v_01; wire 25 is output share 0.
#[test]
fn inner_probes_of_a_product_need_shares(rt: HostRuntime) -> Result<(), Fail> {
    let circuit = product(&rt, false)?;
    let inner = needs::<3>(rt.alloc(), &circuit, [24, 16].as_slice())?;
    assert!(rt; shares(&inner, 0) == Some([true, false, false]));
    assert!(rt; shares(&inner, 1) == Some([true, true, false]));
    let output = needs::<3>(rt.alloc(), &circuit, [25].as_slice())?;
    assert!(rt; shares(&output, 0) == Some([false, false, false]));
    assert!(rt; shares(&output, 1) == Some([false, false, false]));
    Ok(())
}

#[test]
fn refuses_too_many_probes_and_what_is_no_wire(rt: HostRuntime) -> Result<(), Fail> {
    let circuit = product(&rt, true)?;
    let many = needs::<2>(rt.alloc(), &circuit, [8, 9].as_slice()).err();
    assert!(rt; many == Some(ProbeError::TooManyProbes));
    let past = needs::<2>(rt.alloc(), &circuit, [16].as_slice()).err();
    assert!(rt; past == Some(ProbeError::NoSuchWire { place: 0 }));
    Ok(())
}

// A refresh of one input. On two shares wires 0 and 1 are the shares of the input, wire 2 is the fresh bit, and wires 3
// and 4 are the new shares.
fn refresh(alloc: Global) -> Result<Admitted, Fail> {
    let mut builder = Builder::new(alloc, 1)?;
    if builder.values() == 1 {
        let fresh = builder.refresh(0)?;
        builder.out(fresh)?;
    }
    let circuit = builder.finish();
    Ok(try_admit(alloc, circuit)?)
}

// The tape for shares 1, 1 on which a probe on the first new share sees what it sees on shares 0, 0 with tape 0.
fn shifted_bit(alloc: Global) -> Result<Option<bool>, Fail> {
    let admitted = refresh(alloc)?;
    let circuit = admitted.circuit();
    if circuit.inputs() != 1 || circuit.draws(1) != 1 {
        return Ok(None);
    }
    let zeros = Bits::zeros(alloc, 2)?;
    let mut ones = Bits::new(alloc);
    ones.push(true)?;
    ones.push(true)?;
    let tape = Bits::zeros(alloc, 1)?;
    let shifted = shift_tape::<2>(alloc, &admitted, &zeros, &ones, [3].as_slice(), &tape)?;
    Ok(Some(shifted.len() == 1 && shifted.get(0)))
}

#[test]
fn shifts_the_tape_of_a_refresh(rt: HostRuntime) -> Result<(), Fail> {
    assert!(rt; shifted_bit(rt.alloc())? == Some(true));
    Ok(())
}

// Whether just the first N - 1 shares of the first input are needed, of all eight that a set has room for.
fn are_first<const N: usize>(needs: &Needs) -> bool
    requires { N ≤ 8 }
{
    if needs.inputs() == 0 {
        return false;
    }
    for share in 0..8 {
        if needs.has(0, share) != (share + 1 < N as u32) {
            return false;
        }
    }
    true
}

// With probes on the first N - 1 shares of the first input: whether just these are needed.
fn needs_probed<const N: usize>(alloc: Global, circuit: &Admitted) -> Result<bool, ProbeError>
    requires some { 2 ≤ N }
    requires few { N ≤ 8 }
{
    let probes: [u32; 7] = [0, 1, 2, 3, 4, 5, 6];
    let found = needs::<N>(alloc, circuit, &probes[..N - 1])?;
    Ok(are_first::<N>(&found))
}

// With the same probes, and the last share of the first of two inputs changed: whether there is a tape.
fn is_shifted<const N: usize>(alloc: Global, circuit: &Admitted) -> Result<bool, ProbeError>
    requires some { 2 ≤ N }
    requires few { N ≤ 8 }
{
    let probes: [u32; 7] = [0, 1, 2, 3, 4, 5, 6];
    let draws = circuit.circuit().draws(N as u32 - 1);
    if circuit.circuit().inputs() != 2 || draws > 1_000_000 {
        return Ok(false);
    }
    let x = Bits::zeros(alloc, N * 2)?;
    let mut y = Bits::zeros(alloc, N * 2)?;
    y.set(N - 1, true);
    let tape = Bits::zeros(alloc, draws as usize)?;
    let shifted = shift_tape::<N>(alloc, circuit, &x, &y, &probes[..N - 1], &tape)?;
    Ok(shifted.len() == tape.len())
}

fn answers<const N: usize>(alloc: Global, circuit: &Admitted) -> Result<bool, ProbeError>
    requires some { 2 ≤ N }
    requires few { N ≤ 8 }
{
    Ok(needs_probed::<N>(alloc, circuit)? && is_shifted::<N>(alloc, circuit)?)
}

#[test]
fn answers_at_each_order(rt: HostRuntime) -> Result<(), Fail> {
    let circuit = product(&rt, true)?;
    assert!(rt; answers::<2>(rt.alloc(), &circuit)?);
    assert!(rt; answers::<3>(rt.alloc(), &circuit)?);
    assert!(rt; answers::<4>(rt.alloc(), &circuit)?);
    assert!(rt; answers::<5>(rt.alloc(), &circuit)?);
    assert!(rt; answers::<6>(rt.alloc(), &circuit)?);
    assert!(rt; answers::<7>(rt.alloc(), &circuit)?);
    assert!(rt; answers::<8>(rt.alloc(), &circuit)?);
    Ok(())
}

// 100,000 refreshes of an input.
#[test]
fn answers_at_size(rt: HostRuntime) -> Result<(), Fail> {
    let mut builder = Builder::new(rt.alloc(), 2)?;
    for _gate in 0..100_000 {
        if builder.values() > 0 {
            builder.refresh(0)?;
        }
    }
    let circuit = try_admit(rt.alloc(), builder.finish())?;
    assert!(rt; answers::<2>(rt.alloc(), &circuit)?);
    Ok(())
}
