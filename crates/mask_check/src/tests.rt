ghost use Rattle.std.specs.Prelude.{◌≡◌, ◌+◌, ◌*◌, ◌<◌, ◌≤◌};

use super::*;
use mask_circuit::{Builder, Circuit, CircuitError, Gate, Steps};
use std::alloc::{AllocError, Global};
use std::marker::Brand;
use std::sync::ledger::{Blank, Ledger};
use std::test::Fail;

fn append(builder: &mut Builder, gate: Gate) -> Result<u32, CircuitError> {
    let values = builder.values();
    match gate {
        Gate::Zero => builder.zero(),
        Gate::One => builder.one(),
        Gate::Xor(u, v) if u < values && v < values => builder.xor(u, v),
        Gate::Not(u) if u < values => builder.not(u),
        Gate::And(u, v) if u < values && v < values => builder.and(u, v),
        Gate::Ref(u) if u < values => builder.refresh(u),
        _ => Err(CircuitError::TooManyValues),
    }
}

fn circuit_of(
    alloc: Global,
    inputs: u32,
    gates: &[Gate],
    outputs: &[u32],
) -> Result<Circuit, CircuitError> {
    let mut builder = Builder::new(alloc, inputs)?;
    for gate in gates {
        append(&mut builder, *gate)?;
    }
    for output in outputs {
        if *output >= builder.values() {
            return Err(CircuitError::TooManyValues);
        }
        builder.out(*output)?;
    }
    Ok(builder.finish())
}

fn counted_admit<L: Ledger>(
    alloc: Global,
    blank: Blank,
    circuit: Circuit,
) -> Result<Admitted, AdmitError>
    requires name { blank.name ≡ L.name }
    requires parts { blank.parts ≡ L.parts }
    requires some { 0 < L.parts }
{
    let mut steps = Steps::<L>::new(blank);
    admit(alloc, circuit, &mut steps)
}

fn try_admit(alloc: Global, circuit: Circuit) -> Result<Admitted, AdmitError> {
    counted_admit::<Brand>(alloc, Blank::new(1), circuit)
}

// 68 values and 65 products: two batches, so three visits of each value at most.
fn check_two_batches<L: Ledger>(
    alloc: Global,
    circuit: &Circuit,
    steps: &mut Steps<L>,
) -> Result<Option<Verdict>, AllocError>
    ensures { steps.new ≤ steps.old + 68 * 3 }
{
    if circuit.values() != 68 || circuit.products() != 65 {
        return Ok(None);
    }
    Ok(Some(check(alloc, circuit, steps)?))
}

fn counted_check<L: Ledger>(
    alloc: Global,
    blank: Blank,
    circuit: &Circuit,
) -> Result<Option<Verdict>, AllocError>
    requires name { blank.name ≡ L.name }
    requires parts { blank.parts ≡ L.parts }
    requires some { 0 < L.parts }
{
    let mut steps = Steps::<L>::new(blank);
    check_two_batches(alloc, circuit, &mut steps)
}

fn try_check(alloc: Global, circuit: &Circuit) -> Result<Option<Verdict>, AllocError> {
    counted_check::<Brand>(alloc, Blank::new(1), circuit)
}

fn refusal(rt: &HostRuntime, inputs: u32, gates: &[Gate]) -> Result<Option<AdmitError>, Fail> {
    let circuit = circuit_of(rt.alloc(), inputs, gates, [].as_slice())?;
    Ok(try_admit(rt.alloc(), circuit).err())
}

fn weakness(
    rt: &HostRuntime,
    inputs: u32,
    gates: &[Gate],
    outputs: &[u32],
) -> Result<Option<StrengthenError>, Fail> {
    let circuit = circuit_of(rt.alloc(), inputs, gates, outputs)?;
    Ok(strengthen(rt.alloc(), try_admit(rt.alloc(), circuit)?).err())
}

fn at(product: u32, source: u32) -> Option<AdmitError> {
    Some(AdmitError::Refused { product, source })
}

#[test]
fn refuses_with_the_clash(rt: HostRuntime) -> Result<(), Fail> {
    assert!(rt; refusal(&rt, 1, [Gate::And(0, 0)].as_slice())? == at(1, 0));
    assert!(rt; refusal(&rt, 2, [Gate::Xor(0, 1), Gate::And(0, 2)].as_slice())? == at(3, 0));
    let deep = [
        Gate::Xor(1, 0),
        Gate::Not(2),
        Gate::Xor(1, 3),
        Gate::And(0, 4),
    ];
    assert!(rt; refusal(&rt, 2, deep.as_slice())? == at(5, 0));
    Ok(())
}

#[test]
fn finds_the_lowest_gap(rt: HostRuntime) -> Result<(), Fail> {
    let used = [Gate::Xor(0, 1), Gate::Ref(2), Gate::And(0, 3)];
    let refreshed = [Gate::Ref(0)];
    let gap = |output| Some(StrengthenError::NotFenced { output });
    assert!(rt; weakness(&rt, 2, used.as_slice(), [4].as_slice())? == gap(0));
    assert!(rt; weakness(&rt, 1, [].as_slice(), [0].as_slice())? == gap(0));
    assert!(rt; weakness(&rt, 1, refreshed.as_slice(), [1, 1].as_slice())? == gap(1));
    let circuit = circuit_of(rt.alloc(), 1, refreshed.as_slice(), [1].as_slice())?;
    let strong = strengthen(rt.alloc(), try_admit(rt.alloc(), circuit)?)?;
    assert!(rt; strong.admitted().circuit().outputs() == [1].as_slice());
    Ok(())
}

// The last product alone shares a source: it stands in the second batch.
#[test]
fn checks_a_second_batch(rt: HostRuntime) -> Result<(), Fail> {
    let mut builder = Builder::new(rt.alloc(), 2)?;
    for _product in 0..64 {
        append(&mut builder, Gate::And(0, 1))?;
    }
    append(&mut builder, Gate::Xor(0, 65))?;
    append(&mut builder, Gate::And(65, 66))?;
    let circuit = builder.finish();
    assert!(rt;
        try_check(rt.alloc(), &circuit)?
            == Some(Verdict::Refused {
                product: 67,
                source: 65
            })
    );
    Ok(())
}

// 100,000 gates of five kinds and 1,000 refreshes, which are the outputs.
fn large_circuit(alloc: Global) -> Result<Circuit, CircuitError> {
    let mut builder = Builder::new(alloc, 2)?;
    for _round in 0..20_000 {
        append(&mut builder, Gate::Zero)?;
        append(&mut builder, Gate::One)?;
        append(&mut builder, Gate::Xor(0, 1))?;
        append(&mut builder, Gate::Not(0))?;
        append(&mut builder, Gate::And(0, 1))?;
    }
    for _output in 0..1_000 {
        let output = append(&mut builder, Gate::Ref(0))?;
        if output < builder.values() {
            builder.out(output)?;
        }
    }
    Ok(builder.finish())
}

#[test]
fn admits_and_strengthens_at_size(rt: HostRuntime) -> Result<(), Fail> {
    let admitted = try_admit(rt.alloc(), large_circuit(rt.alloc())?)?;
    let strong = strengthen(rt.alloc(), admitted)?;
    assert_eq!(rt; strong.admitted().circuit().gates().len(), 101_000);
    assert_eq!(rt; strong.admitted().circuit().outputs().len(), 1_000);
    Ok(())
}
