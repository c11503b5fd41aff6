use super::*;
use std::test::Fail;

// The limit is reached by inputs alone, so that no million of gates has to be made.
#[test]
fn refuses_one_value_too_many(rt: HostRuntime) -> Result<(), Fail> {
    let mut full = Builder::new(rt.alloc(), 1_000_000)?;
    assert_eq!(rt; full.zero(), Err(CircuitError::TooManyValues));
    assert_eq!(rt; full.values(), 1_000_000);
    let mut nearly = Builder::new(rt.alloc(), 999_999)?;
    assert_eq!(rt; nearly.zero(), Ok(999_999));
    assert!(rt; Builder::new(rt.alloc(), 1_000_001).is_err());
    Ok(())
}

// A product of an input and the refreshed XOR of two: what a copy, a look at its gates and its random bits give.
#[test]
fn answers_about_a_circuit(rt: HostRuntime) -> Result<(), Fail> {
    let mut builder = Builder::new(rt.alloc(), 2)?;
    if builder.values() == 2 {
        let sum = builder.xor(0, 1)?;
        let fresh = builder.refresh(sum)?;
        let product = builder.and(0, fresh)?;
        builder.out(product)?;
    }
    let circuit = builder.finish();
    let copy = circuit.copy(rt.alloc())?;
    assert!(rt; copy.inputs() == 2);
    assert!(rt; copy.gates() == [Gate::Xor(0, 1), Gate::Ref(2), Gate::And(0, 3)].as_slice());
    assert!(rt; copy.outputs() == [4].as_slice());
    assert_eq!(rt; copy.draws(1), 2);
    assert_eq!(rt; copy.draws(7), 56);
    assert!(rt; copy.values() == 5);
    if copy.values() == 5 {
        assert!(rt; copy.gate_at(1).is_none());
        assert!(rt; copy.gate_at(4) == Some(Gate::And(0, 3)));
    }
    Ok(())
}

// A product whose second operand is refreshed, on two shares: 4 wires of the inputs, 3 of the refresh, and 9 of the
// product.
#[test]
fn numbers_the_wires(rt: HostRuntime) -> Result<(), Fail> {
    let mut builder = Builder::new(rt.alloc(), 2)?;
    if builder.values() == 2 {
        let fresh = builder.refresh(1)?;
        let product = builder.and(0, fresh)?;
        builder.out(product)?;
    }
    let circuit = builder.finish();
    assert_eq!(rt; circuit.wire_count(1), 16);
    if circuit.wire_count(1) == 16 {
        assert!(rt; circuit.wire_place(1, 3) == WirePlace { value: 1, part: 1 });
        assert!(rt; circuit.wire_place(1, 6) == WirePlace { value: 2, part: 2 });
        assert!(rt; circuit.wire_place(1, 8) == WirePlace { value: 3, part: 1 });
    }
    Ok(())
}

// 100,000 gates and as many outputs, copied and put into groups.
#[test]
fn copies_at_size(rt: HostRuntime) -> Result<(), Fail> {
    let mut builder = Builder::new(rt.alloc(), 1)?;
    for _gate in 0..100_000 {
        let value = builder.zero()?;
        if value < builder.values() {
            builder.out(value)?;
        }
    }
    let copy = builder.finish().copy(rt.alloc())?;
    let labelled = Labelled::plain(rt.alloc(), copy)?;
    assert_eq!(rt; labelled.circuit().gates().len(), 100_000);
    assert_eq!(rt; labelled.circuit().outputs().len(), 100_000);
    Ok(())
}
