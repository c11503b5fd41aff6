ghost use Rattle.std.specs.Prelude.{◌<◌, ◌≤◌, All};

use super::*;
use mask_circuit::{Builder, Gate};
use std::test::Fail;

// Each call once, with ample memory.
#[test]
fn lays_the_sbox(rt: HostRuntime) -> Result<(), Fail> {
    let mut builder = Builder::new(rt.alloc(), 4)?;
    if builder.values() == 4 {
        let results = sbox4_present(&mut builder, [0, 1, 2, 3])?;
        assert!(rt; results.as_slice() == [20, 21, 25, 29].as_slice());
    }
    assert!(rt; builder.values() == 30);
    Ok(())
}

#[test]
fn lays_a_product(rt: HostRuntime) -> Result<(), Fail> {
    let mut builder = Builder::new(rt.alloc(), 2)?;
    if builder.values() == 2 {
        assert!(rt; product(&mut builder, 0, 1)? == 3);
    }
    let circuit = builder.finish();
    assert!(rt; circuit.gates() == [Gate::Ref(1), Gate::And(0, 2)].as_slice());
    Ok(())
}

#[test]
fn lays_a_row_of_xors(rt: HostRuntime) -> Result<(), Fail> {
    let mut builder = Builder::new(rt.alloc(), 4)?;
    if builder.values() == 4 {
        xor_all(&mut builder, &[0, 1], &[3, 2])?;
    }
    let circuit = builder.finish();
    assert!(rt; circuit.gates() == [Gate::Xor(0, 3), Gate::Xor(1, 2)].as_slice());
    Ok(())
}

#[test]
fn numbers_places(rt: HostRuntime) -> Result<(), Fail> {
    let mut places = [0; 3];
    number_from(&mut places, 5);
    assert!(rt; places == [5, 6, 7]);
    Ok(())
}

#[test]
fn lays_a_fence(rt: HostRuntime) -> Result<(), Fail> {
    let mut builder = Builder::new(rt.alloc(), 2)?;
    if builder.values() == 2 {
        fence_outputs(&mut builder, &[1, 0])?;
    }
    let circuit = builder.finish();
    assert!(rt; circuit.gates() == [Gate::Ref(1), Gate::Ref(0)].as_slice());
    assert!(rt; circuit.outputs() == [2, 3].as_slice());
    Ok(())
}

// The values from `first` on.
fn word(first: u32) -> [u32; 32]
    requires { first ≤ 32 }
    ensures { All (λ u. u < 64) result }
{
    let mut values = [0; 32];
    for i in 0..32 {
        values[i] = first + i as u32;
    }
    values
}

#[test]
fn lays_a_sum(rt: HostRuntime) -> Result<(), Fail> {
    let mut builder = Builder::new(rt.alloc(), 64)?;
    if builder.values() == 64 {
        let sums = add32(&mut builder, &word(0), &word(32))?;
        assert!(rt; sums[..3] == [64, 69, 75]);
        assert!(rt; sums[30..] == [243, 248]);
    }
    let circuit = builder.finish();
    let gates = circuit.gates();
    assert!(rt; gates.len() == 185);
    assert!(rt; gates[..3] == [Gate::Xor(0, 32), Gate::Ref(32), Gate::And(0, 65)]);
    assert!(rt; gates[183..] == [Gate::Xor(63, 246), Gate::Xor(31, 247)]);
    Ok(())
}

#[test]
fn lays_an_xor(rt: HostRuntime) -> Result<(), Fail> {
    let mut builder = Builder::new(rt.alloc(), 64)?;
    if builder.values() == 64 {
        let sums = xor32(&mut builder, &word(0), &word(32))?;
        assert!(rt; sums[..2] == [64, 65]);
    }
    let circuit = builder.finish();
    assert!(rt; circuit.gates().len() == 32);
    assert!(rt; circuit.gates()[31..] == [Gate::Xor(31, 63)]);
    Ok(())
}

// LEA's constant c3efe9db, of which the lowest byte is 11011011.
#[test]
fn turns_a_constant(rt: HostRuntime) -> Result<(), Fail> {
    let word = constant32(7, 9, 0xc3ef_e9db);
    assert!(rt; word[..8] == [9, 9, 7, 9, 9, 7, 9, 9]);
    let rotated = rot32(&word, 1);
    assert!(rt; rotated[..9] == [9, 9, 9, 7, 9, 9, 7, 9, 9]);
    Ok(())
}
