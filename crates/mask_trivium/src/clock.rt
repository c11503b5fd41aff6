//! One clock.

ghost use Rattle.std.specs.Prelude.{◌≡◌, ℕ, ◌+◌, ◌<◌, List, [], length, All, OnOk};
ghost use Rattle.mask_circuit.specs.Netlist.{value_count};
ghost use Rattle.mask_parts.specs.Drafts.{Lays};
ghost use Rattle.mask_trivium.specs.Clocks.{setup_steps, stream_steps, setup, stream, stage, with_clock};
ghost use Rattle.mask_trivium.specs.Trivium.{shifted};

use mask_circuit::{Builder, CircuitError};
use mask_parts::Place::{Given, Made};
use mask_parts::Step::{self, Product, Xor};
use mask_parts::lay;

/// The values that stand for the bits s1 to s288, which are numbered from 0 here.
pub(crate) type State = [u32; 288];

// A clock without output. Behind each step stands the number of the value that it makes.
fn setup_steps() -> [Step; 12]
    ensures { result ≡ setup_steps }
{
    [
        Xor(Given(65), Given(92)), // 0
        Xor(Given(161), Given(176)), // 1
        Xor(Given(242), Given(287)), // 2
        Product(Given(90), Given(91)), // 4
        Xor(Made(0), Made(4)), // 5
        Xor(Made(5), Given(170)), // 6
        Product(Given(174), Given(175)), // 8
        Xor(Made(1), Made(8)), // 9
        Xor(Made(9), Given(263)), // 10
        Product(Given(285), Given(286)), // 12
        Xor(Made(2), Made(12)), // 13
        Xor(Made(13), Given(68)), // 14
    ]
}

// A clock with output, which is value 4.
fn stream_steps() -> [Step; 14]
    ensures { result ≡ stream_steps }
{
    [
        Xor(Given(65), Given(92)), // 0
        Xor(Given(161), Given(176)), // 1
        Xor(Given(242), Given(287)), // 2
        Xor(Made(0), Made(1)), // 3
        Xor(Made(3), Made(2)), // 4
        Product(Given(90), Given(91)), // 6
        Xor(Made(0), Made(6)), // 7
        Xor(Made(7), Given(170)), // 8
        Product(Given(174), Given(175)), // 10
        Xor(Made(1), Made(10)), // 11
        Xor(Made(11), Given(263)), // 12
        Product(Given(285), Given(286)), // 14
        Xor(Made(2), Made(14)), // 15
        Xor(Made(15), Given(68)), // 16
    ]
}

// Three values come in as s1, s94 and s178. Every other one is the one before it.
fn shift(state: &mut State, first: u32, second: u32, third: u32)
    ensures { state.new ≡ shifted first second third state.old }
{
    state.rotate_right(1);
    state[0] = first;
    state[93] = second;
    state[177] = third;
}

/// Lays a clock without output.
pub(crate) fn setup_clock(b: &mut Builder, state: &mut State) -> Result<(), CircuitError>
    requires { All (λ u. u < value_count b.old) state.old }
    ensures laid { Lays b.old (with_clock setup (stage b.old state.old [])).draft tt b.new result }
    ensures moved { OnOk result (state.new ≡ (with_clock setup (stage b.old state.old [])).state) }
{
    let _values = b.values();
    let first = lay(b, state, &setup_steps())?;
    shift(state, first + 14, first + 6, first + 10);
    Ok(())
}

/// Lays a clock with output. Ok is the value that it outputs.
pub(crate) fn stream_clock(b: &mut Builder, state: &mut State) -> Result<u32, CircuitError>
    requires { All (λ u. u < value_count b.old) state.old }
    ensures laid { Lays b.old (with_clock stream (stage b.old state.old [])).draft (value_count b.old + 4) b.new result }
    ensures moved { OnOk result (state.new ≡ (with_clock stream (stage b.old state.old [])).state) }
{
    let _values = b.values();
    let first = lay(b, state, &stream_steps())?;
    shift(state, first + 16, first + 8, first + 12);
    Ok(first + 4)
}
