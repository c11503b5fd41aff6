//! Clocks in a row.

ghost use Rattle.std.specs.Prelude.{◌≡◌, ℕ, ◌<◌, List, [], length, All, OnOk};
ghost use Rattle.mask_circuit.specs.Netlist.{value_count};
ghost use Rattle.mask_parts.specs.Drafts.{Lays};
ghost use Rattle.mask_trivium.specs.Clocks.{setup, stream, stage, with_clocks};

use crate::clock::{State, setup_clock, stream_clock};
use mask_circuit::{Builder, CircuitError};

// How many clocks there are without output.
const SETUP_CLOCKS: usize = 1152;

/// Lays the clocks without output.
pub(crate) fn lay_setup(b: &mut Builder, state: &mut State) -> Result<(), CircuitError>
    requires { All (λ u. u < value_count b.old) state.old }
    ensures laid { Lays b.old (with_clocks setup 1152 (stage b.old state.old [])).draft tt b.new result }
    ensures moved { OnOk result (state.new ≡ (with_clocks setup 1152 (stage b.old state.old [])).state) }
{
    let _values = b.values();
    for _clock in 0..SETUP_CLOCKS {
        setup_clock(b, state)?;
    }
    Ok(())
}

/// Lays 64 clocks with output. Ok has the values that they output, in order.
pub(crate) fn lay_stream(b: &mut Builder, state: &mut State) -> Result<[u32; 64], CircuitError>
    requires { All (λ u. u < value_count b.old) state.old }
    ensures laid { let t = with_clocks stream 64 (stage b.old state.old []) in Lays b.old t.draft t.outputs b.new result }
    ensures moved { OnOk result (state.new ≡ (with_clocks stream 64 (stage b.old state.old [])).state) }
{
    let _values = b.values();
    let mut outputs = [0; 64];
    for k in 0..64 {
        outputs[k] = stream_clock(b, state)?;
    }
    Ok(outputs)
}
