//! Writing circuits in their one spelling.

ghost use Rattle.std.specs.Prelude.{◌≡◌, ℕ, ◌≤◌, All, length, map};
ghost use Rattle.std.specs.Result.{is_err};
ghost use Rattle.mask_io.specs.Outside.{faults_after};
ghost use Rattle.mask_circuit.specs.Labels.{sizes, is_name, NamedGroup};
ghost use Rattle.mask_circuit.specs.Text.{Input, Makes, Out, output_lines, spelling, canonical, canonical2};
ghost use Rattle.mask_text.specs.Sends.{Sends};

use crate::errors::WriteFault;
use crate::spell::{gate_line, named, numbered};
use mask_circuit::{Circuit, Gate, Group, Labelled};
use mask_io::{Sink, write_all};

fn write_gates<O: Sink>(sink: &mut O, gates: &[Gate]) -> Result<(), WriteFault>
    ensures sends { Sends result (O.written sink.old) (O.written sink.new) (spelling (map Makes gates.now)) }
    ensures counts { O.faults sink.new ≡ faults_after (is_err result) (O.faults sink.old) }
{
    for gate in gates {
        write_all(sink, &gate_line(*gate))?;
    }
    Ok(())
}

fn write_outs<O: Sink>(sink: &mut O, outputs: &[u32]) -> Result<(), WriteFault>
    ensures sends { Sends result (O.written sink.old) (O.written sink.new) (spelling (map Out outputs.now)) }
    ensures counts { O.faults sink.new ≡ faults_after (is_err result) (O.faults sink.old) }
{
    for value in outputs {
        write_all(sink, &numbered(b"out", *value))?;
    }
    Ok(())
}

fn write_input_groups<O: Sink>(sink: &mut O, groups: &[Group]) -> Result<(), WriteFault>
    ensures sends { Sends result (O.written sink.old) (O.written sink.new) (spelling (map (λ g. Input g.name g.size) groups.now)) }
    ensures counts { O.faults sink.new ≡ faults_after (is_err result) (O.faults sink.old) }
{
    for group in groups {
        write_all(
            sink,
            &named(b"input", group.name.as_str().as_bytes(), group.size),
        )?;
    }
    Ok(())
}

// Each group, and behind it its outputs.
fn write_output_groups<O: Sink>(
    sink: &mut O,
    groups: &[Group],
    outputs: &[u32],
) -> Result<(), WriteFault>
    requires { sizes groups.now ≤ length outputs.now }
    ensures sends { Sends result (O.written sink.old) (O.written sink.new) (spelling (output_lines groups.now outputs.now)) }
    ensures counts { O.faults sink.new ≡ faults_after (is_err result) (O.faults sink.old) }
{
    let mut rest = outputs;
    for group in groups {
        write_all(
            sink,
            &named(b"output", group.name.as_str().as_bytes(), group.size),
        )?;
        let (own, others) = rest.split_at(group.size as usize);
        write_outs(sink, own)?;
        rest = others;
    }
    Ok(())
}

/// Writes a circuit as a text of version 1. It takes no memory.
pub fn write_circuit<O: Sink>(circuit: &Circuit, sink: &mut O) -> Result<(), WriteFault>
    ensures sends { Sends result (O.written sink.old) (O.written sink.new) (canonical circuit.now) }
    ensures counts { O.faults sink.new ≡ faults_after (is_err result) (O.faults sink.old) }
{
    write_all(sink, b"masked-circuit 1\n")?;
    write_all(sink, &numbered(b"inputs", circuit.inputs()))?;
    write_gates(sink, circuit.gates())?;
    write_outs(sink, circuit.outputs())?;
    write_all(sink, b"end\n")?;
    Ok(())
}

/// Writes a labelled circuit as a text of version 2. It takes no memory.
pub fn write_labelled<O: Sink>(labelled: &Labelled, sink: &mut O) -> Result<(), WriteFault>
    ensures sends { Sends result (O.written sink.old) (O.written sink.new) (canonical2 labelled.now) }
    ensures counts { O.faults sink.new ≡ faults_after (is_err result) (O.faults sink.old) }
{
    let circuit = labelled.circuit();
    write_all(sink, b"masked-circuit 2\n")?;
    write_input_groups(sink, labelled.input_groups())?;
    write_gates(sink, circuit.gates())?;
    write_output_groups(sink, labelled.output_groups(), circuit.outputs())?;
    write_all(sink, b"end\n")?;
    Ok(())
}
