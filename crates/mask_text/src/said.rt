//! What a line says.

use mask_circuit::Gate;

/// A line in form, with the name of its group as it stands in the text.
#[derive(Clone, Copy)]
pub enum Said<'a> {
    /// `masked-circuit 1`
    First,
    /// `masked-circuit 2`
    Second,
    /// `inputs n`
    Inputs(u32),
    /// `input NAME n`
    Input(&'a [u8], u32),
    /// A line of a gate.
    Makes(Gate),
    /// `output NAME n`
    Output(&'a [u8], u32),
    /// `out u`
    Out(u32),
    /// `end`
    End,
}
