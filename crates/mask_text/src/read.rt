//! Reading a text.

ghost use Rattle.std.specs.Prelude.{◌≡◌, ◌^◌, ◌≤◌, length, IfOk, IfErr};
ghost use Rattle.mask_text.specs.Faults.{fault, fault_at};
ghost use Rattle.mask_text.specs.Readers.{TellsFault, error_at};
ghost use Rattle.mask_text.specs.Text.{IsText};

use crate::errors::{Reason, Stop, TextError};
use crate::lines::next_line;
use crate::reader::Reader;
use mask_circuit::Labelled;
use std::alloc::Global;

/// The most bytes of a text.
pub const MAX_TEXT: usize = 33_554_432;

impl TextError {
    fn at(line: u32, stop: Stop) -> TextError
        ensures { result ≡ error_at line stop }
    {
        match stop {
            Stop::Faulty(reason) => TextError::Bad { line, reason },
            Stop::NoMemory => TextError::NoMemory,
        }
    }
}

/// Reads a labelled circuit from the whole of a text of at most 2^25 bytes.
pub fn read_text(alloc: Global, text: &[u8]) -> Result<Labelled, TextError>
    requires { length text.now ≤ 2 ^ 25 }
    ensures found { IfOk result (λ l. IsText text.now l) }
    ensures bad { IfErr result (λ e. TellsFault e (fault text.now)) }
{
    let mut reader = Reader::new(alloc);
    let mut number = 1;
    let mut rest = text;
    while let Some((line, after)) = next_line(rest) {
        if let Err(stop) = reader.line(alloc, line) {
            return Err(TextError::at(number, stop));
        }
        number += 1;
        rest = after;
    }
    if !reader.has_ended() {
        return Err(TextError::Bad {
            line: number,
            reason: Reason::NoEnd,
        });
    }
    Ok(reader.finish())
}
