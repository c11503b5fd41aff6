//! Reading from a source.

ghost use Rattle.std.specs.Prelude.{◌≡◌, IfSome};
ghost use Rattle.mask_io.specs.Outside.{faults_after};
ghost use Rattle.mask_text.specs.Answers.{TakesFront, Answers, IsAnswerTo, failed_to_read};
ghost use Rattle.mask_text.specs.Text.{IsText, IsTextOf};

use crate::errors::TextError;
use crate::read::{MAX_TEXT, read_text};
use mask_circuit::{Circuit, Labelled};
use mask_io::Source;
use std::alloc::Global;

/// How many bytes are asked of a source at once.
pub const PIECE: usize = 4_096;

// All that is left of a source, unless that is too long.
fn read_all<S: Source>(alloc: Global, source: &mut S) -> Result<Vec<u8>, TextError>
    ensures answer { Answers (λ text bytes. text.items ≡ bytes) result
        (S.left source.old) (S.left source.new) }
    ensures front { TakesFront (S.left source.old) (S.left source.new) }
    ensures counts { S.faults source.new ≡ faults_after (failed_to_read result) (S.faults source.old) }
{
    let mut text = Vec::new(alloc);
    let mut piece = [0; PIECE];
    while text.len() <= MAX_TEXT {
        let count = source.read(&mut piece)?;
        if count == 0 {
            return Ok(text);
        }
        text.extend_from_slice(&piece[..count])?;
    }
    Err(TextError::TooLong {
        limit: MAX_TEXT as u64,
    })
}

/// Reads a labelled circuit from all that is left of a source.
///
/// The source is read to its end, or until a read fails or more than 2^25 bytes came.
pub fn read_labelled<S: Source>(alloc: Global, source: &mut S) -> Result<Labelled, TextError>
    ensures always { IfSome (S.left source.old) (λ bytes. IsAnswerTo (λ l. l) bytes result) }
    ensures only { Answers (λ l bytes. IsText bytes l) result
        (S.left source.old) (S.left source.new) }
    ensures front { TakesFront (S.left source.old) (S.left source.new) }
    ensures counts { S.faults source.new ≡ faults_after (failed_to_read result) (S.faults source.old) }
{
    let text = read_all(alloc, source)?;
    read_text(alloc, &text)
}

/// Reads a circuit from all that is left of a source, and drops the groups of a text that names
/// them. All else is as with [`read_labelled`].
pub fn read_circuit<S: Source>(alloc: Global, source: &mut S) -> Result<Circuit, TextError>
    ensures always { IfSome (S.left source.old) (λ bytes. IsAnswerTo (λ l. l.circuit) bytes result) }
    ensures only { Answers (λ c bytes. IsTextOf bytes c) result
        (S.left source.old) (S.left source.new) }
    ensures front { TakesFront (S.left source.old) (S.left source.new) }
    ensures counts { S.faults source.new ≡ faults_after (failed_to_read result) (S.faults source.old) }
{
    let labelled = read_labelled(alloc, source)?;
    Ok(labelled.into_circuit())
}
