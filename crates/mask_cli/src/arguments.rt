//! The words of the command line.

ghost use Rattle.std.specs.Prelude.{◌≤◌, length};

use mask_words::Words;
use std::alloc::{AllocError, Global};
use std::env::{Env, FillError};

// The most words of a command line.
const MOST: usize = 1_000_000;

/// The words behind the program's name, and whether there are more of them than a command line may have. A word that isn't
/// UTF-8 becomes the empty word.
pub fn read_words_of(rt: &impl Env, alloc: Global) -> Result<(Words, bool), AllocError> {
    let mut words = Words::new(alloc);
    for read in 0..MOST {
        let Some(word) = argument(rt, alloc, read + 1)? else {
            return Ok((words, false));
        };
        words.push(std::str::from_utf8(&word).unwrap_or(""))?;
    }
    let further = argument(rt, alloc, MOST + 1)?;
    Ok((words, further.is_some()))
}

// The bytes of an argument, where there is one at this place. The buffer is doubled until they fit.
fn argument(rt: &impl Env, alloc: Global, place: usize) -> Result<Option<Vec<u8>>, AllocError> {
    for doublings in 0..24u32 {
        let mut buffer = vec![in alloc; 0u8; 4096usize << doublings]?;
        match rt.arg(place, &mut buffer) {
            Ok(length) => {
                buffer.truncate(length);
                return Ok(Some(buffer));
            }
            Err(FillError::NotPresent) => return Ok(None),
            Err(FillError::TooLong) => {}
        }
    }
    // No system hands over an argument of so many bytes.
    Err(AllocError)
}
