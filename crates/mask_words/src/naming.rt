//! What the first two words name, and the bytes of a word in hexadecimal.

ghost use Rattle.std.specs.Prelude.{◌≡◌, ◌+◌, false, IsTrue, IfOk, MatchOption};
ghost use Rattle.hex.specs.Hex.{decode_of};
ghost use Rattle.mask_words.specs.WordTests.{is_hex_text, are_seed_digits};
ghost use Rattle.mask_words.specs.Jobs.{word_at};
ghost use Rattle.mask_words.specs.Naming.{hex_bytes, is_path, NamesTape};

use crate::command_lines::Words;
use crate::word_tests::are_seed_digits;
use hex::{FromHex, FromHexError};
use std::alloc::{AllocError, Global};

/// The tape that the second word names.
#[derive(Clone, Copy)]
pub enum TapeName<'a> {
    /// `seed:` and 64 hexadecimal digits, which name these bytes.
    Seed([u8; 32]),
    /// The path of a file: any other word that doesn't begin with `seed:`.
    Path(&'a str),
    /// `-`, a seed out of form, or no word.
    NoTape,
}

// A word that isn't there is the empty one.
fn word_or_empty(words: &Words, k: usize) -> &str
    ensures { result.now ≡ word_at words.now (k + 1) }
{
    if k < words.len() { words.word(k) } else { "" }
}

fn is_path(word: &str) -> bool
    ensures { result ≡ is_path word.now }
{
    !word.is_empty() && word != "-"
}

/// The path of the key file that the first word names; `-` names none.
pub fn keys_path(words: &Words) -> Option<&str>
    ensures { MatchOption result (is_path (word_at words.now 1) ≡ false)
        (λ path. IsTrue (is_path (word_at words.now 1)) × (path.now ≡ word_at words.now 1)) }
{
    let word = word_or_empty(words, 0);
    if is_path(word) { Some(word) } else { None }
}

/// The tape that the second word names.
pub fn tape_name(words: &Words) -> TapeName<'_>
    ensures { NamesTape (word_at words.now 2) result }
{
    let word = word_or_empty(words, 1);
    match word.as_bytes().strip_prefix(b"seed:") {
        Some(digits) if are_seed_digits(digits) => TapeName::Seed(seed_of(digits)),
        None if is_path(word) => TapeName::Path(word),
        _ => TapeName::NoTape,
    }
}

fn seed_of(digits: &[u8]) -> [u8; 32]
    requires { IsTrue (are_seed_digits digits.now) }
    ensures { decode_of digits.now ≡ Ok result }
{
    <[u8; 32] as FromHex>::from_hex(digits).unwrap()
}

/// The bytes that a HEX word names: none for `-`.
pub fn hex_bytes(alloc: Global, word: &str) -> Result<Vec<u8>, AllocError>
    requires { IsTrue (is_hex_text word.now) }
    ensures { IfOk result (λ bytes. bytes.items ≡ hex_bytes word.now) }
{
    if word == "-" {
        return Ok(Vec::new(alloc));
    }
    match hex::decode(alloc, word) {
        Ok(bytes) => Ok(bytes),
        Err(error) => {
            // The word is an even number of digits, so only memory can be wanting.
            prove!(matches!(&error, FromHexError::OutOfMemory));
            Err(AllocError)
        }
    }
}
