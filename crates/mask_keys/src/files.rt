//! Reading key files.

ghost use Rattle.std.specs.Prelude.{◌≡◌, ℕ, ◌<◌, ◌≤◌, false, List, length, take, IsTrue, IfOk, IfErr, OnErr, MatchOption, IfSome};
ghost use Rattle.std.specs.Result.{is_err};
ghost use Rattle.std.specs.Io.KnownBytes.{Consumes, IsAtEnd};
ghost use Rattle.mask_io.specs.Outside.{faults_after};
ghost use Rattle.mask_text.specs.Lines.{text_lines};
ghost use Rattle.mask_keys.specs.Files.{spelled, is_in_form, wanted, fault, line_text, IsKeyFile, IsLength};
ghost use Rattle.mask_keys.specs.Answers.{Reads, IsAnswerTo, failed_to_read};

use crate::lines::{KeyBytes, KeyLines};
use arrayvec::ArrayVec;
use mask_io::{Source, read_full};
use mask_text::{bare, next_line};

/// How many bytes each key line has.
#[derive(Clone, Copy, Debug, PartialEq, Eq)]
pub enum KeyLength {
    /// As many as this, 1 to 64.
    Exactly(u32),
    /// As many as the first line, which has 1 to 64.
    Any,
}

/// Why no key lines were read.
#[derive(Clone, Copy, Debug, PartialEq, Eq)]
pub enum KeyError {
    /// The source failed.
    KeyFault,
    /// The key file has more than 4,096 bytes.
    Long,
    /// The first line that isn't in form, counted from 1.
    Line { line: u32 },
    /// All lines are in form, and there are not as many as asked, but this many.
    Count { found: u32 },
}

// A byte more than a key file may have.
const ROOM: usize = 4_097;

/// Reads key lines from all that is left of a source.
///
/// The source is read to its end, or until a read fails or more than 4,096 bytes came.
pub fn read_keys<K: Source>(
    keys: &mut K,
    lines: u32,
    length: KeyLength,
) -> Result<KeyLines, KeyError>
    requires some { 1 ≤ lines }
    requires few { lines ≤ 8 }
    requires length { IsLength length }
    ensures always { IfSome (K.left keys.old) (λ bytes. IsAnswerTo lines length bytes result) }
    ensures only { Reads lines length (K.left keys.old) (K.left keys.new) result }
    ensures counts { K.faults keys.new ≡ faults_after (failed_to_read result) (K.faults keys.old) }
{
    let mut file = [0; ROOM];
    let came = match read_full(keys, &mut file) {
        Ok(came) => came,
        Err(_) => return Err(KeyError::KeyFault),
    };
    if came == ROOM {
        return Err(KeyError::Long);
    }
    lines_in(&file[..came], lines, length)
}

// The key lines that the bytes of a key file are, or its first fault.
fn lines_in(file: &[u8], count: u32, asked: KeyLength) -> Result<KeyLines, KeyError>
    requires some { 1 ≤ count }
    requires few { count ≤ 8 }
    requires length { IsLength asked }
    requires short { length file.now ≤ 4096 }
    ensures lines { IfOk result (λ lines. IsKeyFile count asked file.now lines) }
    ensures bad { IfErr result (λ e. fault count asked file.now ≡ Some e) }
{
    let size = wanted(file, asked);
    let mut bytes = ArrayVec::new();
    let mut found = 0;
    let mut rest = file;
    while let Some((line, after)) = next_line(rest) {
        found += 1;
        let Some(key) = spelled(line, size) else {
            return Err(KeyError::Line { line: found });
        };
        // Of more than 8 lines some find no room here: they are counted, and then refused.
        let _kept = bytes.try_extend_from_slice(key.as_slice());
        rest = after;
    }
    if found != count {
        return Err(KeyError::Count { found });
    }
    Ok(KeyLines::new(bytes, count as usize, size))
}

// How many bytes each line has to spell.
fn wanted(file: &[u8], asked: KeyLength) -> usize
    ensures { result ≡ wanted asked (text_lines file.now) }
{
    match asked {
        KeyLength::Exactly(length) => length as usize,
        KeyLength::Any => match next_line(file) {
            Some((line, _)) => bare(line).len() / 2,
            None => 0,
        },
    }
}

// The key of `size` bytes that a line spells, where it is in form.
fn spelled(line: &[u8], size: usize) -> Option<KeyBytes>
    ensures { MatchOption result (is_in_form size line.now ≡ false)
        (λ key. IsTrue (is_in_form size line.now) × (spelled size line.now ≡ Ok key) × (length key ≡ size)) }
{
    if size == 0 || size > 64 {
        return None;
    }
    let mut bytes = [0; 64];
    match hex::decode_to_slice(bare(line), &mut bytes[..size]) {
        Ok(()) => Some(KeyBytes::new(&bytes[..size])),
        Err(_) => None,
    }
}

/// A key line as text: hexadecimal in lower case, and a line feed.
pub fn line_text(line: &KeyBytes) -> ArrayVec<u8, 129>
    ensures { result.items ≡ line_text line.now }
{
    let line = line.as_slice();
    let mut digits = [0; 128];
    let count = 2 * line.len();
    hex::encode_to_slice(line, &mut digits[..count]).unwrap();
    let mut text = ArrayVec::new();
    text.try_extend_from_slice(&digits[..count]).unwrap();
    text.push(b'\n');
    text
}
