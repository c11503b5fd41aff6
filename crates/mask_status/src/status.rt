//! How a run of the command ends.

ghost use Rattle.std.specs.Prelude.{◌≡◌, ◌++◌, ◌+◌, ◌≤◌, length, codes, decimal};
ghost use Rattle.arrayvec.specs.ArrayVec.{array_vec_len};
ghost use Rattle.arrayvec.specs.ArrayString.{array_string_len};
ghost use Rattle.mask_status.specs.Statuses.{status_number, text_of, key_text, reason_text};

use arrayvec::ArrayString;
use itoa::Buffer;
use mask_text::Reason;

/// What is wrong with a key file.
#[derive(Clone, Copy, Debug, PartialEq, Eq)]
pub enum KeyReason {
    /// It has more bytes than a key file may have.
    Long,
    /// This line, counted from 1, is the first that is no line of a key of the length asked for.
    Line { line: u32 },
    /// It has this number of lines, and not the one asked for.
    Count { found: u32 },
}

/// The end of a run.
#[derive(Clone, Copy, Debug, PartialEq, Eq)]
pub enum Status {
    /// The report was written whole.
    Done,
    /// The circuit isn't accepted: its lowest product whose operands share a source, and their lowest shared source.
    Refused { product: u32, source: u32 },
    /// The words are no job, at this place counted from 1; or what they name doesn't fit the input.
    BadWords { place: u32 },
    /// The key file is out of form.
    BadKeys(KeyReason),
    /// The circuit text has a fault, first in this line.
    BadText { line: u32, reason: Reason },
    /// The input has more bytes than this.
    TooLong { limit: u64 },
    /// Reading the input failed.
    ReadFault,
    /// Reading the key file failed.
    KeyFault,
    /// Drawing from the tape failed.
    TapeFault,
    /// Writing failed.
    WriteFault,
    /// The word at this place, counted from 1, is a probe too many, or names no wire of the circuit.
    BadProbe { place: u32 },
    /// There is no memory.
    NoMemory,
}

/// The number that the program ends with.
pub fn status_number(status: &Status) -> u8
    ensures { result ≡ status_number status.now }
{
    match *status {
        Status::Done => 0,
        Status::Refused { .. } => 1,
        Status::BadWords { .. } => 2,
        Status::BadKeys(_) => 3,
        Status::BadText { .. } => 4,
        Status::TooLong { .. } => 5,
        Status::ReadFault => 6,
        Status::KeyFault => 7,
        Status::TapeFault => 8,
        Status::WriteFault => 9,
        Status::BadProbe { .. } => 10,
        Status::NoMemory => 11,
    }
}

/// What the program says of its end, in a line without its line feed.
pub fn status_text(status: &Status) -> ArrayString<80>
    ensures { result.bytes ≡ text_of status.now }
{
    match *status {
        Status::Done => said("done"),
        Status::Refused { product, source } => refused(product, source),
        Status::BadWords { place } => numbered("bad words: place ", u64::from(place)),
        Status::BadKeys(reason) => bad_keys(reason),
        Status::BadText { line, reason } => bad_text(line, reason),
        Status::TooLong { limit } => numbered("too long: limit ", limit),
        Status::ReadFault => said("read fault"),
        Status::KeyFault => said("key fault"),
        Status::TapeFault => said("tape fault"),
        Status::WriteFault => said("write fault"),
        Status::BadProbe { place } => numbered("bad probe: place ", u64::from(place)),
        Status::NoMemory => said("no memory"),
    }
}

fn said(words: &str) -> ArrayString<80>
    requires { length words.now ≤ 20 }
    ensures { result.bytes ≡ words.now }
{
    let mut text = ArrayString::new();
    text.push_str(words);
    text
}

fn numbered(words: &str, number: u64) -> ArrayString<80>
    requires { length words.now ≤ 20 }
    ensures text { result.bytes ≡ words.now ++ decimal number }
    ensures short { array_string_len result ≤ 60 }
{
    let mut text = said(words);
    text.push_str(Buffer::new().format(number));
    text
}

fn refused(product: u32, source: u32) -> ArrayString<80>
    ensures { result.bytes ≡ codes "refused: product " ++ decimal product ++ codes " source " ++ decimal source }
{
    let mut text = numbered("refused: product ", u64::from(product));
    text.push_str(" source ");
    text.push_str(Buffer::new().format(source));
    text
}

fn bad_keys(reason: KeyReason) -> ArrayString<80>
    ensures { result.bytes ≡ codes "bad keys: " ++ key_text reason }
{
    match reason {
        KeyReason::Long => said("bad keys: long"),
        KeyReason::Line { line } => numbered("bad keys: line ", u64::from(line)),
        KeyReason::Count { found } => numbered("bad keys: found ", u64::from(found)),
    }
}

fn bad_text(line: u32, reason: Reason) -> ArrayString<80>
    ensures { result.bytes ≡ codes "bad text: line " ++ decimal line ++ codes ": " ++ reason_text reason }
{
    let mut text = numbered("bad text: line ", u64::from(line));
    text.push_str(": ");
    text.push_str(reason_text(reason));
    text
}

fn reason_text(reason: Reason) -> &'static str
    ensures text { result.now ≡ reason_text reason }
    ensures short { length result.now ≤ 15 }
{
    match reason {
        Reason::BadHeader => "bad-header",
        Reason::BadLine => "bad-line",
        Reason::UnknownValue => "unknown-value",
        Reason::NoEnd => "no-end",
        Reason::AfterEnd => "after-end",
        Reason::TooManyValues => "too-many-values",
        Reason::BadName => "bad-name",
    }
}
