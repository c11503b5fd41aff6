//! What a single word of a command line may be.

ghost use Rattle.std.specs.Prelude.{◌≡◌, ℕ, ◌<◌, List, length};
ghost use Rattle.std.specs.Prelude.{codes, IsTrue};
ghost use Rattle.mask_words.specs.WordTests.{passes, command_text, are_hex_digits, are_digits, are_seed_digits, present_size, lea_size, lightmac_size, is_hex_text, is_tape, is_order, is_number_between, is_wire, number_of, WiresHaveOneNumber};

use itoa::Buffer;
use mask_tasks::{KeySize, LeaSize, circuit_named};

/// The name of a command. Several rows of the table may have the same.
#[derive(Clone, Copy, Debug, PartialEq, Eq)]
pub enum Command {
    /// `enc`
    Enc,
    /// `mac`
    Mac,
    /// `eval`
    Eval,
    /// `check`
    Check,
    /// `upgrade`
    Upgrade,
    /// `probe`
    Probe,
    /// `split`
    Split,
    /// `join`
    Join,
    /// `emit`
    Emit,
    /// `self`
    SelfRun,
}

impl Command {
    fn text(self) -> &'static str
        ensures { result.now ≡ command_text self }
    {
        match self {
            Command::Enc => "enc",
            Command::Mac => "mac",
            Command::Eval => "eval",
            Command::Check => "check",
            Command::Upgrade => "upgrade",
            Command::Probe => "probe",
            Command::Split => "split",
            Command::Join => "join",
            Command::Emit => "emit",
            Command::SelfRun => "self",
        }
    }
}

/// What a word is tested for.
#[derive(Clone, Copy, Debug, PartialEq, Eq)]
pub enum Test {
    /// Any word that isn't empty.
    Given,
    /// The name of a tape: any word that isn't empty; one that begins with `seed:` goes on with 64 hexadecimal digits.
    Tape,
    /// The name of this command.
    Named(Command),
    /// PRESENT with a key size: `present-80` or `present-128`.
    Present,
    /// LEA with a key size: `lea-128`, `lea-192` or `lea-256`.
    Lea,
    /// The word `trivium`.
    Trivium,
    /// LightMAC with a key size: `lightmac-80` or `lightmac-128`.
    LightMac,
    /// The word `chaskey-12`.
    Chaskey,
    Order,
    /// So many hexadecimal digits, in either case.
    Digits(usize),
    /// The bytes of a counter of LightMAC: `1`, `2` or `4`.
    Counter,
    /// The bytes of a tag of LightMAC: `4` or `8`.
    LightMacTag,
    /// The bytes of a tag of Chaskey-12: `8` or `16`.
    ChaskeyTag,
    /// Bytes in hexadecimal: `-` for none, or an even number of digits, at least two, in either case.
    Hex,
    /// The number of a wire: in decimal, without a needless zero, and less than 2^32.
    Wire,
    /// The seed of a message: in decimal, without a needless zero, and at most 18446744073709551615.
    Seed,
    /// A count: in decimal, without a needless zero, and from 1 to 1048576.
    Count,
    /// The name of a circuit that is built in.
    Circuit,
}

impl Test {
    /// Whether the word passes.
    pub(crate) fn passes(self, word: &str) -> bool
        ensures { result ≡ passes self word.now }
    {
        match self {
            Test::Given => !word.is_empty(),
            Test::Tape => is_tape(word),
            Test::Named(command) => word == command.text(),
            Test::Present => present_size(word).is_some(),
            Test::Lea => lea_size(word).is_some(),
            Test::Trivium => word == "trivium",
            Test::LightMac => lightmac_size(word).is_some(),
            Test::Chaskey => word == "chaskey-12",
            Test::Order => is_order(word.as_bytes()),
            Test::Digits(count) => are_digits(count, word.as_bytes()),
            Test::Counter => word == "1" || word == "2" || word == "4",
            Test::LightMacTag => word == "4" || word == "8",
            Test::ChaskeyTag => word == "8" || word == "16",
            Test::Hex => is_hex_text(word),
            Test::Wire => is_number_between(0, 4_294_967_295, word),
            Test::Seed => is_number_between(0, 18_446_744_073_709_551_615, word),
            Test::Count => is_number_between(1, 1_048_576, word),
            Test::Circuit => circuit_named(word).is_some(),
        }
    }
}

fn are_hex_digits(digits: &[u8]) -> bool
    ensures { result ≡ are_hex_digits digits.now }
{
    digits.iter().all(|digit| digit.is_ascii_hexdigit())
}

fn are_digits(count: usize, digits: &[u8]) -> bool
    ensures { result ≡ are_digits count digits.now }
{
    digits.len() == count && are_hex_digits(digits)
}

pub(crate) fn are_seed_digits(digits: &[u8]) -> bool
    ensures { result ≡ are_seed_digits digits.now }
{
    are_digits(64, digits)
}

/// The key size of PRESENT that a CIPHER word names.
pub(crate) fn present_size(word: &str) -> Option<KeySize>
    ensures { result ≡ present_size word.now }
{
    match word {
        "present-80" => Some(KeySize::K80),
        "present-128" => Some(KeySize::K128),
        _ => None,
    }
}

/// The key size of LEA that a CIPHER word names.
pub(crate) fn lea_size(word: &str) -> Option<LeaSize>
    ensures { result ≡ lea_size word.now }
{
    match word {
        "lea-128" => Some(LeaSize::K128),
        "lea-192" => Some(LeaSize::K192),
        "lea-256" => Some(LeaSize::K256),
        _ => None,
    }
}

/// The key size of PRESENT that a word for LightMAC names.
pub(crate) fn lightmac_size(word: &str) -> Option<KeySize>
    ensures { result ≡ lightmac_size word.now }
{
    match word {
        "lightmac-80" => Some(KeySize::K80),
        "lightmac-128" => Some(KeySize::K128),
        _ => None,
    }
}

fn is_tape(word: &str) -> bool
    ensures { result ≡ is_tape word.now }
{
    match word.as_bytes().strip_prefix(b"seed:") {
        Some(digits) => are_seed_digits(digits),
        None => !word.is_empty(),
    }
}

fn is_order(word: &[u8]) -> bool
    ensures { result ≡ is_order word.now }
{
    match word {
        [digit] => *digit >= b'1' && *digit <= b'7',
        _ => false,
    }
}

fn is_hex_text(word: &str) -> bool
    ensures { result ≡ is_hex_text word.now }
{
    word == "-" || (!word.is_empty() && word.len() % 2 == 0 && are_hex_digits(word.as_bytes()))
}

// Only the spelling of a number is written the same again.
fn is_number_between(low: u64, high: u64, word: &str) -> bool
    ensures { result ≡ is_number_between low high word.now }
{
    match word.parse::<u64>() {
        Ok(number) => low <= number && number <= high && Buffer::new().format(number) == word,
        Err(_) => false,
    }
}

/// The number that a WIRE word spells.
pub fn wire_of(word: &str) -> u32
    requires { IsTrue (is_wire word.now) }
    ensures { result ≡ number_of word.now }
{
    word.parse::<u32>().unwrap()
}

/// Each number below 2^32 has a WIRE word, and each WIRE word spells one number.
pub fn wires_have_one_number()
    ensures { WiresHaveOneNumber }
{}
