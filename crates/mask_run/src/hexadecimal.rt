//! Bits in hexadecimal, as a command line names them and as a report prints them.

ghost use Rattle.std.specs.Prelude.{◌≡◌, ℕ, ◌+◌, ◌*◌, ◌/◌, ◌<◌, ◌≤◌, take, drop, replicate, length, IfOk, IsTrue, ◌++◌, ◌↔◌, false, MatchOption};
ghost use Rattle.std.specs.List.{AllWithin};
ghost use Rattle.hex.specs.Hex.{encode_lower};
ghost use Rattle.mask_words.specs.WordTests.{is_hex_text};
ghost use Rattle.mask_bits.specs.Reading.{low, bytes_for};
ghost use Rattle.mask_words.specs.Naming.{hex_bytes};
ghost use Rattle.mask_inspect.specs.Checks.{FitInputs};
ghost use Rattle.mask_run.specs.Hexadecimal.{IsInputOf, IsReport};

use mask_bits::{Bits, bits_low_first, pack_low};
use mask_words::hex_bytes;
use std::alloc::{AllocError, Global};

/// The bits that `word` names for a circuit with so many inputs, where they fit it.
pub fn input_bits(alloc: Global, word: &str, inputs: u32) -> Result<Option<Bits>, AllocError>
    requires { IsTrue (is_hex_text word.now) }
    ensures { IfOk result (λ found. MatchOption found (FitInputs (hex_bytes word.now) inputs → ⊥) (IsInputOf word.now inputs)) }
{
    let bytes = hex_bytes(alloc, word)?;
    let inputs = inputs as usize;
    if bytes.len() != inputs.div_ceil(8) {
        return Ok(None);
    }
    let bits = bits_low_first(alloc, &bytes)?;
    if !are_zeros_from(&bits, inputs) {
        return Ok(None);
    }
    Ok(Some(first_bits(alloc, &bits, inputs)?))
}

fn are_zeros_from(bits: &Bits, start: usize) -> bool
    ensures { IsTrue result ↔ AllWithin (λ bit. bit ≡ false) bits.now start (length bits.now) }
{
    for k in start..bits.len() {
        if bits.get(k) {
            return false;
        }
    }
    true
}

fn first_bits(alloc: Global, bits: &Bits, count: usize) -> Result<Bits, AllocError>
    requires { count ≤ length bits.now }
    ensures bits { IfOk result (λ first. first ≡ take count bits.now) }
    ensures count { IfOk result (λ first. length first ≡ count) }
{
    let mut first = Bits::new(alloc);
    for k in 0..count {
        first.push(bits.get(k))?;
    }
    Ok(first)
}

/// Room for the report on bits that aren't known yet. It takes all memory of the report, so that none is wanted once coins
/// are drawn.
#[derive(Drop)]
pub(crate) struct Report {
    bytes: Vec<u8>,
    line: Vec<u8>,
    ghost blank: { line.items ≡ replicate (2 * length bytes.items + 1) 10 },
}

impl Report {
    /// Room for so many bits.
    pub(crate) fn new(alloc: Global, bits: usize) -> Result<Report, AllocError>
        ensures { IfOk result (λ r. length r.bytes.items ≡ bytes_for bits) }
    {
        let bytes = vec![in alloc; 0; bits.div_ceil(8)]?;
        let line = vec![in alloc; b'\n'; 2 * bytes.len() + 1]?;
        Ok(Report { bytes, line })
    }

    /// The bits as lower-case hexadecimal, the first bit of a byte its lowest, and a line feed.
    pub(crate) fn print(self, bits: &Bits) -> Vec<u8>
        requires { length self.bytes.items ≡ bytes_for (length bits.now) }
        ensures { IsReport bits.now result.items }
    {
        let Report {
            mut bytes,
            mut line,
        } = self;
        pack_low(bits, &mut bytes);
        write_digits(&bytes, &mut line);
        line
    }
}

// Writes two digits for each byte to the front of the line.
fn write_digits(bytes: &[u8], line: &mut [u8])
    requires { 2 * length bytes.now + 1 ≡ length line.old }
    ensures { line.new ≡ encode_lower bytes.now ++ drop (2 * length bytes.now) line.old }
{
    let end = line.len() - 1;
    hex::encode_to_slice(bytes, &mut line[..end]).unwrap();
}
