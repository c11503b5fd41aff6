//! The key lines and the IV that a generator makes.

ghost use Rattle.std.specs.Prelude.{◌≡◌, ℕ, ◌+◌, ◌*◌, ◌≤◌, length};
ghost use Rattle.mask_bits.specs.Reading.{big_endian};
ghost use Rattle.mask_keys.specs.Lines.{AreKeyLines, lines_of};
ghost use Rattle.mask_self.specs.Generator.{number_at, bytes_from};

use crate::generator::Generator;
use mask_keys::KeyLines;

/// So many key lines of 16 bytes, of the next bytes.
pub(crate) fn make_lines(generator: &mut Generator, count: u32) -> KeyLines
    requires some { 1 ≤ count }
    requires few { count ≤ 8 }
    ensures lines { result ≡ lines_of count 16 (bytes_from generator.old 0 (16 * count)) }
    ensures count { length result ≡ count }
    ensures shape { AreKeyLines result }
    ensures after { generator.new ≡ number_at generator.old (16 * count) }
{
    let mut bytes = [0; 128];
    let room = &mut bytes[..16 * count as usize];
    generator.fill(room);
    KeyLines::cut(room, count)
}

/// The IV of the next 16 bytes.
pub(crate) fn make_iv(generator: &mut Generator) -> u128
    ensures iv { result ≡ big_endian (bytes_from generator.old 0 16) }
    ensures after { generator.new ≡ number_at generator.old 16 }
{
    let mut bytes = [0; 16];
    generator.fill(&mut bytes);
    big_endian(&bytes)
}

// The number that bytes stand for, where the first one weighs most.
fn big_endian(bytes: &[u8]) -> u128
    requires { length bytes.now ≤ 16 }
    ensures { result ≡ big_endian bytes.now }
{
    let mut number = 0;
    for byte in bytes {
        number = 256 * number + u128::from(*byte);
    }
    number
}
