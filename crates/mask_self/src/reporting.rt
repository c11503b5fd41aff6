//! The line that is printed, and the numbers in it.

ghost use Rattle.std.specs.Prelude.{◌≡◌, ℕ, suc, ◌+◌, ◌-◌, ◌*◌, ◌/◌, ◌^◌, ◌<◌, ◌≤◌, ◌++◌, List, length, replicate};
ghost use Rattle.arrayvec.specs.ArrayVec.{array_vec_len};
ghost use Rattle.mask_modes.specs.CounterMode.{xor_bytes};
ghost use Rattle.mask_ciphers.specs.Totals.{counter_bits};
ghost use Rattle.mask_self.specs.Reports.{line, sum_of_blocks};

use arrayvec::ArrayVec;
use itoa::Buffer;

// How many products and refreshes the circuit of a block has, and that of fresh shares of the key.
const BLOCK_GATES: u64 = 10_544;

const KEY_GATES: u64 = 128;

/// The XOR of the blocks of 16 bytes, the last one filled up with zeros.
pub(crate) fn sum_of_blocks(bytes: &[u8]) -> [u8; 16]
    requires { length bytes.now < 2 ^ 32 }
    ensures { result ≡ sum_of_blocks bytes.now }
{
    let mut sum = [0; 16];
    for i in 0..bytes.len().div_ceil(16) {
        let end = bytes.len().min(16 * i + 16);
        add_block(&mut sum, &bytes[16 * i..end]);
    }
    sum
}

// Adds a block that is filled up with zeros.
fn add_block(sum: &mut [u8; 16], block: &[u8])
    requires { length block.now ≤ 16 }
    ensures { sum.new ≡ xor_bytes sum.old (block.now ++ replicate (16 - length block.now) 0) }
{
    for (k, byte) in block.iter().enumerate() {
        sum[k] ^= *byte;
    }
}

/// How many evaluations so many bytes take: one for each block, and one for fresh shares of the key ahead of each 64 blocks but
/// the first.
pub(crate) fn calls(count: u32) -> u32
    requires some { 1 ≤ count }
    requires few { count ≤ 2 ^ 20 }
    ensures { result ≡ (count + 15) / 16 + (((count + 15) / 16 + 63) / 64 - 1) }
{
    let blocks = count.div_ceil(16);
    blocks + (blocks.div_ceil(64) - 1)
}

/// How many random bits so many bytes take at this order.
pub(crate) fn bits(count: u32, order: u32) -> u64
    requires some { 1 ≤ count }
    requires few { count ≤ 2 ^ 20 }
    requires order { order ≤ 7 }
    ensures { result ≡ counter_bits 128 10_544 128 order ((count + 15) / 16) }
{
    let blocks = u64::from(count.div_ceil(16));
    let order = u64::from(order);
    let gate = order * (order + 1) / 2;
    blocks * (order * 128 + BLOCK_GATES * gate) + (blocks.div_ceil(64) - 1) * (KEY_GATES * gate)
}

/// The line on so many bytes, calls and bits, and this block.
pub(crate) fn line(bytes: u32, calls: u32, bits: u64, block: &[u8; 16]) -> ArrayVec<u8, 128>
    ensures { result.items ≡ line bytes calls bits block.now }
{
    let mut text = ArrayVec::new();
    add(&mut text, b"self bytes ");
    add(&mut text, Buffer::new().format(bytes).as_bytes());
    add(&mut text, b" calls ");
    add(&mut text, Buffer::new().format(calls).as_bytes());
    add(&mut text, b" bits ");
    add(&mut text, Buffer::new().format(bits).as_bytes());
    add(&mut text, b" xor ");
    let mut digits = [0; 32];
    hex::encode_to_slice(block, &mut digits).unwrap();
    add(&mut text, &digits);
    add(&mut text, b"\n");
    text
}

fn add(text: &mut ArrayVec<u8, 128>, piece: &[u8])
    requires { array_vec_len text.old + length piece.now ≤ 128 }
    ensures items { text.new.items ≡ text.old.items ++ piece.now }
    ensures count { array_vec_len text.new ≡ array_vec_len text.old + length piece.now }
{
    text.try_extend_from_slice(piece).unwrap();
}
