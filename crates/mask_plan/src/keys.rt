//! The shares of the bits of a key, from key lines.

ghost use Rattle.std.specs.Prelude.{◌≡◌, ℕ, ◌*◌, ◌<◌, ◌≤◌, false, List, ◌++◌, length, map, take, drop, slice_index_or, IfOk};
ghost use Rattle.mask_bits.specs.Lanes.{lane};
ghost use Rattle.mask_bits.specs.Reading.{bit, low, high};
ghost use Rattle.mask_keys.specs.Lines.{line_length};
ghost use Rattle.mask_tasks.specs.Tasks.{key_bytes};
ghost use Rattle.mask_ciphers.specs.Tasks.{key_bits, key_shares};

use mask_bits::bit_of;
use mask_keys::KeyLines;
use mask_shares::Shares;
use mask_tasks::Task;
use std::alloc::{AllocError, Global};

/// The shares of each bit of the key, in lane 0: share i of a bit is its bit in line i.
pub(crate) fn shares_of_key<const N: usize>(
    alloc: Global,
    task: &Task,
    key: &KeyLines,
) -> Result<Vec<Shares<N>>, AllocError>
    requires few { N ≤ 8 }
    requires lines { length key.now ≡ N }
    requires length { line_length key.now ≡ key_bytes task.now }
    ensures shares { IfOk result (λ shares. map (lane 0) shares.items ≡ key_shares task.now key.now) }
    ensures count { IfOk result (λ shares. length shares.items ≡ 8 * key_bytes task.now) }
{
    let mut shares = Vec::new(alloc);
    for j in 0..8 * key.length() as usize {
        shares.push(bit_shares(task, key, j))?;
    }
    Ok(shares)
}

// The shares of bit j of the key.
fn bit_shares<const N: usize>(task: &Task, key: &KeyLines, j: usize) -> Shares<N>
    requires few { N ≤ 8 }
    requires lines { length key.now ≡ N }
    requires bit { j < 8 * line_length key.now }
    ensures { lane 0 result ≡ map (λ (line : List ℕ). slice_index_or (key_bits task.now line) j false) key.now }
{
    let mut parts = [0; N];
    for i in 0..N {
        parts[i] = line_bit(task, key.line(i as u32), j);
    }
    Shares::from_parts(parts)
}

// Bit j of a key line, as the cipher reads its bytes: a word that has it in lane 0.
fn line_bit(task: &Task, line: &[u8], j: usize) -> u64
    requires { j < 8 * length line.now }
    ensures { bit 0 result ≡ slice_index_or (key_bits task.now line.now) j false }
{
    match *task {
        Task::Present { .. } => high_bit(line, j),
        Task::Lea { .. } | Task::Trivium { .. } | Task::Chaskey { .. } => low_bit(line, j),
        Task::LightMac { size, .. } => bit_of_two(line, size.bytes() as usize, j),
    }
}

// Bit j of two big-endian numbers, one behind the other: the first has so many bytes.
fn bit_of_two(bytes: &[u8], front: usize, j: usize) -> u64
    requires { j < 8 * length bytes.now }
    ensures { bit 0 result ≡ slice_index_or (high (take front bytes.now) ++ high (drop front bytes.now)) j false }
{
    let (first, second) = bytes.split_at(front.min(bytes.len()));
    if j / 8 < first.len() {
        high_bit(first, j)
    } else {
        high_bit(second, j - 8 * first.len())
    }
}

// Bit j of a little-endian number, that of weight 1 first.
fn low_bit(bytes: &[u8], j: usize) -> u64
    requires { j < 8 * length bytes.now }
    ensures { bit 0 result ≡ slice_index_or (low bytes.now) j false }
{
    u64::from(bit_of(u64::from(bytes[j / 8]), (j % 8) as u32))
}

// Bit j of a big-endian number, that of weight 1 first.
fn high_bit(bytes: &[u8], j: usize) -> u64
    requires { j < 8 * length bytes.now }
    ensures { bit 0 result ≡ slice_index_or (high bytes.now) j false }
{
    let byte = bytes[bytes.len() - 1 - j / 8];
    u64::from(bit_of(u64::from(byte), (j % 8) as u32))
}
