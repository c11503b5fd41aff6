//! Splitting a key into lines.

ghost use Rattle.std.specs.Prelude.{◌≡◌, ◌*◌, ◌≤◌, false, length, OnOk, OnErr, slice_index_or};
ghost use Rattle.std.specs.Io.KnownBytes.{Appends};
ghost use Rattle.std.specs.Result.{is_err};
ghost use Rattle.mask_bits.specs.Lanes.{lane};
ghost use Rattle.mask_bits.specs.Reading.{bit, lowest, low};
ghost use Rattle.mask_circuit.specs.Ring.{bits};
ghost use Rattle.mask_circuit.specs.Sharing.{shared};
ghost use Rattle.mask_io.specs.Outside.{faults_after, AppendsProperPrefix};
ghost use Rattle.mask_tape.specs.Tape.{new_bytes};
ghost use Rattle.mask_keys.specs.Files.{key_file};
ghost use Rattle.mask_keys.specs.Splitting.{split_line, split_lines, split_bits, shares_at, Splits, failed_to_draw, failed_to_write};

use crate::files::line_text;
use crate::lines::KeyBytes;
use arrayvec::ArrayVec;
use mask_bits::bit_of;
use mask_io::{Entropy, Failed, Sink, write_all};
use mask_tape::{Coins, Tape, TapeError};
use std::alloc::Global;

/// Why a key wasn't split.
#[derive(Clone, Copy, Debug, PartialEq, Eq)]
pub enum SplitError {
    /// The entropy failed. Nothing was written.
    TapeFault,
    /// The sink failed. A part of the key file was written, and not all of it.
    WriteFault,
    /// There is no memory. Nothing was drawn or written.
    NoMemory,
}

// As many coins as a key of 64 bytes takes at order 7.
const MOST_COINS: usize = 3_584;

/// Splits a key into `order + 1` lines, of which any `order` show nothing of it, and writes them as a key file.
///
/// For each bit of the key, the lowest of a byte first, the next `order` bits of the tape are its shares in lines 1 to
/// `order`, and its share in line 0 is the bit plus all of these.
pub fn split_key<E: Entropy, O: Sink>(
    alloc: Global,
    key: &KeyBytes,
    order: u32,
    tape: &mut Tape,
    entropy: &mut E,
    sink: &mut O,
) -> Result<(), SplitError>
    requires some { 1 ≤ order }
    requires few { order ≤ 7 }
    ensures splits { Splits order key.now
        (record {
          kept_before = tape.old;
          kept_now = tape.new;
          left_before = E.left entropy.old;
          left_now = E.left entropy.new;
          wanted = E.wanted entropy.new;
          written_before = O.written sink.old;
          written_now = O.written sink.new;
        }) result }
    ensures unwritten { result ≡ Err SplitError.TapeFault → sink.new ≡ sink.old }
    ensures idle { result ≡ Err SplitError.NoMemory → (sink.new ≡ sink.old) × (entropy.new ≡ entropy.old) }
    ensures wants { failed_to_draw result ≡ false → E.wanted entropy.new ≡ E.wanted entropy.old }

    // The tape keeps bits enough: the entropy isn't asked.
    ensures unasked { new_bytes tape.old (split_bits order key.now) ≡ 0 → entropy.new ≡ entropy.old }
    ensures counts { E.faults entropy.new ≡ faults_after (failed_to_draw result) (E.faults entropy.old) }
    ensures sink_counts { O.faults sink.new ≡ faults_after (failed_to_write result) (O.faults sink.old) }
{
    let key = key.as_slice();
    let order = order as usize;
    let bits = 8 * order * key.len();
    let coins = match tape.reserve(alloc, entropy, 1, bits as u64) {
        Ok(coins) => bits_of(coins),
        Err(TapeError::Failed) => return Err(SplitError::TapeFault),
        Err(TapeError::NoMemory) => return Err(SplitError::NoMemory),
    };
    match write_lines(key, order, coins.as_slice(), sink) {
        Ok(()) => Ok(()),
        Err(_) => Err(SplitError::WriteFault),
    }
}

// The bit that each coin has in lane 0. The coins are spent.
fn bits_of(mut coins: Coins) -> ArrayVec<bool, MOST_COINS>
    requires unused { coins.used ≡ 0 }
    requires few { length coins.words ≤ 3584 }
    ensures { result.items ≡ lane 0 coins.words }
{
    let mut bits = ArrayVec::new();
    while coins.left() > 0 {
        bits.push(bit_of(coins.next(), 0));
    }
    coins.finish();
    bits
}

fn write_lines<O: Sink>(
    key: &[u8],
    order: usize,
    coins: &[bool],
    sink: &mut O,
) -> Result<(), Failed>
    requires some { 1 ≤ length key.now }
    requires short { length key.now ≤ 64 }
    requires few { order ≤ 7 }
    requires coins { length coins.now ≡ 8 * order * length key.now }
    ensures whole { OnOk result (Appends (O.written sink.old) (O.written sink.new)
        (key_file (split_lines order key.now coins.now))) }
    ensures part { OnErr result (AppendsProperPrefix (O.written sink.old) (O.written sink.new)
        (key_file (split_lines order key.now coins.now))) }
    ensures counts { O.faults sink.new ≡ faults_after (is_err result) (O.faults sink.old) }
{
    for k in 0..order + 1 {
        let text = line_text(&line_at(key, order, coins, k));
        match write_all(sink, text.as_slice()) {
            Ok(()) => {}
            Err(failed) => return Err(failed),
        }
    }
    Ok(())
}

// Line k: share k of each bit of the key.
fn line_at(key: &[u8], order: usize, coins: &[bool], k: usize) -> KeyBytes
    requires some { 1 ≤ length key.now }
    requires short { length key.now ≤ 64 }
    requires few { order ≤ 7 }
    requires share { k ≤ order }
    requires coins { length coins.now ≡ 8 * order * length key.now }
    ensures { result ≡ split_line order key.now coins.now k }
{
    let mut line = [0; 64];
    let mut rest = coins;
    for b in 0..key.len() {
        let (own, others) = rest.split_at(8 * order);
        line[b] = byte_at(key[b], order, own, k);
        rest = others;
    }
    KeyBytes::new(&line[..key.len()])
}

// Share k of each bit of a byte, which are shared with these coins.
fn byte_at(byte: u8, order: usize, coins: &[bool], k: usize) -> u8
    requires few { order ≤ 7 }
    requires share { k ≤ order }
    requires coins { length coins.now ≡ 8 * order }
    ensures { lowest 8 result ≡ shares_at order k (lowest 8 byte) coins.now }
{
    let mut shares = 0;
    let mut rest = coins;
    for place in 0..8u32 {
        let (own, others) = rest.split_at(order);
        shares += u8::from(share_at(bit_of(u64::from(byte), place), own, k)) << place;
        rest = others;
    }
    shares
}

// Share k of a bit that is shared with these coins.
fn share_at(bit: bool, coins: &[bool], k: usize) -> bool
    requires { k ≤ length coins.now }
    ensures { result ≡ slice_index_or (shared bits bit coins.now) k false }
{
    if k == 0 {
        coins.iter().fold(bit, |sum, coin| sum ^ *coin)
    } else {
        coins[k - 1]
    }
}
