//! The bytes that a session hands out, unmasked.

ghost use Rattle.std.specs.Prelude.{◌≡◌, ℕ, ◌*◌, ◌^◌, ◌<◌, ◌≤◌, List, length, OnOk, OnErr};
ghost use Rattle.std.specs.Result.{is_err};
ghost use Rattle.std.specs.Io.KnownBytes.{Appends};
ghost use Rattle.mask_io.specs.Outside.{AppendsProperPrefix, faults_after};
ghost use Rattle.mask_bits.specs.Lanes.{lane};
ghost use Rattle.mask_bits.specs.Reading.{AreBytes, bit};
ghost use Rattle.mask_circuit.specs.Ring.{bits};
ghost use Rattle.mask_circuit.specs.Sharing.{unmasked};
ghost use Rattle.mask_plan.specs.Sessions.{HandsOut, block_length, out_words};

use mask_bits::bit_of;
use mask_io::{Failed, Sink, write_all};
use mask_plan::Session;

/// Puts the bytes that the session has to hand out into this room, which is as long, and writes them by one write.
pub(crate) fn hand_out<const N: usize, O: Sink>(
    session: &Session<N>,
    room: &mut [u8],
    out: &mut O,
) -> Result<(), Failed>
    requires few { N ≤ 8 }
    requires room { length room.old ≤ 64 * block_length session.now.task }
    ensures length { length room.new ≡ length room.old }
    ensures whole { OnOk result ((bytes : List ℕ) → length bytes ≡ length room.old → AreBytes bytes → HandsOut session.now bytes →
        Appends (O.written out.old) (O.written out.new) bytes) }
    ensures part { OnErr result ((bytes : List ℕ) → length bytes ≡ length room.old → AreBytes bytes → HandsOut session.now bytes →
        AppendsProperPrefix (O.written out.old) (O.written out.new) bytes) }
    ensures counts { O.faults out.new ≡ faults_after (is_err result) (O.faults out.old) }
{
    let block = session.block_bytes();
    unmask_bytes(session, block, room);
    match write_all(out, room) {
        Ok(()) => Ok(()),
        Err(failed) => Err(failed),
    }
}

// The bytes of the latest blocks, of so many bytes each, one behind the other.
fn unmask_bytes<const N: usize>(session: &Session<N>, block: usize, bytes: &mut [u8])
    requires few { N ≤ 8 }
    requires block { block ≡ block_length session.now.task }
    requires some { 0 < block }
    requires room { length bytes.old ≤ 64 * block }
    ensures { (expected : List ℕ) → length expected ≡ length bytes.old → AreBytes expected → HandsOut session.now expected → bytes.new ≡ expected }
{
    for k in 0..bytes.len() {
        bytes[k] = unmask_byte(session, (k / block) as u32, (k % block) as u32);
    }
}

// A byte of the block in this lane.
fn unmask_byte<const N: usize>(session: &Session<N>, column: u32, byte: u32) -> u8
    requires few { N ≤ 8 }
    requires column { column < 64 }
    requires byte { byte < block_length session.now.task }
    ensures small { result < 2 ^ 8 }
    ensures bits { (p : ℕ) → p < 8 → bit p result ≡ unmasked bits (lane column (out_words session.now byte p)) }
{
    let mut value = 0;
    for place in 0..8u32 {
        let word = session.out_bit(byte, place).unmask();
        value += u8::from(bit_of(word, column)) << place;
    }
    value
}
