ghost use Rattle.std.specs.Prelude.{◌≡◌, ◌<◌};

use crate::StreamRun;
use mask_bits::bit_of;
use mask_circuit::Steps;
use mask_eval::NoWatch;
use mask_io::SeedEntropy;
use mask_shares::Shares;
use mask_tape::Tape;
use std::alloc::Global;
use std::marker::Brand;
use std::sync::ledger::{Blank, Ledger};
use std::test::Fail;

const KEY: [u8; 10] = [0x01, 0x23, 0x45, 0x67, 0x89, 0xab, 0xcd, 0xef, 0x01, 0x23];

// The shares of the key's bits: the first line is the key, and the second one is zero.
fn shares_of_key() -> [Shares<2>; 80] {
    let mut shares = [Shares::from_parts([0; 2]); 80];
    for j in 0..80 {
        let bit = bit_of(u64::from(KEY[j / 8]), (j % 8) as u32);
        shares[j] = Shares::from_parts([u64::from(bit), 0]);
    }
    shares
}

// Byte k of what the latest piece put out.
fn byte_at(run: &StreamRun<2>, k: usize) -> u8
    requires { k < 8 }
{
    let outputs = run.outputs();
    let mut byte = 0;
    for place in 0..8 {
        let at = 288 + 8 * k + place;
        if at < outputs.len() {
            byte |= ((outputs[at].unmask() % 2) as u8) << place;
        }
    }
    byte
}

// What becomes of nine zeros with an IV of zeros, in two pieces.
fn encrypted<L: Ledger>(alloc: Global, blank: Blank) -> Result<[u8; 9], Fail>
    requires name { blank.name ≡ L.name }
    requires parts { blank.parts ≡ L.parts }
    requires some_parts { 0 < L.parts }
{
    let mut steps = Steps::<L>::new(blank);
    let mut run = StreamRun::<2>::new(alloc, &[0; 10], &shares_of_key(), &mut steps)?;
    let mut tape = Tape::new();
    let mut entropy = SeedEntropy::new([7; 32]);
    let mut bytes = [0; 9];
    run.piece(
        alloc,
        0,
        &[0; 8],
        &mut tape,
        &mut entropy,
        &mut NoWatch,
        &mut steps,
    )?;
    for k in 0..8 {
        bytes[k] = byte_at(&run, k);
    }
    let _kept = tape.kept();
    run.piece(
        alloc,
        8,
        &[0],
        &mut tape,
        &mut entropy,
        &mut NoWatch,
        &mut steps,
    )?;
    bytes[8] = byte_at(&run, 0);
    Ok(bytes)
}

#[test]
fn nine_zeros_become_the_keystream(rt: HostRuntime) -> Result<(), Fail> {
    let bytes = encrypted::<Brand>(rt.alloc(), Blank::new(1))?;
    let keystream = [0xfc, 0x05, 0xf1, 0x81, 0xd0, 0xa1, 0x67, 0xf3, 0xb7];
    assert_eq!(rt; bytes, keystream);
    Ok(())
}
