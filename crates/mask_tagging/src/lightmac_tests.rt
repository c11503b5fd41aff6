ghost use Rattle.std.specs.Prelude.{◌≡◌, ◌<◌, length, IfOk};
ghost use Rattle.mask_tasks.specs.declared.sizes.KeySize.TheVariants.{K80};
ghost use Rattle.mask_tagging.specs.Tagging.{LightMac};

use crate::LightMacRun;
use mask_bits::bit_of;
use mask_circuit::Steps;
use mask_eval::NoWatch;
use mask_io::SeedEntropy;
use mask_shares::Shares;
use mask_tape::Tape;
use mask_tasks::KeySize;
use std::alloc::Global;
use std::marker::Brand;
use std::sync::ledger::{Blank, Ledger};
use std::test::Fail;

// The shares of the bits of K1, the bytes 0 to 9, and then of K2, the bytes 10 to 19: the first line is the key, and the second
// one is zero.
fn shares_of_key() -> [Shares<2>; 160] {
    let mut shares = [Shares::from_parts([0; 2]); 160];
    for j in 0..160 {
        let byte = j / 80 * 10 + 9 - j % 80 / 8;
        let bit = bit_of(byte as u64, (j % 8) as u32);
        shares[j] = Shares::from_parts([u64::from(bit), 0]);
    }
    shares
}

// Byte k of the tag, if the latest piece was the last.
fn byte_at(run: &LightMacRun<2>, k: usize) -> u8
    requires { k < 8 }
{
    let outputs = run.outputs();
    let mut byte = 0;
    for place in 0..8 {
        let at = 8 * (7 - k) + place;
        if at < outputs.len() {
            byte |= ((outputs[at].unmask() % 2) as u8) << place;
        }
    }
    byte
}

// A run behind the bytes 0 to 13, in two pieces.
fn fed<L: Ledger>(
    alloc: Global,
    tape: &mut Tape,
    entropy: &mut SeedEntropy,
    steps: &mut Steps<L>,
) -> Result<LightMacRun<2>, Fail>
    ensures scheme { IfOk result (λ run. run.scheme ≡ LightMac K80 1 8) }
    ensures state { IfOk result (λ run. length run.held.state ≡ 64) }
{
    let mut run = LightMacRun::<2>::new(alloc, KeySize::K80, 1, 8, &shares_of_key(), steps)?;
    let first = [0, 1, 2, 3, 4, 5, 6];
    let _kept = tape.kept();
    run.piece(alloc, 0, &first, false, tape, entropy, &mut NoWatch, steps)?;
    let second = [7, 8, 9, 10, 11, 12, 13];
    let _kept = tape.kept();
    run.piece(alloc, 7, &second, false, tape, entropy, &mut NoWatch, steps)?;
    Ok(run)
}

fn tag<L: Ledger>(alloc: Global, blank: Blank) -> Result<[u8; 8], Fail>
    requires name { blank.name ≡ L.name }
    requires parts { blank.parts ≡ L.parts }
    requires some_parts { 0 < L.parts }
{
    let mut steps = Steps::<L>::new(blank);
    let mut tape = Tape::new();
    let mut entropy = SeedEntropy::new([7; 32]);
    let mut run = fed(alloc, &mut tape, &mut entropy, &mut steps)?;
    let _kept = tape.kept();
    run.piece(
        alloc,
        14,
        &[14],
        true,
        &mut tape,
        &mut entropy,
        &mut NoWatch,
        &mut steps,
    )?;
    let mut bytes = [0; 8];
    for k in 0..8 {
        bytes[k] = byte_at(&run, k);
    }
    Ok(bytes)
}

// The tag is of a program that shares nothing with this crate.
#[test]
fn fifteen_bytes_get_their_tag(rt: HostRuntime) -> Result<(), Fail> {
    let bytes = tag::<Brand>(rt.alloc(), Blank::new(1))?;
    assert_eq!(rt; bytes, [0x93, 0x10, 0x82, 0x03, 0x0b, 0xe0, 0xe6, 0xe4]);
    Ok(())
}
