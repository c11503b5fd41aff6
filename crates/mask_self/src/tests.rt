ghost use Rattle.std.specs.Prelude.{◌≡◌, ◌^◌, ◌<◌, ◌≤◌};

use super::generator::Generator;
use super::reporting::{bits, calls, sum_of_blocks};
use super::self_run;
use mask_circuit::Steps;
use mask_eval::NoWatch;
use mask_io::{Entropy, MemEntropy, MemSink, SeedEntropy};
use mask_status::Status;
use std::alloc::Global;
use std::marker::Brand;
use std::sync::ledger::{Blank, Ledger};
use std::test::Fail;

// The first bytes of seeds, as another program has them.
#[test]
fn a_seed_has_its_bytes(rt: HostRuntime) {
    let mut bytes = [0; 8];
    Generator::new(1).fill(&mut bytes);
    assert_eq!(rt; bytes, [108, 130, 165, 98, 203, 128, 141, 16]);
    let mut bytes = [0; 4];
    Generator::new(u64::MAX).fill(&mut bytes);
    assert_eq!(rt; bytes, [187, 177, 143, 107]);
}

#[test]
fn numbers_and_sums(rt: HostRuntime) {
    assert_eq!(rt; calls(1), 1);
    assert_eq!(rt; calls(1_024), 64);
    assert_eq!(rt; calls(1_025), 66);
    assert_eq!(rt; calls(4_096), 259);
    assert_eq!(rt; bits(4_096, 1), 2_732_416);
    assert_eq!(rt; bits(1_000, 2), 2_008_944);
    let mut bytes = [0; 33];
    bytes[0] = 7;
    bytes[16] = 2;
    bytes[17] = 9;
    bytes[32] = 1;
    assert_eq!(rt;
        sum_of_blocks(&bytes),
        [4, 9, 0, 0, 0, 0, 0, 0, 0, 0, 0, 0, 0, 0, 0, 0]
    );
}

// What a run on this tape ends with, and what it writes to an output of so much room.
fn run<E: Entropy>(
    alloc: Global,
    seed: u64,
    count: u32,
    order: u32,
    tape: &mut E,
    room: usize,
) -> Result<(Status, MemSink), Fail>
    requires order { (1 ≤ order) × (order ≤ 7) }
    requires count { (1 ≤ count) × (count ≤ 2 ^ 20) }
{
    counted_run::<E, Brand>(alloc, Blank::new(1), seed, count, order, tape, room)
}

fn counted_run<E: Entropy, L: Ledger>(
    alloc: Global,
    blank: Blank,
    seed: u64,
    count: u32,
    order: u32,
    tape: &mut E,
    room: usize,
) -> Result<(Status, MemSink), Fail>
    requires name { blank.name ≡ L.name }
    requires parts { blank.parts ≡ L.parts }
    requires some_parts { 0 < L.parts }
    requires order { (1 ≤ order) × (order ≤ 7) }
    requires count { (1 ≤ count) × (count ≤ 2 ^ 20) }
{
    let mut steps = Steps::<L>::new(blank);
    let mut out = MemSink::new(alloc, room, 9, Vec::new(alloc))?;
    let status = self_run(
        alloc,
        seed,
        count,
        order,
        tape,
        &mut out,
        &mut NoWatch,
        &mut steps,
    );
    Ok((status, out))
}

// The lines of these words, as another program has them, whatever the tape.
#[test]
fn a_run_tells_its_line(rt: HostRuntime) -> Result<(), Fail> {
    let line = b"self bytes 16 calls 1 bits 10672 xor b9e3755df4618de04f75fcd572f6dda2\n";
    for byte in 0..2u8 {
        let (status, out) = run(rt.alloc(), 1, 16, 1, &mut SeedEntropy::new([byte; 32]), 200)?;
        assert_eq!(rt; status, Status::Done);
        assert_eq!(rt; out.bytes(), line.as_slice());
    }
    let line = b"self bytes 40 calls 3 bits 95664 xor d7beb8ad292d9d5a1f5ddd641300752e\n";
    let mut tape = SeedEntropy::new([2; 32]);
    let (status, out) = run(rt.alloc(), 7, 40, 2, &mut tape, 200)?;
    assert_eq!(rt; status, Status::Done);
    assert_eq!(rt; out.bytes(), line.as_slice());
    Ok(())
}

#[test]
fn a_run_tells_what_stops_it(rt: HostRuntime) -> Result<(), Fail> {
    let mut tape = MemEntropy::new(vec![in rt.alloc(); 0x5a; 1_333]?, Vec::new(rt.alloc()));
    let (status, out) = run(rt.alloc(), 1, 16, 1, &mut tape, 200)?;
    assert_eq!(rt; status, Status::TapeFault);
    assert!(rt; out.bytes().is_empty());
    let mut tape = MemEntropy::new(vec![in rt.alloc(); 0x5a; 1_334]?, Vec::new(rt.alloc()));
    let (status, out) = run(rt.alloc(), 1, 16, 1, &mut tape, 12)?;
    assert_eq!(rt; status, Status::WriteFault);
    assert_eq!(rt; out.bytes(), b"self bytes 1".as_slice());
    Ok(())
}
