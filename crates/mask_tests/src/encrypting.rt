//! `enc` on zeros: what is written, drawn and told, and what a fault leaves.

use crate::runs::{Outcome, SEED, run_on};
use mask_io::{MemEntropy, MemSink, MemSource};
use mask_run::{KeyReason, Status, status_number};
use std::alloc::{AllocError, Global};
use std::test::Fail;

// What a run is given: the words that differ, the key file, so many zeros as message and a tape of so many bytes, how many bytes are read
// and written at once, and which calls fail, counted from 0.
#[derive(Clone, Copy)]
struct Given {
    cipher: &'static str,
    order: &'static str,
    iv: &'static str,
    keys: &'static str,
    zeros: usize,
    piece: usize,
    tape: usize,
    room: usize,
    failing_read: Option<u32>,
    failing_fill: Option<u32>,
    failing_write: Option<u32>,
}

// Eight zeros under PRESENT with a key of 80 bits: the key 0, which two equal lines are shares of, and an IV of 0. They take
// 5334 + 64 random bits.
const EIGHT: Given = Given {
    cipher: "present-80",
    order: "1",
    iv: "0000000000000000",
    keys: "0123456789abcdef0123\n0123456789abcdef0123\n",
    zeros: 8,
    piece: 8,
    tape: 675,
    room: 2_000,
    failing_read: None,
    failing_fill: None,
    failing_write: None,
};

// Two blocks under a key of ones, with the largest IV: the counter goes on with 0.
const WRAPPED: Given = Given {
    iv: "ffffffffffffffff",
    keys: "ffffffffffffffffffff\n00000000000000000000\n",
    zeros: 16,
    tape: 1_350,
    ..EIGHT
};

// The same at the highest order, with eight equal lines: the key is 0 again. It takes 28 * 5334 + 7 * 64 random bits.
const HIGHEST: Given = Given {
    order: "7",
    keys: "0123456789abcdef0123\n0123456789abcdef0123\n0123456789abcdef0123\n0123456789abcdef0123\n\
           0123456789abcdef0123\n0123456789abcdef0123\n0123456789abcdef0123\n0123456789abcdef0123\n",
    tape: 18_725,
    ..EIGHT
};

// A block of zeros under LEA, with the published keys, whose IV is the block that is encrypted: 3 * 10544 + 2 * 128 random bits at
// order 2, and 15752 + 128 and 17984 + 128 at order 1 with the longer keys.
const LEA_128: Given = Given {
    cipher: "lea-128",
    order: "2",
    iv: "101112131415161718191a1b1c1d1e1f",
    keys: "0f1e2d3c4b5a69788796a5b4c3d2e1f0\n00112233445566778899aabbccddeeff\n\
           00112233445566778899aabbccddeeff\n",
    zeros: 16,
    piece: 16,
    tape: 3_986,
    ..EIGHT
};

const LEA_192: Given = Given {
    cipher: "lea-192",
    order: "1",
    iv: "202122232425262728292a2b2c2d2e2f",
    keys: "0f1e2d3c4b5a69788796a5b4c3d2e1f0f0e1d2c3b4a59687\n\
           000000000000000000000000000000000000000000000000\n",
    tape: 1_985,
    ..LEA_128
};

const LEA_256: Given = Given {
    cipher: "lea-256",
    iv: "303132333435363738393a3b3c3d3e3f",
    keys: "0f1e2d3c4b5a69788796a5b4c3d2e1f0f0e1d2c3b4a5968778695a4b3c2d1e0f\n\
           0000000000000000000000000000000000000000000000000000000000000000\n",
    tape: 2_264,
    ..LEA_192
};

// Eight zeros under Trivium: its keystream. They take 7200 random bits for the state, and 736 + 64.
const TRIVIUM: Given = Given {
    cipher: "trivium",
    iv: "00000000000000000000",
    keys: "0123456789abcdef0123\n00000000000000000000\n",
    tape: 1_000,
    ..EIGHT
};

const BY_LEA_128: [u8; 16] = [
    0x9f, 0xc8, 0x4e, 0x35, 0x28, 0xc6, 0xc6, 0x18, 0x55, 0x32, 0xc7, 0xa7, 0x04, 0x64, 0x8b, 0xfd,
];

const BY_LEA_192: [u8; 16] = [
    0x6f, 0xb9, 0x5e, 0x32, 0x5a, 0xad, 0x1b, 0x87, 0x8c, 0xdc, 0xf5, 0x35, 0x76, 0x74, 0xc6, 0xf2,
];

const BY_LEA_256: [u8; 16] = [
    0xd6, 0x51, 0xaf, 0xf6, 0x47, 0xb1, 0x89, 0xc1, 0x3a, 0x89, 0x00, 0xca, 0x27, 0xf9, 0xe1, 0x97,
];

const BY_TRIVIUM: [u8; 16] = [
    0xfc, 0x05, 0xf1, 0x81, 0xd0, 0xa1, 0x67, 0xf3, 0xb7, 0x0e, 0x4a, 0x98, 0xd7, 0xfc, 0x76, 0xfe,
];

const FIRST: [u8; 8] = [0x55, 0x79, 0xc1, 0x38, 0x7b, 0x22, 0x84, 0x45];

const WRAPS: [u8; 16] = [
    0x33, 0x33, 0xdc, 0xd3, 0x21, 0x32, 0x10, 0xd2, 0xe7, 0x2c, 0x46, 0xc0, 0xf5, 0x94, 0x50, 0x49,
];

fn numbers(alloc: Global, number: Option<u32>) -> Result<Vec<u32>, AllocError> {
    let mut numbers = Vec::new(alloc);
    if let Some(number) = number {
        numbers.push(number)?;
    }
    Ok(numbers)
}

fn encrypt(alloc: Global, given: &Given) -> Result<Outcome, AllocError> {
    encrypt_message(alloc, given, vec![in alloc; 0u8; given.zeros]?)
}

// The same on this message.
fn encrypt_message(alloc: Global, given: &Given, message: Vec<u8>) -> Result<Outcome, AllocError> {
    let words = ["-", SEED, "enc", given.cipher, given.order, given.iv];
    let keys = Vec::from_slice(alloc, given.keys.as_bytes())?;
    let bytes = vec![in alloc; 0xa5u8; given.tape]?;
    let mut keys = MemSource::new(keys, 7, Vec::new(alloc));
    // No piece is empty.
    let piece = given.piece.max(1);
    let mut input = MemSource::new(message, piece, numbers(alloc, given.failing_read)?);
    let mut tape = MemEntropy::new(bytes, numbers(alloc, given.failing_fill)?);
    let failing_write = numbers(alloc, given.failing_write)?;
    let mut out = MemSink::new(alloc, given.room, piece, failing_write)?;
    run_on(alloc, &words, &mut keys, &mut input, &mut tape, &mut out)
}

// The first of these cases that doesn't hold: so much is written, and so many calls are told; one byte of random bits less isn't
// enough, and then nothing is written.
fn first_wrong<'a>(
    alloc: Global,
    cases: &[(&'a str, Given, &[u8], usize)],
) -> Result<Option<&'a str>, AllocError> {
    for (name, given, written, calls) in cases {
        let outcome = encrypt(alloc, given)?;
        let short = Given {
            tape: given.tape.saturating_sub(1),
            ..*given
        };
        let cut = encrypt(alloc, &short)?;
        let done = outcome.status == Status::Done
            && outcome.written.as_slice() == *written
            && outcome.watch.len() == *calls;
        let fails = cut.status == Status::TapeFault && cut.written.is_empty();
        if !done || (given.tape > 0 && !fails) {
            return Ok(Some(*name));
        }
    }
    Ok(None)
}

// What is written is the standard's.
#[test]
fn encrypts_zeros(rt: HostRuntime) -> Result<(), Fail> {
    let nine = Given {
        zeros: 9,
        ..WRAPPED
    };
    let nothing = Given {
        zeros: 0,
        tape: 0,
        ..EIGHT
    };
    let cases: [(&str, Given, &[u8], usize); 5] = [
        ("eight", EIGHT, &FIRST, 1),
        ("at the highest order", HIGHEST, &FIRST, 1),
        ("two blocks", WRAPPED, &WRAPS, 2),
        ("nine", nine, &WRAPS[..9], 2),
        ("nothing", nothing, &[], 0),
    ];
    assert_eq!(rt; first_wrong(rt.alloc(), &cases)?, None);
    Ok(())
}

#[test]
fn encrypts_zeros_by_lea(rt: HostRuntime) -> Result<(), Fail> {
    let nothing = Given {
        zeros: 0,
        tape: 0,
        ..LEA_256
    };
    let cases: [(&str, Given, &[u8], usize); 4] = [
        ("128", LEA_128, &BY_LEA_128, 1),
        ("192", LEA_192, &BY_LEA_192, 1),
        ("256", LEA_256, &BY_LEA_256, 1),
        ("nothing", nothing, &[], 0),
    ];
    assert_eq!(rt; first_wrong(rt.alloc(), &cases)?, None);
    Ok(())
}

// Of Trivium a call for the state comes first, and one for each eight bytes, which are written before the next ones are read.
#[test]
fn encrypts_zeros_by_trivium(rt: HostRuntime) -> Result<(), Fail> {
    let nine = Given {
        zeros: 9,
        tape: 1_100,
        ..TRIVIUM
    };
    let nothing = Given {
        zeros: 0,
        tape: 0,
        ..TRIVIUM
    };
    let eight = encrypt(rt.alloc(), &TRIVIUM)?;
    assert_eq!(rt; eight.status, Status::Done);
    assert_eq!(rt; eight.written.as_slice(), &BY_TRIVIUM[..8]);
    assert_eq!(rt; eight.watch.len(), 2);
    let two = encrypt(rt.alloc(), &nine)?;
    assert_eq!(rt; two.status, Status::Done);
    assert_eq!(rt; two.written.as_slice(), &BY_TRIVIUM[..9]);
    assert_eq!(rt; two.watch.len(), 3);
    let none = encrypt(rt.alloc(), &nothing)?;
    assert_eq!(rt; none.status, Status::Done);
    assert!(rt; none.written.is_empty() && none.watch.len() == 0);
    let short = Given {
        tape: 1_099,
        ..nine
    };
    let cut = encrypt(rt.alloc(), &short)?;
    assert_eq!(rt; cut.status, Status::TapeFault);
    assert_eq!(rt; cut.written.as_slice(), &BY_TRIVIUM[..8]);
    assert_eq!(rt; cut.watch.len(), 2);
    Ok(())
}

// A fault leaves whole batches of 512 bytes, or with a fault of writing a part; and calls for what was drawn for. The key is refreshed
// ahead of the second batch, with bits of its own.
#[test]
fn tells_faults(rt: HostRuntime) -> Result<(), Fail> {
    let long = Given {
        zeros: 1_024,
        piece: 512,
        tape: 90_000,
        ..EIGHT
    };
    let short = Given {
        zeros: 24,
        tape: 2_100,
        ..EIGHT
    };
    let cases: [(&str, Given, u8, usize, usize); 9] = [
        (
            "the tape is a byte short",
            Given {
                zeros: 520,
                tape: 43_868,
                ..long
            },
            8,
            512,
            65,
        ),
        (
            "the room is 100",
            Given {
                zeros: 512,
                room: 100,
                ..long
            },
            9,
            100,
            64,
        ),
        (
            "read 1 fails",
            Given {
                failing_read: Some(1),
                ..long
            },
            6,
            512,
            64,
        ),
        (
            "read 3 of quarters fails",
            Given {
                piece: 256,
                failing_read: Some(3),
                ..long
            },
            6,
            512,
            64,
        ),
        (
            "the first read fails",
            Given {
                failing_read: Some(0),
                ..EIGHT
            },
            6,
            0,
            0,
        ),
        (
            "read 2 fails",
            Given {
                failing_read: Some(2),
                ..short
            },
            6,
            0,
            0,
        ),
        (
            "write 1 fails",
            Given {
                failing_write: Some(1),
                ..short
            },
            9,
            8,
            3,
        ),
        (
            "fill 0 fails",
            Given {
                failing_fill: Some(0),
                ..short
            },
            8,
            0,
            0,
        ),
        (
            "fill 1 fails",
            Given {
                zeros: 600,
                failing_fill: Some(1),
                ..long
            },
            8,
            512,
            64,
        ),
    ];
    for (name, given, number, written, calls) in cases {
        let outcome = encrypt(rt.alloc(), &given)?;
        assert_eq!(rt; status_number(&outcome.status), number, "{name}");
        assert_eq!(rt; outcome.written.len(), written, "{name}");
        assert_eq!(rt; outcome.watch.len(), calls, "{name}");
        assert!(rt;
            written == 0 || outcome.written.starts_with(&FIRST),
            "{name}"
        );
    }
    Ok(())
}

// Encrypting twice gives the message again: 63 blocks, which take 63 * (2 * 128 + 3 * 10544) random bits.
#[test]
fn encrypts_a_note_twice(rt: HostRuntime) -> Result<(), Fail> {
    let given = Given {
        zeros: 1_000,
        piece: 300,
        tape: 251_118,
        ..LEA_128
    };
    let once = encrypt(rt.alloc(), &given)?;
    assert_eq!(rt; once.status, Status::Done);
    assert!(rt; once.written.starts_with(&BY_LEA_128));
    assert_eq!(rt; once.watch.len(), 63);
    let twice = encrypt_message(rt.alloc(), &given, once.written)?;
    assert_eq!(rt; twice.status, Status::Done);
    let zeros = vec![in rt.alloc(); 0u8; 1_000]?;
    assert_eq!(rt; twice.written.as_slice(), zeros.as_slice());
    Ok(())
}

#[test]
fn wants_keys_of_its_cipher(rt: HostRuntime) -> Result<(), Fail> {
    for (keys, reason) in [
        (
            "0f1e2d3c4b5a69788796a5b4c3d2e1f0\n00112233445566778899aabbccddeeff\n",
            KeyReason::Count { found: 2 },
        ),
        ("0f1e2d3\n", KeyReason::Line { line: 1 }),
        ("", KeyReason::Count { found: 0 }),
    ] {
        let outcome = encrypt(rt.alloc(), &Given { keys, ..LEA_128 })?;
        assert_eq!(rt; outcome.status, Status::BadKeys(reason));
        assert!(rt; outcome.written.is_empty());
    }
    Ok(())
}
