//! `mac` on zeros: which tag is written, what is drawn and told, and what a fault leaves.

use crate::runs::{Outcome, SEED, run_on};
use mask_io::{MemEntropy, MemSink, MemSource};
use mask_run::{Status, status_number};
use std::alloc::{AllocError, Global};
use std::test::Fail;

// What a run is given: its words behind `mac`, the key file, so many zeros as message, read in pieces of so many bytes, and a tape
// and room for so many; and which read fails, counted from 0.
#[derive(Clone, Copy)]
struct Given {
    words: &'static [&'static str],
    keys: &'static str,
    zeros: usize,
    piece: usize,
    tape: usize,
    room: usize,
    failing_read: Option<u32>,
}

// Chaskey-12 on no bytes: the key 000102.., of which one line is 0. Its start takes 128 random bits, and a block 128 + 3104.
const CHASKEY: Given = Given {
    words: &["chaskey-12", "1", "16"],
    keys: "000102030405060708090a0b0c0d0e0f\n00000000000000000000000000000000\n",
    zeros: 0,
    piece: 16,
    tape: 420,
    room: 16,
    failing_read: None,
};

// LightMAC over PRESENT with keys of 80 bits, both of ones, on no bytes: one piece, which takes 64 + 5334 random bits.
const LIGHTMAC: Given = Given {
    words: &["lightmac-80", "1", "1", "8"],
    keys: "ffffffffffffffffffffffffffffffffffffffff\n0000000000000000000000000000000000000000\n",
    zeros: 0,
    piece: 100,
    tape: 675,
    room: 8,
    failing_read: None,
};

// The same with keys of 128 bits and a counter of two bytes, on three pieces: 3 * (64 + 5644) random bits, and 128 for fresh
// shares of the first key ahead of the second.
const LIGHTMAC_128: Given = Given {
    words: &["lightmac-128", "1", "2", "4"],
    keys: "000102030405060708090a0b0c0d0e0f101112131415161718191a1b1c1d1e1f\n\
           0000000000000000000000000000000000000000000000000000000000000000\n",
    zeros: 13,
    piece: 5,
    tape: 2_157,
    room: 4,
    failing_read: None,
};

const CHASKEY_0: [u8; 16] = [
    0xd7, 0x3b, 0xcc, 0xf1, 0x97, 0x48, 0x76, 0x83, 0xbd, 0x1c, 0x30, 0x8f, 0x38, 0x65, 0x6a, 0x17,
];

const CHASKEY_16: [u8; 16] = [
    0x70, 0x42, 0x69, 0x6d, 0xdf, 0xce, 0x37, 0xb5, 0x58, 0x5b, 0x39, 0xfb, 0x0e, 0x03, 0x8a, 0x99,
];

const CHASKEY_17: [u8; 16] = [
    0x82, 0xad, 0x70, 0x60, 0xba, 0xf3, 0xc7, 0xc4, 0xf6, 0x6d, 0x03, 0xcb, 0x4a, 0x3c, 0xc2, 0x86,
];

const LIGHTMAC_0: [u8; 8] = [0xb2, 0xd9, 0x76, 0x97, 0x47, 0x8d, 0x0c, 0x56];

const LIGHTMAC_1792: [u8; 8] = [0xa8, 0x25, 0xde, 0xd1, 0xb5, 0x73, 0x40, 0x01];

const LIGHTMAC_13: [u8; 4] = [0x05, 0xd0, 0x39, 0x64];

fn tag(alloc: Global, given: &Given) -> Result<Outcome, AllocError> {
    let mut words = Vec::from_slice(alloc, &["-", SEED, "mac"])?;
    for word in given.words {
        words.push(*word)?;
    }
    let mut failing = Vec::new(alloc);
    if let Some(number) = given.failing_read {
        failing.push(number)?;
    }
    let mut keys = MemSource::new(
        Vec::from_slice(alloc, given.keys.as_bytes())?,
        7,
        Vec::new(alloc),
    );
    let message = vec![in alloc; 0u8; given.zeros]?;
    // No piece is empty.
    let mut input = MemSource::new(message, given.piece.max(1), failing);
    let tape = vec![in alloc; 0x5au8; given.tape]?;
    let mut tape = MemEntropy::new(tape, Vec::new(alloc));
    let mut out = MemSink::new(alloc, given.room, 16, Vec::new(alloc))?;
    run_on(alloc, &words, &mut keys, &mut input, &mut tape, &mut out)
}

// The first of these cases that doesn't hold: this is written and so many calls are told; with a byte of random bits less nothing
// is written; and with a byte less of room a part of the tag is.
fn first_wrong<'a>(
    alloc: Global,
    cases: &[(&'a str, Given, &[u8], usize)],
) -> Result<Option<&'a str>, AllocError> {
    for (name, given, written, calls) in cases {
        let outcome = tag(alloc, given)?;
        let done = outcome.status == Status::Done
            && outcome.written.as_slice() == *written
            && outcome.watch.len() == *calls;
        let cut = tag(
            alloc,
            &Given {
                tape: given.tape.saturating_sub(1),
                ..*given
            },
        )?;
        let fails = cut.status == Status::TapeFault && cut.written.is_empty();
        let full = tag(
            alloc,
            &Given {
                room: given.room.saturating_sub(1),
                ..*given
            },
        )?;
        let part = full.status == Status::WriteFault
            && written.starts_with(full.written.as_slice())
            && full.written.len() < written.len();
        if !done || !fails || !part {
            return Ok(Some(*name));
        }
    }
    Ok(None)
}

// What is written is the standard's.
#[test]
fn makes_tags_of_zeros(rt: HostRuntime) -> Result<(), Fail> {
    let sixteen = Given {
        zeros: 16,
        ..CHASKEY
    };
    let seventeen = Given {
        zeros: 17,
        tape: 824,
        ..CHASKEY
    };
    let short = Given {
        words: &["chaskey-12", "1", "8"],
        room: 8,
        ..seventeen
    };
    let cases: [(&str, Given, &[u8], usize); 6] = [
        ("chaskey, nothing", CHASKEY, &CHASKEY_0, 2),
        ("chaskey, a block", sixteen, &CHASKEY_16, 2),
        ("chaskey, two blocks", seventeen, &CHASKEY_17, 3),
        ("chaskey, a short tag", short, &CHASKEY_17[..8], 3),
        ("lightmac, nothing", LIGHTMAC, &LIGHTMAC_0, 1),
        ("lightmac, three pieces", LIGHTMAC_128, &LIGHTMAC_13, 4),
    ];
    assert_eq!(rt; first_wrong(rt.alloc(), &cases)?, None);
    Ok(())
}

// As many pieces as a counter of one byte has numbers: 256 * (64 + 5334) random bits, and 80 for fresh shares of the first key
// ahead of 254 of them.
#[test]
fn makes_the_longest_tag(rt: HostRuntime) -> Result<(), Fail> {
    let longest = Given {
        zeros: 1_792,
        tape: 175_276,
        ..LIGHTMAC
    };
    let whole = tag(rt.alloc(), &longest)?;
    assert_eq!(rt; whole.status, Status::Done);
    assert_eq!(rt; whole.written.as_slice(), LIGHTMAC_1792.as_slice());
    assert_eq!(rt; whole.watch.len(), 510);
    let over = tag(
        rt.alloc(),
        &Given {
            zeros: 1_793,
            ..longest
        },
    )?;
    assert_eq!(rt; over.status, Status::TooLong { limit: 1_792 });
    assert_eq!(rt; status_number(&over.status), 5);
    assert!(rt; over.written.is_empty());
    assert_eq!(rt; over.watch.len(), 509);
    Ok(())
}

// A piece is held back until more is known to come.
#[test]
fn looks_ahead(rt: HostRuntime) -> Result<(), Fail> {
    let two = Given {
        zeros: 32,
        tape: 824,
        ..CHASKEY
    };
    for (read, calls) in [(0, 0), (1, 0), (2, 2)] {
        let failing = Given {
            failing_read: Some(read),
            ..two
        };
        let outcome = tag(rt.alloc(), &failing)?;
        assert_eq!(rt; outcome.status, Status::ReadFault);
        assert!(rt; outcome.written.is_empty());
        assert_eq!(rt; outcome.watch.len(), calls);
    }
    Ok(())
}
