ghost use Rattle.std.specs.Prelude.{◌≤◌};
ghost use Rattle.mask_keys.specs.Files.{IsLength};

use super::*;
use mask_io::{ClosedSource, MemEntropy, MemSink, MemSource};
use mask_tape::Tape;
use std::alloc::{AllocError, Global};
use std::test::Fail;

// What is read of a key file that comes in pieces of seven bytes.
fn reading(
    alloc: Global,
    text: &[u8],
    lines: u32,
    length: KeyLength,
) -> Result<Result<KeyLines, KeyError>, AllocError>
    requires some { 1 ≤ lines }
    requires few { lines ≤ 8 }
    requires length { IsLength length }
{
    let mut file = MemSource::new(Vec::from_slice(alloc, text)?, 7, Vec::new(alloc));
    Ok(read_keys(&mut file, lines, length))
}

#[test]
fn tells_the_first_fault_of_two_lines(rt: HostRuntime) -> Result<(), Fail> {
    let cases: [(&[u8], KeyError); 6] = [
        (b"00ff\n\n00ff\n", KeyError::Line { line: 2 }),
        (b"00ff \n00ff\n", KeyError::Line { line: 1 }),
        (b"00ff\n00ff\n00ff\n", KeyError::Count { found: 3 }),
        (b"00ff\n00ff00\n", KeyError::Line { line: 2 }),
        (b"00ff\r\r\n00ff\n", KeyError::Line { line: 1 }),
        (b"", KeyError::Count { found: 0 }),
    ];
    for (text, fault) in cases {
        let answer = reading(rt.alloc(), text, 2, KeyLength::Exactly(2))?;
        assert_eq!(rt; answer.err(), Some(fault));
    }
    Ok(())
}

#[test]
fn tells_other_faults(rt: HostRuntime) -> Result<(), Fail> {
    let three = b"0f1e2d3c4b5a69788796a5b4c3d2e1f0\n0F1E2D3C4B5A69788796A5B4C3D2E1F0\n";
    let answer = reading(rt.alloc(), three, 3, KeyLength::Exactly(16))?;
    assert_eq!(rt; answer.err(), Some(KeyError::Count { found: 2 }));
    let answer = reading(rt.alloc(), &[b'0'; 4_097], 2, KeyLength::Exactly(2))?;
    assert_eq!(rt; answer.err(), Some(KeyError::Long));
    let answer = reading(rt.alloc(), &[b'0'; 4_096], 2, KeyLength::Exactly(2))?;
    assert_eq!(rt; answer.err(), Some(KeyError::Line { line: 1 }));
    let answer = reading(rt.alloc(), &[b'0'; 130], 1, KeyLength::Any)?;
    assert_eq!(rt; answer.err(), Some(KeyError::Line { line: 1 }));
    let mut closed = ClosedSource::new();
    assert_eq!(rt;
        read_keys(&mut closed, 1, KeyLength::Any).err(),
        Some(KeyError::KeyFault)
    );
    Ok(())
}

#[test]
fn reads_lines(rt: HostRuntime) -> Result<(), Fail> {
    let Ok(lines) = reading(rt.alloc(), b"00ff\r\n01FE", 2, KeyLength::Exactly(2))? else {
        panic!(rt; "key lines");
    };
    assert_eq!(rt; lines.count(), 2);
    assert_eq!(rt; lines.length(), 2);
    assert_eq!(rt; lines.line(1), [0x01, 0xfe].as_slice());
    let Ok(longest) = reading(rt.alloc(), &[b'a'; 128], 1, KeyLength::Any)? else {
        panic!(rt; "a key line");
    };
    assert_eq!(rt; longest.length(), 64);
    let cut = KeyLines::cut(&[1, 2, 3, 4, 5, 6], 3);
    assert_eq!(rt; cut.count(), 3);
    assert_eq!(rt; cut.line(2), [5, 6].as_slice());
    Ok(())
}

#[test]
fn splits_and_joins(rt: HostRuntime) -> Result<(), Fail> {
    let mut entropy = MemEntropy::new(
        vec![in rt.alloc(); 0xa5, 0x3c, 0x1b, 0x27, 0xc8, 0xe5]?,
        Vec::new(rt.alloc()),
    );
    let mut tape = Tape::new();
    let mut file = MemSink::new(rt.alloc(), 100, 3, Vec::new(rt.alloc()))?;
    let key = KeyBytes::new(&[0x00, 0xff]);
    let answer = split_key(rt.alloc(), &key, 1, &mut tape, &mut entropy, &mut file);
    assert_eq!(rt; answer, Ok(()));
    assert_eq!(rt; file.bytes(), b"a5c3\na53c\n".as_slice());
    let key = KeyBytes::new(&[0x0f, 0xa0]);
    let mut file = MemSink::new(rt.alloc(), 14, 3, Vec::new(rt.alloc()))?;
    let answer = split_key(rt.alloc(), &key, 2, &mut tape, &mut entropy, &mut file);
    assert_eq!(rt; answer, Err(SplitError::WriteFault));
    assert_eq!(rt; file.bytes(), b"69d2\n35b8\n53ca".as_slice());
    let answer = split_key(rt.alloc(), &key, 1, &mut tape, &mut entropy, &mut file);
    assert_eq!(rt; answer, Err(SplitError::TapeFault));
    let joined = join_key(&KeyLines::cut(&[0x69, 0xd2, 0x35, 0xb8, 0x53, 0xca], 3));
    assert_eq!(rt; joined.as_slice(), [0x0f, 0xa0].as_slice());
    Ok(())
}

// A key of 64 bytes, split at each order, written, read and joined.
#[test]
fn splits_at_each_order(rt: HostRuntime) -> Result<(), Fail> {
    let key = KeyBytes::new(&[0x9c; 64]);
    for order in 1..8u32 {
        let bytes = vec![in rt.alloc(); 0x6b; 448]?;
        let mut entropy = MemEntropy::new(bytes, Vec::new(rt.alloc()));
        let mut file = MemSink::new(rt.alloc(), 2_000, 100, Vec::new(rt.alloc()))?;
        let mut tape = Tape::new();
        let answer = split_key(rt.alloc(), &key, order, &mut tape, &mut entropy, &mut file);
        assert_eq!(rt; answer, Ok(()));
        let Ok(lines) = reading(rt.alloc(), file.bytes(), order + 1, KeyLength::Any)? else {
            panic!(rt; "key lines");
        };
        assert_eq!(rt; join_key(&lines).as_slice(), key.as_slice());
    }
    Ok(())
}
