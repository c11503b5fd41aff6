use super::*;
use mask_io::{ClosedSource, MemEntropy, MemSink, MemSource};
use mask_status::{KeyReason, Status};
use std::alloc::{AllocError, Global};
use std::test::Fail;

// A key file that comes in pieces of three bytes.
fn file(alloc: Global, text: &[u8]) -> Result<MemSource, AllocError> {
    Ok(MemSource::new(Vec::from_slice(alloc, text)?, 3, Vec::new(alloc)))
}

#[test]
fn splits_a_key_and_joins_its_lines(rt: HostRuntime) -> Result<(), Fail> {
    let mut keys = file(rt.alloc(), b"00ff\n")?;
    let mut tape = MemEntropy::new(vec![in rt.alloc(); 0xa5, 0x3c]?, Vec::new(rt.alloc()));
    let mut out = MemSink::new(rt.alloc(), 20, 7, Vec::new(rt.alloc()))?;
    let status = split(rt.alloc(), 1, &mut keys, &mut tape, &mut out);
    assert_eq!(rt; status, Status::Done);
    assert_eq!(rt; out.bytes(), b"a5c3\na53c\n".as_slice());
    let mut keys = file(rt.alloc(), b"a5c3\na53c\n")?;
    let mut out = MemSink::new(rt.alloc(), 20, 7, Vec::new(rt.alloc()))?;
    assert_eq!(rt; join(1, &mut keys, &mut out), Status::Done);
    assert_eq!(rt; out.bytes(), b"00ff\n".as_slice());
    Ok(())
}

#[test]
fn tells_what_stops_a_split(rt: HostRuntime) -> Result<(), Fail> {
    let mut tape = MemEntropy::new(vec![in rt.alloc(); 0xa5, 0x3c]?, Vec::new(rt.alloc()));
    let mut out = MemSink::new(rt.alloc(), 9, 7, Vec::new(rt.alloc()))?;
    let mut keys = file(rt.alloc(), b"a5c3\na53c\n")?;
    let status = split(rt.alloc(), 1, &mut keys, &mut tape, &mut out);
    assert_eq!(rt; status, Status::BadKeys(KeyReason::Count { found: 2 }));
    let mut closed = ClosedSource::new();
    let status = split(rt.alloc(), 1, &mut closed, &mut tape, &mut out);
    assert_eq!(rt; status, Status::KeyFault);
    let mut keys = file(rt.alloc(), b"00ff\n")?;
    let status = split(rt.alloc(), 2, &mut keys, &mut tape, &mut out);
    assert_eq!(rt; status, Status::TapeFault);
    let mut keys = file(rt.alloc(), b"00ff\n")?;
    let status = split(rt.alloc(), 1, &mut keys, &mut tape, &mut out);
    assert_eq!(rt; status, Status::WriteFault);
    assert_eq!(rt; out.bytes(), b"a5c3\na53c".as_slice());
    Ok(())
}

#[test]
fn tells_what_stops_a_join(rt: HostRuntime) -> Result<(), Fail> {
    let mut out = MemSink::new(rt.alloc(), 4, 7, Vec::new(rt.alloc()))?;
    let mut keys = file(rt.alloc(), b"a5c3\na5\n")?;
    let status = join(1, &mut keys, &mut out);
    assert_eq!(rt; status, Status::BadKeys(KeyReason::Line { line: 2 }));
    let mut keys = file(rt.alloc(), b"a5c3\na53c\n")?;
    assert_eq!(rt; join(1, &mut keys, &mut out), Status::WriteFault);
    assert_eq!(rt; out.bytes(), b"00ff".as_slice());
    let mut closed = ClosedSource::new();
    assert_eq!(rt; join(7, &mut closed, &mut out), Status::KeyFault);
    Ok(())
}
