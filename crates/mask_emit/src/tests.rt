ghost use Rattle.std.specs.Prelude.{◌≡◌, ◌<◌};

use super::*;
use mask_circuit::Steps;
use mask_io::MemSink;
use mask_status::Status;
use mask_tasks::Named;
use std::alloc::Global;
use std::marker::Brand;
use std::sync::ledger::{Blank, Ledger};
use std::test::Fail;

fn counted_emit<L: Ledger>(alloc: Global, blank: Blank, circuit: Named, out: &mut MemSink) -> Status
    requires name { blank.name ≡ L.name }
    requires parts { blank.parts ≡ L.parts }
    requires some { 0 < L.parts }
{
    let mut steps = Steps::<L>::new(blank);
    emit(alloc, circuit, out, &mut steps)
}

fn try_emit(alloc: Global, circuit: Named, out: &mut MemSink) -> Status {
    counted_emit::<Brand>(alloc, Blank::new(1), circuit, out)
}

// Two lines at the head, 128 of `ref`, 128 of `out`, and one at the end.
#[test]
fn writes_a_circuit_of_refreshes(rt: HostRuntime) -> Result<(), Fail> {
    let mut out = MemSink::new(rt.alloc(), 2_000, 500, Vec::new(rt.alloc()))?;
    assert_eq!(rt;
        try_emit(rt.alloc(), Named::Refresh128, &mut out),
        Status::Done
    );
    assert_eq!(rt; out.bytes().len(), 1_970);
    assert!(rt;
        out.bytes()
            .starts_with(b"masked-circuit 1\ninputs 128\nref 0\nref 1\n")
    );
    assert!(rt; out.bytes().ends_with(b"out 254\nout 255\nend\n"));
    let mut out = MemSink::new(rt.alloc(), 2_000, 500, Vec::new(rt.alloc()))?;
    assert_eq!(rt;
        try_emit(rt.alloc(), Named::Refresh80, &mut out),
        Status::Done
    );
    assert_eq!(rt; out.bytes().len(), 1_201);
    Ok(())
}

#[test]
fn writes_what_the_output_takes(rt: HostRuntime) -> Result<(), Fail> {
    let mut out = MemSink::new(rt.alloc(), 20, 500, Vec::new(rt.alloc()))?;
    let status = try_emit(rt.alloc(), Named::Present80, &mut out);
    assert_eq!(rt; status, Status::WriteFault);
    assert_eq!(rt; out.bytes(), b"masked-circuit 1\ninp".as_slice());
    Ok(())
}

#[test]
fn writes_the_circuit_of_lea(rt: HostRuntime) -> Result<(), Fail> {
    let mut out = MemSink::new(rt.alloc(), 46, 500, Vec::new(rt.alloc()))?;
    let status = try_emit(rt.alloc(), Named::Lea192, &mut out);
    assert_eq!(rt; status, Status::WriteFault);
    assert_eq!(rt;
        out.bytes(),
        b"masked-circuit 1\ninputs 448\nzero\none\nxor 0 449".as_slice()
    );
    Ok(())
}
