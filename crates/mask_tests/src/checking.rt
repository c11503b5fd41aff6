//! `check` and `upgrade`.

use crate::runs::{EXAMPLE, Outcome, SEED, run};
use mask_io::{ClosedEntropy, MemSource};
use mask_run::Status;
use std::alloc::{AllocError, Global};
use std::test::Fail;

// One run of a command without operands on a text, with no tape and so much room for output.
fn command(alloc: Global, name: &str, text: &str, room: usize) -> Result<Outcome, AllocError> {
    let mut input = MemSource::new(
        Vec::from_slice(alloc, text.as_bytes())?,
        64,
        Vec::new(alloc),
    );
    run(
        alloc,
        &["-", SEED, name],
        &mut input,
        &mut ClosedEntropy::new(),
        room,
    )
}

// The example is accepted, and its output is no refresh; refreshed outputs that nothing uses make a circuit strong, and
// so does having none.
#[test]
fn tells_accepted_and_strong(rt: HostRuntime) -> Result<(), Fail> {
    for (text, line) in [
        (EXAMPLE, "accepted values=5 and=1 ref=1 strong=no\n"),
        (
            "masked-circuit 1\ninputs 1\nout 0\nend\n",
            "accepted values=1 and=0 ref=0 strong=no\n",
        ),
        (
            "masked-circuit 1\ninputs 1\nref 0\nout 1\nend\n",
            "accepted values=2 and=0 ref=1 strong=yes\n",
        ),
        (
            "masked-circuit 1\ninputs 0\nend\n# x\n\n",
            "accepted values=0 and=0 ref=0 strong=yes\n",
        ),
        (
            "# a comment\r\n masked-circuit  1 \r\n\r\ninputs 2\r\nxor  0 1\r\nref 2\r\nand 0 3\r\nout 4\r\nend",
            "accepted values=5 and=1 ref=1 strong=no\n",
        ),
    ] {
        let outcome = command(rt.alloc(), "check", text, 100)?;
        assert_eq!(rt; outcome.status, Status::Done, "on {line}");
        assert_eq!(rt; outcome.written.as_slice(), line.as_bytes());
    }
    Ok(())
}

#[test]
fn refuses_a_shared_source(rt: HostRuntime) -> Result<(), Fail> {
    for (text, product, source) in [
        ("masked-circuit 1\ninputs 1\nand 0 0\nout 1\nend\n", 1, 0),
        (
            "masked-circuit 1\ninputs 2\nxor 0 1\nand 0 2\nout 3\nend\n",
            3,
            0,
        ),
    ] {
        let outcome = command(rt.alloc(), "check", text, 100)?;
        assert_eq!(rt; outcome.status, Status::Refused { product, source });
        assert!(rt; outcome.written.is_empty());
    }
    Ok(())
}

// Groups of all inputs and of all outputs are named for a text that has none, and those of a text of version 2 stay.
#[test]
fn upgrades_to_groups(rt: HostRuntime) -> Result<(), Fail> {
    let upgraded = "masked-circuit 2\ninput x 2\nxor 0 1\nref 2\nand 0 3\noutput y 1\nout 4\nend\n";
    for text in [EXAMPLE, upgraded] {
        let outcome = command(rt.alloc(), "upgrade", text, 200)?;
        assert_eq!(rt; outcome.status, Status::Done);
        assert_eq!(rt; outcome.written.as_slice(), upgraded.as_bytes());
    }
    let full = command(rt.alloc(), "upgrade", EXAMPLE, 20)?;
    assert_eq!(rt; full.status, Status::WriteFault);
    assert_eq!(rt; full.written.as_slice(), &upgraded.as_bytes()[..20]);
    Ok(())
}
