//! `emit`: the text of a circuit that is built in, which `check` then reads.

use crate::runs::{SEED, run_on};
use mask_io::{ClosedEntropy, ClosedSource, MemSink, MemSource};
use mask_run::Status;
use std::test::Fail;

#[test]
fn emits_circuits_that_are_strong(rt: HostRuntime) -> Result<(), Fail> {
    for (name, line) in [
        (
            "present-80",
            "accepted values=16166 and=2635 ref=2699 strong=yes\n",
        ),
        (
            "lea-128",
            "accepted values=36330 and=5208 ref=5336 strong=yes\n",
        ),
        (
            "refresh-80",
            "accepted values=160 and=0 ref=80 strong=yes\n",
        ),
        (
            "trivium-step",
            "accepted values=1856 and=192 ref=544 strong=yes\n",
        ),
        (
            "chaskey-start",
            "accepted values=256 and=0 ref=128 strong=yes\n",
        ),
        (
            "chaskey-end-short",
            "accepted values=11318 and=1488 ref=1616 strong=yes\n",
        ),
    ] {
        let mut keys = ClosedSource::new();
        let mut tape = ClosedEntropy::new();
        let mut nothing = ClosedSource::new();
        let mut text = MemSink::new(rt.alloc(), 700_000, 4_096, Vec::new(rt.alloc()))?;
        let words = ["-", SEED, "emit", name];
        let emitted = run_on(
            rt.alloc(),
            &words,
            &mut keys,
            &mut nothing,
            &mut tape,
            &mut text,
        )?;
        assert_eq!(rt; emitted.status, Status::Done, "{name}");
        let mut input = MemSource::new(emitted.written, 4_096, Vec::new(rt.alloc()));
        let mut out = MemSink::new(rt.alloc(), 100, 16, Vec::new(rt.alloc()))?;
        let words = ["-", SEED, "check"];
        let checked = run_on(
            rt.alloc(),
            &words,
            &mut keys,
            &mut input,
            &mut tape,
            &mut out,
        )?;
        assert_eq!(rt; checked.status, Status::Done, "{name}");
        assert_eq!(rt; checked.written.as_slice(), line.as_bytes(), "{name}");
    }
    Ok(())
}
