//! `probe`: which input shares suffice for some wires.

use crate::runs::{Outcome, SEED, run};
use mask_io::{ClosedEntropy, MemSource};
use mask_run::Status;
use std::alloc::{AllocError, Global};
use std::test::Fail;

// A product of an input and the refreshed other one: wires 0 to 3 are the inputs' shares, 4 to 6 those of the refresh, and
// 7 to 15 those of the product.
const REFRESHED: &str = "masked-circuit 1\ninputs 2\nref 1\nand 0 2\nout 3\nend\n";

// A product of two inputs.
const PRODUCT: &str = "masked-circuit 1\ninputs 2\nand 0 1\nout 2\nend\n";

// One run of `probe` with these words behind the command, with no tape.
fn probe(alloc: Global, operands: &[&str], text: &str) -> Result<Outcome, AllocError> {
    let mut words = Vec::new(alloc);
    words.extend_from_slice(&["-", SEED, "probe"])?;
    words.extend_from_slice(operands)?;
    let mut input = MemSource::new(
        Vec::from_slice(alloc, text.as_bytes())?,
        64,
        Vec::new(alloc),
    );
    run(alloc, &words, &mut input, &mut ClosedEntropy::new(), 100)
}

#[test]
fn names_the_needed_shares(rt: HostRuntime) -> Result<(), Fail> {
    let cases: [(&[&str], &str, &str); 4] = [
        (&["1"], REFRESHED, "input 0: none\ninput 1: none\n"),
        (&["1", "8"], REFRESHED, "input 0: 0\ninput 1: none\n"),
        (&["2", "24", "16"], PRODUCT, "input 0: 0\ninput 1: 0 1\n"),
        (&["2", "25"], PRODUCT, "input 0: none\ninput 1: none\n"),
    ];
    for (operands, text, report) in cases {
        let outcome = probe(rt.alloc(), operands, text)?;
        assert_eq!(rt; outcome.status, Status::Done);
        assert_eq!(rt; outcome.written.as_slice(), report.as_bytes());
        assert_eq!(rt; outcome.watch.len(), 0);
    }
    Ok(())
}

// A wire past the last one, and more wires than the order allows.
#[test]
fn refuses_bad_probes(rt: HostRuntime) -> Result<(), Fail> {
    let cases: [(&[&str], u32); 3] = [
        (&["1", "16"], 5),
        (&["1", "4", "5"], 6),
        (&["2", "4", "99"], 6),
    ];
    for (operands, place) in cases {
        let outcome = probe(rt.alloc(), operands, REFRESHED)?;
        assert_eq!(rt; outcome.status, Status::BadProbe { place });
        assert!(rt; outcome.written.is_empty());
    }
    Ok(())
}

// A circuit that isn't accepted is refused before the probes are looked at.
#[test]
fn refuses_a_circuit_that_is_not_accepted(rt: HostRuntime) -> Result<(), Fail> {
    let square = "masked-circuit 1\ninputs 1\nand 0 0\nout 1\nend\n";
    let outcome = probe(rt.alloc(), &["1", "999"], square)?;
    assert_eq!(rt;
        outcome.status,
        Status::Refused {
            product: 1,
            source: 0
        }
    );
    Ok(())
}
