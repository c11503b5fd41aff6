//! `eval` on circuits in version 1 and 2 of the text at each order, and each of its refusals.

use crate::runs::{EXAMPLE, Outcome, SEED, run};
use mask_bits::Bits;
use mask_io::{ClosedEntropy, MemEntropy, MemSource};
use mask_run::{Status, status_number, status_text};
use mask_text::Reason;
use std::alloc::{AllocError, Global};
use std::test::Fail;

// The text of a circuit that isn't accepted: it multiplies a bit by itself.
const SQUARE: &str = "masked-circuit 1\ninputs 1\nand 0 0\nout 1\nend\n";

// One run of `eval ORDER HEX` on a text, read seven bytes at a time, with a tape of so many bytes and a roomy output.
fn eval_at(
    alloc: Global,
    order: &str,
    hex: &str,
    text: &str,
    tape: usize,
) -> Result<Outcome, AllocError> {
    let mut input = MemSource::new(Vec::from_slice(alloc, text.as_bytes())?, 7, Vec::new(alloc));
    let mut tape = MemEntropy::new(vec![in alloc; 0xa5u8; tape]?, Vec::new(alloc));
    run(
        alloc,
        &["-", SEED, "eval", order, hex],
        &mut input,
        &mut tape,
        100,
    )
}

// The same at order 1.
fn eval(alloc: Global, hex: &str, text: &str, tape: usize) -> Result<Outcome, AllocError> {
    eval_at(alloc, "1", hex, text, tape)
}

// Four random bits are drawn for the example circuit: a byte is enough, and with none the tape fails. The watch is told of
// the one call.
#[test]
fn evaluates_the_example(rt: HostRuntime) -> Result<(), Fail> {
    for (hex, line) in [
        ("01", "01\n"),
        ("03", "00\n"),
        ("00", "00\n"),
        ("02", "00\n"),
    ] {
        let outcome = eval(rt.alloc(), hex, EXAMPLE, 1)?;
        assert_eq!(rt; outcome.status, Status::Done, "on {hex}");
        assert_eq!(rt; outcome.written.as_slice(), line.as_bytes(), "on {hex}");
        assert_eq!(rt; outcome.watch.len(), 1, "on {hex}");
        let unfed = eval(rt.alloc(), hex, EXAMPLE, 0)?;
        assert_eq!(rt; unfed.status, Status::TapeFault, "on {hex}");
        assert!(rt; unfed.written.is_empty(), "on {hex}");
        assert_eq!(rt; unfed.watch.len(), 0, "on {hex}");
    }
    Ok(())
}

// At order d the two inputs draw 2d bits, and the product and the refresh d(d + 1): 4, 10, 18, 28, 40, 54 and 70 bits.
#[test]
fn evaluates_the_example_at_each_order(rt: HostRuntime) -> Result<(), Fail> {
    for (order, bytes) in [
        ("1", 1),
        ("2", 2),
        ("3", 3),
        ("4", 4),
        ("5", 5),
        ("6", 7),
        ("7", 9),
    ] {
        let outcome = eval_at(rt.alloc(), order, "01", EXAMPLE, bytes)?;
        assert_eq!(rt; outcome.status, Status::Done, "at order {order}");
        assert_eq!(rt;
            outcome.written.as_slice(),
            b"01\n".as_slice(),
            "at order {order}"
        );
        let unfed = eval_at(rt.alloc(), order, "01", EXAMPLE, bytes - 1)?;
        assert_eq!(rt; unfed.status, Status::TapeFault, "at order {order}");
    }
    Ok(())
}

// Whether these are the bits, in this order.
fn are_bits(bits: &Bits, want: &[bool]) -> bool {
    if bits.len() != want.len() {
        return false;
    }
    for k in 0..want.len() {
        if bits.get(k) != want[k] {
            return false;
        }
    }
    true
}

// On the tape 1010 0101, lowest bit first: the coins of the inputs are 1 and 0, those of refresh and product 1 and 0.
#[test]
fn tells_the_call(rt: HostRuntime) -> Result<(), Fail> {
    let outcome = eval(rt.alloc(), "01", EXAMPLE, 1)?;
    assert_eq!(rt; outcome.watch.len(), 1);
    if outcome.watch.len() == 1 {
        let call = outcome.watch.get(0);
        assert_eq!(rt; call.order, 1);
        assert!(rt; are_bits(&call.inputs, &[false, true, false, false]));
        assert!(rt; are_bits(&call.tape, &[true, false]));
        assert!(rt; are_bits(&call.outputs, &[false, true]));
    }
    Ok(())
}

// A circuit that isn't accepted is not evaluated: nothing is written, drawn or told, even where there is no tape.
#[test]
fn refuses_a_circuit_that_is_not_accepted(rt: HostRuntime) -> Result<(), Fail> {
    for tape in [0, 1] {
        let outcome = eval(rt.alloc(), "01", SQUARE, tape)?;
        assert_eq!(rt;
            outcome.status,
            Status::Refused {
                product: 1,
                source: 0
            }
        );
        assert!(rt; outcome.written.is_empty());
        assert_eq!(rt; outcome.watch.len(), 0);
    }
    Ok(())
}

#[test]
fn refuses_bits_that_do_not_fit(rt: HostRuntime) -> Result<(), Fail> {
    for hex in ["04", "0100", "-"] {
        let outcome = eval(rt.alloc(), hex, EXAMPLE, 1)?;
        assert_eq!(rt; outcome.status, Status::BadWords { place: 5 }, "on {hex}");
        assert!(rt; outcome.written.is_empty(), "on {hex}");
    }
    Ok(())
}

// A circuit without inputs, gates and outputs draws nothing and prints an empty line.
#[test]
fn prints_an_empty_line_for_nothing(rt: HostRuntime) -> Result<(), Fail> {
    let outcome = eval(rt.alloc(), "-", "masked-circuit 1\ninputs 0\nend\n", 0)?;
    assert_eq!(rt; outcome.status, Status::Done);
    assert_eq!(rt; outcome.written.as_slice(), b"\n".as_slice());
    Ok(())
}

#[test]
fn names_the_first_fault_of_a_text(rt: HostRuntime) -> Result<(), Fail> {
    for (text, line, reason) in [
        (
            "masked-circuit 1\ninputs 2\nxor 0 9\nend\n",
            3,
            Reason::UnknownValue,
        ),
        ("masked-circuit 1\ninputs 1\nout 0\n", 4, Reason::NoEnd),
        ("masked-circuit 3\ninputs 1\nend\n", 1, Reason::BadHeader),
    ] {
        let outcome = eval(rt.alloc(), "01", text, 1)?;
        assert_eq!(rt; outcome.status, Status::BadText { line, reason });
        assert!(rt; outcome.written.is_empty());
    }
    Ok(())
}

// A tape that is closed, an input whose first read fails, and a sink that is full: nothing else is written.
#[test]
fn names_the_object_that_failed(rt: HostRuntime) -> Result<(), Fail> {
    let words = ["-", SEED, "eval", "1", "01"];
    let text = || Vec::from_slice(rt.alloc(), EXAMPLE.as_bytes());
    let none = || Vec::<u32>::new(rt.alloc());

    let mut input = MemSource::new(text()?, 58, none());
    let closed = run(
        rt.alloc(),
        &words,
        &mut input,
        &mut ClosedEntropy::new(),
        100,
    )?;
    assert_eq!(rt; status_number(&closed.status), 8);
    assert!(rt; closed.written.is_empty());

    let mut input = MemSource::new(text()?, 58, vec![in rt.alloc(); 0]?);
    let mut tape = MemEntropy::new(vec![in rt.alloc(); 0u8; 1]?, none());
    let unread = run(rt.alloc(), &words, &mut input, &mut tape, 100)?;
    assert_eq!(rt; status_number(&unread.status), 6);
    assert!(rt; unread.written.is_empty());

    let mut input = MemSource::new(text()?, 58, none());
    let full = run(rt.alloc(), &words, &mut input, &mut tape, 2)?;
    assert_eq!(rt; status_number(&full.status), 9);
    assert_eq!(rt; full.written.as_slice(), b"01".as_slice());
    Ok(())
}

#[test]
fn refuses_words_that_are_no_job(rt: HostRuntime) -> Result<(), Fail> {
    let cases: [(&[&str], u32); 10] = [
        (&[], 1),
        (&["k", "t"], 3),
        (&["k", "t", "enc", "des"], 4),
        (&["k", "seed:00", "check"], 2),
        (&["k", "t", "check", "more"], 4),
        (&["k", "t", "upgrade", "more"], 4),
        (&["k", "t", "eval", "8", "01"], 4),
        (&["k", "t", "eval", "1", "0"], 5),
        (&["k", "t", "probe", "1", "4294967296"], 5),
        (&["k", "t", "eval", "1", "01", "01"], 6),
    ];
    for (words, place) in cases {
        let mut input = MemSource::new(Vec::new(rt.alloc()), 1, Vec::new(rt.alloc()));
        let outcome = run(rt.alloc(), words, &mut input, &mut ClosedEntropy::new(), 0)?;
        assert_eq!(rt; outcome.status, Status::BadWords { place });
    }
    Ok(())
}

#[test]
fn says_how_it_ended(rt: HostRuntime) {
    for (status, number, text) in [
        (Status::Done, 0, "done"),
        (
            Status::Refused {
                product: 4_294_967_295,
                source: 4_294_967_294,
            },
            1,
            "refused: product 4294967295 source 4294967294",
        ),
        (Status::BadWords { place: 5 }, 2, "bad words: place 5"),
        (
            Status::BadText {
                line: 4_294_967_295,
                reason: Reason::TooManyValues,
            },
            4,
            "bad text: line 4294967295: too-many-values",
        ),
        (
            Status::TooLong { limit: 33_554_432 },
            5,
            "too long: limit 33554432",
        ),
        (Status::ReadFault, 6, "read fault"),
        (Status::TapeFault, 8, "tape fault"),
        (Status::WriteFault, 9, "write fault"),
        (Status::BadProbe { place: 5 }, 10, "bad probe: place 5"),
        (Status::NoMemory, 11, "no memory"),
    ] {
        assert_eq!(rt; status_number(&status), number, "{text}");
        assert_eq!(rt; status_text(&status).as_str(), text);
    }
}
