//! `probe`: which input shares suffice for the wires that a prober reads.

ghost use Rattle.std.specs.Prelude.{◌≡◌, suc, ◌+◌, ◌^◌, ◌<◌, ◌≤◌, [], ◌∷◌, ◌++◌, ◌&&◌, not, length, IfOk, IfErr, OnOk, MatchOption};
ghost use Rattle.mask_io.specs.Outside.{faults_after};
ghost use Rattle.mask_circuit.specs.Wires.{joined};
ghost use Rattle.mask_text.specs.Answers.{TakesFront};
ghost use Rattle.mask_check.specs.Costs.{most_steps};
ghost use Rattle.mask_sni.specs.Asked.{members};
ghost use Rattle.mask_probe.specs.Asking.{IsProbeRefusal, has_share};
ghost use Rattle.mask_words.specs.Jobs.{ProbeWords};
ghost use Rattle.mask_inspect.specs.Checks.{Grammar, Acceptance, Probes};
ghost use Rattle.mask_inspect.specs.Ends.{Takes, Ends, CostsAtMost};
ghost use Rattle.mask_status.specs.Ends.{ComesBeforeWriting, is_read_fault, is_write_fault};
ghost use Rattle.mask_inspect.specs.Probing.{wires_of, numbers_text, share_text, need_line, IsNeedReport, RefusesProbes, PrintsNeed};

use crate::reading::{admitted, read};
use arrayvec::ArrayVec;
use itoa::Buffer;
use mask_check::Admitted;
use mask_circuit::Steps;
use mask_io::{Sink, Source};
use mask_probe::{Needs, ProbeError, needs};
use mask_status::{Status, send};
use mask_words::{Words, wire_of};
use std::alloc::{AllocError, Global};
use std::sync::ledger::Ledger;

/// Reads a circuit from all that the input has left, and writes for each input the shares that suffice for the wires that
/// the words name.
pub fn probe<S: Source, O: Sink, L: Ledger>(
    alloc: Global,
    order: u32,
    words: &Words,
    input: &mut S,
    out: &mut O,
    steps: &mut Steps<L>,
) -> Status
    requires some { 1 ≤ order }
    requires few { order ≤ 7 }
    requires words { ProbeWords words.now order }
    ensures ends { Takes (S.left input.old) (S.left input.new) (λ bytes.
        Ends (2 ^ 25) (Grammar ∷ Acceptance ∷ Probes order (wires_of words.now) ∷ [])
        (PrintsNeed bytes order (wires_of words.now) (O.written out.old) (O.written out.new)) bytes (S.left input.new) result
        × CostsAtMost most_steps steps.old steps.new bytes (S.left input.new)) }
    ensures front { TakesFront (S.left input.old) (S.left input.new) }
    ensures input_faults { S.faults input.new ≡ faults_after (is_read_fault result) (S.faults input.old) }
    ensures out_faults { O.faults out.new ≡ faults_after (is_write_fault result) (O.faults out.old) }
    ensures unwritten { ComesBeforeWriting result → out.new ≡ out.old }
    ensures no_tape { result ≡ Status.TapeFault → ⊥ }
{
    let circuit = match read(alloc, input) {
        Ok(circuit) => circuit,
        Err(status) => return status,
    };
    let circuit = match admitted(alloc, circuit, steps) {
        Ok(circuit) => circuit,
        Err(status) => return status,
    };
    match report(alloc, order, &circuit, words) {
        Ok(report) => send(&report, out),
        Err(status) => status,
    }
}

// The report on the wires that the words name.
fn report(alloc: Global, order: u32, circuit: &Admitted, words: &Words) -> Result<Vec<u8>, Status>
    requires some { 1 ≤ order }
    requires few { order ≤ 7 }
    requires words { ProbeWords words.now order }
    ensures ok { IfOk result (λ report. IsNeedReport circuit.now (suc order) (wires_of words.now) report.items) }
    ensures err { IfErr result (RefusesProbes circuit.now (suc order) (wires_of words.now)) }
{
    let Some(wires) = few_wires(order, words) else {
        return Err(Status::BadProbe { place: order + 5 });
    };
    match report_at(alloc, order, circuit, &wires) {
        Ok(report) => Ok(report),
        Err(ProbeError::TooManyProbes) => Err(Status::BadProbe { place: order + 5 }),
        Err(ProbeError::NoSuchWire { place }) => Err(Status::BadProbe { place: place + 5 }),
        Err(ProbeError::NoMemory) => Err(Status::NoMemory),
    }
}

// The numbers of the WIRE words, where there are no more than the order allows.
fn few_wires(order: u32, words: &Words) -> Option<ArrayVec<u32, 7>>
    requires few { order ≤ 7 }
    requires words { ProbeWords words.now order }
    ensures { MatchOption result (order < length (wires_of words.now)) (λ wires. (wires.items ≡ wires_of words.now) × (length wires.items ≤ order)) }
{
    if words.len() - 4 > order as usize {
        return None;
    }
    let mut wires = ArrayVec::new();
    for k in 4..words.len() {
        wires.push(wire_of(words.word(k)));
    }
    Some(wires)
}

// The report at an order that is known when the program runs alone.
fn report_at(
    alloc: Global,
    order: u32,
    circuit: &Admitted,
    wires: &[u32],
) -> Result<Vec<u8>, ProbeError>
    requires some { 1 ≤ order }
    requires few { order ≤ 7 }
    ensures ok { IfOk result (λ report. IsNeedReport circuit.now (suc order) wires.now report.items) }
    ensures err { IfErr result (IsProbeRefusal circuit.now (suc order) wires.now) }
{
    match order {
        1 => report_of::<2>(alloc, order, circuit, wires),
        2 => report_of::<3>(alloc, order, circuit, wires),
        3 => report_of::<4>(alloc, order, circuit, wires),
        4 => report_of::<5>(alloc, order, circuit, wires),
        5 => report_of::<6>(alloc, order, circuit, wires),
        6 => report_of::<7>(alloc, order, circuit, wires),
        _ => report_of::<8>(alloc, order, circuit, wires),
    }
}

fn report_of<const N: usize>(
    alloc: Global,
    order: u32,
    circuit: &Admitted,
    wires: &[u32],
) -> Result<Vec<u8>, ProbeError>
    requires some { 2 ≤ N }
    requires few { N ≤ 8 }
    requires order { order + 1 ≡ N }
    ensures ok { IfOk result (λ report. IsNeedReport circuit.now (suc order) wires.now report.items) }
    ensures err { IfErr result (IsProbeRefusal circuit.now (suc order) wires.now) }
{
    let needs = match needs::<N>(alloc, circuit, wires) {
        Ok(needs) => needs,
        Err(error) => return Err(error),
    };
    Ok(lines_of(alloc, order + 1, &needs)?)
}

// A line for each input.
fn lines_of(alloc: Global, shares: u32, needs: &Needs) -> Result<Vec<u8>, AllocError>
    requires { shares ≤ 8 }
    ensures { IfOk result (λ report. report.items ≡ joined (λ v. need_line shares (has_share needs.now v) v) (length needs.now)) }
{
    let mut report = Vec::new(alloc);
    for input in 0..needs.inputs() {
        add_line(shares, needs, input, &mut report)?;
    }
    Ok(report)
}

// Appends the line of an input.
fn add_line(shares: u32, needs: &Needs, input: u32, report: &mut Vec<u8>) -> Result<(), AllocError>
    requires few { shares ≤ 8 }
    requires input { input < length needs.now }
    ensures { OnOk result (report.new.items ≡ report.old.items ++ need_line shares (has_share needs.now input) input) }
{
    report.extend_from_slice(b"input ")?;
    report.extend_from_slice(Buffer::new().format(input).as_bytes())?;
    report.extend_from_slice(b": ")?;
    add_shares(shares, needs, input, report)?;
    report.push(b'\n')?;
    Ok(())
}

// Appends the numbers of the needed shares with a space between them, or `none`.
fn add_shares(
    shares: u32,
    needs: &Needs,
    input: u32,
    report: &mut Vec<u8>,
) -> Result<(), AllocError>
    requires few { shares ≤ 8 }
    requires input { input < length needs.now }
    ensures { OnOk result (report.new.items ≡ report.old.items ++ numbers_text (members shares (has_share needs.now input))) }
{
    let mut is_first = true;
    for share in 0..shares {
        let needed = needs.has(input, share);
        is_first = add_share(share, needed, is_first, report)?;
    }
    if is_first {
        report.extend_from_slice(b"none")?;
        return Ok(());
    }
    Ok(())
}

// Appends the number of a share where it is needed, behind a space where it isn't the first one. The answer is whether
// the next needed share is the first.
fn add_share(
    share: u32,
    needed: bool,
    is_first: bool,
    report: &mut Vec<u8>,
) -> Result<bool, AllocError>
    ensures first { IfOk result (λ first. first ≡ (is_first && not needed)) }
    ensures text { OnOk result (report.new.items ≡ report.old.items ++ share_text share needed is_first) }
{
    if !needed {
        return Ok(is_first);
    }
    if !is_first {
        report.push(b' ')?;
    }
    report.extend_from_slice(Buffer::new().format(share).as_bytes())?;
    Ok(false)
}
