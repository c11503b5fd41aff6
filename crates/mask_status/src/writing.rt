//! The end of a command that writes one report.

ghost use Rattle.std.specs.Prelude.{◌≡◌};
ghost use Rattle.mask_io.specs.Outside.{faults_after};
ghost use Rattle.mask_status.specs.Ends.{Writes, is_write_fault};

use crate::status::Status;
use mask_io::{Sink, write_all};

/// Writes a report, whole or as much of it as the output takes.
pub fn send<O: Sink>(report: &[u8], out: &mut O) -> Status
    ensures writes { Writes report.now (O.written out.old) (O.written out.new) result }
    ensures out_faults { O.faults out.new ≡ faults_after (is_write_fault result) (O.faults out.old) }
{
    match write_all(out, report) {
        Ok(()) => Status::Done,
        Err(_) => Status::WriteFault,
    }
}
