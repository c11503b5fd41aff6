//! `join`: the key that key lines are shares of.

ghost use Rattle.std.specs.Prelude.{◌≡◌, ◌≤◌, suc};
ghost use Rattle.mask_io.specs.Outside.{faults_after};
ghost use Rattle.mask_keys.specs.declared.files.KeyLength.TheVariants.{Any};
ghost use Rattle.mask_status.specs.Ends.{ComesBeforeWriting, is_key_fault, is_write_fault};
ghost use Rattle.mask_secrets.specs.KeyEnds.{TakesKeys, KeyEnds};
ghost use Rattle.mask_secrets.specs.Joining.{Joins};

use crate::reading::read_lines;
use mask_io::{Sink, Source};
use mask_keys::{KeyLength, join_key, line_text};
use mask_status::{Status, send};

/// Reads a key file of one line more than the order from all that the key file has left, and writes the key that its lines
/// are shares of, as a line.
pub fn join<K: Source, O: Sink>(order: u32, keys: &mut K, out: &mut O) -> Status
    requires some { 1 ≤ order }
    requires few { order ≤ 7 }
    ensures ends { TakesKeys (K.left keys.old) (K.left keys.new) (λ bytes.
        KeyEnds (suc order) Any (Joins (O.written out.old) (O.written out.new)) bytes (K.left keys.new) result) }
    ensures key_faults { K.faults keys.new ≡ faults_after (is_key_fault result) (K.faults keys.old) }
    ensures out_faults { O.faults out.new ≡ faults_after (is_write_fault result) (O.faults out.old) }
    ensures unwritten { ComesBeforeWriting result → out.new ≡ out.old }
{
    let lines = match read_lines(keys, order + 1, KeyLength::Any) {
        Ok(lines) => lines,
        Err(status) => return status,
    };
    let text = line_text(&join_key(&lines));
    send(text.as_slice(), out)
}
