//! What the commands read of a key file: its lines.

ghost use Rattle.std.specs.Prelude.{◌≡◌, ◌≤◌, IfOk, IfErr, MatchResult};
ghost use Rattle.mask_io.specs.Outside.{faults_after};
ghost use Rattle.mask_keys.specs.Files.{IsLength};
ghost use Rattle.mask_status.specs.Ends.{is_key_fault};
ghost use Rattle.mask_secrets.specs.KeyEnds.{TakesKeys, AreLines, StopsKeys, IsOfKeys, status_of};

use mask_io::Source;
use mask_keys::{KeyError, KeyLength, KeyLines, read_keys};
use mask_status::{KeyReason, Status};

/// Key lines from all that the key file has left.
pub fn read_lines<K: Source>(
    keys: &mut K,
    lines: u32,
    length: KeyLength,
) -> Result<KeyLines, Status>
    requires some { 1 ≤ lines }
    requires few { lines ≤ 8 }
    requires length { IsLength length }
    ensures ok { IfOk result (λ found. TakesKeys (K.left keys.old) (K.left keys.new)
        (λ bytes. AreLines lines length bytes (K.left keys.new) found)) }
    ensures err { IfErr result (λ status. TakesKeys (K.left keys.old) (K.left keys.new)
        (λ bytes. StopsKeys lines length bytes (K.left keys.new) status)) }
    ensures early { IfErr result IsOfKeys }
    ensures key_faults { MatchResult result
        (λ _. K.faults keys.new ≡ K.faults keys.old)
        (λ status. K.faults keys.new ≡ faults_after (is_key_fault status) (K.faults keys.old)) }
{
    match read_keys(keys, lines, length) {
        Ok(found) => Ok(found),
        Err(error) => Err(status_of(error)),
    }
}

fn status_of(error: KeyError) -> Status
    ensures { result ≡ status_of error }
{
    match error {
        KeyError::KeyFault => Status::KeyFault,
        KeyError::Long => Status::BadKeys(KeyReason::Long),
        KeyError::Line { line } => Status::BadKeys(KeyReason::Line { line }),
        KeyError::Count { found } => Status::BadKeys(KeyReason::Count { found }),
    }
}
