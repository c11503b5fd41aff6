//! What a key file decides. The function does nothing: its contract is the law.

ghost use Rattle.mask_secrets.specs.Laws.{SplitDecides, JoinDecides};

use mask_keys::key_file_or_fault;

/// Of a key file that tells its bytes, the status that is due comes, or a fault of reading; and where the bytes are key
/// lines, what was done was done with these.
pub fn keys_decide()
    ensures split { SplitDecides }
    ensures join { JoinDecides }
{
    key_file_or_fault();
}
