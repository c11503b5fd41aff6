//! What is proved of the named circuits. The function does nothing: its contract is the law.

ghost use Rattle.mask_emit.specs.Emitting.{NamedCircuits};

/// Each named circuit is strong, of its size, and computes what its name says: PRESENT or LEA of the counter block under the key,
/// xored with the message block; or the key itself; or a step of Trivium, LightMAC or Chaskey.
pub fn named_circuits()
    ensures { NamedCircuits }
{}
