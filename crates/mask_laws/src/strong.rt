//! What is proved of a strong circuit, whose outputs are refreshes that stand by themselves.
ghost use Rattle.mask_laws.specs.Strong.{StrongIsSNI, StrongNeed};

/// Any t wires of a strong circuit, with shares of its outputs beside them, fewer than all together with the t wires at
/// each output, are simulated from the need of the t wires alone, which has at most t shares of each input.
pub fn strong_needs_few_shares()
    ensures { StrongNeed }
{}

/// A strong circuit is strongly non-interfering.
pub fn strong_is_sni()
    ensures { StrongIsSNI }
{}
