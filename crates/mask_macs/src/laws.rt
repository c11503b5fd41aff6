//! What is proved of the runs of Chaskey-12 and of LightMAC.
ghost use Rattle.std.specs.Prelude.{ℕ, ◌≤◌};
ghost use Rattle.mask_tasks.specs.declared.sizes.KeySize.{KeySize};
ghost use Rattle.mask_macs.specs.Codes.{IsCounterLength, chaskey_code, lightmac_code};
ghost use Rattle.mask_macs.specs.Laws.{OutputFits, OutputGoesOn, OutputsAreBits, PiecesAreSteps, PlansAreStrong, PlansSplit, RegistersGoOn, RunBits, RunsArePrivate};

/// The steps of a message split behind any whole pieces.
pub fn plans_split()
    ensures chaskey { (tag : ℕ) → PlansSplit (chaskey_code tag) }
    ensures lightmac { (size : KeySize) (s tag : ℕ) → IsCounterLength s → PlansSplit (lightmac_code size s tag) }
{}

/// The steps of the next piece are what goes ahead and one of its own, of circuits that its length tells.
pub fn pieces_are_steps()
    ensures chaskey { (tag : ℕ) → PiecesAreSteps (chaskey_code tag) }
    ensures lightmac { (size : KeySize) (s tag : ℕ) → PiecesAreSteps (lightmac_code size s tag) }
{}

/// The steps of a message are a strong plan, and depend on the message in its bits alone.
pub fn plans_are_strong()
    ensures chaskey { (tag : ℕ) → PlansAreStrong (chaskey_code tag) }
    ensures lightmac { (size : KeySize) (s tag : ℕ) → IsCounterLength s → PlansAreStrong (lightmac_code size s tag) }
{}

/// Few wires of a run show nothing of the key and the message, wherever it breaks off.
pub fn runs_are_private()
    ensures chaskey { (tag : ℕ) → RunsArePrivate (chaskey_code tag) }
    ensures lightmac { (size : KeySize) (s tag : ℕ) → IsCounterLength s → RunsArePrivate (lightmac_code size s tag) }
{}

/// How many bits a run takes from the tape.
pub fn run_bits()
    ensures chaskey { (tag : ℕ) → RunBits (chaskey_code tag) }
    ensures lightmac { (size : KeySize) (s tag : ℕ) → IsCounterLength s → RunBits (lightmac_code size s tag) }
{}

/// The tag is of bytes, as many as are wanted.
pub fn output_fits()
    ensures chaskey { (tag : ℕ) → OutputFits (chaskey_code tag) }
    ensures lightmac { (size : KeySize) (s tag : ℕ) → tag ≤ 8 → OutputFits (lightmac_code size s tag) }
{}

/// Behind whole pieces the tag is what the last piece makes of what the run holds there.
pub fn output_goes_on()
    ensures chaskey { (tag : ℕ) → OutputGoesOn (chaskey_code tag) }
    ensures lightmac { (size : KeySize) (s tag : ℕ) → IsCounterLength s → OutputGoesOn (lightmac_code size s tag) }
{}

/// The key stays what it is, and a run can go on from what it holds.
pub fn registers_go_on()
    ensures chaskey { (tag : ℕ) → RegistersGoOn (chaskey_code tag) }
    ensures lightmac { (size : KeySize) (s tag : ℕ) → IsCounterLength s → RegistersGoOn (lightmac_code size s tag) }
{}

/// Which bit of the last state is which bit of the tag.
pub fn outputs_are_bits()
    ensures chaskey { (tag : ℕ) → OutputsAreBits (chaskey_code tag) }
    ensures lightmac { (size : KeySize) (s tag : ℕ) → IsCounterLength s → tag ≤ 8 → OutputsAreBits (lightmac_code size s tag) }
{}
