//! The circuits that have names.

ghost use Rattle.std.specs.Prelude.{◌≡◌, MatchOption};
ghost use Rattle.mask_tasks.specs.declared.names.Named.{Named};
ghost use Rattle.mask_tasks.specs.Names.{name_text, input_count, output_count, NamesAreDistinct};

/// A circuit that is built in.
#[derive(Clone, Copy, Debug, PartialEq, Eq)]
pub enum Named {
    /// PRESENT in counter mode, on one block
    Present80,
    Present128,
    /// LEA in counter mode, on one block
    Lea128,
    Lea192,
    Lea256,
    /// fresh shares of a key
    Refresh80,
    Refresh128,
    Refresh192,
    Refresh256,
    /// Trivium: the clocks before the first output, and 64 clocks with output on 64 bits of a message
    TriviumStart,
    TriviumStep,
    /// LightMAC over PRESENT: a piece of a message that isn't the last, and the last one
    LightmacStep80,
    LightmacEnd80,
    LightmacStep128,
    LightmacEnd128,
    /// Chaskey-12: fresh shares of a key, a block that isn't the last, and a last block of 16 bytes or of fewer
    ChaskeyStart,
    ChaskeyStep,
    ChaskeyEndWhole,
    ChaskeyEndShort,
}

/// All of them.
pub const ALL: [Named; 19] = [
    Named::Present80,
    Named::Present128,
    Named::Lea128,
    Named::Lea192,
    Named::Lea256,
    Named::Refresh80,
    Named::Refresh128,
    Named::Refresh192,
    Named::Refresh256,
    Named::TriviumStart,
    Named::TriviumStep,
    Named::LightmacStep80,
    Named::LightmacEnd80,
    Named::LightmacStep128,
    Named::LightmacEnd128,
    Named::ChaskeyStart,
    Named::ChaskeyStep,
    Named::ChaskeyEndWhole,
    Named::ChaskeyEndShort,
];

impl Named {
    /// The name, as a word of a command line spells it.
    pub fn text(self) -> &'static str
        ensures { result.now ≡ name_text self }
    {
        match self {
            Named::Present80 => "present-80",
            Named::Present128 => "present-128",
            Named::Lea128 => "lea-128",
            Named::Lea192 => "lea-192",
            Named::Lea256 => "lea-256",
            Named::Refresh80 => "refresh-80",
            Named::Refresh128 => "refresh-128",
            Named::Refresh192 => "refresh-192",
            Named::Refresh256 => "refresh-256",
            Named::TriviumStart => "trivium-start",
            Named::TriviumStep => "trivium-step",
            Named::LightmacStep80 => "lightmac-step-80",
            Named::LightmacEnd80 => "lightmac-end-80",
            Named::LightmacStep128 => "lightmac-step-128",
            Named::LightmacEnd128 => "lightmac-end-128",
            Named::ChaskeyStart => "chaskey-start",
            Named::ChaskeyStep => "chaskey-step",
            Named::ChaskeyEndWhole => "chaskey-end-whole",
            Named::ChaskeyEndShort => "chaskey-end-short",
        }
    }

    /// How many inputs the circuit has.
    pub fn inputs(self) -> u32
        ensures { result ≡ input_count self }
    {
        match self {
            Named::Present80 => 208,
            Named::Present128 => 256,
            Named::Lea128 => 384,
            Named::Lea192 => 448,
            Named::Lea256 => 512,
            Named::Refresh80 => 80,
            Named::Refresh128 => 128,
            Named::Refresh192 => 192,
            Named::Refresh256 => 256,
            Named::TriviumStart => 160,
            Named::TriviumStep => 352,
            Named::LightmacStep80 | Named::LightmacEnd80 => 208,
            Named::LightmacStep128 | Named::LightmacEnd128 => 256,
            Named::ChaskeyStart => 128,
            Named::ChaskeyStep => 256,
            Named::ChaskeyEndWhole | Named::ChaskeyEndShort => 384,
        }
    }

    /// How many outputs the circuit has.
    pub fn outputs(self) -> u32
        ensures { result ≡ output_count self }
    {
        match self {
            Named::Present80 | Named::Present128 => 64,
            Named::Lea128 | Named::Lea192 | Named::Lea256 => 128,
            Named::Refresh80 => 80,
            Named::Refresh128 => 128,
            Named::Refresh192 => 192,
            Named::Refresh256 => 256,
            Named::TriviumStart => 288,
            Named::TriviumStep => 352,
            Named::LightmacStep80
            | Named::LightmacEnd80
            | Named::LightmacStep128
            | Named::LightmacEnd128 => 64,
            Named::ChaskeyStart
            | Named::ChaskeyStep
            | Named::ChaskeyEndWhole
            | Named::ChaskeyEndShort => 128,
        }
    }
}

/// The circuit that has this name.
pub fn circuit_named(word: &str) -> Option<Named>
    ensures { MatchOption result ((name : Named) → word.now ≡ name_text name → ⊥) (λ name. word.now ≡ name_text name) }
{
    for name in ALL {
        if word == name.text() {
            return Some(name);
        }
    }
    None
}

/// No two circuits have one name.
pub fn names_are_distinct()
    ensures { NamesAreDistinct }
{}
