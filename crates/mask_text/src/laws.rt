//! What is proved of all texts. These functions do nothing: their contracts are the laws.

ghost use Rattle.mask_text.specs.Laws.{TextOrFault, CanonicalStands, Canonical2Stands};

/// Each list of bytes either stands for one labelled circuit and no other, or has a first fault.
pub fn text_or_fault()
    ensures { TextOrFault }
{}

/// What is written of a circuit and of a labelled circuit stands for it.
pub fn canonical_stands()
    ensures first { CanonicalStands }
    ensures second { Canonical2Stands }
{}
