//! Marks on values: a word for each value, whose bit j is mark j.

ghost use Rattle.std.specs.Prelude.{◌≡◌, ℕ, ◌+◌, ◌<◌, ◌≤◌, ◌^◌, ◌↔◌, length, slice_index, slice_set, IsTrue};
ghost use Rattle.mask_check.specs.Marks.{HasBit, HasOperandsBelow, IsSource, passed_on, with_marks};

use mask_circuit::Gate;

/// The word that has mark j alone.
pub(crate) fn mark(j: usize) -> u64
    requires { j < 64 }
    ensures { result ≡ 2 ^ j }
{
    1 << j
}

/// Gives a value the marks of a word, beside those that it has.
pub(crate) fn add_marks(words: &mut [u64], value: u32, word: u64)
    requires { value < length words.old }
    ensures { words.new ≡ with_marks words.old value word }
{
    words[value as usize] |= word;
}

/// Takes the marks off a value, gives them to the operands where its gate is an xor or a not, and returns them.
pub(crate) fn take_marks(words: &mut [u64], value: u32, gate: Option<Gate>) -> u64
    requires known { value < length words.old }
    requires earlier { HasOperandsBelow (length words.old) gate }
    ensures word { result ≡ slice_index words.old value }
    ensures passed { words.new ≡ passed_on gate result (slice_set words.old value 0) }
{
    let word = words[value as usize];
    words[value as usize] = 0;
    match gate {
        Some(Gate::Xor(u, v)) => {
            add_marks(words, u, word);
            add_marks(words, v, word);
        }
        Some(Gate::Not(u)) => add_marks(words, u, word),
        _ => {}
    }
    word
}

/// Whether a value with this gate is a source.
fn is_source(gate: Option<Gate>) -> bool
    ensures { IsTrue result ↔ IsSource gate }
{
    matches!(gate, None | Some(Gate::And(_, _)) | Some(Gate::Ref(_)))
}

/// The lowest mark that both words of a source have; 64 where there is none, and for a value that is no source.
pub(crate) fn lowest_common(gate: Option<Gate>, left: u64, right: u64) -> u32
    ensures source { result < 64 → IsSource gate }
    ensures on_left { result < 64 → HasBit left result }
    ensures on_right { result < 64 → HasBit right result }
    ensures lowest { IsSource gate → (j : ℕ) → HasBit left j → HasBit right j → result ≤ j }
{
    if !is_source(gate) {
        return 64;
    }
    (left & right).trailing_zeros()
}
