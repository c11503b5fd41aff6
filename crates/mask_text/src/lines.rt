//! Cutting a text into lines, and a line into words.

ghost use Rattle.std.specs.Prelude.{◌≡◌, ◌<◌, [], ◌∷◌, length, MatchOption};
ghost use Rattle.mask_text.specs.Lines.{IsCut, text_lines, bare, words_of};

// The bytes before the first separator, and those behind it; all of them and nothing, where there is none.
fn cut(bytes: &[u8], separator: u8) -> (&[u8], &[u8])
    ensures { IsCut separator bytes.now result.0.now result.1.now }
{
    for (index, byte) in bytes.iter().enumerate() {
        if *byte == separator {
            return (&bytes[..index], &bytes[index + 1..]);
        }
    }
    (bytes, &[])
}

/// The first line of a text and the text behind it, unless nothing is left.
pub fn next_line(text: &[u8]) -> Option<(&[u8], &[u8])>
    ensures { MatchOption result (text_lines text.now ≡ [])
        (λ found. (text_lines text.now ≡ found.0.now ∷ text_lines found.1.now) × (length found.1.now < length text.now)) }
{
    let length = text.len();
    if length == 0 {
        return None;
    }
    Some(cut(text, b'\n'))
}

/// A line without the one carriage return that may end it.
#[tactic(auto, unfolding(crate::specs::Lines::bare))]
pub fn bare(line: &[u8]) -> &[u8]
    ensures { result.now ≡ bare line.now }
{
    let length = line.len();
    if length > 0 && line[length - 1] == b'\r' {
        return &line[..length - 1];
    }
    line
}

/// The first word of a line and what stands behind it, unless there is no word.
pub fn next_word(line: &[u8]) -> Option<(&[u8], &[u8])>
    ensures { MatchOption result (words_of line.now ≡ [])
        (λ found. (words_of line.now ≡ found.0.now ∷ words_of found.1.now) × (0 < length found.0.now)) }
{
    let mut rest = line;
    while !rest.is_empty() {
        let (piece, after) = cut(rest, b' ');
        if !piece.is_empty() {
            return Some((piece, after));
        }
        rest = after;
    }
    None
}
