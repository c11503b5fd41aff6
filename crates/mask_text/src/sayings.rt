//! What the words of a line say, by their form alone.

ghost use Rattle.std.specs.Prelude.{◌≡◌, ℕ, ◌≤◌, true, IsTrue, ◌↔◌, length};
ghost use Rattle.std.specs.List.{list_all};
ghost use Rattle.std.specs.Option.{option_map};
ghost use Rattle.mask_text.specs.Lines.{words_of, is_passed_over};
ghost use Rattle.mask_text.specs.Sayings.{is_digit, is_number, number, value_behind, version_of, said_by_one, said_by_two, said_by_three, said};
ghost use Rattle.mask_text.specs.Says.{line_of};

use crate::lines::next_word;
use crate::names::is_name;
use crate::said::Said;
use mask_circuit::Gate;

fn are_digits(word: &[u8]) -> bool
    ensures { result ≡ list_all is_digit word.now }
{
    word.iter().all(|byte| byte.is_ascii_digit())
}

#[tactic(auto, unfolding(crate::specs::Sayings::is_number))]
fn is_number(word: &[u8]) -> bool
    ensures { result ≡ is_number word.now }
{
    let Some((first, rest)) = word.split_first() else {
        return false;
    };
    if *first == b'0' && !rest.is_empty() {
        return false;
    }
    rest.len() <= 8 && are_digits(word)
}

// A number is 1 to 9 digits without a leading zero.
#[tactic(auto, unfolding(crate::specs::Sayings::number))]
fn number(word: &[u8]) -> Option<u32>
    ensures { result ≡ number word.now }
{
    if !is_number(word) {
        return None;
    }
    let mut value = 0;
    for digit in word {
        value = value * 10 + u32::from(*digit - b'0');
    }
    Some(value)
}

fn version(word: &[u8]) -> Option<Said<'static>>
    ensures { option_map line_of result ≡ version_of word.now }
{
    if word == b"1".as_slice() {
        Some(Said::First)
    } else if word == b"2".as_slice() {
        Some(Said::Second)
    } else {
        None
    }
}

#[tactic(auto, unfolding(crate::specs::Sayings::said_by_one))]
fn said_by_one(word: &[u8]) -> Option<Said<'static>>
    ensures { option_map line_of result ≡ said_by_one word.now }
{
    if word == b"zero".as_slice() {
        Some(Said::Makes(Gate::Zero))
    } else if word == b"one".as_slice() {
        Some(Said::Makes(Gate::One))
    } else if word == b"end".as_slice() {
        Some(Said::End)
    } else {
        None
    }
}

#[tactic(auto, unfolding(crate::specs::Sayings::said_by_two))]
fn said_by_two(word: &[u8], second: &[u8]) -> Option<Said<'static>>
    ensures { option_map line_of result ≡ said_by_two word.now second.now }
{
    if word == b"masked-circuit".as_slice() {
        version(second)
    } else if word == b"inputs".as_slice() {
        Some(Said::Inputs(number(second)?))
    } else if word == b"not".as_slice() {
        Some(Said::Makes(Gate::Not(number(second)?)))
    } else if word == b"ref".as_slice() {
        Some(Said::Makes(Gate::Ref(number(second)?)))
    } else if word == b"out".as_slice() {
        Some(Said::Out(number(second)?))
    } else {
        None
    }
}

#[tactic(auto, unfolding(crate::specs::Sayings::said_by_three))]
fn said_by_three<'a>(word: &[u8], second: &'a [u8], third: &[u8]) -> Option<Said<'a>>
    ensures { option_map line_of result ≡ said_by_three word.now second.now third.now }
{
    if word == b"xor".as_slice() {
        Some(Said::Makes(Gate::Xor(number(second)?, number(third)?)))
    } else if word == b"and".as_slice() {
        Some(Said::Makes(Gate::And(number(second)?, number(third)?)))
    } else if word == b"input".as_slice() {
        let size = number(third)?;
        if is_name(second) && 1 <= size {
            Some(Said::Input(second, size))
        } else {
            None
        }
    } else if word == b"output".as_slice() {
        let size = number(third)?;
        if is_name(second) && 1 <= size {
            Some(Said::Output(second, size))
        } else {
            None
        }
    } else {
        None
    }
}

/// What a line says, where it is in form.
#[tactic(auto, unfolding(crate::specs::Sayings::said))]
pub fn meaning(line: &[u8]) -> Option<Said<'_>>
    ensures { option_map line_of result ≡ said (words_of line.now) }
{
    let (word, rest) = next_word(line)?;
    let Some((second, rest)) = next_word(rest) else {
        return said_by_one(word);
    };
    let Some((third, rest)) = next_word(rest) else {
        return said_by_two(word, second);
    };
    if next_word(rest).is_some() {
        return None;
    }
    said_by_three(word, second, third)
}

/// Whether a line has no words, or begins with `#`.
pub fn is_passed_over(line: &[u8]) -> bool
    ensures { result ≡ is_passed_over (words_of line.now) }
{
    match next_word(line) {
        Some((word, _)) => word[0] == b'#',
        None => true,
    }
}
