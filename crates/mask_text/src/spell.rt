//! Spelling the lines of a text.

ghost use Rattle.std.specs.Prelude.{◌≡◌, ◌+◌, ◌≤◌, [], ◌∷◌, ◌++◌, length, decimal};
ghost use Rattle.arrayvec.specs.ArrayVec.{array_vec_len};
ghost use Rattle.mask_circuit.specs.Text.{gate_words, spaced};

use arrayvec::ArrayVec;
use itoa::Buffer;
use mask_circuit::Gate;

/// A line with its line feed; the longest has three words of at most 16 characters.
pub type LineText = ArrayVec<u8, 64>;

fn push_word(line: &mut LineText, word: &[u8])
    requires { array_vec_len line.old + length word.now ≤ 64 }
    ensures { line.new.items ≡ line.old.items ++ word.now }
{
    line.try_extend_from_slice(word).unwrap()
}

// A number and the space before it.
fn push_number(line: &mut LineText, n: u32)
    requires { array_vec_len line.old + 11 ≤ 64 }
    ensures items { line.new.items ≡ line.old.items ++ (32 ∷ decimal n) }
    ensures long { array_vec_len line.new ≤ array_vec_len line.old + 11 }
{
    line.push(b' ');
    let mut buffer = Buffer::new();
    push_word(line, buffer.format(n).as_bytes());
}

fn alone(word: &[u8]) -> LineText
    requires { length word.now ≤ 16 }
    ensures { result.items ≡ spaced (word.now ∷ []) ++ 10 ∷ [] }
{
    let mut line = LineText::new();
    push_word(&mut line, word);
    line.push(b'\n');
    line
}

/// A line of a word and a number.
pub fn numbered(word: &[u8], n: u32) -> LineText
    requires { length word.now ≤ 16 }
    ensures { result.items ≡ spaced (word.now ∷ (decimal n ∷ [])) ++ 10 ∷ [] }
{
    let mut line = LineText::new();
    push_word(&mut line, word);
    push_number(&mut line, n);
    line.push(b'\n');
    line
}

fn paired(word: &[u8], u: u32, v: u32) -> LineText
    requires { length word.now ≤ 16 }
    ensures { result.items ≡ spaced (word.now ∷ (decimal u ∷ (decimal v ∷ []))) ++ 10 ∷ [] }
{
    let mut line = LineText::new();
    push_word(&mut line, word);
    push_number(&mut line, u);
    push_number(&mut line, v);
    line.push(b'\n');
    line
}

/// A line of a word, a name and a number.
pub fn named(word: &[u8], name: &[u8], n: u32) -> LineText
    requires word { length word.now ≤ 16 }
    requires name { length name.now ≤ 16 }
    ensures { result.items ≡ spaced (word.now ∷ (name.now ∷ (decimal n ∷ []))) ++ 10 ∷ [] }
{
    let mut line = LineText::new();
    push_word(&mut line, word);
    line.push(b' ');
    push_word(&mut line, name);
    push_number(&mut line, n);
    line.push(b'\n');
    line
}

/// The line of a gate.
pub fn gate_line(gate: Gate) -> LineText
    ensures { result.items ≡ spaced (gate_words gate) ++ 10 ∷ [] }
{
    match gate {
        Gate::Zero => alone(b"zero"),
        Gate::One => alone(b"one"),
        Gate::Xor(u, v) => paired(b"xor", u, v),
        Gate::Not(u) => numbered(b"not", u),
        Gate::And(u, v) => paired(b"and", u, v),
        Gate::Ref(u) => numbered(b"ref", u),
    }
}
