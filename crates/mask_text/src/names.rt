//! Names of groups.

ghost use Rattle.std.specs.Prelude.{◌≡◌, true};
ghost use Rattle.std.specs.List.{list_all};
ghost use Rattle.mask_circuit.specs.Labels.{is_name, is_in_name};

use arrayvec::ArrayString;

fn are_in_name(bytes: &[u8]) -> bool
    ensures { result ≡ list_all is_in_name bytes.now }
{
    bytes.iter().all(|byte| byte.is_ascii_lowercase() || byte.is_ascii_digit() || *byte == b'-')
}

/// Whether a word has 1 to 16 letters, digits and hyphens, and begins with a letter.
#[tactic(auto, unfolding(mask_circuit::specs::Labels::is_name))]
pub fn is_name(word: &[u8]) -> bool
    ensures { result ≡ is_name word.now }
{
    let Some((first, rest)) = word.split_first() else {
        return false;
    };
    if !first.is_ascii_lowercase() {
        return false;
    }
    rest.len() <= 15 && are_in_name(rest)
}

/// A name as text.
pub fn name_of(word: &[u8]) -> ArrayString<16>
    requires { is_name word.now ≡ true }
    ensures { result.bytes ≡ word.now }
{
    let mut name = ArrayString::new();
    for byte in word {
        name.push(char::from(*byte));
    }
    name
}
