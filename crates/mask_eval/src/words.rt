//! Copies of words of shares: the outputs out of all values, and the words that a watch is handed.

ghost use Rattle.std.specs.Prelude.{◌≡◌, ℕ, ◌+◌, ◌*◌, ◌<◌, ◌≤◌, [], ◌++◌, length, take, map, slice_index_or, All};
ghost use Rattle.std.specs.List.{concat};

use mask_shares::Shares;

/// Copies the values of these numbers.
pub(crate) fn copy_values<const N: usize>(
    numbers: &[u32],
    values: &[[u64; N]],
    copies: &mut [Shares<N>],
)
    requires few { N ≤ 8 }
    requires numbers { All (λ u. u < length values.now) numbers.now }
    requires room { length copies.old ≡ length numbers.now }
    ensures copies { copies.new ≡ map (λ u. slice_index_or values.now u []) numbers.now }
    ensures counts { All (λ v. length v ≡ N) copies.new }
{
    for (k, u) in numbers.iter().enumerate() {
        copies[k] = Shares::from_parts(values[*u as usize]);
    }
}

/// Copies these shares to the values from this place on.
pub(crate) fn copy_shares<const N: usize>(
    shares: &[Shares<N>],
    start: usize,
    values: &mut [[u64; N]],
)
    requires few { N ≤ 8 }
    requires room { start + length shares.now ≤ length values.old }
    ensures { take (start + length shares.now) values.new ≡ take start values.old ++ shares.now }
{
    for (k, shared) in shares.iter().enumerate() {
        values[start + k] = shared.parts();
    }
}

/// Writes the words of these values one after another.
pub(crate) fn write_values<const N: usize>(values: &[[u64; N]], words: &mut [u64])
    requires few { N ≤ 8 }
    requires room { length words.old ≡ N * length values.now }
    ensures words { words.new ≡ concat values.now }
    ensures counts { All (λ v. length v ≡ N) values.now }
{
    for (k, value) in values.iter().enumerate() {
        write_value(value, N * k, words);
    }
}

/// Writes the shares of these values one after another.
pub(crate) fn write_shares<const N: usize>(values: &[Shares<N>], words: &mut [u64])
    requires few { N ≤ 8 }
    requires room { length words.old ≡ N * length values.now }
    ensures words { words.new ≡ concat values.now }
{
    for (k, value) in values.iter().enumerate() {
        write_value(&value.parts(), N * k, words);
    }
}

// Writes the words of a value from this place on.
fn write_value<const N: usize>(value: &[u64; N], start: usize, words: &mut [u64])
    requires few { N ≤ 8 }
    requires room { start + N ≤ length words.old }
    ensures words { take (start + N) words.new ≡ take start words.old ++ value.now }
    ensures count { length value.now ≡ N }
{
    for i in 0..N {
        words[start + i] = value[i];
    }
}
