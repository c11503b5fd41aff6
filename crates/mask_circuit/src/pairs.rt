//! The pairs of shares of a value, by number. A product and a refresh draw a fresh bit for each of them.

ghost use Rattle.std.specs.Prelude.{◌≡◌, ◌+◌, ◌<◌, ◌≤◌, Some, length, slice_get};
ghost use Rattle.mask_circuit.specs.Wires.{pairs, other};
ghost use Rattle.mask_circuit.specs.Pairs.{IsPair, pair_number, pair_count};

/// How many pairs so many shares have.
pub fn pair_count(shares: usize) -> usize
    requires some { 1 ≤ shares }
    requires few { shares ≤ 8 }
    ensures count { result ≡ length (pairs shares) }
    ensures value { result ≡ pair_count shares }
    ensures most { result ≤ 28 }
{
    shares * (shares - 1) / 2
}

/// The number of the pair (i, j), where the pairs stand row by row: (0, 1), (0, 2), .., (1, 2), ..
pub fn pair_number(shares: usize, i: usize, j: usize) -> usize
    requires few { shares ≤ 8 }
    requires order { i < j }
    requires bound { j < shares }
    ensures place { slice_get (pairs shares) result ≡ Some (i, j) }
    ensures value { result ≡ pair_number shares i j }
    ensures below { result < pair_count shares }
    ensures listed { result < length (pairs shares) }
{
    i * (2 * shares - i - 1) / 2 + (j - i - 1)
}

/// The pair of a number, the lower share first.
pub fn pair_at(shares: usize, number: usize) -> (usize, usize)
    requires few { shares ≤ 8 }
    requires known { number < pair_count shares }
    ensures place { slice_get (pairs shares) number ≡ Some result }
    ensures pair { IsPair shares result.0 result.1 }
    ensures number { pair_number shares result.0 result.1 ≡ number }
{
    let mut i = 0;
    let mut rest = number;
    while shares - 1 - i <= rest {
        rest -= shares - 1 - i;
        i += 1;
    }
    (i, i + 1 + rest)
}

/// The partner number m of share i, counted from 0: all shares but i, rising.
pub fn other(i: usize, m: usize) -> usize
    requires { m < 8 }
    ensures partner { result ≡ other i m }
    ensures most { result ≤ m + 1 }
{
    if m < i { m } else { m + 1 }
}
