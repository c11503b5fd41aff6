//! Words that are shared with fresh coins.

ghost use Rattle.std.specs.Prelude.{◌≡◌, ℕ, ◌+◌, ◌-◌, ◌*◌, ◌<◌, ◌≤◌, ◌++◌, length, take, drop};
ghost use Rattle.mask_circuit.specs.Ring.{words};
ghost use Rattle.mask_shares.specs.Sharing.{shared, all_shared};
ghost use Rattle.mask_tape.specs.Drawn.{ahead, left};

use mask_shares::Shares;
use mask_tape::Coins;

/// N shares of a word: the next coins are shares 1 to N - 1, and share 0 is the word plus all of them.
///
/// Sharing a plain word stands outside the probing model: who reads wires here reads the word itself.
pub fn share<const N: usize>(word: u64, coins: &mut Coins) -> Shares<N>
    requires some { 2 ≤ N }
    requires few { N ≤ 8 }
    requires coins { N - 1 ≤ left coins.old }
    ensures shares { result ≡ shared words word (ahead (N - 1) coins.old) }
    ensures spent { coins.new.used ≡ coins.old.used + (N - 1) }
    ensures same { coins.new.words ≡ coins.old.words }
{
    let mut parts = [0; N];
    let mut first = word;
    for i in 1..N {
        let coin = coins.next();
        parts[i] = coin;
        first ^= coin;
    }
    parts[0] = first;
    Shares::from_parts(parts)
}

/// Shares these words with the next coins, one after another, to the values from this place on.
pub(crate) fn share_words<const N: usize>(
    plain: &[u64],
    start: usize,
    coins: &mut Coins,
    values: &mut [[u64; N]],
)
    requires some { 2 ≤ N }
    requires few { N ≤ 8 }
    requires room { start + length plain.now ≤ length values.old }
    requires coins { (N - 1) * length plain.now ≤ left coins.old }
    ensures values { take (start + length plain.now) values.new
        ≡ take start values.old ++ all_shared words (N - 1) plain.now (drop coins.old.used coins.old.words) }
    ensures spent { coins.new.used ≡ coins.old.used + (N - 1) * length plain.now }
    ensures same { coins.new.words ≡ coins.old.words }
{
    for (k, word) in plain.iter().enumerate() {
        let shares = share::<N>(*word, coins);
        values[start + k] = shares.parts();
    }
}
