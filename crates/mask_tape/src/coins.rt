//! Random words that are used one by one.

ghost use Rattle.std.specs.Prelude.{◌≡◌, ◌+◌, ◌<◌, ◌≤◌, [], length, slice_index};
ghost use Rattle.mask_tape.specs.Drawn.{left};

use std::marker::Model;

/// Random words for one evaluation, each with a bit for each lane. Each is handed out once.
///
/// Coins must be spent: there is no way to let them go but [`Coins::finish`], which wants that none is left.
pub struct Coins {
    words: Vec<u64>,
    used: usize,
}

impl Model for Coins {
    ghost use Rattle.std.specs.Prelude.{◌≤◌, length};
    ghost use Rattle.mask_tape.specs.Drawn.{Drawn};

    ghost Value = { Drawn };

    ghost view = { λ c. record { words = c.words.items; used = c.used } };

    ghost invariant = { λ c. c.used ≤ length c.words.items };
}

impl Coins {
    pub(crate) fn new(words: Vec<u64>) -> Coins
        ensures words { result.words ≡ words.items }
        ensures used { result.used ≡ 0 }
    {
        Coins { words, used: 0 }
    }

    /// The next word.
    pub fn next(&mut self) -> u64
        requires { 0 < left self.old }
        ensures value { result ≡ slice_index self.old.words self.old.used }
        ensures spent { self.new.used ≡ self.old.used + 1 }
        ensures same { self.new.words ≡ self.old.words }
    {
        let word = self.words[self.used];
        self.used += 1;
        word
    }

    /// How many words are left.
    pub fn left(&self) -> usize
        ensures { result ≡ left self.now }
    {
        self.words.len() - self.used
    }

    /// All words, those that were used too.
    pub fn words(&self) -> &[u64]
        ensures { result.now ≡ self.now.words }
    {
        self.words.as_slice()
    }

    /// How many words were used.
    pub fn used(&self) -> usize
        ensures value { result ≡ self.now.used }
        ensures bound { self.now.used ≤ length self.now.words }
    {
        self.used
    }

    /// Ends the use of coins that are all spent.
    pub fn finish(self)
        requires { left self ≡ 0 }
    {
        let Coins {
            words: _words,
            used: _used,
        } = self;
    }
}
