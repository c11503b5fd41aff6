//! The words of a command line.

ghost use Rattle.std.specs.Prelude.{◌≡◌, ℕ, ◌+◌, ◌<◌, ◌≤◌, List, [], ◌∷◌, ◌++◌, length, map, OnOk, OnErr, slice_index_or};
ghost use Rattle.std.specs.String.{string_bytes};

use std::alloc::{AllocError, Global};
use std::marker::Model;

/// The words of a command line, in order: at most 1,000,000. A word is a text.
#[derive(Drop)]
pub struct Words {
    words: Vec<String>,
}

impl Model for Words {
    ghost Value = { List (List ℕ) };

    ghost view = { λ w. map (λ s. string_bytes s) w.words.items };

    ghost invariant = { λ w. length w.words.items ≤ 1000000 };
}

impl Words {
    /// No words; it takes no memory.
    pub fn new(alloc: Global) -> Words
        ensures { result ≡ [] }
    {
        Words {
            words: Vec::new(alloc),
        }
    }

    /// Appends a word. After a refusal the words are as before.
    pub fn push(&mut self, word: &str) -> Result<(), AllocError>
        requires { length self.old < 1000000 }
        ensures ok { OnOk result (self.new ≡ self.old ++ word.now ∷ []) }
        ensures err { OnErr result (self.new ≡ self.old) }
    {
        let alloc = *self.words.allocator();
        let text = String::from_str(alloc, word)?;
        self.words.push(text)?;
        Ok(())
    }

    /// How many words there are.
    pub fn len(&self) -> usize
        ensures count { result ≡ length self.now }
        ensures limit { length self.now ≤ 1000000 }
    {
        self.words.len()
    }

    /// The word at place `k`, counted from 0.
    pub fn word(&self, k: usize) -> &str
        requires { k < length self.now }
        ensures { result.now ≡ slice_index_or self.now k [] }
    {
        self.words[k].as_str()
    }
}
