//! The machine that a gadget computes on.

ghost use Rattle.std.specs.Prelude.{◌≡◌, ℕ, ◌+◌, ◌-◌, ◌^◌, ◌<◌, ◌≤◌, List, [], ◌∷◌, Option, slice_index, bit_and, bit_xor};
ghost use Rattle.std.specs.Mem.{type_size};
ghost use Rattle.mask_tape.specs.Drawn.{Drawn, left};
ghost use Rattle.mask_gadget.specs.Wiring.{told_more};

/// A machine that computes on words of shares, and is told each value that it computes: each is a wire.
///
/// Who is generic over it has no other way to compute on a share: neither a word nor a coin can be read.
pub trait Wiring {
    /// A word of shares, with a bit for each lane.
    type Word: Copy;

    /// Fresh words.
    type Coins;

    /// What a word is.
    ghost carried: { Self.Word → ℕ };

    /// Which words were drawn, and how many of them were used.
    ghost drawn: { Self.Coins → Drawn };

    /// What it was told so far, where it tells that.
    ghost told: { Self → Option (List ℕ) };

    /// How many values it can still be told.
    ghost room: { Self → ℕ };

    /// The next coin.
    fn fresh(&mut self, coins: &mut Self::Coins) -> Self::Word
        requires left { 0 < left (drawn coins.old) }
        requires room { 0 < room self.old }
        ensures value { carried result ≡ slice_index (drawn coins.old).words (drawn coins.old).used }
        ensures spent { (drawn coins.new).used ≡ (drawn coins.old).used + 1 }
        ensures same { (drawn coins.new).words ≡ (drawn coins.old).words }
        ensures told { told self.new ≡ told_more (told self.old) (carried result ∷ []) }
        ensures room { room self.old ≤ room self.new + 1 };

    /// A word that all may know.
    fn public(&mut self, word: u64) -> Self::Word
        requires room { 0 < room self.old }
        ensures value { carried result ≡ word }
        ensures told { told self.new ≡ told_more (told self.old) (carried result ∷ []) }
        ensures room { room self.old ≤ room self.new + 1 };

    /// The exclusive or of two words.
    fn xor(&mut self, a: Self::Word, b: Self::Word) -> Self::Word
        requires room { 0 < room self.old }
        ensures value { carried result ≡ bit_xor (carried a) (carried b) }
        ensures told { told self.new ≡ told_more (told self.old) (carried result ∷ []) }
        ensures room { room self.old ≤ room self.new + 1 };

    /// The conjunction of two words.
    fn and(&mut self, a: Self::Word, b: Self::Word) -> Self::Word
        requires room { 0 < room self.old }
        ensures value { carried result ≡ bit_and (carried a) (carried b) }
        ensures told { told self.new ≡ told_more (told self.old) (carried result ∷ []) }
        ensures room { room self.old ≤ room self.new + 1 };

    /// The word with all bits flipped.
    fn not(&mut self, a: Self::Word) -> Self::Word
        requires room { 0 < room self.old }
        ensures value { carried result ≡ bit_xor (carried a) (2 ^ 64 - 1) }
        ensures told { told self.new ≡ told_more (told self.old) (carried result ∷ []) }
        ensures room { room self.old ≤ room self.new + 1 };

    /// The same word, as a wire of its own.
    fn same(&mut self, a: Self::Word) -> Self::Word
        requires room { 0 < room self.old }
        ensures value { carried result ≡ carried a }
        ensures told { told self.new ≡ told_more (told self.old) (carried result ∷ []) }
        ensures room { room self.old ≤ room self.new + 1 };

    /// A word is no larger than a machine word, so that arrays of words have a size.
    ghost small: { type_size Self.Word.row ≤ 8 };
}
