//! The two machines that gates are computed on.
//!
//! These are the places at which words of shares are computed; all else hands words on.

ghost use Rattle.std.specs.Prelude.{◌≡◌, ◌+◌, ◌-◌, ◌^◌, ◌<◌, ◌≤◌, [], ◌∷◌, ◌++◌, length, Some, None};
ghost use Rattle.std.proofs.Common.{rules};
ghost use Rattle.mask_gadget.specs.Wiring.{told_more};

use crate::Wires;
use crate::wiring::Wiring;
use arrayvec::ArrayVec;
use mask_tape::Coins;

/// Keeps nothing of what it is told.
#[derive(Clone, Copy, Debug)]
pub struct Unheard;

impl Wiring for Unheard {
    type Word = u64;

    type Coins = Coins;

    ghost carried = { λ word. word };

    ghost drawn = { λ coins. coins };

    ghost told = { λ _. None };

    ghost room = { λ _. 2 ^ 64 };

    fn fresh(&mut self, coins: &mut Coins) -> u64 {
        coins.next()
    }

    fn public(&mut self, word: u64) -> u64 {
        word
    }

    fn xor(&mut self, a: u64, b: u64) -> u64 {
        a ^ b
    }

    fn and(&mut self, a: u64, b: u64) -> u64 {
        a & b
    }

    fn not(&mut self, a: u64) -> u64 {
        a ^ u64::MAX
    }

    fn same(&mut self, a: u64) -> u64 {
        a
    }

    ghost small = { Prim.search rules };
}

// The word, which is kept behind the others.
fn kept(wires: &mut Wires, word: u64) -> u64
    requires { length wires.old.items < 204 }
    ensures value { result ≡ word }
    ensures items { wires.new.items ≡ wires.old.items ++ word ∷ [] }
    ensures count { length wires.new.items ≡ length wires.old.items + 1 }
{
    wires.push(word);
    word
}

// Keeps the list of all that it is told.
impl Wiring for ArrayVec<u64, 204> {
    type Word = u64;

    type Coins = Coins;

    ghost carried = { λ word. word };

    ghost drawn = { λ coins. coins };

    ghost told = { λ wires. Some wires.items };

    ghost room = { λ wires. 204 - length wires.items };

    fn fresh(&mut self, coins: &mut Coins) -> u64 {
        kept(self, coins.next())
    }

    fn public(&mut self, word: u64) -> u64 {
        kept(self, word)
    }

    fn xor(&mut self, a: u64, b: u64) -> u64 {
        kept(self, a ^ b)
    }

    fn and(&mut self, a: u64, b: u64) -> u64 {
        kept(self, a & b)
    }

    fn not(&mut self, a: u64) -> u64 {
        kept(self, a ^ u64::MAX)
    }

    fn same(&mut self, a: u64) -> u64 {
        kept(self, a)
    }

    ghost small = { Prim.search rules };
}
