//! The calls of an object in memory.

ghost use Rattle.std.specs.Prelude.{◌≡◌, ◌≤◌, ◌↔◌, false, ◌⊎◌, IsTrue, IsErr, Contains};
ghost use Rattle.std.specs.Result.{is_err};
ghost use Rattle.mask_io.specs.Memory.{after_call};

use crate::Failed;
use std::marker::Model;

// Which calls fail, counted from 0; how many were made; and how many failed.
#[derive(Drop)]
pub(crate) struct Calls {
    fails: Vec<u32>,
    made: u64,
    faults: u64,
}

impl Model for Calls {
    ghost use Rattle.mask_io.specs.Memory.{Script};

    ghost Value = { Script };

    ghost view = { λ c. record { fails = c.fails.items; made = c.made; faults = c.faults } };
}

impl Calls {
    pub(crate) fn new(fails: Vec<u32>) -> Calls
        ensures { result ≡ record { fails = fails.items; made = 0; faults = 0 } }
    {
        Calls {
            fails,
            made: 0,
            faults: 0,
        }
    }

    // Counts a call. It fails where its number is listed, or where it can't be met.
    pub(crate) fn answer(&mut self, can_be_met: bool) -> Result<(), Failed>
        ensures fails { IsErr result
            ↔ (Contains self.old.fails self.old.made ⊎ (can_be_met ≡ false)) }
        ensures after { self.new ≡ after_call self.old (is_err result) }
        ensures never_falls { self.old.faults ≤ self.new.faults }
    {
        let is_listed = is_among(self.made, &self.fails);
        self.made = self.made.saturating_add(1);
        if is_listed || !can_be_met {
            self.faults = self.faults.saturating_add(1);
            return Err(Failed);
        }
        Ok(())
    }
}

fn is_among(number: u64, list: &[u32]) -> bool
    ensures { IsTrue result ↔ Contains list.now number }
{
    list.iter().any(|listed| u64::from(*listed) == number)
}
