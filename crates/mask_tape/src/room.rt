//! Memory for coins that are still to be drawn.

ghost use Rattle.std.specs.Prelude.{◌≡◌, ◌*◌, ◌^◌, ◌≤◌, IfOk};

use std::alloc::{AllocError, Global};
use std::marker::Model;

/// All memory that a draw of so many coins needs, taken before the tape is asked.
#[derive(Drop)]
pub struct CoinRoom {
    pub(crate) lanes: usize,
    // A word for each coin of a lane.
    pub(crate) words: Vec<u64>,
    // The tape's last byte so far, and the most new bytes that may be needed.
    pub(crate) bytes: Vec<u8>,
}

impl Model for CoinRoom {
    ghost use Rattle.std.specs.Prelude.{◌≡◌, ◌+◌, ◌*◌, ◌/◌, ◌^◌, ◌≤◌, length};
    ghost use Rattle.mask_tape.specs.Drawn.{Amount};

    ghost Value = { Amount };

    ghost view = { λ r. record { lanes = r.lanes; bits = length r.words.items } };

    ghost invariant = { λ r. (1 ≤ r.lanes) × (r.lanes ≤ 64) × (r.lanes * length r.words.items ≤ 2 ^ 33)
        × (length r.bytes.items ≡ (r.lanes * length r.words.items + 7) / 8 + 1) };
}

impl CoinRoom {
    /// Room for `bits` coins for each of the first `lanes` lanes.
    pub fn new(alloc: Global, lanes: u32, bits: u64) -> Result<CoinRoom, AllocError>
        requires some { 1 ≤ lanes }
        requires few { lanes ≤ 64 }
        requires bound { lanes * bits ≤ 2 ^ 33 }
        ensures { IfOk result (λ room. room ≡ record { lanes = lanes; bits = bits }) }
    {
        let lanes = lanes as usize;
        let bits = bits as usize;
        let words = vec![in alloc; 0; bits]?;
        let bytes = vec![in alloc; 0; (lanes * bits + 7) / 8 + 1]?;
        Ok(CoinRoom {
            lanes,
            words,
            bytes,
        })
    }
}
