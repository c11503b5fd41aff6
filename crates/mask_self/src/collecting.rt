//! A sink that keeps what is written.

ghost use Rattle.std.specs.Prelude.{◌≡◌, [], Some, IfOk, OnErr};
ghost use Rattle.std.specs.Result.{is_err};
ghost use Rattle.mask_io.specs.Outside.{faults_after, Accepts, Stays};

use mask_io::{Failed, Sink};
use std::alloc::{AllocError, Global};
use std::marker::Model;

/// The bytes that were written. Its only fault is want of memory, which comes where more bytes are written than it has room for.
#[derive(Drop)]
pub(crate) struct Collected {
    bytes: Vec<u8>,
    faults: u64,
}

impl Model for Collected {
    ghost use Rattle.mask_self.specs.Collecting.{Kept};

    ghost Value = { Kept };

    ghost view = { λ c. record { bytes = c.bytes.items; faults = c.faults } };
}

impl Collected {
    /// Nothing was written yet. Memory for so many bytes is taken.
    pub(crate) fn with_room(alloc: Global, room: usize) -> Result<Collected, AllocError>
        ensures { IfOk result (λ c. c ≡ record { bytes = []; faults = 0 }) }
    {
        let bytes = Vec::with_capacity(alloc, room)?;
        Ok(Collected { bytes, faults: 0 })
    }

    pub(crate) fn bytes(&self) -> &[u8]
        ensures { result.now ≡ self.now.bytes }
    {
        self.bytes.as_slice()
    }
}

impl Sink for Collected {
    ghost written = { λ c. Some c.bytes };

    ghost faults = { λ c. c.faults };

    fn write(&mut self, piece: &[u8]) -> Result<usize, Failed>
        ensures ok { IfOk result (Accepts (Some self.old.bytes) (Some self.new.bytes) piece.now) }
        ensures err { OnErr result (Stays (Some self.old.bytes) (Some self.new.bytes)) }
        ensures counts { self.new.faults ≡ faults_after (is_err result) self.old.faults }
    {
        match self.bytes.extend_from_slice(piece) {
            Ok(()) => Ok(piece.len()),
            Err(_) => {
                self.faults = self.faults.saturating_add(1);
                Err(Failed)
            }
        }
    }
}
