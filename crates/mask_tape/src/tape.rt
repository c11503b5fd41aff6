//! The tape: entropy read bit by bit, of which the bits of a last byte are kept.

ghost use Rattle.std.specs.Prelude.{◌≡◌, ℕ, ◌+◌, ◌*◌, ◌^◌, ◌<◌, ◌≤◌, [], ◌∷◌, List, length, is_err, IfOk, IfErr, OnOk, OnErr};
ghost use Rattle.mask_io.specs.Outside.{Takes, faults_after};
ghost use Rattle.mask_tape.specs.Tape.{new_bytes, failed_to_draw, IsDrawn};
ghost use Rattle.mask_tape.specs.declared.tape.TapeError.TheVariants.{Failed, NoMemory};

use crate::coins::Coins;
use crate::room::CoinRoom;
use crate::spreading::spread;
use mask_io::Entropy;
use std::alloc::{AllocError, Global};
use std::marker::Model;

/// Why a tape gives no coins. The tape, and what the entropy has left, are as before.
#[derive(Clone, Copy, Debug, PartialEq, Eq)]
pub enum TapeError {
    /// The entropy failed.
    Failed,
    /// There is no memory. The entropy wasn't asked.
    NoMemory,
}

impl From<AllocError> for TapeError {
    ghost from_gives = { λ _ e. e ≡ NoMemory };

    fn from(_error: AllocError) -> TapeError {
        TapeError::NoMemory
    }
}

impl From<mask_io::Failed> for TapeError {
    ghost from_gives = { λ _ e. e ≡ Failed };

    fn from(_failed: mask_io::Failed) -> TapeError {
        TapeError::Failed
    }
}

/// The bits of the last byte of entropy that weren't used yet: 0 to 7 of them.
#[derive(Drop)]
pub struct Tape {
    last: u8,
    // The bits of the last byte from this one on are kept, so none at 8.
    from: usize,
}

impl Model for Tape {
    ghost use Rattle.std.specs.Prelude.{◌≤◌, [], ◌∷◌, Bool, List, drop};
    ghost use Rattle.mask_bits.specs.Reading.{low};

    ghost Value = { List Bool };

    ghost view = { λ t. drop t.from (low (t.last ∷ [])) };

    ghost invariant = { λ t. (1 ≤ t.from) × (t.from ≤ 8) };
}

impl Tape {
    /// A tape that keeps no bit.
    pub fn new() -> Tape
        ensures { result ≡ [] }
    {
        Tape { last: 0, from: 8 }
    }

    /// How many bits it keeps: 0 to 7.
    pub fn kept(&self) -> usize
        ensures count { result ≡ length self.now }
        ensures few { length self.now < 8 }
    {
        8 - self.from
    }

    /// Draws `bits` coins for each of the first `lanes` lanes: the next `lanes · bits` bits of the tape.
    ///
    /// It is [`CoinRoom::new`] and then [`Tape::draw`].
    pub fn reserve<E: Entropy>(
        &mut self,
        alloc: Global,
        entropy: &mut E,
        lanes: u32,
        bits: u64,
    ) -> Result<Coins, TapeError>
        requires some { 1 ≤ lanes }
        requires few { lanes ≤ 64 }
        requires bound { lanes * bits ≤ 2 ^ 33 }
        ensures drawn { IfOk result (λ coins.
            IsDrawn self.old self.new (E.left entropy.old) (E.left entropy.new) lanes bits coins.words) }
        ensures unused { IfOk result (λ coins. coins.used ≡ 0) }
        ensures wants { OnOk result (E.wanted entropy.new ≡ E.wanted entropy.old) }
        ensures same { OnErr result (self.new ≡ self.old) }
        ensures left { OnErr result (E.left entropy.new ≡ E.left entropy.old) }
        ensures failed { IfErr result (λ e. e ≡ Failed → (E.wanted entropy.new ≡ new_bytes self.old (lanes * bits))
            × (1 ≤ E.wanted entropy.new)) }
        ensures no_memory { IfErr result (λ e. e ≡ NoMemory → entropy.new ≡ entropy.old) }

        // No new byte is needed: the entropy isn't asked.
        ensures unasked { new_bytes self.old (lanes * bits) ≡ 0 → entropy.new ≡ entropy.old }
        ensures counts { E.faults entropy.new ≡ faults_after (failed_to_draw result) (E.faults entropy.old) }
    {
        let room = CoinRoom::new(alloc, lanes, bits)?;
        let coins = self.draw(room, entropy)?;
        Ok(coins)
    }

    /// Draws the coins that the room is for. It takes no memory.
    ///
    /// The kept bits come first, and then those of just as many new bytes as are needed, the lowest bit of a byte first.
    /// Lane l owns bits `l · bits` to `(l + 1) · bits - 1` of this stretch, and word k of the coins has in lane l bit k of
    /// the lane's own part. The entropy is asked once, for all new bytes, and not at all where none is needed.
    pub fn draw<E: Entropy>(
        &mut self,
        room: CoinRoom,
        entropy: &mut E,
    ) -> Result<Coins, mask_io::Failed>
        ensures drawn { IfOk result (λ coins.
            IsDrawn self.old self.new (E.left entropy.old) (E.left entropy.new) room.lanes room.bits coins.words) }
        ensures unused { IfOk result (λ coins. coins.used ≡ 0) }
        ensures wants { OnOk result (E.wanted entropy.new ≡ E.wanted entropy.old) }
        ensures same { OnErr result (self.new ≡ self.old) }
        ensures left { OnErr result (E.left entropy.new ≡ E.left entropy.old) }
        ensures failed { OnErr result ((E.wanted entropy.new ≡ new_bytes self.old (room.lanes * room.bits))
            × (1 ≤ E.wanted entropy.new)) }

        // No new byte is needed: the entropy isn't asked.
        ensures unasked { new_bytes self.old (room.lanes * room.bits) ≡ 0 → entropy.new ≡ entropy.old }
        ensures counts { E.faults entropy.new ≡ faults_after (is_err result) (E.faults entropy.old) }
    {
        let CoinRoom {
            lanes,
            mut words,
            mut bytes,
        } = room;
        let end = self.from + lanes * words.len();
        // Byte 0 is the last one so far, so the stretch ends within byte `count`, and this byte is the last one then.
        let count = (end - 1) / 8;
        bytes.truncate(count + 1);
        fill_behind(entropy, self.last, &mut bytes)?;
        spread(&bytes, self.from, lanes, &mut words);
        self.last = bytes[count];
        self.from = end - 8 * count;
        Ok(Coins::new(words))
    }
}

// Puts this byte first, and new ones behind it.
fn fill_behind<E: Entropy>(
    entropy: &mut E,
    last: u8,
    bytes: &mut [u8],
) -> Result<(), mask_io::Failed>
    requires { 1 ≤ length bytes.old }
    ensures ok { OnOk result ((fresh : List ℕ) × (bytes.new ≡ last ∷ fresh) × Takes (E.left entropy.old) (E.left entropy.new) fresh) }
    ensures wants { OnOk result (E.wanted entropy.new ≡ E.wanted entropy.old) }
    ensures left { OnErr result (E.left entropy.new ≡ E.left entropy.old) }
    ensures failed { OnErr result ((E.wanted entropy.new + 1 ≡ length bytes.old) × (1 ≤ E.wanted entropy.new)) }
    ensures unasked { length bytes.old ≡ 1 → entropy.new ≡ entropy.old }
    ensures counts { E.faults entropy.new ≡ faults_after (is_err result) (E.faults entropy.old) }
{
    bytes[0] = last;
    if bytes.len() == 1 {
        return Ok(());
    }
    entropy.fill(&mut bytes[1..])?;
    Ok(())
}
