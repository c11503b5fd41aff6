//! A session.

ghost use Rattle.std.specs.Prelude.{◌≡◌, ℕ, ◌+◌, ◌*◌, ◌<◌, ◌≤◌, true, false, [], length, slice_index, IfOk, OnOk, OnErr, Some, None, Err};
ghost use Rattle.mask_io.specs.Outside.{faults_after};
ghost use Rattle.mask_tasks.specs.Tasks.{key_bytes, longest_message};
ghost use Rattle.mask_keys.specs.Lines.{line_length};
ghost use Rattle.mask_trace.specs.Drawing.{stand};
ghost use Rattle.mask_ciphers.specs.Tasks.{method_of, with_lines};
ghost use Rattle.mask_ciphers.specs.Methods.{IsCipher, MayEnd, start_steps};
ghost use Rattle.mask_plan.specs.Sessions.{Answers, Begins, batch_length, block_length, known_bytes, out_words, failed_to_draw, stop_of};

use crate::keys::shares_of_key;
use crate::pieces::take_piece;
use crate::runs::{TaskRun, outputs_of};
use crate::tasks::{
    bytes_at_once, bytes_known_behind, bytes_of_block, bytes_written, makes_tag, place_in_block,
    run_of,
};
use mask_ciphers::lines_share_keys;
use mask_circuit::Steps;
use mask_eval::Watch;
use mask_io::Entropy;
use mask_keys::KeyLines;
use mask_shares::Shares;
use mask_tape::{Tape, TapeError};
use mask_tasks::{Task, message_limit, tasks_are_whole};
use std::alloc::{AllocError, Global};
use std::marker::Model;
use std::sync::ledger::Ledger;

/// Why a session takes no more of a message.
#[derive(Clone, Copy, Debug, PartialEq, Eq)]
pub enum Stop {
    /// The message is longer than this many bytes.
    TooLong { limit: u64 },
    /// Drawing from the tape failed.
    TapeFault,
    /// There is no memory.
    NoMemory,
}

/// A call was refused.
#[derive(Clone, Copy, Debug, PartialEq, Eq)]
pub enum PlanError {
    /// For this reason. The session is closed from now on.
    Refused(Stop),
    /// An earlier call was refused, for this reason.
    Closed(Stop),
}

/// A message under a key in N shares, which is taken piece by piece.
#[derive(Drop)]
pub struct Session<const N: usize> {
    alloc: Global,
    task: Task,
    run: TaskRun<N>,
    fed: u64,
    closed: Option<Stop>,
    ended: bool,
    written: u64,
}

impl<const N: usize> Model for Session<N> {
    ghost use Rattle.mask_plan.specs.Sessions.{Progress};
    ghost use Rattle.mask_plan.specs.Inside.{IsInOrder, progress};

    ghost Value = { Progress };

    ghost view = { λ s. progress s.task s.run s.fed s.closed s.ended s.written };

    ghost invariant = { λ s. IsInOrder N s.task s.fed s.closed s.ended s.run };
}

impl<const N: usize> Session<N> {
    /// A session with the key that these lines are shares of. Nothing is drawn, and no circuit is evaluated.
    pub fn start<L: Ledger>(
        alloc: Global,
        task: &Task,
        key: &KeyLines,
        steps: &mut Steps<L>,
    ) -> Result<Session<N>, AllocError>
        requires some { 2 ≤ N }
        requires few { N ≤ 8 }
        requires lines { length key.now ≡ N }
        requires length { line_length key.now ≡ key_bytes task.now }
        ensures begins { IfOk result (Begins task.now (with_lines task.now key.now)) }
        ensures steps { steps.new ≤ steps.old + start_steps (method_of task.now) }
    {
        lines_share_keys();
        tasks_are_whole(task);
        let shares = shares_of_key::<N>(alloc, task, key)?;
        let run = run_of(alloc, task, &shares, steps)?;
        Ok(Session {
            alloc,
            task: *task,
            run,
            fed: 0,
            closed: None,
            ended: false,
            written: 0,
        })
    }

    /// How many bytes `feed` takes: 512 for PRESENT, which is 64 blocks of 8 bytes, 1,024 for LEA, which is 64 blocks of 16, and 8
    /// for Trivium. For a code it is one piece: 8 bytes less those of the counter for LightMAC, and 16 for Chaskey-12.
    pub fn batch_bytes(&self) -> usize
        ensures { result ≡ batch_length self.now.task }
    {
        bytes_at_once(&self.task)
    }

    /// Takes the next bytes of the message, as many as [`Session::batch_bytes`] says, and encrypts them. For a code a piece is fed
    /// only where one more byte of the message is known, and nothing is handed out behind it.
    ///
    /// It is refused with `Closed` after any refusal, and then, in this order, where the message is too long, where there is no
    /// memory, and where the tape fails. The byte that is known behind a code's piece counts for the length of the message. All
    /// memory is taken before the tape is asked.
    pub fn feed<E: Entropy, W: Watch, L: Ledger>(
        &mut self,
        piece: &[u8],
        tape: &mut Tape,
        entropy: &mut E,
        watch: &mut W,
        steps: &mut Steps<L>,
    ) -> Result<(), PlanError>
        requires unended { self.old.ended ≡ false }
        requires whole { length piece.now ≡ batch_length self.old.task }
        ensures answers { Answers N self.old self.new piece.now false (E.wanted entropy.new) steps.old steps.new
            (stand tape.old (E.left entropy.old) (W.told watch.old)) (stand tape.new (E.left entropy.new) (W.told watch.new)) result }
        ensures closed { (stop : Stop) → self.old.closed ≡ Some stop → (result ≡ Err (PlanError.Closed stop))
            × (tape.new ≡ tape.old) × (entropy.new ≡ entropy.old) × (watch.new ≡ watch.old) }
        ensures long { self.old.closed ≡ None → longest_message self.old.task < known_bytes self.old piece.now false →
            (result ≡ Err (PlanError.Refused (Stop.TooLong (longest_message self.old.task))))
            × (tape.new ≡ tape.old) × (entropy.new ≡ entropy.old) × (watch.new ≡ watch.old) }
        ensures no_memory { result ≡ Err (PlanError.Refused Stop.NoMemory) → (tape.new ≡ tape.old) × (entropy.new ≡ entropy.old) }
        ensures wants { failed_to_draw result ≡ false → E.wanted entropy.new ≡ E.wanted entropy.old }
        ensures counts { E.faults entropy.new ≡ faults_after (failed_to_draw result) (E.faults entropy.old) }
    {
        self.take(piece, false, tape, entropy, watch, steps)
    }

    /// Takes the last bytes of the message, up to as many as [`Session::batch_bytes`] says, and encrypts them, or makes the tag.
    /// After Ok the session has ended. It is refused as `feed` is. With no bytes a cipher evaluates nothing; for a code there are none
    /// only where the message is empty, and its tag is made.
    pub fn end<E: Entropy, W: Watch, L: Ledger>(
        &mut self,
        piece: &[u8],
        tape: &mut Tape,
        entropy: &mut E,
        watch: &mut W,
        steps: &mut Steps<L>,
    ) -> Result<(), PlanError>
        requires unended { self.old.ended ≡ false }
        requires last { length piece.now ≤ batch_length self.old.task }
        requires may_end { MayEnd (method_of self.old.task) self.old.fed piece.now }
        ensures answers { Answers N self.old self.new piece.now true (E.wanted entropy.new) steps.old steps.new
            (stand tape.old (E.left entropy.old) (W.told watch.old)) (stand tape.new (E.left entropy.new) (W.told watch.new)) result }
        ensures closed { (stop : Stop) → self.old.closed ≡ Some stop → (result ≡ Err (PlanError.Closed stop))
            × (tape.new ≡ tape.old) × (entropy.new ≡ entropy.old) × (watch.new ≡ watch.old) }
        ensures long { self.old.closed ≡ None → longest_message self.old.task < known_bytes self.old piece.now true →
            (result ≡ Err (PlanError.Refused (Stop.TooLong (longest_message self.old.task))))
            × (tape.new ≡ tape.old) × (entropy.new ≡ entropy.old) × (watch.new ≡ watch.old) }
        ensures nothing { IsCipher (method_of self.old.task) → piece.now ≡ [] → (tape.new ≡ tape.old) × (entropy.new ≡ entropy.old) × (watch.new ≡ watch.old) }
        ensures no_memory { result ≡ Err (PlanError.Refused Stop.NoMemory) → (tape.new ≡ tape.old) × (entropy.new ≡ entropy.old) }
        ensures wants { failed_to_draw result ≡ false → E.wanted entropy.new ≡ E.wanted entropy.old }
        ensures counts { E.faults entropy.new ≡ faults_after (failed_to_draw result) (E.faults entropy.old) }
    {
        self.take(piece, true, tape, entropy, watch, steps)
    }

    /// How many bytes a block has that is handed out: 8 for PRESENT and Trivium, and 16 for LEA. For a code it is the tag.
    pub fn block_bytes(&self) -> usize
        ensures { result ≡ block_length self.now.task }
    {
        bytes_of_block(&self.task)
    }

    /// Whether the task makes a tag, which is handed out behind the last piece, and not a ciphertext.
    pub fn makes_tag(&self) -> bool
        ensures cipher { result ≡ false → IsCipher (method_of self.now.task) }
        ensures tag { result ≡ true → IsCipher (method_of self.now.task) → ⊥ }
    {
        makes_tag(&self.task)
    }

    // Takes these bytes, the last of the message or not.
    fn take<E: Entropy, W: Watch, L: Ledger>(
        &mut self,
        piece: &[u8],
        last: bool,
        tape: &mut Tape,
        entropy: &mut E,
        watch: &mut W,
        steps: &mut Steps<L>,
    ) -> Result<(), PlanError>
        requires unended { self.old.ended ≡ false }
        requires few { length piece.now ≤ batch_length self.old.task }
        requires whole { last ≡ false → length piece.now ≡ batch_length self.old.task }
        requires ends { last ≡ true → MayEnd (method_of self.old.task) self.old.fed piece.now }
        ensures answers { Answers N self.old self.new piece.now last (E.wanted entropy.new) steps.old steps.new
            (stand tape.old (E.left entropy.old) (W.told watch.old)) (stand tape.new (E.left entropy.new) (W.told watch.new)) result }
        ensures closed { (stop : Stop) → self.old.closed ≡ Some stop → (result ≡ Err (PlanError.Closed stop))
            × (tape.new ≡ tape.old) × (entropy.new ≡ entropy.old) × (watch.new ≡ watch.old) }
        ensures long { self.old.closed ≡ None → longest_message self.old.task < known_bytes self.old piece.now last →
            (result ≡ Err (PlanError.Refused (Stop.TooLong (longest_message self.old.task))))
            × (tape.new ≡ tape.old) × (entropy.new ≡ entropy.old) × (watch.new ≡ watch.old) }
        ensures nothing { IsCipher (method_of self.old.task) → piece.now ≡ [] → (tape.new ≡ tape.old) × (entropy.new ≡ entropy.old) × (watch.new ≡ watch.old) }
        ensures no_memory { result ≡ Err (PlanError.Refused Stop.NoMemory) → (tape.new ≡ tape.old) × (entropy.new ≡ entropy.old) }
        ensures wants { failed_to_draw result ≡ false → E.wanted entropy.new ≡ E.wanted entropy.old }
        ensures counts { E.faults entropy.new ≡ faults_after (failed_to_draw result) (E.faults entropy.old) }
    {
        if let Some(stop) = self.closed {
            return Err(PlanError::Closed(stop));
        }
        let limit = message_limit(&self.task);
        let length = piece.len() as u64;
        if limit - self.fed < length + bytes_known_behind(&self.task, last) {
            self.closed = Some(Stop::TooLong { limit });
            return Err(PlanError::Refused(Stop::TooLong { limit }));
        }
        match take_piece(
            self.alloc,
            &self.task,
            &mut self.run,
            self.fed,
            piece,
            last,
            tape,
            entropy,
            watch,
            steps,
        ) {
            Ok(()) => {}
            Err(error) => {
                let stop = stop_for(error);
                self.closed = Some(stop);
                return Err(PlanError::Refused(stop));
            }
        }
        self.fed += length;
        self.ended = last;
        self.written = bytes_written(&self.task, length, last);
        Ok(())
    }

    /// Whether the message has ended.
    pub fn ended(&self) -> bool
        ensures { result ≡ self.now.ended }
    {
        self.ended
    }

    /// How many bytes the latest call, if it was Ok, has to hand out. For a code there are none behind `feed`, and behind `end` those
    /// of the tag.
    pub fn written(&self) -> u64
        ensures { result ≡ self.now.written }
    {
        self.written
    }

    /// The shares of bit `place` of byte `byte` of the latest blocks, a block in each lane. Place 0 is the lowest bit. A tag is the
    /// block in lane 0.
    pub fn out_bit(&self, byte: u32, place: u32) -> Shares<N>
        requires byte { byte < block_length self.now.task }
        requires place { place < 8 }
        ensures { result ≡ out_words self.now byte place }
    {
        let outputs = outputs_of(&self.run);
        outputs[place_in_block(&self.task, byte, place)]
    }
}

fn stop_for(error: TapeError) -> Stop
    ensures { result ≡ stop_of error }
{
    match error {
        TapeError::Failed => Stop::TapeFault,
        TapeError::NoMemory => Stop::NoMemory,
    }
}
