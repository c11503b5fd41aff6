//! The top call.

ghost use Rattle.std.specs.Prelude.{◌≡◌, ◌⊎◌, ℕ, ◌+◌, ◌≤◌, [], ◌∷◌, List, Some};
ghost use Rattle.mask_io.specs.Outside.{Rose, faults_after};
ghost use Rattle.mask_circuit.specs.Netlist.{Netlist};
ghost use Rattle.mask_text.specs.Text.{IsTextOf};
ghost use Rattle.mask_text.specs.Answers.{TakesFront};
ghost use Rattle.mask_words.specs.Jobs.{IsJob, IsRefused, HasOrder, HasCount, HasWords};
ghost use Rattle.mask_words.specs.declared.table.Job.{Job};
ghost use Rattle.mask_status.specs.declared.status.Status.{Status};
ghost use Rattle.mask_status.specs.Ends.{is_key_fault, is_read_fault, is_tape_fault, is_write_fault};
ghost use Rattle.mask_message.specs.Outside.{Outside};
ghost use Rattle.mask_run.specs.Outside.{LeavesKeys, LeavesInput, LeavesTape, LeavesWatch, TellsNothing, WritesNothing};
ghost use Rattle.mask_run.specs.Calls.{TellsSecureCalls};
ghost use Rattle.mask_run.specs.Promises.{Runs, EndsOn, IsDue, CanBeDone, OneOf, ReadsCircuit, ReadsAll, kind_of, earlier, DrawsNothingOn, most_steps_of};

use crate::evaluating::eval;
use mask_circuit::Steps;
use mask_emit::emit;
use mask_eval::Watch;
use mask_inspect::{check, checks_decide, probe, upgrade};
use mask_io::{Entropy, Sink, Source};
use mask_keys::key_file_or_fault;
use mask_message::enc;
use mask_secrets::{join, split};
use mask_self::self_run;
use mask_status::Status;
use mask_words::{BadWords, Job, Words, read_words, words_have_one_answer};
use std::alloc::Global;
use std::sync::ledger::Ledger;

/// Does what the words ask for.
///
/// Words that are no job are refused before anything is read. `enc` encrypts `input` under the key that `keys` has in shares, with
/// coins from `tape`, batch by batch, and writes the ciphertext to `out`; `watch` is told of each evaluation. `split` and `join` make
/// shares of a key and a key of shares; `emit` writes a circuit that is built in; `self` encrypts a message that is made of a seed,
/// and reports it in a line. `eval` reads a circuit text from `input` and
/// evaluates it on shares; `check` says whether the circuit is accepted and whether it is strong, `upgrade` writes it in version 2 of
/// the text, and `probe` says which input shares suffice for some wires. `steps` counts the values that the checker visits and the
/// gates that are evaluated.
pub fn mask_main<K: Source, S: Source, E: Entropy, O: Sink, W: Watch, L: Ledger>(
    alloc: Global,
    words: &Words,
    keys: &mut K,
    input: &mut S,
    tape: &mut E,
    out: &mut O,
    watch: &mut W,
    steps: &mut Steps<L>,
) -> Status
    // Words are a job or are refused: then at this place, and nothing is touched.
    ensures words { ((job : Job) × IsJob words.now job) ⊎ ((place : ℕ) × IsRefused words.now place) }
    ensures refused { (place : ℕ) → IsRefused words.now place → (result ≡ Status.BadWords place) × (keys.new ≡ keys.old)
        × (input.new ≡ input.old) × (tape.new ≡ tape.old) × (out.new ≡ out.old) × (watch.new ≡ watch.old) × (steps.new ≡ steps.old) }

    // What each status says of the job, and of the bytes that were taken from key file and input, whatever sources they came from.
    ensures ends { (job : Job) → IsJob words.now job → Runs job words.now
        (record {
          keys_before = K.left keys.old;
          keys_after = K.left keys.new;
          left_before = S.left input.old;
          left_after = S.left input.new;
          tape_before = E.left tape.old;
          tape_after = E.left tape.new;
          wanted = E.wanted tape.new;
          out_before = O.written out.old;
          out_after = O.written out.new;
          told_before = W.told watch.old;
          told_after = W.told watch.new;
          steps_before = steps.old;
          steps_after = steps.new;
        }) (tape.new ≡ tape.old) result }

    // The same of a circuit text that the input had left, where it tells that.
    ensures told { (job : Job) (text : List ℕ) → IsJob words.now job → ReadsCircuit job → S.left input.old ≡ Some text → EndsOn (kind_of job words.now)
        (record {
          keys_before = K.left keys.old;
          keys_after = K.left keys.new;
          left_before = S.left input.old;
          left_after = S.left input.new;
          tape_before = E.left tape.old;
          tape_after = E.left tape.new;
          wanted = E.wanted tape.new;
          out_before = O.written out.old;
          out_after = O.written out.new;
          told_before = W.told watch.old;
          told_after = W.told watch.new;
          steps_before = steps.old;
          steps_after = steps.new;
        }) [] text result }
    ensures front { (job : Job) → IsJob words.now job → ReadsCircuit job → TakesFront (S.left input.old) (S.left input.new) }
    ensures all_read { (job : Job) (text : List ℕ) → IsJob words.now job → ReadsCircuit job → S.left input.old ≡ Some text → ReadsAll result →
        S.left input.new ≡ Some [] }

    // When each answer comes: only faults of what is read and want of memory come before the status that is due, and where a message
    // is taken batch by batch, faults of tape and output.
    ensures answers { (job : Job) (file text : List ℕ) (due : Status) → IsJob words.now job → K.left keys.old ≡ Some file → S.left input.old ≡ Some text →
        IsDue (kind_of job words.now) file text due → OneOf result (due ∷ earlier (kind_of job words.now)) }

    // A job that can be done is done, unless an object fails or memory is wanting.
    ensures complete { (job : Job) (file text : List ℕ) → IsJob words.now job → K.left keys.old ≡ Some file → S.left input.old ≡ Some text →
        CanBeDone (kind_of job words.now) file text → (Rose (K.faults keys.old) (K.faults keys.new) → ⊥) →
        (Rose (S.faults input.old) (S.faults input.new) → ⊥) → (Rose (E.faults tape.old) (E.faults tape.new) → ⊥) →
        (Rose (O.faults out.old) (O.faults out.new) → ⊥) → (result ≡ Status.Done) ⊎ (result ≡ Status.NoMemory) }

    // On every command and status: each record that the watch was told is an evaluation of an accepted circuit, which is
    // non-interfering at the order at which it was told, strongly so where it is strong, and private: so many wires show
    // nothing of the bits that are shared.
    ensures secure { TellsSecureCalls (W.told watch.old) (W.told watch.new) }

    // A fault is counted once, at its own object. With every other status the count is as before.
    ensures key_faults { K.faults keys.new ≡ faults_after (is_key_fault result) (K.faults keys.old) }
    ensures input_faults { S.faults input.new ≡ faults_after (is_read_fault result) (S.faults input.old) }
    ensures tape_faults { E.faults tape.new ≡ faults_after (is_tape_fault result) (E.faults tape.old) }
    ensures out_faults { O.faults out.new ≡ faults_after (is_write_fault result) (O.faults out.old) }
    ensures wants { result ≡ Status.TapeFault → 1 ≤ E.wanted tape.new }

    // A tape of which nothing is wanted isn't asked, and a circuit costs at most so many steps.
    ensures idle { (job : Job) (text : List ℕ) (c : Netlist) → IsJob words.now job → S.left input.old ≡ Some text → IsTextOf text c →
        DrawsNothingOn (kind_of job words.now) c → tape.new ≡ tape.old }
    ensures cost { (job : Job) (text : List ℕ) (c : Netlist) → IsJob words.now job → ReadsCircuit job → S.left input.old ≡ Some text → IsTextOf text c →
        steps.new ≤ steps.old + most_steps_of (kind_of job words.now) c }

    // What stays as it was.
    ensures keys { (job : Job) → IsJob words.now job → LeavesKeys job → keys.new ≡ keys.old }
    ensures unread { (job : Job) → IsJob words.now job → LeavesInput job result → input.new ≡ input.old }
    ensures undrawn { (job : Job) → IsJob words.now job → LeavesTape job result → tape.new ≡ tape.old }
    ensures unwatched { (job : Job) → IsJob words.now job → LeavesWatch job result → watch.new ≡ watch.old }
    ensures untold { (job : Job) → IsJob words.now job → TellsNothing job result → W.told watch.new ≡ W.told watch.old }
    ensures unwritten { (job : Job) → IsJob words.now job → WritesNothing job result → out.new ≡ out.old }
{
    words_have_one_answer();
    checks_decide();
    key_file_or_fault();
    let job = match read_words(words) {
        Ok(job) => job,
        Err(BadWords { place }) => return Status::BadWords { place },
    };
    run_job(alloc, job, words, keys, input, tape, out, watch, steps)
}

// The job that the words are.
fn run_job<K: Source, S: Source, E: Entropy, O: Sink, W: Watch, L: Ledger>(
    alloc: Global,
    job: Job,
    words: &Words,
    keys: &mut K,
    input: &mut S,
    tape: &mut E,
    out: &mut O,
    watch: &mut W,
    steps: &mut Steps<L>,
) -> Status
    requires order { HasOrder job }
    requires count { HasCount job }
    requires words { HasWords words.now job }
    ensures ends { Runs job words.now
        (record {
          keys_before = K.left keys.old;
          keys_after = K.left keys.new;
          left_before = S.left input.old;
          left_after = S.left input.new;
          tape_before = E.left tape.old;
          tape_after = E.left tape.new;
          wanted = E.wanted tape.new;
          out_before = O.written out.old;
          out_after = O.written out.new;
          told_before = W.told watch.old;
          told_after = W.told watch.new;
          steps_before = steps.old;
          steps_after = steps.new;
        }) (tape.new ≡ tape.old) result }
    ensures front { ReadsCircuit job → TakesFront (S.left input.old) (S.left input.new) }
    ensures secure { TellsSecureCalls (W.told watch.old) (W.told watch.new) }
    ensures key_faults { K.faults keys.new ≡ faults_after (is_key_fault result) (K.faults keys.old) }
    ensures input_faults { S.faults input.new ≡ faults_after (is_read_fault result) (S.faults input.old) }
    ensures tape_faults { E.faults tape.new ≡ faults_after (is_tape_fault result) (E.faults tape.old) }
    ensures out_faults { O.faults out.new ≡ faults_after (is_write_fault result) (O.faults out.old) }
    ensures wants { result ≡ Status.TapeFault → 1 ≤ E.wanted tape.new }
    ensures keys { LeavesKeys job → keys.new ≡ keys.old }
    ensures unread { LeavesInput job result → input.new ≡ input.old }
    ensures undrawn { LeavesTape job result → tape.new ≡ tape.old }
    ensures unwatched { LeavesWatch job result → watch.new ≡ watch.old }
    ensures untold { TellsNothing job result → W.told watch.new ≡ W.told watch.old }
    ensures unwritten { WritesNothing job result → out.new ≡ out.old }
{
    // Each arm returns by itself, so that what it promises stands apart from the others.
    match job {
        Job::Eval { order } => return eval(alloc, order, words, input, tape, out, watch, steps),
        Job::Check => return check(alloc, input, out, steps),
        Job::Upgrade => return upgrade(alloc, input, out),
        Job::Probe { order } => return probe(alloc, order, words, input, out, steps),
        Job::Enc { task, order } => {
            return enc(alloc, &task, order, keys, input, tape, out, watch, steps);
        }
        Job::Mac { task: code, order } => {
            return enc(alloc, &code, order, keys, input, tape, out, watch, steps);
        }
        Job::Split { order } => return split(alloc, order, keys, tape, out),
        Job::Join { order } => return join(order, keys, out),
        Job::Emit { circuit } => return emit(alloc, circuit, out, steps),
        Job::SelfRun { seed, count, order } => {
            return self_run(alloc, seed, count, order, tape, out, watch, steps);
        }
    }
}
