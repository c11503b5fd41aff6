//! What is proved of every task.

ghost use Rattle.mask_ciphers.specs.Laws.{CiphersGoOn, GatesGoOn, LinesShareKeys, MessagesGoOn, OutputsAreCiphertexts, PiecesAreWritten, PlansAreStrong};
ghost use Rattle.mask_ciphers.specs.Laws.{RunsArePrivate, RunsDrawTotals, TasksEncipher};

/// The circuits of a task compute its cipher.
pub fn tasks_encipher()
    ensures { TasksEncipher }
{}

/// A ciphertext is as long as its message, and begins with that of each beginning.
pub fn outputs_are_ciphertexts()
    ensures { OutputsAreCiphertexts }
{}

/// A message goes on behind whole batches, in its steps and in its output.
pub fn messages_go_on()
    ensures { MessagesGoOn }
{}

/// A cipher takes and writes whole batches alike, whether more of the message comes or not.
pub fn ciphers_go_on()
    ensures { CiphersGoOn }
{}

/// What is written of a piece are bytes, as many as the piece has.
pub fn pieces_are_written()
    ensures { PiecesAreWritten }
{}

/// How many gates a run evaluates, piece by piece.
pub fn gates_go_on()
    ensures { GatesGoOn }
{}

/// The steps of a run are a strong plan.
pub fn plans_are_strong()
    ensures { PlansAreStrong }
{}

/// A run draws just the stated number of random bits.
pub fn runs_draw_totals()
    ensures { RunsDrawTotals }
{}

/// Key lines are shares of the key that they join to.
pub fn lines_share_keys()
    ensures { LinesShareKeys }
{}

/// Any few wires of a run, whole or broken off, show nothing of key and message.
pub fn runs_are_private()
    ensures { RunsArePrivate }
{}
