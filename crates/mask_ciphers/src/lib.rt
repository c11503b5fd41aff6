//! The ciphers as tasks: what each makes of a key and a message, by its standard, and the run of steps that computes it.
//!
//! `specs/Tasks.antt` has the tasks, `specs/Methods.antt` how a message is taken piece by piece, `specs/Totals.antt` how many
//! random bits are drawn, and `specs/Laws.antt` what is proved of them.
#![tactic(auto)]

mod laws;

pub use laws::{
    ciphers_go_on, gates_go_on, lines_share_keys, messages_go_on, outputs_are_ciphertexts,
    pieces_are_written, plans_are_strong, runs_are_private, runs_draw_totals, tasks_encipher,
};
