//! Sessions: a message that is taken piece by piece, where each piece is encrypted on shares, or is taken into a tag.
//!
//! A [`Session`] has a key in N shares, at order N - 1, and takes the message in batches: [`Session::feed`] takes as many bytes as
//! [`Session::batch_bytes`] says, and [`Session::end`] takes the rest, which may be none. A batch of a block cipher is 64 blocks.
//! Each call evaluates the cipher's circuit once, for all blocks side by side, and ahead of each batch but the first a circuit that
//! gives the key fresh shares. A batch of Trivium is 8 bytes. Each call evaluates 64 clocks, and ahead of the first those that make
//! the state. It draws the coins of its blocks from the tape, and tells the watch of each block.
//!
//! A batch of a code, LightMAC or Chaskey-12, is one piece. For a code a piece is fed only where one more byte of the message is
//! known, since the last piece is taken in another way than those before it. So the rest is empty only where the message is.
//!
//! After a call that was Ok there are [`Session::written`] bytes to hand out, in shares. Of a cipher they are as many as the call
//! took; of a code they are none behind `feed`, and behind `end` they are the tag. Byte k is byte `k % b` of the block in lane
//! `k / b`, where b is the number of bytes of a block, and [`Session::out_bit`] has the shares of its bits. A tag is a block of its
//! own. Nothing here brings shares together.
//!
//! A refusal closes a session: the message is longer than the longest, there is no memory, or drawing failed, tested in this
//! order. From then on each call is refused with `Closed` and that reason, and changes nothing. A step is a gate of a circuit that
//! is evaluated, for all lanes at once, or a value that the checker visits in [`Session::start`].
//!
//! `specs/Sessions.antt` says what each call does; `specs/Inside.antt` is for the proofs alone.
#![tactic(auto)]

mod keys;
mod pieces;
mod runs;
mod session;
mod tasks;

pub use mask_tasks::{KeySize, Task, key_length};
pub use session::{PlanError, Session, Stop};
