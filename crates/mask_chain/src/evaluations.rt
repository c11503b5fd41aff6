//! What an evaluation is given, and what becomes of its outputs.

/// Where bits of an input come from that is no bit of the message.
#[derive(Clone, Copy)]
pub enum Source<'a> {
    /// So many bits of the key, from this one on.
    Key { from: usize, count: usize },
    /// The first bits of the state.
    State { count: usize },
    /// Bits that all may know, each in lane 0 of a word.
    Public(&'a [u64]),
}

/// What becomes of the outputs of an evaluation.
#[derive(Clone, Copy)]
pub enum Keep {
    /// They replace as many bits at the front of the key.
    AsKey,
    /// They are the state from then on.
    AsState,
}

/// The inputs of one evaluation, in order, and what becomes of its outputs.
#[derive(Clone, Copy)]
pub struct Evaluation<'a> {
    /// Before the bits of the message.
    pub before: &'a [Source<'a>],
    /// Bits of the message, each in lane 0 of a word. Fresh coins share them.
    pub message: &'a [u64],
    /// Behind them.
    pub behind: &'a [Source<'a>],
    pub keep: Keep,
}
