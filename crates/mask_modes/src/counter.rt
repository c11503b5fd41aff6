//! What is proved of counter mode.
ghost use Rattle.mask_modes.specs.Laws.{BatchesAreSteps, BytesAreRead, CiphertextFits, CiphertextInBlocks, MessagesSplit};
ghost use Rattle.mask_modes.specs.Laws.{NumbersAreBlocks, OutputsAreBits, OutputsStandForCiphertext, RunBits, RunsArePrivate, StepsAreStrong, StepsEncrypt};

/// A message splits behind any whole blocks.
pub fn messages_split()
    ensures { MessagesSplit }
{}

/// A ciphertext is as long as its message, begins with that of each beginning, and encrypts to the message.
pub fn ciphertext_fits()
    ensures { CiphertextFits }
{}

/// A ciphertext is made of its blocks end to end.
pub fn ciphertext_in_blocks()
    ensures { CiphertextInBlocks }
{}

/// The steps of a batch: a refresh first, if one is due, and then a step for each block.
pub fn batches_are_steps()
    ensures { BatchesAreSteps }
{}

/// How many bits a run takes from the tape.
pub fn run_bits()
    ensures { RunBits }
{}

/// The steps of a message are a strong plan, and depend on the message in its bits alone.
pub fn steps_are_strong()
    ensures { StepsAreStrong }
{}

/// Few wires of a run show nothing of the key and the message.
pub fn runs_are_private()
    ensures { RunsArePrivate }
{}

/// Each block comes out as its XOR with the encrypted counter, and the key stays what it is.
pub fn steps_encrypt()
    ensures { StepsEncrypt }
{}

/// Bytes are known by their bits, read low first or high first, and counters are big-endian numbers.
pub fn bytes_are_read()
    ensures { BytesAreRead }
{}

/// What a run hands out stands for the ciphertext.
pub fn outputs_stand_for_ciphertext()
    ensures { OutputsStandForCiphertext }
{}

/// Which output stands for which bit of the ciphertext.
pub fn outputs_are_bits()
    ensures { OutputsAreBits }
{}

/// A mode for a cipher on numbers enciphers blocks of bytes, big-endian as PRESENT's or little-endian as LEA's.
pub fn numbers_are_blocks()
    ensures { NumbersAreBlocks }
{}
