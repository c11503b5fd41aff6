//! What is proved of all key files and all splits. These functions do nothing: their contracts are the laws.

ghost use Rattle.mask_keys.specs.Laws.{KeyFileOrFault, KeyFileReadsBack, SplitHides, SplitsJoin};

/// Each list of bytes either is a key file of one list of lines, or has a first fault.
pub fn key_file_or_fault()
    ensures { KeyFileOrFault }
{}

/// What is written of key lines reads back as these lines.
pub fn key_file_reads_back()
    ensures { KeyFileReadsBack }
{}

/// The lines of a split are key lines, and join to the key.
pub fn splits_join()
    ensures { SplitsJoin }
{}

/// Fewer lines of a split than there are show nothing of the key.
pub fn split_hides()
    ensures { SplitHides }
{}
