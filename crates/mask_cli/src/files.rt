//! The key file and the tape that a command line names. What the words mean is said in `mask_words`.

use mask_io::{
    ClosedEntropy, ClosedSource, FileEntropy, OpenEntropy, OpenSource, SeedEntropy, StdSource,
};
use mask_words::{TapeName, Words, keys_path, tape_name};
use std::fs;
use std::rt::Files;

/// The key file, or a closed source where none is named or it doesn't open.
pub fn open_keys<R: Files>(rt: &R, words: &Words) -> OpenSource<R::File> {
    match keys_path(words).and_then(|path| fs::open(rt, path).ok()) {
        Some(file) => OpenSource::File(StdSource::new(file)),
        None => OpenSource::Closed(ClosedSource::new()),
    }
}

/// The tape, or a closed one where none is named or the file doesn't open.
pub fn open_tape<R: Files>(rt: &R, words: &Words) -> OpenEntropy<R::File> {
    match tape_name(words) {
        TapeName::Seed(seed) => OpenEntropy::Seed(SeedEntropy::new(seed)),
        TapeName::Path(path) => match fs::open(rt, path) {
            Ok(file) => OpenEntropy::File(FileEntropy::new(file)),
            Err(_) => OpenEntropy::Closed(ClosedEntropy::new()),
        },
        TapeName::NoTape => OpenEntropy::Closed(ClosedEntropy::new()),
    }
}
