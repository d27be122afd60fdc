//! The places of standard input, standard output and standard error, where one of them is closed.
use std::fs::File;
use std::rt::Files;

/// What stands at the places of standard files that were closed, until it is dropped.
#[derive(Drop)]
pub struct StandardFiles<F: Drop> {
    _places: [Option<F>; 3],
}

/// Keeps the places of closed standard files, so that no connection gets one: what is meant for standard error would
/// else go to the peer. A folder stands there, which can be neither read nor written, so that a closed file fails as before.
pub fn keep_standard_files<R: Files>(files: &R) -> StandardFiles<R::File> {
    StandardFiles {
        _places: [
            File::open(files, "/").ok(),
            File::open(files, "/").ok(),
            File::open(files, "/").ok(),
        ],
    }
}
