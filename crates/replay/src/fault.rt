// Why a list is not replayed to its end.
use std::io;
use thiserror::Error;

// The line where a broken block starts, or a broken line's own.
#[derive(Clone, Copy, Debug, Error)]
#[error("line {line}: the list is broken")]
pub struct Broken {
    pub line: u64,
}

#[derive(Debug, Drop, Error)]
pub enum Fault {
    #[error("the list is too long")]
    TooLong,
    #[error(transparent)]
    Broken(#[from] Broken),
    #[error(transparent)]
    Io(#[from] io::Error),
}
