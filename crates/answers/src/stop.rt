// Why the answers end before the stream does.
use std::io;
use thiserror::Error;

#[derive(Debug, Drop, Error)]
pub enum Stop {
    #[error("a record is shorter than its fields")]
    Short,
    #[error("a record is longer than 32,768 bytes")]
    Long,
    #[error("the stream ends within a record")]
    Cut,
    #[error("a record does not fit the bounds of this program")]
    Bounds,
    #[error(transparent)]
    Io(#[from] io::Error),
}
