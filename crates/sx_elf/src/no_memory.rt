// Want of memory as an error of its own.
use std::alloc::AllocError;
use thiserror::Error;

/// Want of memory, where it is the only refusal.
#[derive(Clone, Copy, Debug, PartialEq, Eq, Error)]
#[error("out of memory")]
pub struct NoMemory;

impl From<AllocError> for NoMemory {
    fn from(_: AllocError) -> NoMemory {
        NoMemory
    }
}
