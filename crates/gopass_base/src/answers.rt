//! Answers without fields, which several crates give.

use std::alloc::{AllocError, AllocFailed};

/// The outside could not do what it was asked.
#[derive(Clone, Copy, Debug, PartialEq, Eq)]
pub struct Failed;

/// There was no memory for the answer.
#[derive(Clone, Copy, Debug, PartialEq, Eq)]
pub struct NoMemory;

impl From<AllocError> for NoMemory {
    fn from(_: AllocError) -> Self {
        NoMemory
    }
}

impl<T: Drop> From<AllocFailed<T>> for NoMemory {
    fn from(_: AllocFailed<T>) -> Self {
        NoMemory
    }
}
