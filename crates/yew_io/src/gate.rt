//! A gate that each worker passes at each task that it takes. No answer of a search depends on it.

use std::sync::Wait;
use std::thread::Threads;

/// Is called by a worker at each task that it takes, and answers nothing. It may hold the worker up, so that a test
/// can bring about a schedule.
pub trait Gate: Sync {
    /// `worker` is the worker's number, from 1, and `taken` the number of tasks that the worker has taken, with this
    /// one; it stays at the end of 64 bits.
    fn at<R: Threads + Wait>(&self, rt: &R, worker: u32, taken: u64);
}

/// Lets every call pass at once.
#[derive(Clone, Copy, Debug, PartialEq, Eq)]
pub struct OpenGate;

impl Gate for OpenGate {
    fn at<R: Threads + Wait>(&self, _rt: &R, _worker: u32, _taken: u64) {}
}
