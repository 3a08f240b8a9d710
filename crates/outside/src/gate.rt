//! What a worker passes before and after a call.

use std::sync::Wait;

/// A worker passes it once it has taken the job of frame `i` of connection `c`, and tells it that its outcome was put. It
/// changes no answer; a test holds workers there.
pub trait Gate {
    /// The job was taken, and isn't decided yet. It may wait.
    fn pass<R: Wait>(&self, rt: &R, c: u32, i: u64);

    /// The job's outcome was put. It may wait.
    fn done<R: Wait>(&self, rt: &R, c: u32, i: u64);
}

/// The gate that lets everyone pass.
#[derive(Drop)]
pub struct EmptyGate;

impl Gate for EmptyGate {
    fn pass<R: Wait>(&self, _rt: &R, _c: u32, _i: u64) {}

    fn done<R: Wait>(&self, _rt: &R, _c: u32, _i: u64) {}
}
