//! What a worker passes before and after each group.

/// A gate answers nothing and only waits, so that a test can choose the order in which workers come through.
pub trait Gate {
    /// Called when a worker holds a group and has not begun it.
    fn before(&self, worker: u32, group: u64);

    /// Called when the worker is done with the group.
    fn after(&self, worker: u32, group: u64);
}

/// A gate that waits for nothing.
#[derive(Clone, Copy)]
pub struct NoGate;

impl Gate for NoGate {
    fn before(&self, _worker: u32, _group: u64) {}

    fn after(&self, _worker: u32, _group: u64) {}
}
