//! `Gate`, which a worker passes before it works.

/// A gate. It may hold a worker back, and changes nothing that the worker computes.
pub trait Gate {
    /// Lets the worker of this number pass. It takes no memory.
    fn pass(&self, worker: u32);
}

/// A gate that lets each worker pass at once.
#[derive(Clone, Copy)]
pub struct NoGate;

impl Gate for NoGate {
    fn pass(&self, _worker: u32) {}
}
