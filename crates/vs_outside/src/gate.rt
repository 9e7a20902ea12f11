//! A gate: what a server calls at named places of its work. A test holds connections there; the product's gate does nothing.

/// Where a gate is called. No lock is held at any of them.
#[derive(Clone, Copy, Debug, PartialEq, Eq)]
pub enum Place {
    /// After a search was looked up, and before it is worked out.
    Looked,
    /// After an addition was drafted, and before it is worked out.
    Drafted,
    /// After a hold of the lock that made a change, and before its reply.
    Committed,
}

/// A call at each place. One that waits takes what it waits with from its own type.
pub trait Gate {
    /// Called at a place, by the thread that came there.
    fn at(&self, place: Place);
}

/// The gate that does nothing.
#[derive(Clone, Copy)]
pub struct NoGate;

impl Gate for NoGate {
    fn at(&self, _place: Place) {}
}
