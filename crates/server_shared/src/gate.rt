//! Gates: a test can hold a worker at one, so that two workers meet. A server holds none.

/// Hears of a worker's progress, while the worker holds no lock.
pub trait Gate {
    /// The Job with this ticket was taken.
    fn taken(&self, ticket: u64);

    /// The Job with this ticket was built, and is about to be delivered.
    fn built(&self, ticket: u64);
}

/// A gate that holds no worker.
pub struct OpenGate;

impl Gate for OpenGate {
    fn taken(&self, _ticket: u64) {}

    fn built(&self, _ticket: u64) {}
}
