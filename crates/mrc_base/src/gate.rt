//! What threads pass before they begin.

/// What each of several threads enters once, before it begins.
pub trait Gate: Sync {
    /// Lets in the thread of this number.
    fn enter(&self, number: usize);
}

/// A gate that lets in each thread at once.
#[derive(Clone, Copy, Debug)]
pub struct Open;

impl Gate for Open {
    fn enter(&self, _number: usize) {}
}
