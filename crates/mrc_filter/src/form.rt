//! Forms that classes accept, with their places.

use mrc_wiring::TypedForm;

/// A form that a class accepts, and its place in the wiring by which a message was judged.
#[derive(Clone, Copy, Debug)]
pub struct AcceptedForm<'w> {
    /// The place of the form's item in the class's label, from 0.
    pub item: usize,
    /// The id of its messages.
    pub id: u32,
    /// The form itself.
    pub found: &'w TypedForm,
}
