//! What the lines of a policy of version 3 say.

use crate::quotes::Quoted;
use mrc_base::PortRight;
use mrc_stand_for::{Several, Tasks, WideClass};
use mrc_wiring_text::{Line, Name};

/// TASKS RIGHTS CLASSES: each right of each task on each class.
#[derive(Drop)]
pub struct Product {
    /// The tasks.
    pub tasks: Tasks,
    /// The rights.
    pub rights: Several<PortRight>,
    /// The classes.
    pub classes: Several<WideClass>,
}

/// What a line of a policy of version 3 says.
#[derive(Drop)]
pub enum PolicySays {
    /// `group G TASKS`: G stands for these tasks.
    Group {
        /// G.
        group: Name,
        /// The tasks.
        tasks: Tasks,
    },
    /// `set S CLASSES`: S stands for these classes.
    Set {
        /// S.
        set: Name,
        /// The classes.
        classes: Several<WideClass>,
    },
    /// `forbid TASKS RIGHTS CLASSES`, `forbid "NAME" TASKS RIGHTS CLASSES`: none of the tasks must
    /// ever hold one of the rights.
    Forbid {
        /// NAME.
        name: Option<Quoted>,
        /// What is forbidden.
        product: Product,
    },
    /// `expect TASKS RIGHTS CLASSES`, `expect "NAME" TASKS RIGHTS CLASSES`: each of the tasks has
    /// to be able to hold each of the rights.
    Expect {
        /// NAME.
        name: Option<Quoted>,
        /// What is expected.
        product: Product,
    },
    /// `waive "NAME" "WORDS"`, `waive "NAME" TASKS RIGHTS CLASSES "WORDS"`: what lines of this name
    /// forbid is let pass, or what of it is in the product.
    Waive {
        /// NAME.
        name: Quoted,
        /// The product.
        product: Option<Product>,
        /// WORDS, the reason.
        because: Quoted,
    },
}

/// A line of a policy of version 3 that says something.
pub type WidePolicyLine = Line<PolicySays>;
