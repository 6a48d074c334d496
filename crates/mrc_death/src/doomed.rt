//! What a call destroys.

ghost use Rattle.std.specs.Prelude.{◌≡◌};

use mrc_base::{PortId, PortRight};
use std::marker::Model;

/// A right on a port.
#[derive(Debug, Drop)]
pub struct Held {
    port: PortId,
    right: PortRight,
}

impl Model for Held {
    ghost use Rattle.mrc_model.specs.World as model;

    ghost Value = { model.Held };

    ghost view = { λ a. record { port = a.port; right = a.right } };
}

impl Held {
    /// This right on the port.
    pub fn new(port: PortId, right: PortRight) -> Held
        ensures { result ≡ record { port = port; right = right } }
    {
        Held { port, right }
    }

    /// The port.
    pub fn port(&self) -> PortId
        ensures { result ≡ self.now.port }
    {
        self.port
    }

    /// The right on it.
    pub fn right(&self) -> PortRight
        ensures { result ≡ self.now.right }
    {
        self.right
    }
}

/// What a call destroys: rights, and the kernel port of a task that it ends.
#[derive(Debug, Drop)]
pub struct Doomed {
    rights: Vec<Held>,
    kernel: Option<PortId>,
}

impl Model for Doomed {
    ghost use Rattle.mrc_model.specs.Death as model;

    ghost Value = { model.Doomed };

    ghost view = { λ a. record { rights = a.rights.items; kernel = a.kernel } };
}

impl Doomed {
    /// Rights, and the kernel port of a task that ends, if one does.
    pub fn new(rights: Vec<Held>, kernel: Option<PortId>) -> Doomed
        ensures { result ≡ record { rights = rights.items; kernel = kernel } }
    {
        Doomed { rights, kernel }
    }

    /// The rights.
    pub fn rights(&self) -> &[Held]
        ensures { result.now ≡ self.now.rights }
    {
        self.rights.as_slice()
    }

    /// The rights, taken out.
    pub(crate) fn into_rights(self) -> Vec<Held>
        ensures { result.items ≡ self.rights }
    {
        self.rights
    }

    /// The kernel port of the task that ends.
    pub fn kernel(&self) -> Option<PortId>
        ensures { result ≡ self.now.kernel }
    {
        self.kernel
    }
}
