//! What a name stands for, as bits.

ghost use Rattle.std.specs.Prelude.{◌≡◌, ⊤, [], ◌∷◌, codes};
ghost use Rattle.mrc_model.specs.CallNames.{mask_of};

use bitflags::{Flag, Flags, bitflag_items};
use mrc_model::Entry;

/// The rights that a name has, as Mach's bits (Mach 3 Kernel Interfaces, `mach_port_type_t`).
#[derive(Clone, Copy, Debug, PartialEq, Eq)]
pub struct PortType(u32);

bitflag_items! {
    impl PortType: u32 {
        const SEND = 0x10000;
        const RECEIVE = 0x20000;
        const SEND_ONCE = 0x40000;
        const PORT_SET = 0x80000;
        const DEAD_NAME = 0x100000;
    }
}

impl Flags for PortType {
    type Bits = u32;

    ghost exact = { ⊤ };

    ghost table = { (codes "SEND", 0x10000) ∷ (codes "RECEIVE", 0x20000)
        ∷ (codes "SEND_ONCE", 0x40000) ∷ (codes "PORT_SET", 0x80000)
        ∷ (codes "DEAD_NAME", 0x100000) ∷ [] };

    ghost set_of = { λ t. t.0 };

    fn flags<'a>() -> &'a [Flag<PortType>] {
        PortType::FLAGS
    }

    fn bits(&self) -> u32 {
        self.0
    }

    fn from_bits_retain(bits: u32) -> PortType {
        PortType(bits)
    }
}

impl PortType {
    /// The rights as one number, a bit each.
    pub fn mask(self) -> u32
        ensures { result ≡ self.0 }
    {
        self.0
    }

    /// The rights that an entry shows.
    pub fn of(entry: &Entry) -> PortType
        ensures { result.0 ≡ mask_of entry.now }
    {
        match *entry {
            Entry::Receive { sends: 0, .. } => PortType::RECEIVE,
            Entry::Receive { .. } => PortType(PortType::SEND.0 + PortType::RECEIVE.0),
            Entry::Send { .. } => PortType::SEND,
            Entry::SendOnce { .. } => PortType::SEND_ONCE,
            Entry::PortSet => PortType::PORT_SET,
            Entry::DeadName { .. } => PortType::DEAD_NAME,
        }
    }
}
