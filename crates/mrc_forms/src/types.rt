//! What the items of an argument may be.

ghost use Rattle.std.specs.Prelude.{◌≡◌, ◌==◌};
ghost use Rattle.std.specs.List.{list_any};
ghost use Rattle.mrc_model.specs.Wiring.{type_numbers};
ghost use Rattle.mrc_forms.specs.Types.{dispositions_of, has_rights, is_any_data, types_of};
ghost use Rattle.mrc_forms.specs.declared.types.ItemTypes.TheVariants as types;

use mrc_base::{Copies, Disp, is_port_number};
use std::alloc::{AllocError, Global};

/// What the items of an argument may be, by type numbers, 0 to 21: those from 16 on are
/// dispositions of port rights.
#[derive(Clone, Copy, Debug, PartialEq, Eq)]
pub enum ItemTypes {
    /// Data of any kind, of any size and number.
    AnyData,
    /// Items of this type number.
    One(u16),
    /// Send rights, by each disposition that gives one: MIG's MACH_MSG_TYPE_PORT_SEND.
    Send,
    /// Send-once rights, by each disposition that gives one: MIG's MACH_MSG_TYPE_PORT_SEND_ONCE.
    SendOnce,
    /// Rights by each disposition, or data of each other type number: MIG's `polymorphic`.
    Any,
}

/// The one disposition of a number.
fn only(number: u16) -> &'static [Disp]
    ensures { result.now ≡ dispositions_of (types.One number) }
{
    match Disp::of_number(number) {
        None => &[],
        Some(Disp::MoveReceive) => &[Disp::MoveReceive],
        Some(Disp::MoveSend) => &[Disp::MoveSend],
        Some(Disp::MoveSendOnce) => &[Disp::MoveSendOnce],
        Some(Disp::CopySend) => &[Disp::CopySend],
        Some(Disp::MakeSend) => &[Disp::MakeSend],
        Some(Disp::MakeSendOnce) => &[Disp::MakeSendOnce],
    }
}

impl ItemTypes {
    /// Whether they are data of any kind.
    pub fn is_any_data(self) -> bool
        ensures { result ≡ is_any_data self }
    {
        matches!(self, ItemTypes::AnyData)
    }

    /// Whether the items may have this type number.
    pub fn has(self, number: u16) -> bool
        ensures { result ≡ list_any (λ n. n == number) (type_numbers (types_of self)) }
    {
        match self {
            ItemTypes::AnyData => false,
            ItemTypes::One(only) => only == number,
            ItemTypes::Send => number == 17 || number == 19 || number == 20,
            ItemTypes::SendOnce => number == 18 || number == 21,
            ItemTypes::Any => number <= 21,
        }
    }

    /// Whether one of their type numbers is that of port rights.
    pub fn has_rights(self) -> bool
        ensures { result ≡ has_rights self }
    {
        match self {
            ItemTypes::AnyData => false,
            ItemTypes::One(number) => is_port_number(number),
            ItemTypes::Send | ItemTypes::SendOnce | ItemTypes::Any => true,
        }
    }

    /// The dispositions by which the items may hand over rights, in the order of their numbers.
    pub fn dispositions(self) -> &'static [Disp]
        ensures { result.now ≡ dispositions_of self }
    {
        match self {
            ItemTypes::AnyData => &[],
            ItemTypes::One(number) => only(number),
            ItemTypes::Send => &[Disp::MoveSend, Disp::CopySend, Disp::MakeSend],
            ItemTypes::SendOnce => &[Disp::MoveSendOnce, Disp::MakeSendOnce],
            ItemTypes::Any => &[
                Disp::MoveReceive,
                Disp::MoveSend,
                Disp::MoveSendOnce,
                Disp::CopySend,
                Disp::MakeSend,
                Disp::MakeSendOnce,
            ],
        }
    }
}

impl Copies for ItemTypes {
    fn copy(&self, _: Global) -> Result<ItemTypes, AllocError> {
        Ok(*self)
    }

    fn same(&self, other: &ItemTypes) -> bool {
        *self == *other
    }
}
