//! Arguments, and the descriptors that stand before their data.

ghost use Rattle.std.specs.Prelude.{◌≡◌, ◌↔◌, IfOk, IsTrue, length, if◌then◌else◌};
ghost use Rattle.mrc_base.specs.Disposition.{disp_number};
ghost use Rattle.mrc_model.specs.Message.{Arg, arg_bytes, is_port_arg};
ghost use Rattle.mrc_desc.specs.Descriptor.{is_lawful_desc, is_short, data_len, padding_len};
ghost use Rattle.mrc_desc.specs.Descriptor.{first_word};
ghost use Rattle.mrc_desc.specs.Lawful.{IsLawfulArg, IsLawfulData, IsLawfulPorts};
ghost use Rattle.mrc_desc.specs.View.{argument_of, desc_of};

use crate::lists::{Bytes, Names};
use mrc_base::Disp;
use std::alloc::{AllocError, Global};

/// The bits of a port's name.
const NAME_SIZE: u16 = 32;

/// What a descriptor says of the data behind it.
#[derive(Clone, Copy, Debug, PartialEq, Eq)]
pub struct Desc {
    /// The type number of the items, msgt_name: below 16 data, from 16 to 21 a disposition.
    pub name: u16,
    /// The bits of an item, msgt_size.
    pub size: u16,
    /// How many items there are, msgt_number.
    pub number: u32,
}

impl Desc {
    /// Whether a descriptor may say so: its name is at most 21, its size a multiple of 8 and not 0,
    /// and 32 where the name is a disposition.
    pub(crate) fn is_lawful(self) -> bool
        ensures { result ≡ is_lawful_desc self }
    {
        self.size > 0
            && self.size % 8 == 0
            && (self.name < 16 || self.name <= 21 && self.size == 32)
    }

    /// Whether the short form has room for the name, the size and the number.
    pub(crate) fn is_short(self) -> bool
        ensures { result ≡ is_short self }
    {
        self.name <= 255 && self.size <= 255 && self.number <= 4095
    }

    /// How many bytes the descriptor is written as.
    pub(crate) fn written_size(self) -> usize
        ensures { result ≡ (if is_short self then 4 else 12) }
    {
        if self.is_short() { 4 } else { 12 }
    }

    /// How many bytes the data have, without padding.
    pub(crate) fn data_len(self) -> usize
        ensures { result ≡ data_len self }
    {
        usize::try_from(self.number).unwrap() * usize::from(self.size) / 8
    }

    /// How many bytes a lawful argument is written as that has this descriptor: the descriptor, the
    /// data and their padding.
    pub fn argument_size(self) -> usize
        ensures { (argument : Arg) → IsLawfulArg argument → desc_of argument ≡ self
            → result ≡ length (arg_bytes argument) }
    {
        let len = self.data_len();
        self.written_size() + len + padding_len(len)
    }
}

/// The bytes of padding behind data of this length, up to a multiple of four.
pub(crate) fn padding_len(len: usize) -> usize
    ensures { result ≡ padding_len len }
{
    (4 - len % 4) % 4
}

/// The first word of a descriptor, by its parts.
#[derive(Clone, Copy, Debug, PartialEq, Eq)]
pub(crate) struct FirstWord {
    pub name: u16,
    pub size: u16,
    pub number: u32,
    pub inline: bool,
    pub longform: bool,
    pub deallocate: bool,
    pub unused: bool,
}

/// The parts of a descriptor's first word.
pub(crate) fn first_word(word: u32) -> FirstWord
    ensures { result ≡ first_word word }
{
    FirstWord {
        name: (word & 0xff) as u16,
        size: (word >> 8 & 0xff) as u16,
        number: word >> 16 & 0xfff,
        inline: word >> 28 & 1 == 1,
        longform: word >> 29 & 1 == 1,
        deallocate: word >> 30 & 1 == 1,
        unused: word >> 31 & 1 == 1,
    }
}

fn is_lawful_data(desc: Desc, bytes: &[u8]) -> bool
    ensures { IsTrue result ↔ IsLawfulData desc.name desc.size desc.number bytes.now }
{
    desc.name < 16 && desc.is_lawful() && bytes.len() == desc.data_len()
}

fn is_lawful_ports(disp: Disp, names: &[u32]) -> bool
    ensures { IsTrue result ↔ IsLawfulPorts (disp_number disp) names.now }
{
    u32::try_from(names.len()).is_ok()
}

/// One argument of a message.
#[derive(Debug, Drop)]
pub enum Argument {
    /// Items of data, as their bytes. The descriptor's name is below 16.
    Data { desc: Desc, bytes: Bytes },
    /// Port rights, by the names that the task has for them.
    Ports { disp: Disp, names: Names },
}

impl Argument {
    /// Whether the format has room for the argument.
    pub fn is_lawful(&self) -> bool
        ensures { IsTrue result ↔ IsLawfulArg (argument_of self.now) }
    {
        match self {
            Argument::Data { desc, bytes } => is_lawful_data(*desc, bytes.as_slice()),
            Argument::Ports { disp, names } => is_lawful_ports(*disp, names.as_slice()),
        }
    }

    /// Whether the argument has port rights.
    pub fn is_ports(&self) -> bool
        ensures { result ≡ is_port_arg (argument_of self.now) }
    {
        matches!(self, Argument::Ports { .. })
    }

    /// The type number of the items: that of the data, or that of the disposition.
    pub fn name(&self) -> u16
        ensures { result ≡ (desc_of (argument_of self.now)).name }
    {
        match self {
            Argument::Data { desc, bytes: _ } => desc.name,
            Argument::Ports { disp, names: _ } => disp.number(),
        }
    }

    /// The bits of an item.
    pub fn size(&self) -> u16
        ensures { result ≡ (desc_of (argument_of self.now)).size }
    {
        match self {
            Argument::Data { desc, bytes: _ } => desc.size,
            Argument::Ports { .. } => NAME_SIZE,
        }
    }

    /// How many items there are: as many as the descriptor of the data says, or as there are names.
    pub fn number(&self) -> usize
        ensures { result ≡ (desc_of (argument_of self.now)).number }
    {
        match self {
            Argument::Data { desc, bytes: _ } => usize::try_from(desc.number).unwrap(),
            Argument::Ports { disp: _, names } => names.as_slice().len(),
        }
    }

    /// What the descriptor before the argument says.
    pub(crate) fn desc(&self) -> Desc
        requires { IsLawfulArg (argument_of self.now) }
        ensures { result ≡ desc_of (argument_of self.now) }
    {
        Desc {
            name: self.name(),
            size: self.size(),
            number: self.number() as u32,
        }
    }

    /// How many bytes the argument is written as: its descriptor, its data and their padding.
    pub(crate) fn written_size(&self) -> usize
        requires { IsLawfulArg (argument_of self.now) }
        ensures { result ≡ length (arg_bytes (argument_of self.now)) }
    {
        self.desc().argument_size()
    }

    /// The same argument once more.
    pub fn copy(&self, alloc: Global) -> Result<Argument, AllocError>
        ensures { IfOk result (λ copy. argument_of copy ≡ argument_of self.now) }
    {
        Ok(match self {
            Argument::Data { desc, bytes } => Argument::Data {
                desc: *desc,
                bytes: bytes.copy(alloc)?,
            },
            Argument::Ports { disp, names } => Argument::Ports {
                disp: *disp,
                names: names.copy(alloc)?,
            },
        })
    }

    /// Whether the arguments are the same.
    pub fn same(&self, other: &Argument) -> bool
        ensures { IsTrue result ↔ (argument_of self.now ≡ argument_of other.now) }
    {
        match (self, other) {
            (
                Argument::Data { desc, bytes },
                Argument::Data {
                    desc: other_desc,
                    bytes: other_bytes,
                },
            ) => *desc == *other_desc && bytes.same(other_bytes),
            (
                Argument::Ports { disp, names },
                Argument::Ports {
                    disp: other_disp,
                    names: other_names,
                },
            ) => disp == other_disp && names.same(other_names),
            _ => false,
        }
    }
}
