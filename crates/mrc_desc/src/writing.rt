//! Writing a message.

ghost use Rattle.std.specs.Prelude.{◌≡◌, ◌≤◌, ◌++◌, length, IfOk, OnOk, replicate, flat_map};
ghost use Rattle.std.specs.List.{AllByRecursion};
ghost use Rattle.mrc_base.specs.Limits.{limit_of_message};
ghost use Rattle.mrc_model.specs.Message.{word, half, descriptor, arg_bytes, written, written_size};
ghost use Rattle.mrc_desc.specs.Lawful.{AreLawful, IsLawfulArg};
ghost use Rattle.mrc_desc.specs.View.{argument_of, arguments_of};

use crate::argument::{Argument, Desc, padding_len};
use crate::message::{HEADER_SIZE, Message, any_ports};
use byteorder::{ByteOrder, LittleEndian};
use std::alloc::{AllocError, Global};

/// The bit of a descriptor's first word that says that the data stand behind it.
const INLINE: u32 = 1 << 28;
/// The bit that says that the numbers stand behind the first word.
const LONGFORM: u32 = 1 << 29;
/// The bit of a header that says that an argument has port rights.
const COMPLEX: u32 = 1 << 31;

fn put_half(out: &mut Vec<u8>, number: u16) -> Result<(), AllocError>
    ensures { OnOk result (out.new.items ≡ out.old.items ++ half number) }
{
    let mut bytes = [0; 2];
    LittleEndian::write_u16(&mut bytes, number);
    out.extend_from_slice(&bytes)
}

fn put_word(out: &mut Vec<u8>, number: u32) -> Result<(), AllocError>
    ensures { OnOk result (out.new.items ≡ out.old.items ++ word number) }
{
    let mut bytes = [0; 4];
    LittleEndian::write_u32(&mut bytes, number);
    out.extend_from_slice(&bytes)
}

fn put_desc(out: &mut Vec<u8>, desc: Desc) -> Result<(), AllocError>
    ensures { OnOk result
        (out.new.items ≡ out.old.items ++ descriptor desc.name desc.size desc.number) }
{
    if desc.is_short() {
        let numbers = u32::from(desc.name) + (u32::from(desc.size) << 8) + (desc.number << 16);
        return put_word(out, numbers + INLINE);
    }
    put_word(out, INLINE + LONGFORM)?;
    put_half(out, desc.name)?;
    put_half(out, desc.size)?;
    put_word(out, desc.number)
}

fn put_zeros(out: &mut Vec<u8>, count: usize) -> Result<(), AllocError>
    ensures { OnOk result (out.new.items ≡ out.old.items ++ replicate count 0) }
{
    for _ in 0..count {
        out.push(0)?;
    }
    Ok(())
}

fn put_words(out: &mut Vec<u8>, names: &[u32]) -> Result<(), AllocError>
    ensures { OnOk result (out.new.items ≡ out.old.items ++ flat_map word names.now) }
{
    for name in names {
        put_word(out, *name)?;
    }
    Ok(())
}

fn put_argument(out: &mut Vec<u8>, argument: &Argument) -> Result<(), AllocError>
    requires { IsLawfulArg (argument_of argument.now) }
    ensures { OnOk result (out.new.items ≡ out.old.items ++ arg_bytes (argument_of argument.now)) }
{
    put_desc(out, argument.desc())?;
    match argument {
        Argument::Data { desc: _, bytes } => {
            let bytes = bytes.as_slice();
            out.extend_from_slice(bytes)?;
            put_zeros(out, padding_len(bytes.len()))
        }
        Argument::Ports { disp: _, names } => put_words(out, names.as_slice()),
    }
}

/// The bytes that a message is written as: its size is that number of bytes, the complex bit stands
/// exactly where an argument has port rights, and a descriptor is short where the short form has
/// room.
pub fn write_message(alloc: Global, message: &Message) -> Result<Vec<u8>, AllocError>
    ensures { IfOk result (λ v. v.items ≡ written message.now) }
{
    let size = written_size(message);
    let header = message.header();
    let args = message.args();
    let complex = if any_ports(args) { COMPLEX } else { 0 };
    let dispositions = u32::from(header.remote_disp) + (u32::from(header.local_disp) << 8);
    let mut out = Vec::with_capacity(alloc, size as usize)?;
    put_word(&mut out, dispositions + complex)?;
    put_word(&mut out, size)?;
    put_word(&mut out, header.remote_port)?;
    put_word(&mut out, header.local_port)?;
    put_word(&mut out, header.seqno)?;
    put_word(&mut out, header.id)?;
    put_arguments(&mut out, args)?;
    Ok(out)
}

fn put_arguments(out: &mut Vec<u8>, args: &[Argument]) -> Result<(), AllocError>
    requires { AllByRecursion IsLawfulArg (arguments_of args.now) }
    ensures { OnOk result
        (out.new.items ≡ out.old.items ++ flat_map arg_bytes (arguments_of args.now)) }
{
    for argument in args {
        put_argument(out, argument)?;
    }
    Ok(())
}

/// How many bytes the message is written as, 24 to 8,192.
pub fn written_size(message: &Message) -> u32
    ensures exact { result ≡ written_size message.now }
    ensures len { result ≡ length (written message.now) }
    ensures within { result ≤ limit_of_message }
{
    (HEADER_SIZE + arguments_size(message.args())) as u32
}

fn arguments_size(args: &[Argument]) -> usize
    requires { AreLawful (arguments_of args.now) }
    ensures { result ≡ length (flat_map arg_bytes (arguments_of args.now)) }
{
    let mut size = 0;
    for argument in args {
        size += argument.written_size();
    }
    size
}
