//! Reading a message.

ghost use Rattle.std.specs.Prelude.{◌≡◌, ◌≤◌, ◌<◌, length, IfOk, IsOk, Ok, Err};
ghost use Rattle.std.specs.Result.{result_map_both};
ghost use Rattle.mrc_base.specs.Reading.{Gives};
ghost use Rattle.mrc_base.specs.declared.memory.OrMemory.TheVariants.{Memory};
ghost use Rattle.mrc_model.specs.Message.{Message, any_port_arg};
ghost use Rattle.mrc_desc.specs.Descriptor.{half_at, word_at};
ghost use Rattle.mrc_desc.specs.Lawful.{is_admitted};
ghost use Rattle.mrc_desc.specs.Spelling.{Spells};
ghost use Rattle.mrc_desc.specs.Reading.{judged, said_at, desc_at, words, arg_with, data_at};
ghost use Rattle.mrc_desc.specs.Reading.{arg_at, args_of, header_at, is_complex, message_at};
ghost use Rattle.mrc_desc.specs.View.{argument_of, arguments_of};

use crate::argument::{Argument, Desc, FirstWord, first_word, padding_len};
use crate::fault::ReadFault;
use crate::lists::{Bytes, Names};
use crate::message::{Arguments, HEADER_SIZE, Header, Message};
use byteorder::{ByteOrder, LittleEndian};
use mrc_base::{Disp, OrMemory, is_port_number, limits};
use std::alloc::{AllocError, Global};

fn half_at(bytes: &[u8]) -> u16
    requires { 2 ≤ length bytes.now }
    ensures { result ≡ half_at bytes.now }
{
    LittleEndian::read_u16(bytes)
}

fn word_at(bytes: &[u8]) -> u32
    requires { 4 ≤ length bytes.now }
    ensures { result ≡ word_at bytes.now }
{
    LittleEndian::read_u32(bytes)
}

#[tactic(auto, unfolding(crate::specs::Reading::judged))]
fn judged(at: usize, first: FirstWord, desc: Desc) -> Result<Desc, ReadFault>
    ensures { result ≡ judged at first desc }
{
    if first.deallocate || first.unused || !desc.is_lawful() {
        return Err(ReadFault::BadDesc(at));
    }
    if !first.inline {
        return Err(ReadFault::OutOfLine(at));
    }
    Ok(desc)
}

#[tactic(auto, unfolding(crate::specs::Reading::said_at))]
fn said_at(at: usize, first: FirstWord, bytes: &[u8]) -> Result<(Desc, &[u8]), ReadFault>
    requires { 4 ≤ length bytes.now }
    ensures fault { result_map_both (λ x. (x.0, x.1.now)) (λ fault. fault) result
        ≡ said_at at first bytes.now }
    ensures within { IfOk result (λ x. length x.1.now < length bytes.now) }
{
    if !first.longform {
        let desc = Desc {
            name: first.name,
            size: first.size,
            number: first.number,
        };
        return Ok((desc, &bytes[4..]));
    }
    if bytes.len() < 12 {
        return Err(ReadFault::Truncated(at));
    }
    let desc = Desc {
        name: half_at(&bytes[4..]),
        size: half_at(&bytes[6..]),
        number: word_at(&bytes[8..]),
    };
    Ok((desc, &bytes[12..]))
}

#[tactic(auto, unfolding(crate::specs::Reading::desc_at))]
fn desc_at(at: usize, bytes: &[u8]) -> Result<(Desc, &[u8]), ReadFault>
    ensures fault { result_map_both (λ x. (x.0, x.1.now)) (λ fault. fault) result
        ≡ desc_at at bytes.now }
    ensures within { IfOk result (λ x. length x.1.now < length bytes.now) }
{
    if bytes.len() < 4 {
        return Err(ReadFault::Truncated(at));
    }
    let first = first_word(word_at(bytes));
    let (desc, rest) = said_at(at, first, bytes)?;
    Ok((judged(at, first, desc)?, rest))
}

fn words(alloc: Global, bytes: &[u8]) -> Result<Names, AllocError>
    ensures { IfOk result (λ names. names ≡ words bytes.now) }
{
    let mut names = Vec::with_capacity(alloc, bytes.len() / 4)?;
    let mut rest = bytes;
    while rest.len() >= 4 {
        names.push(word_at(rest))?;
        rest = &rest[4..];
    }
    Ok(Names::from(names))
}

fn arg_with(alloc: Global, desc: Desc, bytes: &[u8]) -> Result<Argument, AllocError>
    ensures { IfOk result (λ argument. argument_of argument ≡ arg_with desc bytes.now) }
{
    match Disp::of_number(desc.name) {
        Some(disp) => Ok(Argument::Ports {
            disp,
            names: words(alloc, bytes)?,
        }),
        None => Ok(Argument::Data {
            desc,
            bytes: Bytes::from(Vec::from_slice(alloc, bytes)?),
        }),
    }
}

/// The data of a descriptor at the front, and the bytes after its padding.
#[tactic(auto, unfolding(crate::specs::Reading::data_at))]
fn data_at(at: usize, desc: Desc, bytes: &[u8]) -> Result<(&[u8], &[u8]), ReadFault>
    ensures fault { result_map_both (λ x. (arg_with desc x.0.now, x.1.now)) (λ fault. fault) result
        ≡ data_at at desc bytes.now }
    ensures within { IfOk result (λ x. length x.1.now ≤ length bytes.now) }
{
    let len = desc.data_len();
    let padded = len + padding_len(len);
    if bytes.len() < padded {
        return Err(ReadFault::Truncated(at));
    }
    Ok((&bytes[..len], &bytes[padded..]))
}

/// The descriptor at the front, its data, and the bytes after their padding.
#[tactic(auto, unfolding(crate::specs::Reading::arg_at))]
fn arg_at(at: usize, bytes: &[u8]) -> Result<(Desc, &[u8], &[u8]), ReadFault>
    ensures fault { result_map_both (λ x. (arg_with x.0 x.1.now, x.2.now)) (λ fault. fault) result
        ≡ arg_at at bytes.now }
    ensures within { IfOk result (λ x. length x.2.now < length bytes.now) }
{
    let (desc, rest) = desc_at(at, bytes)?;
    let (items, after) = data_at(at, desc, rest)?;
    Ok((desc, items, after))
}

/// Whether an argument behind the header has port rights, or the first fault of the arguments.
fn has_ports(bytes: &[u8]) -> Result<bool, ReadFault>
    requires { 24 ≤ length bytes.now }
    ensures { result ≡ result_map_both any_port_arg (λ fault. fault) (args_of bytes.now) }
{
    let mut ports = false;
    let (_, mut rest) = bytes.split_at(HEADER_SIZE);
    while !rest.is_empty() {
        let (desc, _items, after) = arg_at(bytes.len() - rest.len(), rest)?;
        ports |= is_port_number(desc.name);
        rest = after;
    }
    Ok(ports)
}

/// The arguments behind the header.
fn args_of(alloc: Global, bytes: &[u8]) -> Result<Arguments, OrMemory<ReadFault>>
    requires { 24 ≤ length bytes.now }
    ensures { Gives arguments_of result (args_of bytes.now) }
{
    let mut args = Vec::new(alloc);
    let (_, mut rest) = bytes.split_at(HEADER_SIZE);
    while !rest.is_empty() {
        let (desc, items, after) = arg_at(bytes.len() - rest.len(), rest)?;
        let argument = arg_with(alloc, desc, items)?;
        args.push(argument)?;
        rest = after;
    }
    Ok(Arguments::from(args))
}

fn header_at(bytes: &[u8]) -> Header
    requires { 24 ≤ length bytes.now }
    ensures { result ≡ header_at bytes.now }
{
    let bits = word_at(bytes);
    Header {
        remote_disp: (bits & 0xff) as u8,
        local_disp: (bits >> 8 & 0xff) as u8,
        remote_port: word_at(&bytes[8..]),
        local_port: word_at(&bytes[12..]),
        seqno: 0,
        id: word_at(&bytes[20..]),
    }
}

/// Whether a sent message may have these dispositions and this reply port.
fn is_admitted(header: Header) -> bool
    ensures { result ≡ is_admitted header.remote_disp header.local_disp header.local_port }
{
    let without_reply = header.local_disp == 0 && header.local_port == 0;
    (17..=21).contains(&header.remote_disp)
        && (without_reply || (17..=21).contains(&header.local_disp))
}

fn is_complex(bytes: &[u8]) -> bool
    requires { 24 ≤ length bytes.now }
    ensures { result ≡ is_complex bytes.now }
{
    word_at(bytes) >> 31 == 1
}

/// The header of bytes that encode a message, or the first fault. It takes no memory.
#[tactic(auto, unfolding(crate::specs::Reading::message_at))]
fn checked(bytes: &[u8]) -> Result<Header, ReadFault>
    ensures { result
        ≡ result_map_both (λ m. header_at bytes.now) (λ fault. fault) (message_at bytes.now) }
{
    if bytes.len() < HEADER_SIZE {
        return Err(ReadFault::TooShort);
    }
    if bytes.len() > limits::MESSAGE {
        return Err(ReadFault::TooLong);
    }
    let header = header_at(bytes);
    if !is_admitted(header) {
        return Err(ReadFault::BadHeaderDisp);
    }
    if is_complex(bytes) != has_ports(bytes)? {
        return Err(ReadFault::ComplexDiffers);
    }
    Ok(header)
}

/// The message of the bytes. They are read twice: first for a fault, then for the arguments.
fn message_at(alloc: Global, bytes: &[u8]) -> Result<Message, OrMemory<ReadFault>>
    ensures fault { Gives (λ m. m) result (message_at bytes.now) }
    ensures last { result ≡ Err Memory → IsOk (message_at bytes.now) }
{
    let header = checked(bytes)?;
    let args = args_of(alloc, bytes)?;
    Ok(Message { header, args })
}

/// The message that the bytes encode, all of them. Its `seqno` is 0. The first fault is returned:
/// those of the size and of the header before those of the arguments, which come in the order of
/// the bytes, and last that of the complex bit. Out of memory is returned only if there is no
/// fault.
pub fn read_message(alloc: Global, bytes: &[u8]) -> Result<Message, OrMemory<ReadFault>>
    // What is read is spelled so.
    ensures found { IfOk result (λ m. Spells bytes.now m) }
    // What is spelled so is read, unless memory runs out.
    ensures only { (m : Message) → Spells bytes.now m → Gives (λ m. m) result (Ok m) }
    // Which fault it is: the first.
    ensures fault { Gives (λ m. m) result (message_at bytes.now) }
    // Out of memory comes last: the bytes have no fault.
    ensures last { result ≡ Err Memory → IsOk (message_at bytes.now) }
{
    message_at(alloc, bytes)
}
