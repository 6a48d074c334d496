//! The argument that a value is, and the value that an argument is.

ghost use Rattle.std.specs.Prelude.{◌≡◌, ◌↔◌, ◌<◌, MatchOption, IfOk, IsTrue};
ghost use Rattle.std.specs.Prelude.{ℕ};
ghost use Rattle.mrc_base.specs.Disposition.{disp_number};
ghost use Rattle.mrc_forms.specs.Shapes.{items_fit};
ghost use Rattle.mrc_model.specs.Message as model;
ghost use Rattle.mrc_desc.specs.Lawful.{IsLawfulArg, IsLawfulData};
ghost use Rattle.mrc_desc.specs.View.{argument_of};
ghost use Rattle.mrc_message_words.specs.declared.value.Value.TheVariants as said;
ghost use Rattle.mrc_message_words.specs.Fitting.{AreItems, AreNarrow, Makes, Says};
ghost use Rattle.mrc_message_words.specs.Values.{IsCount, AreNumbers, AreWide, ArePorts};

use crate::numbers::{have_bits, numbers_at, numbers_bytes};
use crate::value::{Numbers, Value};
use mrc_base::Disp;
use mrc_desc::{Argument, Bytes, Desc, Names};
use mrc_forms::Items;
use std::alloc::{AllocError, Global};

/// Whether a form with these items admits so many.
pub(crate) fn is_count(items: Items, count: usize) -> bool
    ensures { IsTrue result ↔ IsCount items count }
{
    let number = items.number as usize;
    if items.is_bound {
        count <= number
    } else {
        count == number
    }
}

fn are_numbers(items: Items, name: u16, numbers: &[u64]) -> bool
    ensures { IsTrue result ↔ AreNumbers items name numbers.now }
{
    items.types.has(name)
        && name < 16
        && items.size <= 64
        && is_count(items, numbers.len())
        && have_bits(items.size, numbers)
}

fn are_wide(items: Items, name: u16, size: u16, number: u32) -> bool
    ensures { IsTrue result ↔ AreWide items name size number }
{
    items.types.has(name) && size == items.size && size > 64 && is_count(items, number as usize)
}

fn are_narrow(items: Items, name: u16, size: u16, number: u32) -> bool
    ensures { IsTrue result ↔ AreNarrow items name size number }
{
    items.types.has(name) && size == items.size && size <= 64 && is_count(items, number as usize)
}

fn are_ports(items: Items, disp: Disp, names: &[u32]) -> bool
    ensures { IsTrue result ↔ ArePorts items disp names.now }
{
    items.types.has(disp.number()) && is_count(items, names.len())
}

/// How many items of so many bits the bytes are.
fn count_items(size: u16, bytes: &[u8]) -> Option<u32>
    ensures { MatchOption result ((number : ℕ) → ¬ AreItems size bytes.now number)
        (λ number. AreItems size bytes.now number) }
{
    if size == 0 || size % 8 != 0 {
        return None;
    }
    let width = usize::from(size / 8);
    if bytes.len() % width != 0 {
        return None;
    }
    u32::try_from(bytes.len() / width).ok()
}

/// Whether bytes of this type and size fit the items.
pub(crate) fn do_bytes_fit(items: Items, name: u16, size: u16, bytes: &[u8]) -> bool {
    match count_items(size, bytes) {
        Some(number) => items.types.is_any_data() || are_wide(items, name, size, number),
        None => false,
    }
}

fn of_numbers(
    alloc: Global,
    items: Items,
    name: u16,
    numbers: &[u64],
) -> Result<Option<Argument>, AllocError>
    requires { IsTrue (items_fit items) }
    ensures { IfOk result (λ made. Makes items (said.Numbers name numbers.now) made) }
{
    if !are_numbers(items, name, numbers) {
        return Ok(None);
    }
    let bytes = numbers_bytes(alloc, usize::from(items.size / 8), numbers)?;
    let desc = Desc {
        name,
        size: items.size,
        number: numbers.len() as u32,
    };
    Ok(Some(Argument::Data {
        desc,
        bytes: Bytes::from(bytes),
    }))
}

fn of_bytes(
    alloc: Global,
    items: Items,
    name: u16,
    size: u16,
    bytes: &Bytes,
) -> Result<Option<Argument>, AllocError>
    ensures { IfOk result (λ made. Makes items (said.Raw name size bytes.now) made) }
{
    let Some(number) = count_items(size, bytes.as_slice()) else {
        return Ok(None);
    };
    if name >= 16 || !(items.types.is_any_data() || are_wide(items, name, size, number)) {
        return Ok(None);
    }
    let desc = Desc { name, size, number };
    Ok(Some(Argument::Data {
        desc,
        bytes: bytes.copy(alloc)?,
    }))
}

fn of_ports(
    alloc: Global,
    items: Items,
    disp: Disp,
    names: &[u32],
) -> Result<Option<Argument>, AllocError>
    requires { IsTrue (items_fit items) }
    ensures { IfOk result (λ made. Makes items (said.Ports disp names.now) made) }
{
    if !are_ports(items, disp, names) {
        return Ok(None);
    }
    let names = Names::from(Vec::from_slice(alloc, names)?);
    Ok(Some(Argument::Ports { disp, names }))
}

/// The argument that a value is where the form has these items; none where the value does not fit
/// them.
pub fn argument_of(
    alloc: Global,
    items: Items,
    value: &Value,
) -> Result<Option<Argument>, AllocError>
    requires { IsTrue (items_fit items) }
    ensures { IfOk result (λ made. Makes items value.now made) }
{
    match value {
        Value::Numbers { name, numbers } => of_numbers(alloc, items, *name, numbers.as_slice()),
        Value::Raw { name, size, bytes } => of_bytes(alloc, items, *name, *size, bytes),
        Value::Ports { disp, names } => of_ports(alloc, items, *disp, names.as_slice()),
    }
}

fn data_value(
    alloc: Global,
    items: Items,
    desc: Desc,
    bytes: &Bytes,
) -> Result<Option<Value>, AllocError>
    requires { IsLawfulData desc.name desc.size desc.number bytes.now }
    ensures { IfOk result (λ said. Says items
        (model.Data desc.name desc.size desc.number bytes.now) said) }
{
    if items.types.is_any_data() || are_wide(items, desc.name, desc.size, desc.number) {
        return Ok(Some(Value::Raw {
            name: desc.name,
            size: desc.size,
            bytes: bytes.copy(alloc)?,
        }));
    }
    if !are_narrow(items, desc.name, desc.size, desc.number) {
        return Ok(None);
    }
    let width = usize::from(desc.size / 8);
    let numbers = numbers_at(alloc, width, desc.number as usize, bytes.as_slice())?;
    Ok(Some(Value::Numbers {
        name: desc.name,
        numbers: Numbers::from(numbers),
    }))
}

fn ports_value(
    alloc: Global,
    items: Items,
    disp: Disp,
    names: &Names,
) -> Result<Option<Value>, AllocError>
    ensures { IfOk result (λ said. Says items
        (model.Ports (disp_number disp) names.now) said) }
{
    if !are_ports(items, disp, names.as_slice()) {
        return Ok(None);
    }
    Ok(Some(Value::Ports {
        disp,
        names: names.copy(alloc)?,
    }))
}

/// The value that a lawful argument is where the form has these items; none where it does not fit
/// them.
pub fn value_of(
    alloc: Global,
    items: Items,
    argument: &Argument,
) -> Result<Option<Value>, AllocError>
    requires { IsLawfulArg (argument_of argument.now) }
    ensures { IfOk result (λ said. Says items (argument_of argument.now) said) }
{
    match argument {
        Argument::Data { desc, bytes } => data_value(alloc, items, *desc, bytes),
        Argument::Ports { disp, names } => ports_value(alloc, items, *disp, names),
    }
}
