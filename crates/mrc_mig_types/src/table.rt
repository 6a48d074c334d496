//! The types that a text knows by name.

ghost use Rattle.std.specs.Prelude.{◌≡◌, is_some, OnOk};
ghost use Rattle.mrc_mig_symbols.specs.Tables.{plain};
ghost use Rattle.mrc_mig_types.specs.Table.{item_in, standard_of, type_of, nothing_known, included};
ghost use Rattle.mrc_mig_types.specs.Table.{declared, known, pointer};

use crate::basics::{Row, basic_by, basic_item, row_in};
use crate::meaning::{Meaning, Tag, item};
use std::alloc::{AllocError, Global};
use std::collections::BTreeMap;

/// The types that are known by name.
#[derive(Drop)]
pub struct Types<'t> {
    /// What statements declare: a type, or none where the type is unknown.
    declared: BTreeMap<&'t str, Option<Meaning>>,
    /// Whether the standard types are included.
    is_included: bool,
}

/// Types of MIG itself: they need no statement.
const BUILT_IN: [(&str, Row); 5] = [
    ("char", Row::Plain(8, 8)),
    ("short", Row::Plain(1, 16)),
    ("int", Row::Plain(2, 32)),
    ("uintptr_t", Row::Plain(2, 32)),
    ("intptr_t", Row::Plain(2, 32)),
];

/// Types of the file of standard types, as GNU Mach lays them out where addresses have 32 bits.
const STANDARD: [(&str, Row); 36] = [
    ("int32_t", Row::Plain(2, 32)),
    ("uint32_t", Row::Plain(2, 32)),
    ("unsigned", Row::Plain(2, 32)),
    ("integer_t", Row::Plain(2, 32)),
    ("natural_t", Row::Plain(2, 32)),
    ("kern_return_t", Row::Plain(2, 32)),
    ("rpc_long_natural_t", Row::Plain(2, 32)),
    ("rpc_long_integer_t", Row::Plain(2, 32)),
    ("long_natural_t", Row::Plain(2, 32)),
    ("long_integer_t", Row::Plain(2, 32)),
    ("mach_port_right_t", Row::Plain(2, 32)),
    ("mach_port_type_t", Row::Plain(2, 32)),
    ("mach_port_urefs_t", Row::Plain(2, 32)),
    ("mach_port_delta_t", Row::Plain(2, 32)),
    ("mach_port_seqno_t", Row::Plain(2, 32)),
    ("mach_port_mscount_t", Row::Plain(2, 32)),
    ("mach_port_msgcount_t", Row::Plain(2, 32)),
    ("mach_port_rights_t", Row::Plain(2, 32)),
    ("mach_msg_id_t", Row::Plain(2, 32)),
    ("mach_msg_type_name_t", Row::Plain(2, 32)),
    ("mach_msg_type_number_t", Row::Plain(2, 32)),
    ("int64_t", Row::Plain(11, 64)),
    ("uint64_t", Row::Plain(11, 64)),
    ("rpc_phys_addr_t", Row::Plain(11, 64)),
    ("boolean_t", Row::Plain(0, 32)),
    ("mach_port_name_t", Row::Plain(15, 32)),
    ("mach_port_t", Row::Right(19, 17)),
    ("mach_port_copy_send_t", Row::Right(19, 17)),
    ("mach_port_move_receive_t", Row::Right(16, 16)),
    ("mach_port_move_send_t", Row::Right(17, 17)),
    ("mach_port_move_send_once_t", Row::Right(18, 18)),
    ("mach_port_make_send_t", Row::Right(20, 17)),
    ("mach_port_make_send_once_t", Row::Right(21, 18)),
    ("mach_port_receive_t", Row::Received(16)),
    ("mach_port_send_t", Row::Received(17)),
    ("mach_port_send_once_t", Row::Received(18)),
];

/// Those of them that are arrays of any number, and of what.
const ARRAYS: [(&str, Row); 3] = [
    ("mach_port_array_t", Row::Right(19, 17)),
    ("mach_port_name_array_t", Row::Plain(15, 32)),
    ("mach_port_type_array_t", Row::Plain(2, 32)),
];

/// One item of what a table has under a name.
fn item_in(table: &[(&str, Row)], name: &str) -> Option<Meaning>
    ensures { result ≡ item_in (plain table.now) name.now }
{
    match row_in(table, name) {
        Some(row) => Some(basic_item(basic_by(row))),
        None => None,
    }
}

/// The type of this name in the file of standard types.
#[tactic(auto, unfolding(crate::specs::Table::standard_of))]
fn standard_of(name: &str) -> Option<Meaning>
    ensures { result ≡ standard_of name.now }
{
    if name == "mach_port_poly_t" {
        return Some(item(Tag::Picked, Tag::Picked, 32));
    }
    if name == "pointer_t" {
        return Some(item(Tag::Fixed(9), Tag::Fixed(9), 8).open_array().pointed());
    }
    match (item_in(&STANDARD, name), item_in(&ARRAYS, name)) {
        (Some(found), _) => Some(found),
        (None, Some(found)) => Some(found.open_array()),
        (None, None) => None,
    }
}

impl<'t> Types<'t> {
    /// The types of MIG itself.
    pub fn new(alloc: Global) -> Types<'t>
        ensures { known result ≡ nothing_known }
    {
        Types {
            declared: BTreeMap::new(alloc),
            is_included: false,
        }
    }

    /// The type of this name, if there is one that is known.
    #[tactic(auto, unfolding(crate::specs::Table::undeclared))]
    pub fn get(&self, name: &str) -> Option<Meaning>
        ensures { result ≡ type_of (known self.now) name.now }
    {
        if let Some(found) = self.declared.get(name) {
            return *found;
        }
        if let Some(found) = item_in(&BUILT_IN, name) {
            return Some(found);
        }
        if self.is_included {
            standard_of(name)
        } else {
            None
        }
    }

    /// Whether a statement declares this name.
    pub fn is_declared(&self, name: &str) -> bool
        ensures { result ≡ is_some ((known self.now).declared name.now) }
    {
        self.declared.get(name).is_some()
    }

    /// Includes the standard types. What a statement declares stays.
    pub fn include(&mut self)
        ensures { known self.new ≡ included (known self.old) }
    {
        self.is_included = true;
    }

    /// Declares a type under a name, or that it is unknown.
    pub fn declare(&mut self, name: &'t str, meaning: Option<Meaning>) -> Result<(), AllocError>
        ensures { OnOk result (known self.new ≡ declared (known self.old) name.now meaning) }
    {
        self.declared.insert(name, meaning)?;
        Ok(())
    }
}
