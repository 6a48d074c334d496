//! The forms of a subsystem's messages, by their ids, and MIG files from their bytes.
#![tactic(auto)]

mod fault;
mod first;
mod form;
mod interface;
mod laws;
mod left;
mod reading;
mod second;
mod written;

pub use fault::{DefsFault, FileFault, InterfaceFault};
pub use interface::forms_of;
pub use laws::{
    files_are_read, forms_are_found_by_ids, slots_are_ports, written_texts_are_of_edition_2,
};
pub use left::{carriers, carries, is_old_cut, row_name};
pub use mrc_forms::{
    Argument, Form, FormKind, Interface, ItemTypes, Items, MessageKind, RequestKind, Row, Slot,
};
pub use mrc_mig_forms::{Carrier, Forms, LeftOut, Unread};
pub use mrc_mig_lex::LexFault;
pub use mrc_mig_parse::{Feature, ParseFault};
pub use reading::{read_defs, read_interface, read_interfaces};
pub use written::in_second;
