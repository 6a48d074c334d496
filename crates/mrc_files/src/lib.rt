//! Bytes in from readers and out to writers, and files by their names: read whole, and replaced
//! whole.
#![tactic(auto)]

mod folders;
pub mod laws;
mod paths;
mod streams;
mod system;

pub use folders::{Folder, Unread, bytes_of, bytes_of_all, read_file};
pub use paths::{linked, name_of, part_path};
pub use streams::{
    InputFault, ReadFailure, Sink, Source, WriteFault, read_all, read_fault, write_text,
};
pub use system::Disk;
