//! The limits, each by one name.

ghost use Rattle.std.specs.Prelude.{◌≡◌};
ghost use Rattle.mrc_base.specs.Limits as limit;

/// Tasks of a wiring, at most.
pub const TASKS: usize = 64;
/// Ports of a wiring, at most.
pub const WIRED_PORTS: usize = 256;
/// Kinds of births of a task, at most.
pub const KINDS: u8 = 16;
/// Interfaces of a wiring, at most.
pub const INTERFACES: usize = 256;
/// Interfaces of a wiring of version 1 or 2, at most.
pub const FEW_INTERFACES: usize = 16;
/// Message ids of an interface, at most, those that it skips counted.
pub const IDS: usize = 1000;
/// Message ids of a MIG file of edition 1, at most, those that it skips counted.
pub const FIRST_EDITION_IDS: usize = 100;
/// Arguments of a routine, at most.
pub const ARGUMENTS: usize = 32;
/// Lines of a text, at most.
pub const LINES: u32 = 65_535;
/// Bytes of a name in a text, at most.
pub const NAME: usize = 64;
/// Bytes of a file, at most.
pub const FILE: usize = 67_108_864;
/// The largest number in a MIG file.
pub const NUMBER: u32 = 2_147_483_647;
/// Bytes of a message, at most.
pub const MESSAGE: usize = 8192;
/// Items of an argument, at most, as a MIG type counts them.
pub const ITEMS: u32 = 8192;
/// Names of a task, at most.
pub const NAMES: usize = 4096;
/// References of a send right or of a dead name, at most.
pub const REFERENCES: u16 = 65_535;
/// Live ports, at most.
pub const PORTS: usize = 65_536;
/// Births of ports, at most.
pub const BIRTHS: u64 = 0x1_0000_0000_0000;
/// Messages of a queue, at most, when its port is made.
pub const FIRST_QUEUE: u32 = 5;
/// Messages of a queue, at most, as a task can set it.
pub const QUEUE: u32 = 16;
/// Seats of a server, at most, one for each of its tasks.
pub const SEATS: u32 = 256;
/// Parts of a server's lock: one for each seat, and one for the desk.
pub const PARTS: u64 = 257;
/// Events of a journal, at most.
pub const EVENTS: usize = 1_000_000;
/// Threads that look for facts, at most.
pub const WORKERS: usize = 64;

/// The code's limits are those of the definitions.
pub fn limits_are_defined()
    ensures tasks { TASKS ≡ limit.limit_of_tasks }
    ensures wired_ports { WIRED_PORTS ≡ limit.limit_of_wired_ports }
    ensures kinds { KINDS ≡ limit.limit_of_kinds }
    ensures interfaces { INTERFACES ≡ limit.limit_of_interfaces }
    ensures few_interfaces { FEW_INTERFACES ≡ limit.limit_of_few_interfaces }
    ensures ids { IDS ≡ limit.limit_of_ids }
    ensures first_edition_ids { FIRST_EDITION_IDS ≡ limit.limit_of_first_edition_ids }
    ensures arguments { ARGUMENTS ≡ limit.limit_of_arguments }
    ensures lines { LINES ≡ limit.limit_of_lines }
    ensures name { NAME ≡ limit.limit_of_name }
    ensures file { FILE ≡ limit.limit_of_file }
    ensures number { NUMBER ≡ limit.limit_of_number }
    ensures message { MESSAGE ≡ limit.limit_of_message }
    ensures items { ITEMS ≡ limit.limit_of_items }
    ensures names { NAMES ≡ limit.limit_of_names }
    ensures references { REFERENCES ≡ limit.limit_of_references }
    ensures ports { PORTS ≡ limit.limit_of_ports }
    ensures births { BIRTHS ≡ limit.limit_of_births }
    ensures first_queue { FIRST_QUEUE ≡ limit.first_limit_of_queue }
    ensures queue { QUEUE ≡ limit.limit_of_queue }
    ensures seats { SEATS ≡ limit.limit_of_seats }
    ensures parts { PARTS ≡ limit.limit_of_parts }
    ensures events { EVENTS ≡ limit.limit_of_events }
    ensures workers { WORKERS ≡ limit.limit_of_workers }
{}
