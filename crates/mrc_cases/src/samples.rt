//! Texts that many rows use, by short names.

/// A file server: the reply of its one routine carries a file.
const FSYS: &str = "subsystem fsys 3000;
#include <mach/std_types.defs>
type file_t = MACH_MSG_TYPE_COPY_SEND;
type path_t = c_string[64];
routine open(root : mach_port_t; in path : path_t; out file : file_t);
";

/// A receive right is handed over.
const XFER: &str = "subsystem xfer 2000;
#include <mach/std_types.defs>
type box_t = MACH_MSG_TYPE_MOVE_RECEIVE;
simpleroutine hand(server : mach_port_t; in box : box_t);
";

/// A port is shown.
const LOOK: &str = "subsystem look 2100;
#include <mach/std_types.defs>
simpleroutine show(server : mach_port_t; in p : mach_port_t);
";

/// A subsystem whose reply has the id of the request of `look`.
const LATER: &str = "subsystem later 2000;
#include <mach/std_types.defs>
routine r(server : mach_port_t);
";

/// A subsystem of the ids of `look` that has no form at 2100.
const SKIPS: &str = "subsystem skips 2100; skip;";

/// Two tasks, of which the first holds the kernel port of the second.
const TWO: &str = "wiring 1\ntask l\ntask f\nhold l send task f";

/// A task and its file server.
const FILES: &str = "wiring 1
task app
task fs
port root receiver fs accepts request fsys
births app accepts reply fsys
hold app send port root
admit fsys.file_t births fs
";

/// A task that hands receive rights to another.
const INBOX: &str = "wiring 1
task a
task b
port inbox receiver b accepts request xfer
port safe receiver a accepts destroyed
hold a send port inbox
admit xfer.box_t births a
";

/// The text of a short name; another text is itself.
pub fn sample(text: &str) -> &str {
    match text {
        "fsys" => FSYS,
        "xfer" => XFER,
        "look" => LOOK,
        "later" => LATER,
        "skips" => SKIPS,
        "two" => TWO,
        "files" => FILES,
        "inbox" => INBOX,
        other => other,
    }
}
