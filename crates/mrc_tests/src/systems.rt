//! The systems whose calls are made.

/// The texts of a system of tasks.
#[derive(Clone, Copy)]
pub struct SystemTexts {
    /// Its MIG file.
    pub defs: &'static str,
    /// Its wiring.
    pub wiring: &'static str,
}

/// A message without arguments.
const PING: &str = "subsystem ping 500;
#include <mach/std_types.defs>
simpleroutine ping(server : mach_port_t);
";

/// No task.
pub const NOBODY: SystemTexts = SystemTexts {
    defs: PING,
    wiring: "wiring 1\n",
};

/// A task alone, whose ports accept pings.
pub const ALONE: SystemTexts = SystemTexts {
    defs: PING,
    wiring: "wiring 1\ntask a\nbirths a accepts request ping\n",
};

/// Two tasks; the first holds the second one's kernel port under name 2.
pub const TWO: SystemTexts = SystemTexts {
    defs: PING,
    wiring: "wiring 1\ntask l\ntask f\nhold l send task f\n",
};

/// A task and its file server: the reply of its one routine carries a file. The server answers with
/// nothing but ports of its own births.
pub const FILES: SystemTexts = SystemTexts {
    defs: "subsystem fsys 3000;
#include <mach/std_types.defs>
type file_t = MACH_MSG_TYPE_COPY_SEND;
type path_t = c_string[64];
routine open(root : mach_port_t; in path : path_t; out file : file_t);
",
    wiring: "wiring 1
task app
task fs
port root receiver fs accepts request fsys
births app accepts reply fsys
hold app send port root
admit fsys.file_t births fs
",
};

/// Two tasks. The first sends to the inbox of the second, its name 3, and holds its kernel port,
/// name 4; its port of name 2 takes port-destroyed notices. Messages carry a receive right, or a
/// send-once right.
pub const HANDED: SystemTexts = SystemTexts {
    defs: "subsystem xfer 2000;
#include <mach/std_types.defs>
type box_t = MACH_MSG_TYPE_MOVE_RECEIVE;
type once_t = MACH_MSG_TYPE_MOVE_SEND_ONCE;
simpleroutine hand(server : mach_port_t; in box : box_t);
simpleroutine lend(server : mach_port_t; in once : once_t);
",
    wiring: "wiring 1
task l
task f
port inbox receiver f accepts request xfer
port safe receiver l accepts destroyed
hold l send port inbox
hold l send task f
",
};
