//! Scripts, call by call, by the machine of what was checked: to be run with each allocation
//! refused in turn. A call that is out of memory changes nothing, and is made once more. If memory
//! runs out in another call, all is done once more.

use crate::starting::{Stop, machine_of, note, or_stop, script_of};
use crate::systems::{FILES, HANDED, SystemTexts, TWO};
use mrc_base::TaskId;
use mrc_confine::Guarded;
use mrc_machine::{Call, Reply};
use mrc_report::{Script, TaskCall, reply_text};
use std::alloc::{AllocError, Global};
use std::test::Fail;
use std::thread::Threads;

fn live_ports(guarded: &Guarded) -> usize {
    guarded.world().live_ports()
}

fn step(guarded: &mut Guarded, task: TaskId, call: &Call) -> Result<Reply, AllocError> {
    guarded.step(task, call)
}

/// The names of a task with their rights, if it has its own kernel port under the name 1.
fn names(alloc: Global, guarded: &mut Guarded, task: u32) -> Result<String, AllocError> {
    let reply = step(guarded, TaskId(task), &Call::Names { task: 1 })?;
    reply_text(alloc, &reply)
}

/// What a machine of two tasks shows: their names, and how many ports are live.
fn show(alloc: Global, guarded: &mut Guarded) -> Result<String, AllocError> {
    let first = names(alloc, guarded, 0)?;
    let second = names(alloc, guarded, 1)?;
    let ports = live_ports(guarded);
    format!(in alloc; "{first}; {second}; ports {ports}")
}

/// Makes a call once more, which has changed nothing.
fn reply_again(
    alloc: Global,
    guarded: &mut Guarded,
    said: &TaskCall,
    before: &str,
) -> Result<Reply, Stop> {
    if show(alloc, guarded)?.as_str() != before {
        return Err(Stop::Changed);
    }
    or_stop(step(guarded, said.task, &said.call), Stop::Again)
}

/// The reply to a call. If it was out of memory it is made once more.
fn reply_to<R: AllocGlobal + Eprint>(
    rt: &R,
    guarded: &mut Guarded,
    said: &TaskCall,
) -> Result<Reply, Stop> {
    let before = show(rt.alloc(), guarded)?;
    match step(guarded, said.task, &said.call) {
        Ok(reply) => Ok(reply),
        Err(_) => {
            note(rt, "Guarded::step");
            reply_again(rt.alloc(), guarded, said, before.as_str())
        }
    }
}

/// Whether the call of a line has the reply that is wanted: as it is printed, behind ` # `.
fn is_right<R: AllocGlobal + Eprint>(
    rt: &R,
    guarded: &mut Guarded,
    said: &TaskCall,
    line: &str,
) -> Result<bool, Stop> {
    let reply = reply_to(rt, guarded, said)?;
    let text = reply_text(rt.alloc(), &reply);
    drop(reply);
    let text = text?;
    Ok(line.split_once(" # ").unwrap_or(("", "")).1 == text.as_str())
}

/// Makes the calls of a script. The number of the first line with another reply than is wanted, or
/// 0.
fn first_wrong<R: AllocGlobal + Eprint>(
    rt: &R,
    guarded: &mut Guarded,
    script: &Script,
    text: &str,
) -> Result<u32, Stop> {
    for (line, wanted) in script.lines().iter().zip(text.lines()) {
        if !is_right(rt, guarded, &line.says, wanted)? {
            return Ok(line.number);
        }
    }
    Ok(0)
}

/// The same of a text, and how many ports live in the end.
fn play<R: AllocGlobal + Eprint>(
    rt: &R,
    guarded: &mut Guarded,
    text: &str,
) -> Result<(u32, usize), Stop> {
    let script = script_of(rt.alloc(), guarded.confined(), text, false)?;
    let wrong = first_wrong(rt, guarded, &script, text);
    drop(script);
    Ok((wrong?, live_ports(guarded)))
}

/// The same by the machine of a system.
fn play_at_first<R: AllocGlobal + Eprint + Threads + Sync>(
    rt: &R,
    texts: &SystemTexts,
    text: &str,
) -> Result<(u32, usize), Stop> {
    let mut guarded = machine_of(rt, texts)?;
    let answer = play(rt, &mut guarded, text);
    drop(guarded);
    answer
}

/// The same, from the start once more if memory ran out in a call that is not made once more.
fn played<R: AllocGlobal + Eprint + Threads + Sync>(
    rt: &R,
    texts: &SystemTexts,
    text: &str,
) -> Result<(u32, usize), Stop> {
    match play_at_first(rt, texts, text) {
        Err(Stop::Memory) => play_at_first(rt, texts, text),
        answer => answer,
    }
}

/// A file is opened: the server sends its kernel port, which is refused, and then a new port.
const OPENED: &str = "app allocate 1 receive # name 3
app send 13150000 5c000000 02000000 03000000 00000000 b80b0000 0c084010 \
0000000000000000000000000000000000000000000000000000000000000000\
0000000000000000000000000000000000000000000000000000000000000000 # done
fs receive 2 92 # message 121100005c000000030000000200000000000000b80b00000c084010\
0000000000000000000000000000000000000000000000000000000000000000\
0000000000000000000000000000000000000000000000000000000000000000
fs allocate 1 receive # name 4
fs insert_right 1 4 4 20 # done
fs send 12000080 28000000 03000000 00000000 00000000 1c0c0000 02200110 00000000 13200110 01000000 \
# denied NotAdmitted 1
fs send 12000080 28000000 03000000 00000000 00000000 1c0c0000 02200110 00000000 13200110 04000000 \
# done
app receive 3 40 # message 00120080280000000000000003000000000000001c0c0000\
02200110000000001120011004000000
app type 1 4 # type 65536
";

#[test]
fn a_file_is_opened(rt: HostRuntime) -> Result<(), Fail> {
    assert_eq!(rt; played(&rt, &FILES, OPENED)?, (0, 5));
    Ok(())
}

const PASSED: &str = "l allocate 2 receive # name 2
l allocate 1 set # name 3
l allocate 1 dead # name 4
f insert_right 1 5 2 21 # done
l extract_right 2 2 20 # name 5
l insert_right 2 6 5 17 # refused KERN_RIGHT_EXISTS
l insert_right 2 2 5 17 # done
l insert_right 1 7 2 19 # refused KERN_RIGHT_EXISTS
f extract_right 1 5 18 # name 3
f rename 1 3 9 # done
l rename 1 3 3 # refused KERN_NAME_EXISTS
l names 2 # names 1:65536 2:196608 9:262144
l names 1 # names 1:65536 2:65536 3:524288 4:1048576
";

#[test]
fn rights_are_passed(rt: HostRuntime) -> Result<(), Fail> {
    assert_eq!(rt; played(&rt, &TWO, PASSED)?, (0, 3));
    Ok(())
}

const MADE: &str = "l task_create 2 # task 2 name 3
@2 allocate 1 receive # name 2
l task_create 3 # task 3 name 4
@2 names 1 # names 1:65536 2:131072
l task_terminate 4 # done
l names 1 # names 1:65536 2:65536 3:65536 4:1048576
";

#[test]
fn tasks_are_made(rt: HostRuntime) -> Result<(), Fail> {
    assert_eq!(rt; played(&rt, &TWO, MADE)?, (0, 4));
    Ok(())
}

/// Notices are requested, members move, a right is sent, and what is held is dropped: name 5, which
/// is handed over and waits at a port that dies, comes back in a notice.
const DROPPED: &str = "l allocate 1 receive # name 5
l request_notification 1 5 69 0 2 21 # name 0
l request_notification 1 5 69 0 2 21 # name 6
l request_notification 1 5 69 0 6 18 # name 6
l allocate 1 set # name 7
l move_member 1 5 7 # done
l mod_refs 1 6 once 0 # done
l mod_refs 1 3 send 2 # done
l deallocate 1 3 # done
l send 13000080 20000000 03000000 00000000 00000000 d0070000 10200110 05000000 # done
l deallocate 1 6 # done
l receive 2 24 # message 001200001800000000000000020000000000000047000000
f mod_refs 1 2 receive -1 # done
l type 1 3 # type 1048576
l receive 2 32 # message 00120080200000000000000002000000010000004500000010200110\
05000000
l destroy 1 7 # done
l destroy 1 2 # done
l names 1 # names 1:65536 3:1048576 4:65536 5:131072
";

#[test]
fn rights_are_dropped(rt: HostRuntime) -> Result<(), Fail> {
    assert_eq!(rt; played(&rt, &HANDED, DROPPED)?, (0, 3));
    Ok(())
}

/// A task ends with messages on its queue, in which names 6 and 5 are handed over and name 7 is
/// lent: the receive right of a port with a request goes to its backup, the port without one dies,
/// and a send-once right makes a notice.
const ENDED: &str = "l allocate 1 receive # name 5
l request_notification 1 5 69 0 2 21 # name 0
l allocate 1 receive # name 6
l insert_right 1 6 6 20 # done
l insert_right 1 7 2 21 # done
l insert_right 4 9 2 21 # done
l send 13000080 20000000 03000000 00000000 00000000 d0070000 10200110 06000000 # done
l send 13000080 20000000 03000000 00000000 00000000 d0070000 10200110 05000000 # done
l send 13000080 20000000 03000000 00000000 00000000 d1070000 12200110 07000000 # done
l task_terminate 4 # done
f names 1 # dead task
l receive 2 24 # message 001200001800000000000000020000000000000047000000
l receive 2 24 # message 001200001800000000000000020000000100000047000000
l receive 2 24 # too large 32
l receive 2 32 # message 00120080200000000000000002000000020000004500000010200110\
05000000
l receive 2 32 # refused MACH_RCV_TIMED_OUT
l names 1 # names 1:65536 2:131072 3:1048576 4:1048576 5:131072 6:1048576
";

#[test]
fn a_task_is_ended(rt: HostRuntime) -> Result<(), Fail> {
    assert_eq!(rt; played(&rt, &HANDED, ENDED)?, (0, 3));
    Ok(())
}
