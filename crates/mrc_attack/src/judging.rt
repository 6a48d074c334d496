//! Whether a text leaks: it is read as a script, whose calls are made on a new machine.

ghost use Rattle.std.specs.Prelude.{◌↔◌, IfOk, IsTrue};
ghost use Rattle.mrc_wiring.specs.Claims.{holding_of};
ghost use Rattle.mrc_attack.specs.Leaks.{IsEnd, IsBreaking, IsLeak};

use mrc_base::OrMemory;
use mrc_machine::World;
use mrc_report::{Script, read_script};
use mrc_wiring::{ForbiddenLine, Wired};
use std::alloc::{AllocError, Global};

/// The world after the calls of a script, made one after the other from the first state on.
fn end_of(alloc: Global, wired: &Wired, script: &Script) -> Result<World, AllocError>
    ensures { IfOk result (IsEnd wired.now script.now) }
{
    let mut world = World::first(alloc, wired)?;
    for line in script.lines() {
        let _reply = world.step(wired, line.says.task, &line.says.call)?;
    }
    Ok(world)
}

/// Whether the line is broken after the calls of a script.
fn is_breaking(
    alloc: Global,
    wired: &Wired,
    line: &ForbiddenLine,
    script: &Script,
) -> Result<bool, AllocError>
    ensures { IfOk result (λ breaking. IsTrue breaking
        ↔ IsBreaking wired.now (holding_of line.now) script.now) }
{
    let world = end_of(alloc, wired, script)?;
    world.breach(wired, line)
}

/// Whether the text is a script whose calls lead from the first state of the wiring to a world in
/// which the line is broken.
pub fn is_leak(
    alloc: Global,
    wired: &Wired,
    line: &ForbiddenLine,
    text: &str,
) -> Result<bool, AllocError>
    ensures exact { IfOk result (λ leaks. IsTrue leaks
        ↔ IsLeak wired.now (holding_of line.now) text.now) }
{
    match read_script(alloc, wired, text, false) {
        Ok(script) => is_breaking(alloc, wired, line, &script),
        Err(OrMemory::Fault(_)) => Ok(false),
        Err(OrMemory::Memory) => Err(AllocError),
    }
}
