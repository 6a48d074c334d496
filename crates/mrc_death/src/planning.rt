//! The making of a plan.

ghost use Rattle.std.specs.Prelude.{◌≡◌, ◌++◌, IfOk, OnOk};
ghost use Rattle.mrc_model.specs.Map.{get};
ghost use Rattle.mrc_death.specs.Taking.{destroyed_of};
ghost use Rattle.mrc_map.specs.Members.{of_some};
ghost use Rattle.mrc_death.specs.Plans.{IsPlanOf, IsWorkOf, once_port, once_ports};
ghost use Rattle.mrc_death.specs.Plans.{left_port, kept_ports};
ghost use Rattle.mrc_death.specs.Removing.{CanRemove};

use crate::doomed::Held;
use crate::going::all_going;
use crate::notices::{DestroyedNotice, OnceNotice};
use crate::plan::{Dying, Work};
use crate::search::{Deaths, find_deaths};
use crate::taking::{Destroyed, Taken, take_out};
use mrc_base::{PortId, PortRight};
use mrc_map::Ports;
use mrc_ports::Store;
use std::alloc::{AllocError, Global};

/// Puts a send-once notice behind the others, if the right is a send-once right.
fn add_once(
    alloc: Global,
    store: &Store,
    held: &Held,
    notices: &mut Vec<OnceNotice>,
) -> Result<(), AllocError>
    ensures { OnOk result (notices.new.items ≡ notices.old.items ++ once_port held.now) }
{
    if held.right() == PortRight::SendOnce {
        notices.push(OnceNotice::new(alloc, store, held.port())?)?;
    }
    Ok(())
}

/// A send-once notice for each send-once right among these.
fn once_notices(
    alloc: Global,
    store: &Store,
    rights: &[Held],
) -> Result<Vec<OnceNotice>, AllocError>
    ensures { IfOk result (λ notices. notices.items ≡ once_ports rights.now) }
{
    let mut notices = Vec::new(alloc);
    for held in rights {
        add_once(alloc, store, held, &mut notices)?;
    }
    Ok(notices)
}

/// Puts a port-destroyed notice behind the others, if the port is live, and does not die.
fn add_destroyed(
    alloc: Global,
    store: &Store,
    dead: &Ports,
    port: PortId,
    notices: &mut Vec<DestroyedNotice>,
) -> Result<(), AllocError>
    ensures { OnOk result (notices.new.items
        ≡ notices.old.items ++ of_some (left_port dead.now port) (get store.now.ports port)) }
{
    if store.ports().get(port).is_some() && !dead.has(port) {
        notices.push(DestroyedNotice::new(alloc, store, port)?)?;
    }
    Ok(())
}

/// A port-destroyed notice for each port that loses its receive right, and stays, by ascending
/// birth number.
fn destroyed_notices(
    alloc: Global,
    store: &Store,
    deaths: &Deaths,
) -> Result<Vec<DestroyedNotice>, AllocError>
    ensures { IfOk result (λ notices.
        notices.items ≡ kept_ports deaths.now.dead deaths.now.lost store.now.ports.list) }
{
    let mut notices = Vec::new(alloc);
    let mut last = None;
    while let Some(port) = deaths.lost.after(last) {
        add_destroyed(alloc, store, &deaths.dead, port, &mut notices)?;
        last = Some(port);
    }
    Ok(notices)
}

/// The work where this is taken out.
fn work_of(alloc: Global, store: &Store, taken: Taken) -> Result<Work, AllocError>
    requires { CanRemove store.now taken.task taken.removal }
    ensures { IfOk result (λ work. IsWorkOf store.now taken work) }
{
    let Taken {
        task,
        removal,
        doomed,
    } = taken;
    let deaths = find_deaths(alloc, store, &doomed)?;
    let lost = destroyed_notices(alloc, store, &deaths)?;
    let rights = all_going(store, doomed, &deaths.dead)?;
    let once = once_notices(alloc, store, &rights)?;
    if !store.ports().has_room(once.len() + lost.len()) {
        return Err(AllocError);
    }
    Ok(Work {
        alloc,
        task,
        removal,
        dead: deaths.dead,
        once,
        lost,
    })
}

/// The plan of a destruction, by which all that follows is found, and has its room, before
/// anything changes: what is destroyed goes from its space, the ports that die are buried, then
/// send-once rights that go tell their ports, and then receive rights that go while their ports
/// stay are sent to the ports' backups, by ascending birth number.
pub fn dying(alloc: Global, store: &Store, what: Destroyed) -> Result<Dying, AllocError>
    ensures { IfOk result (λ plan. IsPlanOf store.now (destroyed_of what) plan) }
{
    match take_out(alloc, store, what)? {
        Some(taken) => {
            let work = work_of(alloc, store, taken)?;
            Ok(Dying { work: Some(work) })
        }
        None => Ok(Dying { work: None }),
    }
}
