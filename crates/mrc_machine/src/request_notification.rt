//! Requests of port-destroyed notices.

ghost use Rattle.std.specs.Prelude.{◌≡◌, ◌==◌, ◌&&◌, ◌||◌, false, Ok, Err, OnErr, IfOk, IfErr};
ghost use Rattle.std.specs.Prelude.{Some, IsSome, IsOk, option_map};
ghost use Rattle.mrc_model.specs.Map.{get};
ghost use Rattle.mrc_model.specs.World.{Port as TPort, Space as TSpace, space, class_of};
ghost use Rattle.mrc_model.specs.Space.{is_full, put_entry};
ghost use Rattle.mrc_model.specs.Target.{with_space};
ghost use Rattle.mrc_index.specs.Undo.{CanPut};
ghost use Rattle.mrc_model.specs.Death.{port_destroyed_id};
ghost use Rattle.mrc_model.specs.Reply.{Name, Refused};
ghost use Rattle.mrc_model.specs.Trust.{may_on};
ghost use Rattle.mrc_model.specs.CallRequestNotification.{is_notify_disp, is_live_backup};
ghost use Rattle.mrc_model.specs.CallRequestNotification.{backup_item};
ghost use Rattle.mrc_model.specs.CallRequestNotification.{call_request_notification};
ghost use Rattle.mrc_wiring.specs.Table.{wiring_of};
ghost use Rattle.mrc_machine.specs.Calls.{Answers, refusal_reply, IsRefusedBy};
ghost use Rattle.mrc_machine.specs.Housing.{target_of};
ghost use Rattle.mrc_machine.specs.Requests.{received_at, named_backup, request_left};
ghost use Rattle.mrc_machine.specs.Requests.{given_backup};

use crate::insert_right::gives_dead;
use crate::refusal::Refusal;
use crate::reply::Reply;
use crate::set_qlimit::received_port;
use crate::state::State;
use mrc_base::{ClassId, Disp, OrMemory, PortId, PortRight, TaskId};
use mrc_model::{Backup, Code, Denied, Entry, Item, Verb};
use mrc_names::Space;
use mrc_wiring::Wired;
use std::alloc::AllocError;

/// The id of port-destroyed notices, MACH_NOTIFY_PORT_DESTROYED.
const PORT_DESTROYED: u32 = 69;

/// Whether the disposition gives a send-once right.
fn is_notify_disp(disp: Disp) -> bool
    ensures { result ≡ is_notify_disp disp }
{
    match disp {
        Disp::MoveSendOnce | Disp::MakeSendOnce => true,
        Disp::MoveReceive | Disp::MoveSend | Disp::CopySend | Disp::MakeSend => false,
    }
}

/// Whether the request is one that there is.
fn is_request(id: u32, sync: u32, disp: Disp) -> bool
    ensures { result ≡ (id == port_destroyed_id && (sync == 0 && is_notify_disp disp)) }
{
    id == PORT_DESTROYED && sync == 0 && is_notify_disp(disp)
}

/// Whether the request names a live port.
fn is_live_backup(backup: &Backup) -> bool
    ensures { result ≡ is_live_backup backup.now }
{
    match *backup {
        Backup::Absent | Backup::Dead => false,
        Backup::Port(_) => true,
    }
}

/// The right of a request, as it is carried.
fn backup_item(backup: &Backup) -> Item
    ensures { result ≡ backup_item backup.now }
{
    match *backup {
        Backup::Absent => Item::Null,
        Backup::Dead => Item::Dead,
        Backup::Port(port) => Item::Right {
            port,
            right: PortRight::SendOnce,
        },
    }
}

/// Gives a space the send-once right of a request that is replaced, and answers its name.
fn give_backup(space: &mut Space, previous: &Backup) -> Result<u32, AllocError>
    requires { (is_live_backup previous.now && is_full space.old) ≡ false }
    ensures ok { IfOk result (λ name. given_backup space.old previous.now ≡ (space.new, name)) }
    ensures err { OnErr result (space.new ≡ space.old) }
{
    match *previous {
        Backup::Absent => Ok(0),
        Backup::Dead => Ok(0xffff_ffff),
        Backup::Port(port) => match space.copyout(port, PortRight::SendOnce) {
            Ok(name) => Ok(name),
            Err(OrMemory::Memory) => Err(AllocError),
            Err(OrMemory::Fault(_)) => unreachable!(),
        },
    }
}

/// The same once a name of the space has no more than the rest.
fn exchange_backup(
    space: &mut Space,
    name: u32,
    rest: Option<Entry>,
    previous: &Backup,
) -> Result<u32, AllocError>
    requires used { IsSome (get space.old name) }
    requires left { CanPut space.old name rest }
    requires room { (is_live_backup previous.now && is_full (put_entry space.old name rest))
        ≡ false }
    ensures ok { IfOk result (λ given.
        given_backup (put_entry space.old name rest) previous.now ≡ (space.new, given)) }
    ensures err { OnErr result (space.new ≡ space.old) }
{
    match *previous {
        Backup::Absent => {
            space.leave(name, rest);
            Ok(0)
        }
        Backup::Dead => {
            space.leave(name, rest);
            Ok(0xffff_ffff)
        }
        Backup::Port(port) => match space.exchange(name, rest, port, PortRight::SendOnce) {
            Ok(given) => Ok(given),
            Err(OrMemory::Memory) => Err(AllocError),
            Err(OrMemory::Fault(_)) => unreachable!(),
        },
    }
}

/// The same once the right of the new request is taken from a name, which is 0 for none.
fn replace_backup(
    space: &mut Space,
    name: u32,
    disp: Disp,
    previous: &Backup,
) -> Result<u32, AllocError>
    requires right { IsOk (request_left space.old name disp) }
    requires room { (y : TSpace) → request_left space.old name disp ≡ Ok y
        → (is_live_backup previous.now && is_full y) ≡ false }
    ensures ok { IfOk result (λ given. (y : TSpace) × (request_left space.old name disp ≡ Ok y)
        × (given_backup y previous.now ≡ (space.new, given))) }
    ensures err { OnErr result (space.new ≡ space.old) }
{
    if name == 0 {
        return give_backup(space, previous);
    }
    match space.parting(name, disp) {
        Ok(taken) => exchange_backup(space, name, taken.1, previous),
        Err(_) => unreachable!(),
    }
}

impl State {
    /// The port of the receive right under a name of the task.
    fn received(&self, task: TaskId, name: u32) -> Result<PortId, Code>
        requires { IsSome (get self.now.tasks task) }
        ensures ok { IfOk result (λ port. received_at self.now task name ≡ Ok port) }
        ensures refused { IfErr result
            (λ code. received_at self.now task name ≡ Err (Refused code)) }
    {
        let Some(held) = self.space(task).get(name) else {
            return Err(Code::KernInvalidName);
        };
        match received_port(&held) {
            Some(port) => Ok(port),
            None => Err(Code::KernInvalidRight),
        }
    }

    /// The class of a port.
    fn class_of(&self, port: PortId) -> Option<ClassId>
        ensures { result ≡ class_of self.now.store port }
    {
        match self.store.ports().get(port) {
            Some(found) => Some(found.class()),
            None => None,
        }
    }

    /// The request of a port.
    fn backup_of(&self, port: PortId) -> Option<Backup>
        ensures { result ≡ option_map (λ (y : TPort). y.backup) (get self.now.store.ports port) }
    {
        match self.store.ports().get(port) {
            Some(found) => Some(found.backup()),
            None => None,
        }
    }

    /// The request that a name of the task stands for: 0 for none.
    fn named_backup(
        &self,
        wired: &Wired,
        task: TaskId,
        name: u32,
        disp: Disp,
    ) -> Result<Backup, Refusal>
        requires { IsSome (get self.now.tasks task) }
        ensures ok { IfOk result (λ backup.
            named_backup (wiring_of wired.now) self.now.store task name disp ≡ Ok backup) }
        ensures refused { IfErr result (λ refusal.
            named_backup (wiring_of wired.now) self.now.store task name disp
            ≡ Err (refusal_reply refusal)) }
    {
        if name == 0 {
            return Ok(Backup::Absent);
        }
        if name == 0xffff_ffff || gives_dead(self.space(task).get(name), disp) {
            return Err(Refusal::Refused(Code::KernInvalidCapability));
        }
        let port = match self.space(task).peek(name, disp) {
            Ok(port) => port,
            Err(code) => return Err(Refusal::Refused(code)),
        };
        let Some(class) = self.class_of(port) else {
            return Err(Refusal::Refused(Code::KernInvalidName));
        };
        if !wired.accepts_destroyed(class) {
            return Err(Refusal::Denied(Denied::NotDestroyed));
        }
        Ok(Backup::Port(port))
    }

    /// Whether the caller may do so by the verb to the task with the right of a request.
    fn may_backup(
        &self,
        wired: &Wired,
        verb: Verb,
        caller: TaskId,
        target: TaskId,
        backup: &Backup,
    ) -> bool
        ensures { result ≡ may_on (wiring_of wired.now) self.now verb caller target
            (backup_item backup.now) }
    {
        self.may_on(wired, verb, caller, target, &backup_item(backup))
    }

    /// Whether the space of the task has 4,096 entries after a request took its right from a name.
    fn is_full_after(&self, task: TaskId, name: u32, disp: Disp) -> bool
        requires { IsSome (get self.now.tasks task) }
        ensures { (y : TSpace) → request_left (space self.now.store task) name disp ≡ Ok y
            → result ≡ is_full y }
    {
        if name == 0 {
            self.space(task).is_full()
        } else {
            self.space(task).is_full_after(name, disp)
        }
    }

    /// Whether the space of the task has no room for the right of a request that is replaced, after
    /// the new one took its right from a name.
    fn lacks_room(&self, task: TaskId, name: u32, disp: Disp, previous: &Backup) -> bool
        requires { IsSome (get self.now.tasks task) }
        ensures { (y : TSpace) → request_left (space self.now.store task) name disp ≡ Ok y
            → result ≡ (is_live_backup previous.now && is_full y) }
    {
        is_live_backup(previous) && self.is_full_after(task, name, disp)
    }

    /// A request takes its right from a name of the task, which is 0 for none, and gives the right
    /// of the one that it replaces: its name.
    fn replace_request(
        &mut self,
        task: TaskId,
        name: u32,
        disp: Disp,
        previous: &Backup,
    ) -> Result<u32, AllocError>
        requires there { IsSome (get self.old.tasks task) }
        requires right { IsOk (request_left (space self.old.store task) name disp) }
        requires room { (y : TSpace) → request_left (space self.old.store task) name disp ≡ Ok y
            → (is_live_backup previous.now && is_full y) ≡ false }
        ensures ok { IfOk result (λ given. (y z : TSpace)
            × (request_left (space self.old.store task) name disp ≡ Ok y)
            × (given_backup y previous.now ≡ (z, given))
            × (self.new ≡ with_space self.old task z)) }
        ensures err { OnErr result (self.new ≡ self.old) }
    {
        let mut space = self.take_space(task);
        let given = replace_backup(&mut space, name, disp, previous);
        self.put_space(task, space);
        given
    }

    /// Requests that the receive right of a port go to another one in place of its destruction, or
    /// takes such a request back, and answers the name that the caller gets for the previous one.
    fn request_in(
        &mut self,
        wired: &Wired,
        caller: TaskId,
        task: u32,
        target: TaskId,
        name: u32,
        id: u32,
        sync: u32,
        notify: u32,
        disp: Disp,
    ) -> Result<u32, OrMemory<Refusal>>
        requires caller { IsSome (get self.old.tasks caller) }
        requires target { target_of self.old caller task ≡ Some target }
        requires there { IsSome (get self.old.tasks target) }
        ensures ok { IfOk result (λ given. call_request_notification (wiring_of wired.now) self.old
            caller task name id sync notify disp ≡ Ok (self.new, Name given)) }
        ensures refused { IfErr result (λ e. IsRefusedBy e
            (call_request_notification (wiring_of wired.now) self.old
            caller task name id sync notify disp)) }
        ensures err { OnErr result (self.new ≡ self.old) }
    {
        if !is_request(id, sync, disp) {
            return Err(OrMemory::Fault(Refusal::Refused(Code::KernInvalidValue)));
        }
        self.housing(caller);
        let port = match self.received(target, name) {
            Ok(port) => port,
            Err(code) => return Err(OrMemory::Fault(Refusal::Refused(code))),
        };
        let backup = match self.named_backup(wired, caller, notify, disp) {
            Ok(backup) => backup,
            Err(refusal) => return Err(OrMemory::Fault(refusal)),
        };
        if !self.may_backup(wired, Verb::Gives, caller, target, &backup) {
            return Err(OrMemory::Fault(Refusal::Denied(Denied::NotGiven)));
        }
        let Some(previous) = self.backup_of(port) else {
            return Err(OrMemory::Fault(Refusal::Refused(Code::KernInvalidName)));
        };
        if !self.may_backup(wired, Verb::Takes, caller, target, &previous) {
            return Err(OrMemory::Fault(Refusal::Denied(Denied::NotTaken)));
        }
        if self.lacks_room(caller, notify, disp, &previous) {
            return Err(OrMemory::Fault(Refusal::Refused(Code::KernNoSpace)));
        }
        let given = self.replace_request(caller, notify, disp, &previous)?;
        self.set_backup(port, &backup);
        Ok(given)
    }

    /// Requests a notice of a task's receive right, or takes the request back.
    #[tactic(auto, using(crate::proofs::RequestLaws::request_no_task))]
    pub(crate) fn request_notification(
        &mut self,
        wired: &Wired,
        caller: TaskId,
        task: u32,
        name: u32,
        id: u32,
        sync: u32,
        notify: u32,
        disp: Disp,
    ) -> Result<Reply, OrMemory<Refusal>>
        requires { IsSome (get self.old.tasks caller) }
        ensures { Answers result self.old self.new
            (call_request_notification (wiring_of wired.now) self.old caller task name id sync
            notify disp) }
    {
        let Some(target) = self.target(caller, task) else {
            return Err(OrMemory::Fault(Refusal::Refused(Code::KernInvalidTask)));
        };
        let given = self.request_in(wired, caller, task, target, name, id, sync, notify, disp)?;
        Ok(Reply::Name(given))
    }
}
