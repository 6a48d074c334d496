//! From the lines of a wiring to its table.

ghost use Rattle.std.specs.Prelude.{◌≡◌, ◌<◌, ◌≤◌, [], false, is_some, length, slice_index};
ghost use Rattle.std.specs.Prelude.{IfOk, OnOk};
ghost use Rattle.std.specs.List.{list_any};
ghost use Rattle.std.specs.Option.{ok_or};
ghost use Rattle.mrc_base.specs.Limits.{limit_of_tasks, limit_of_wired_ports, limit_of_names};
ghost use Rattle.mrc_base.specs.Limits.{limit_of_kinds};
ghost use Rattle.mrc_base.specs.Reading.{Gives};
ghost use Rattle.mrc_model.specs.Rights.{is_receive};
ghost use Rattle.mrc_wiring.specs.declared.faults.ResolveFault.TheVariants.{UnknownName};
ghost use Rattle.mrc_wiring.specs.Births.{AreAscending};
ghost use Rattle.mrc_wiring.specs.Names.{number_of};
ghost use Rattle.mrc_wiring.specs.State.{IsState, IsGiven, GivesMore, limit_of_first_ports};
ghost use Rattle.mrc_wiring.specs.State.{next_birth, state_with_task, state_with_port};
ghost use Rattle.mrc_wiring.specs.State.{state_with_hold};
ghost use Rattle.mrc_wiring.specs.Resolving.{Adds, resolved, started, add_line, add_task, add_port};
ghost use Rattle.mrc_wiring.specs.Resolving.{place_port, add_births, place_births, place_hold};
ghost use Rattle.mrc_wiring.specs.Resolving.{add_hold_port, add_hold_task, add_admit, right_held};
ghost use Rattle.mrc_wiring.specs.Resolving.{port_birth, kernel_birth, admitted_said};
ghost use Rattle.mrc_wiring.specs.Resolving.{has_twice, interfaces_of, is_named};
ghost use Rattle.mrc_wiring.specs.Resolving.{verb_said, trusted_said, add_trust, add_fit};
ghost use Rattle.mrc_wiring.specs.Told.{StateTold, FaultOrStarts};

use crate::births::{BirthRow, has_said, put_row};
use crate::faults::ResolveFault;
use crate::first_names::NamesGiven;
use crate::interfaces::Interfaces;
use crate::labels::{Label, has_clash, interface_number, label_said};
use crate::names::{NumberedClass, class_said};
use crate::table::{AdmitLine, NumberedRight, TrustedLine};
use mrc_base::limits::{FEW_INTERFACES, INTERFACES, NAMES, TASKS, WIRED_PORTS};
use mrc_base::{OrMemory, PortId, PortRight, TaskId};
use mrc_forms::Interface;
use mrc_model::{FirstLine, Verb};
use mrc_name_table::NameTable;
use mrc_wiring_text::{
    ClassName, Edition, HeldRight, Items, Kind, Name, TrustVerb, TrustedRight, WiringLine,
    WiringSays,
};
use std::alloc::{AllocError, Global};
use std::marker::Model;

/// The table of the lines so far, and what is kept next to it.
#[derive(Drop)]
pub(crate) struct Resolving {
    pub(crate) names: NameTable,
    pub(crate) births: Vec<BirthRow>,
    pub(crate) ports: NameTable,
    pub(crate) accepts: Vec<Label>,
    pub(crate) lines: Vec<FirstLine>,
    pub(crate) admits: Vec<AdmitLine>,
    pub(crate) trusts: Vec<TrustedLine>,
    pub(crate) fits: bool,
    pub(crate) interfaces: Interfaces,
    pub(crate) kernels: Vec<PortId>,
    pub(crate) wired: Vec<PortId>,
    pub(crate) given: NamesGiven,
}

impl Model for Resolving {
    ghost use Rattle.mrc_wiring.specs.State as definitions;

    ghost Value = { definitions.State };

    ghost view = { λ r. record {
      table = record {
        names = r.names;
        births = r.births.items;
        ports = r.ports;
        accepts = r.accepts.items;
        lines = r.lines.items;
        admits = r.admits.items;
        trusts = r.trusts.items;
        fits = r.fits;
        interfaces = r.interfaces;
      };
      kernels = r.kernels.items;
      wired = r.wired.items;
      given = r.given;
    } };
}

fn right_held(right: HeldRight) -> PortRight
    ensures { result ≡ right_held right }
{
    match right {
        HeldRight::Send => PortRight::Send,
        HeldRight::SendOnce => PortRight::SendOnce,
    }
}

fn verb_said(verb: TrustVerb) -> Verb
    ensures { result ≡ verb_said verb }
{
    match verb {
        TrustVerb::Takes => Verb::Takes,
        TrustVerb::Gives => Verb::Gives,
        TrustVerb::Sends => Verb::Sends,
        TrustVerb::Replies => Verb::Replies,
    }
}

impl Resolving {
    /// The birth number of the next port.
    fn next(&self) -> usize
        requires { IsState self.now }
        ensures exact { result ≡ next_birth self.now.table }
        ensures within { length self.now.table.names < limit_of_tasks
            → result < limit_of_first_ports }
        ensures room { length self.now.table.ports < limit_of_wired_ports
            → result < limit_of_first_ports }
    {
        self.names.len() + self.ports.len()
    }

    /// The births of each task by their kinds.
    fn births(&self) -> &[BirthRow]
        requires { IsState self.now }
        ensures exact { result.now ≡ self.now.table.births }
        ensures ascending { AreAscending result.now }
    {
        self.births.as_slice()
    }

    /// A task by its name in a line.
    fn task_said(&self, line: u32, name: &Name) -> Result<usize, OrMemory<ResolveFault>>
        requires { IsState self.now }
        ensures exact { Gives (λ task. task) result
            (ok_or (number_of self.now.table.names name.now) (UnknownName line)) }
        ensures there { IfOk result (λ task. task < length self.now.table.names) }
        ensures within { IfOk result (λ task. task < limit_of_tasks) }
        ensures few { IfOk result (λ task.
            slice_index self.now.given.counts task ≤ limit_of_names) }
    {
        self.names
            .number_of(name.as_str())
            .ok_or(OrMemory::Fault(ResolveFault::UnknownName(line)))
    }

    /// Adds a task.
    fn put_task(&mut self, alloc: Global, name: &Name) -> Result<(), AllocError>
        requires state { IsState self.old }
        requires room { length self.old.table.names < limit_of_tasks }
        requires new { is_some (number_of self.old.table.names name.now) ≡ false }
        requires few { slice_index self.old.given.counts (length self.old.table.names)
            ≤ limit_of_names }
        ensures exact { OnOk result
            (self.new ≡ state_with_task self.old name.now self.new.given) }
        ensures given { OnOk result
            (GivesMore self.old.given (length self.old.table.names)
            (next_birth self.old.table) PortRight.Send self.new.given) }
        ensures same { self.new.table.interfaces ≡ self.old.table.interfaces }
    {
        let task = self.names.len();
        let port = self.next();
        self.names.add(alloc, name.as_str())?;
        self.births.push(BirthRow {
            task: task as u16,
            kind: 0,
            accepts: None,
        })?;
        self.lines.push(FirstLine::Task)?;
        self.kernels.push(PortId(port as u64))?;
        self.given.give(task, port, PortRight::Send);
        Ok(())
    }

    #[tactic(auto, unfolding(crate::specs::Resolving::add_task))]
    fn add_task(
        &mut self,
        alloc: Global,
        line: u32,
        name: &Name,
    ) -> Result<(), OrMemory<ResolveFault>>
        requires { IsState self.old }
        ensures exact { Adds result self.new.table (add_task self.old.table line name.now) }
        ensures kept { OnOk result (IsState self.new) }
        ensures same { self.new.table.interfaces ≡ self.old.table.interfaces }
    {
        if self.names.number_of(name.as_str()).is_some() {
            return Err(OrMemory::Fault(ResolveFault::TwiceNamed(line)));
        }
        if self.names.len() >= TASKS {
            return Err(OrMemory::Fault(ResolveFault::TooMany(line)));
        }
        self.put_task(alloc, name)?;
        Ok(())
    }

    /// Adds a wired port.
    fn put_port(
        &mut self,
        alloc: Global,
        name: &Name,
        receiver: usize,
        label: Label,
    ) -> Result<(), AllocError>
        requires state { IsState self.old }
        requires room { length self.old.table.ports < limit_of_wired_ports }
        requires new { is_some (number_of self.old.table.ports name.now) ≡ false }
        requires there { receiver < limit_of_tasks }
        requires few { slice_index self.old.given.counts receiver ≤ limit_of_names }
        ensures exact { OnOk result
            (self.new ≡ state_with_port self.old name.now receiver label self.new.given) }
        ensures given { OnOk result
            (GivesMore self.old.given receiver (next_birth self.old.table) PortRight.Receive
            self.new.given) }
        ensures same { self.new.table.interfaces ≡ self.old.table.interfaces }
    {
        let port = self.next();
        self.ports.add(alloc, name.as_str())?;
        self.accepts.push(label)?;
        self.lines.push(FirstLine::Port {
            receiver: TaskId(receiver as u32),
        })?;
        self.wired.push(PortId(port as u64))?;
        self.given.give(receiver, port, PortRight::Receive);
        Ok(())
    }

    #[tactic(auto, unfolding(crate::specs::Resolving::place_port))]
    fn place_port(
        &mut self,
        alloc: Global,
        line: u32,
        name: &Name,
        receiver: usize,
        label: Label,
    ) -> Result<(), OrMemory<ResolveFault>>
        requires state { IsState self.old }
        requires there { receiver < length self.old.table.names }
        requires within { receiver < limit_of_tasks }
        requires few { slice_index self.old.given.counts receiver ≤ limit_of_names }
        ensures exact { Adds result self.new.table
            (place_port self.old.table line name.now receiver label) }
        ensures kept { OnOk result (IsState self.new) }
        ensures same { self.new.table.interfaces ≡ self.old.table.interfaces }
    {
        if self.ports.number_of(name.as_str()).is_some() {
            return Err(OrMemory::Fault(ResolveFault::TwiceNamed(line)));
        }
        if self.ports.len() >= WIRED_PORTS {
            return Err(OrMemory::Fault(ResolveFault::TooMany(line)));
        }
        let port = self.next();
        let names = self.given.count_with(receiver, port, PortRight::Receive);
        if names > NAMES {
            return Err(OrMemory::Fault(ResolveFault::TooManyNames(receiver as u32)));
        }
        if has_clash(alloc, self.interfaces.as_slice(), label.as_slice())? {
            return Err(OrMemory::Fault(ResolveFault::IdClash(line)));
        }
        self.put_port(alloc, name, receiver, label)?;
        Ok(())
    }

    #[tactic(auto, unfolding(crate::specs::Resolving::add_port))]
    fn add_port(
        &mut self,
        alloc: Global,
        line: u32,
        name: &Name,
        receiver: &Name,
        accepts: &Items,
    ) -> Result<(), OrMemory<ResolveFault>>
        requires { IsState self.old }
        ensures exact { Adds result self.new.table
            (add_port self.old.table line name.now receiver.now accepts.now) }
        ensures kept { OnOk result (IsState self.new) }
        ensures same { self.new.table.interfaces ≡ self.old.table.interfaces }
    {
        let receiver = self.task_said(line, receiver)?;
        let label = label_said(alloc, self.interfaces.as_slice(), line, accepts)?;
        self.place_port(alloc, line, name, receiver, label)?;
        Ok(())
    }

    #[tactic(auto, unfolding(crate::specs::Resolving::place_births))]
    fn place_births(
        &mut self,
        alloc: Global,
        line: u32,
        task: usize,
        kind: u8,
        label: Label,
    ) -> Result<(), OrMemory<ResolveFault>>
        requires state { IsState self.old }
        requires there { task < length self.old.table.names }
        requires within { task < limit_of_tasks }
        requires kind { kind < limit_of_kinds }
        ensures exact { Adds result self.new.table
            (place_births self.old.table line task kind label) }
        ensures kept { OnOk result (IsState self.new) }
        ensures same { self.new.table.interfaces ≡ self.old.table.interfaces }
    {
        if has_said(self.births(), task as u32, kind as u32) {
            return Err(OrMemory::Fault(ResolveFault::TwiceNamed(line)));
        }
        if has_clash(alloc, self.interfaces.as_slice(), label.as_slice())? {
            return Err(OrMemory::Fault(ResolveFault::IdClash(line)));
        }
        put_row(&mut self.births, task as u16, kind, label)?;
        Ok(())
    }

    #[tactic(auto, unfolding(crate::specs::Resolving::add_births))]
    fn add_births(
        &mut self,
        alloc: Global,
        line: u32,
        task: &Name,
        kind: &Kind,
        accepts: &Items,
    ) -> Result<(), OrMemory<ResolveFault>>
        requires { IsState self.old }
        ensures exact { Adds result self.new.table
            (add_births self.old.table line task.now kind.now accepts.now) }
        ensures kept { OnOk result (IsState self.new) }
        ensures same { self.new.table.interfaces ≡ self.old.table.interfaces }
    {
        let task = self.task_said(line, task)?;
        let label = label_said(alloc, self.interfaces.as_slice(), line, accepts)?;
        self.place_births(alloc, line, task, kind.number(), label)?;
        Ok(())
    }

    /// Adds a right.
    fn put_hold(&mut self, task: usize, port: PortId, right: PortRight) -> Result<(), AllocError>
        requires within { task < limit_of_tasks }
        requires port { port < limit_of_first_ports }
        requires few { slice_index self.old.given.counts task ≤ limit_of_names }
        ensures exact { OnOk result
            (self.new ≡ state_with_hold self.old task port right self.new.given) }
        ensures given { OnOk result
            (GivesMore self.old.given task port right self.new.given) }
        ensures same { self.new.table.interfaces ≡ self.old.table.interfaces }
    {
        self.lines.push(FirstLine::Hold {
            task: TaskId(task as u32),
            port,
            right,
        })?;
        self.given.give(task, port.0 as usize, right);
        Ok(())
    }

    #[tactic(auto, unfolding(crate::specs::Resolving::place_hold))]
    fn place_hold(
        &mut self,
        task: usize,
        port: PortId,
        right: PortRight,
    ) -> Result<(), OrMemory<ResolveFault>>
        requires state { IsState self.old }
        requires there { task < length self.old.table.names }
        requires within { task < limit_of_tasks }
        requires few { slice_index self.old.given.counts task ≤ limit_of_names }
        requires port { port < next_birth self.old.table }
        requires near { port < limit_of_first_ports }
        requires plain { is_receive right ≡ false }
        ensures exact { Adds result self.new.table
            (place_hold self.old.table task port right) }
        ensures kept { OnOk result (IsState self.new) }
        ensures same { self.new.table.interfaces ≡ self.old.table.interfaces }
    {
        let names = self.given.count_with(task, port.0 as usize, right);
        if names > NAMES {
            return Err(OrMemory::Fault(ResolveFault::TooManyNames(task as u32)));
        }
        self.put_hold(task, port, right)?;
        Ok(())
    }

    /// The birth number of the wired port of a name.
    fn port_birth(&self, name: &str) -> Option<PortId>
        requires { IsState self.now }
        ensures { result ≡ port_birth self.now.table name.now }
    {
        let number = self.ports.number_of(name)?;
        self.wired.get(number).copied()
    }

    /// The birth number of the kernel port of the task of a name.
    fn kernel_birth(&self, name: &str) -> Option<PortId>
        requires { IsState self.now }
        ensures { result ≡ kernel_birth self.now.table name.now }
    {
        let number = self.names.number_of(name)?;
        self.kernels.get(number).copied()
    }

    #[tactic(auto, unfolding(crate::specs::Resolving::add_hold_port))]
    fn add_hold_port(
        &mut self,
        line: u32,
        holder: &Name,
        right: HeldRight,
        port: &Name,
    ) -> Result<(), OrMemory<ResolveFault>>
        requires { IsState self.old }
        ensures exact { Adds result self.new.table
            (add_hold_port self.old.table line holder.now right port.now) }
        ensures kept { OnOk result (IsState self.new) }
        ensures same { self.new.table.interfaces ≡ self.old.table.interfaces }
    {
        let holder = self.task_said(line, holder)?;
        let port = self
            .port_birth(port.as_str())
            .ok_or(OrMemory::Fault(ResolveFault::UnknownName(line)))?;
        self.place_hold(holder, port, right_held(right))?;
        Ok(())
    }

    #[tactic(auto, unfolding(crate::specs::Resolving::add_hold_task))]
    fn add_hold_task(
        &mut self,
        line: u32,
        holder: &Name,
        task: &Name,
    ) -> Result<(), OrMemory<ResolveFault>>
        requires { IsState self.old }
        ensures exact { Adds result self.new.table
            (add_hold_task self.old.table line holder.now task.now) }
        ensures kept { OnOk result (IsState self.new) }
        ensures same { self.new.table.interfaces ≡ self.old.table.interfaces }
    {
        let holder = self.task_said(line, holder)?;
        let port = self
            .kernel_birth(task.as_str())
            .ok_or(OrMemory::Fault(ResolveFault::UnknownName(line)))?;
        self.place_hold(holder, port, PortRight::Send)?;
        Ok(())
    }

    /// The class of an admit line.
    fn admitted_said(
        &self,
        line: u32,
        class: &Option<ClassName>,
    ) -> Result<Option<NumberedClass>, OrMemory<ResolveFault>>
        requires { IsState self.now }
        ensures { Gives (λ class. class) result
            (admitted_said self.now.table line class.now) }
    {
        let Some(name) = class else {
            return Ok(None);
        };
        let class = class_said(&self.names, &self.ports, self.births(), name).ok_or(OrMemory::Fault(
            ResolveFault::UnknownName(line),
        ))?;
        Ok(Some(class))
    }

    #[tactic(auto, unfolding(crate::specs::Resolving::add_admit))]
    fn add_admit(
        &mut self,
        line: u32,
        subsystem: &Name,
        type_name: &Name,
        class: &Option<ClassName>,
    ) -> Result<(), OrMemory<ResolveFault>>
        requires { IsState self.old }
        ensures exact { Adds result self.new.table
            (add_admit self.old.table line subsystem.now type_name.now class.now) }
        ensures kept { OnOk result (IsState self.new) }
        ensures same { self.new.table.interfaces ≡ self.old.table.interfaces }
    {
        let interface = interface_number(self.interfaces.as_slice(), subsystem.as_str()).ok_or(
            OrMemory::Fault(ResolveFault::UnknownName(line)),
        )?;
        let sort = self
            .interfaces
            .sort(interface, type_name.as_str())
            .ok_or(OrMemory::Fault(ResolveFault::UnknownName(line)))?;
        let class = self.admitted_said(line, class)?;
        self.admits.push(AdmitLine { sort, class })?;
        Ok(())
    }

    /// The right on a class of a line about a trusted task.
    fn trusted_said(
        &self,
        line: u32,
        right: &Option<TrustedRight>,
    ) -> Result<Option<NumberedRight>, OrMemory<ResolveFault>>
        requires { IsState self.now }
        ensures { Gives (λ right. right) result
            (trusted_said self.now.table line right.now) }
    {
        let Some(on) = right else {
            return Ok(None);
        };
        let class = class_said(&self.names, &self.ports, self.births(), &on.class).ok_or(
            OrMemory::Fault(ResolveFault::UnknownName(line)),
        )?;
        Ok(Some(NumberedRight {
            right: on.right,
            class,
        }))
    }

    #[tactic(auto, unfolding(crate::specs::Resolving::add_trust))]
    fn add_trust(
        &mut self,
        line: u32,
        task: &Name,
        verb: TrustVerb,
        right: &Option<TrustedRight>,
    ) -> Result<(), OrMemory<ResolveFault>>
        requires { IsState self.old }
        ensures exact { Adds result self.new.table
            (add_trust self.old.table line task.now verb right.now) }
        ensures kept { OnOk result (IsState self.new) }
        ensures same { self.new.table.interfaces ≡ self.old.table.interfaces }
    {
        let task = self.task_said(line, task)?;
        let right = self.trusted_said(line, right)?;
        self.trusts.push(TrustedLine {
            line,
            verb: verb_said(verb),
            task: task as u16,
            right,
        })?;
        Ok(())
    }

    #[tactic(auto, unfolding(crate::specs::Resolving::add_fit))]
    fn add_fit(&mut self, line: u32) -> Result<(), OrMemory<ResolveFault>>
        requires { IsState self.old }
        ensures exact { Adds result self.new.table (add_fit self.old.table line) }
        ensures kept { OnOk result (IsState self.new) }
        ensures same { self.new.table.interfaces ≡ self.old.table.interfaces }
    {
        if self.fits {
            return Err(OrMemory::Fault(ResolveFault::TwiceNamed(line)));
        }
        self.fits = true;
        Ok(())
    }

    /// Adds what a line says.
    fn add_line(&mut self, alloc: Global, line: &WiringLine) -> Result<(), OrMemory<ResolveFault>>
        requires { IsState self.old }
        ensures exact { Adds result self.new.table
            (add_line self.old.table line.now.number line.now.says) }
        ensures kept { OnOk result (IsState self.new) }
        ensures same { self.new.table.interfaces ≡ self.old.table.interfaces }
    {
        let number = line.number;
        match &line.says {
            WiringSays::Task(name) => self.add_task(alloc, number, name),
            WiringSays::Port {
                port,
                receiver,
                accepts,
            } => self.add_port(alloc, number, port, receiver, accepts),
            WiringSays::Births {
                task,
                kind,
                accepts,
            } => self.add_births(alloc, number, task, kind, accepts),
            WiringSays::HoldPort {
                holder,
                right,
                port,
            } => self.add_hold_port(number, holder, *right, port),
            WiringSays::HoldTask { holder, task } => self.add_hold_task(number, holder, task),
            WiringSays::Admit {
                subsystem,
                type_name,
                class,
            } => self.add_admit(number, subsystem, type_name, class),
            WiringSays::Trust { task, verb, right } => self.add_trust(number, task, *verb, right),
            WiringSays::RepliesFit => self.add_fit(number),
        }
    }
}

/// Whether one of the interfaces has the name.
fn is_one_named(interfaces: &[Interface], name: &str) -> bool
    ensures { result ≡ list_any (is_named name.now) interfaces.now }
{
    interfaces.iter().any(|other| name == other.name())
}

/// Whether two of the interfaces have one name.
fn has_twice(interfaces: &[Interface]) -> bool
    ensures { result ≡ has_twice interfaces.now }
{
    for (number, interface) in interfaces.iter().enumerate() {
        if is_one_named(&interfaces[number + 1..], interface.name()) {
            return true;
        }
    }
    false
}

/// How many interfaces a wiring of an edition may have.
fn interfaces_of(edition: Edition) -> usize
    ensures { result ≡ interfaces_of edition }
{
    match edition {
        Edition::First | Edition::Second => FEW_INTERFACES,
        Edition::Third => INTERFACES,
    }
}

/// Why a wiring of an edition cannot have these interfaces.
fn fault_of_interfaces(edition: Edition, interfaces: &[Interface]) -> Option<ResolveFault>
    ensures { FaultOrStarts result edition interfaces.now }
{
    if has_twice(interfaces) {
        return Some(ResolveFault::TwiceNamed(0));
    }
    if interfaces.len() > interfaces_of(edition) {
        return Some(ResolveFault::TooMany(0));
    }
    None
}

/// Lines that have no meaning: the interfaces, unchanged, and why.
#[derive(Debug, Drop)]
pub struct NotResolved {
    /// The interfaces.
    pub interfaces: Vec<Interface>,
    /// The first fault, or out of memory.
    pub why: OrMemory<ResolveFault>,
}

/// No line yet.
fn started(
    alloc: Global,
    edition: Edition,
    interfaces: Interfaces,
) -> Result<Resolving, (Interfaces, OrMemory<ResolveFault>)>
    ensures exact { StateTold interfaces result (started edition interfaces) }
    ensures kept { IfOk result (λ state. IsState state) }
    ensures same { IfOk result (λ state. state.table.interfaces ≡ interfaces) }
{
    if let Some(fault) = fault_of_interfaces(edition, interfaces.as_slice()) {
        return Err((interfaces, OrMemory::Fault(fault)));
    }
    match NamesGiven::new(alloc) {
        Ok(given) => Ok(Resolving {
            names: NameTable::new(alloc),
            births: Vec::new(alloc),
            ports: NameTable::new(alloc),
            accepts: Vec::new(alloc),
            lines: Vec::new(alloc),
            admits: Vec::new(alloc),
            trusts: Vec::new(alloc),
            fits: false,
            interfaces,
            kernels: Vec::new(alloc),
            wired: Vec::new(alloc),
            given,
        }),
        Err(error) => Err((interfaces, OrMemory::from(error))),
    }
}

/// What all of the lines of a wiring of an edition mean.
pub(crate) fn resolved(
    alloc: Global,
    edition: Edition,
    lines: &[WiringLine],
    interfaces: Interfaces,
) -> Result<Resolving, (Interfaces, OrMemory<ResolveFault>)>
    ensures exact { StateTold interfaces result (resolved edition interfaces lines.now) }
    ensures kept { IfOk result (λ state. IsState state) }
    ensures same { IfOk result (λ state. state.table.interfaces ≡ interfaces) }
{
    let mut resolving = started(alloc, edition, interfaces)?;
    for line in lines {
        if let Err(why) = resolving.add_line(alloc, line) {
            return Err((resolving.interfaces, why));
        }
    }
    Ok(resolving)
}
