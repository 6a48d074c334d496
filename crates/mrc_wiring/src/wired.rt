//! Wirings, resolved to numbers.

ghost use Rattle.std.specs.Prelude.{◌≡◌, ◌≤◌, ◌<◌, ◌+◌, ◌*◌, ℕ, [], flat_map, length, map, get_or};
ghost use Rattle.std.specs.Prelude.{◌↔◌, slice_get, Some, IfOk, IfSome, IsTrue};
ghost use Rattle.std.specs.Option.{option_map, option_to_list, IfNone};
ghost use Rattle.mrc_base.specs.Limits.{limit_of_tasks, limit_of_wired_ports, limit_of_kinds};
ghost use Rattle.mrc_model.specs.First.{is_sound};
ghost use Rattle.mrc_model.specs.FirstHoldings.{given_classes};
ghost use Rattle.mrc_model.specs.Wiring.{classes, births_class, label, admits};
ghost use Rattle.mrc_bits.specs.Bits.{is_set};
ghost use Rattle.mrc_base.specs.declared.PortRight.{PortRight};
ghost use Rattle.std.specs.Prelude.{true, false, nat_lt, ◌&&◌};
ghost use Rattle.std.specs.List.{list_any};
ghost use Rattle.mrc_model.specs.Wiring.{is_limited, may, trusts_by};
ghost use Rattle.mrc_wiring.specs.Trusting.{right_words, right_place, limit_of_classes};
ghost use Rattle.mrc_wiring.specs.Admitting.{IsAdmitting, class_words};
ghost use Rattle.mrc_wiring.specs.Trusting.{IsTrusting};
ghost use Rattle.mrc_wiring.specs.Births.{AreAscending, AreKinds, of_row};
ghost use Rattle.mrc_wiring.specs.Table.{IsTable, wiring_of};
ghost use Rattle.mrc_wiring.specs.Finding.{message_forms, typed_at};
ghost use Rattle.mrc_wiring.specs.State.{IsState};
ghost use Rattle.mrc_wiring.specs.Resolving.{resolved};
ghost use Rattle.mrc_wiring.specs.Told.{OverTold, ResolveTold};
ghost use Rattle.mrc_wiring.specs.Names.{AreNames, number_of, class_label, shown_label};
ghost use Rattle.mrc_wiring.specs.Names.{class_named, births_named};
ghost use Rattle.mrc_wiring.specs.Claims.{class_number};

use crate::admitting::{Admitting, words_at};
use crate::births::{BirthRow, row_of};
use crate::faults::ResolveFault;
use crate::holdings::first_classes;
use crate::interfaces::Interfaces;
use crate::labels::Label;
use crate::names::{ClassKind, ClassLabel, class_said, kind_named};
use crate::resolving::{NotResolved, Resolving, resolved};
use crate::table::{AdmitLine, TrustedLine, class_of};
use crate::trusting::{right_part, trust_row, trusting};
use crate::typed::{TypedForm, forms_at};
use mrc_base::{ClassId, Copies, OrMemory, PortRight, TaskId, copy_all, same_all};
use mrc_bits::has_bit;
use mrc_forms::{Interface, MessageKind};
use mrc_model::{FirstLine, LabelItem, Verb};
use mrc_name_table::NameTable;
use mrc_wiring_text::{ClassName, Edition, WiringLine};
use std::alloc::{AllocError, Global};
use std::marker::Model;

/// What the lines of a wiring mean by the numbers of types and classes, once all are read.
#[derive(Drop)]
struct ByNumbers {
    admitting: Admitting,
    trusting: Vec<Vec<u64>>,
    first_classes: Vec<ClassId>,
}

/// What the admit lines admit, what trusted tasks may do, and the classes of the ports of the first
/// state.
fn numbered(alloc: Global, table: &Resolving) -> Result<ByNumbers, AllocError>
    requires { IsState table.now }
    ensures admitting { IfOk result (λ numbered. IsAdmitting (length table.now.table.ports)
        (length table.now.table.names) table.now.table.births table.now.table.admits
        numbered.admitting.rows.items numbered.admitting.every.items) }
    ensures trusting { IfOk result (λ numbered. IsTrusting (length table.now.table.ports)
        (length table.now.table.names) table.now.table.births table.now.table.trusts
        numbered.trusting.items) }
    ensures classes { IfOk result (λ numbered. numbered.first_classes.items
        ≡ given_classes (wiring_of table.now.table)) }
{
    Ok(ByNumbers {
        admitting: Admitting::of(
            alloc,
            table.ports.len(),
            table.names.len(),
            &table.births,
            &table.admits,
        )?,
        trusting: trusting(
            alloc,
            table.ports.len(),
            table.names.len(),
            &table.births,
            &table.trusts,
        )?,
        first_classes: first_classes(alloc, table)?,
    })
}

/// The tasks of a wiring, and its ports.
#[derive(Drop)]
struct Declared {
    names: NameTable,
    births: Vec<BirthRow>,
    ports: NameTable,
    accepts: Vec<Label>,
}

/// The other lines of a wiring.
#[derive(Drop)]
struct Given {
    lines: Vec<FirstLine>,
    admits: Vec<AdmitLine>,
    trusts: Vec<TrustedLine>,
}

/// A wiring by numbers: its tasks and wired ports, its classes and what they accept, what slots
/// admit, and what makes its first state. It keeps the names and the interfaces.
#[derive(Debug, Drop)]
pub struct Wired {
    names: NameTable,
    births: Vec<BirthRow>,
    ports: NameTable,
    accepts: Vec<Label>,
    pub(crate) lines: Vec<FirstLine>,
    admits: Vec<AdmitLine>,
    trusts: Vec<TrustedLine>,
    fits: bool,
    interfaces: Interfaces,
    admitting: Admitting,
    trusting: Vec<Vec<u64>>,
    first_classes: Vec<ClassId>,
}

impl Model for Wired {
    ghost use Rattle.mrc_wiring.specs.Kept.{IsKept};
    ghost use Rattle.mrc_wiring.specs.Table.{Table};

    ghost Value = { Table };

    ghost view = { λ w. record {
      names = w.names;
      births = w.births.items;
      ports = w.ports;
      accepts = w.accepts.items;
      lines = w.lines.items;
      admits = w.admits.items;
      trusts = w.trusts.items;
      fits = w.fits;
      interfaces = w.interfaces;
    } };

    ghost invariant = { λ w. IsKept record {
      names = w.names;
      births = w.births.items;
      ports = w.ports;
      accepts = w.accepts.items;
      lines = w.lines.items;
      admits = w.admits.items;
      trusts = w.trusts.items;
      fits = w.fits;
      interfaces = w.interfaces;
    } w.admitting.rows.items w.admitting.every.items w.trusting.items w.first_classes.items };
}

impl Wired {
    /// The wiring that lines of a wiring's edition mean over interfaces, or the first fault, by
    /// lines; line 0 stands for the list of interfaces, of which a wiring of version 3 has 256 at
    /// most, and one of an earlier version 16. With a refusal the interfaces come back unchanged.
    pub fn resolve(
        alloc: Global,
        edition: Edition,
        lines: &[WiringLine],
        interfaces: Vec<Interface>,
    ) -> Result<Wired, NotResolved>
        ensures { ResolveTold interfaces.items result
            (resolved edition interfaces.items lines.now) }
    {
        match Interfaces::new(alloc, interfaces) {
            Ok(typed) => match Wired::over(alloc, edition, lines, typed) {
                Ok(wired) => Ok(wired),
                Err((interfaces, why)) => Err(NotResolved {
                    interfaces: interfaces.into_vec(),
                    why,
                }),
            },
            Err((interfaces, error)) => Err(NotResolved {
                interfaces,
                why: OrMemory::from(error),
            }),
        }
    }

    /// The same over interfaces with the numbers of types. With a refusal the interfaces come back
    /// unchanged.
    pub fn over(
        alloc: Global,
        edition: Edition,
        lines: &[WiringLine],
        interfaces: Interfaces,
    ) -> Result<Wired, (Interfaces, OrMemory<ResolveFault>)>
        ensures exact { OverTold interfaces result (resolved edition interfaces lines.now) }
        ensures kept { IfOk result (λ wired. wired.interfaces ≡ interfaces) }
    {
        let table = resolved(alloc, edition, lines, interfaces)?;
        match numbered(alloc, &table) {
            Ok(by_numbers) => Ok(Wired {
                names: table.names,
                births: table.births,
                ports: table.ports,
                accepts: table.accepts,
                lines: table.lines,
                admits: table.admits,
                trusts: table.trusts,
                fits: table.fits,
                interfaces: table.interfaces,
                admitting: by_numbers.admitting,
                trusting: by_numbers.trusting,
                first_classes: by_numbers.first_classes,
            }),
            Err(error) => Err((table.interfaces, OrMemory::from(error))),
        }
    }

    /// How many tasks there are: no more than a wiring may have.
    pub fn tasks(&self) -> u16
        ensures exact { result ≡ (wiring_of self.now).tasks }
        ensures within { result ≤ limit_of_tasks }
        ensures kept { IsTable self.now }
        ensures named { AreNames self.now.names }
        ensures sound { IsTrue (is_sound (wiring_of self.now)) }
    {
        self.names.len() as u16
    }

    /// How many wired ports there are: no more than a wiring may have.
    pub fn ports(&self) -> u16
        ensures exact { result ≡ (wiring_of self.now).ports }
        ensures within { result ≤ limit_of_wired_ports }
        ensures named { AreNames self.now.ports }
    {
        self.ports.len() as u16
    }

    /// The births of each task by their kinds.
    fn births(&self) -> &[BirthRow]
        ensures exact { result.now ≡ self.now.births }
        ensures ascending { AreAscending result.now }
        ensures kinds { AreKinds self.now.births }
    {
        self.births.as_slice()
    }

    /// How many classes of births there are: one at least for each task.
    pub fn birth_classes(&self) -> u16
        ensures exact { result ≡ length (wiring_of self.now).births }
        ensures within { result ≤ limit_of_tasks * limit_of_kinds }
        ensures enough { (wiring_of self.now).tasks ≤ result }
        ensures kinds { AreKinds self.now.births }
    {
        let _kept = self.tasks();
        self.births().len() as u16
    }

    /// How many classes of ports there are: wired ports, the kernel port of each task, and then the
    /// births of each by their kinds.
    pub fn classes(&self) -> u16
        ensures exact { result ≡ classes (wiring_of self.now) }
        ensures within { result ≤ limit_of_wired_ports + limit_of_tasks
            + limit_of_tasks * limit_of_kinds }
    {
        self.ports() + self.tasks() + self.birth_classes()
    }

    /// What makes the first state, line by line.
    pub fn first_lines(&self) -> &[FirstLine]
        ensures { result.now ≡ (wiring_of self.now).lines }
    {
        self.lines.as_slice()
    }

    /// The class of each port of the first state, by birth number.
    pub fn first_classes(&self) -> &[ClassId]
        ensures { result.now ≡ given_classes (wiring_of self.now) }
    {
        self.first_classes.as_slice()
    }

    /// The class of the births of a task, by their kind, if there are births of the kind.
    pub fn births_class(&self, task: TaskId, kind: u32) -> Option<ClassId>
        ensures { result ≡ births_class (wiring_of self.now) task kind }
    {
        let _births = self.birth_classes();
        let first = self.ports() + self.tasks();
        let row = row_of(self.births(), task.0, kind)?;
        Some(ClassId(first + row as u16))
    }

    /// The task of whose births the class is.
    pub fn born_to(&self, class: ClassId) -> Option<TaskId>
        ensures some { IfSome result (λ task. (task < (wiring_of self.now).tasks)
            × ((kind : ℕ) × (births_class (wiring_of self.now) task kind ≡ Some class))) }
        ensures only { IfSome result (λ task. (other kind : ℕ)
            → births_class (wiring_of self.now) other kind ≡ Some class
            → other ≡ task) }
        ensures none { IfNone result ((task kind : ℕ)
            → births_class (wiring_of self.now) task kind ≡ Some class
            → ⊥) }
    {
        let first = self.ports() + self.tasks();
        let number = class.0.checked_sub(first)?;
        let row = self.births().get(number as usize)?;
        Some(TaskId(u32::from(row.task)))
    }

    /// What births of this number accept.
    fn births_label(&self, number: usize) -> &[LabelItem]
        ensures { result.now ≡ get_or (map of_row self.now.births) number [] }
    {
        match self.births().get(number) {
            Some(row) => row.label(),
            None => &[],
        }
    }

    /// What a class accepts; nothing if there is no class of the number.
    pub fn label(&self, class: ClassId) -> &[LabelItem]
        ensures { result.now ≡ label (wiring_of self.now) class }
    {
        let ports = self.ports();
        let births = ports + self.tasks();
        if class.0 < ports {
            self.accepts[class.0 as usize].as_slice()
        } else if class.0 < births {
            &[]
        } else {
            self.births_label((class.0 - births) as usize)
        }
    }

    /// The classes that the type of this number admits, as a row of bits: those of its admit lines,
    /// or every class if no line is for it.
    #[tactic(auto, unfolding(mrc_model::specs::Wiring::admits))]
    pub fn admitting(&self, sort: usize) -> &[u64]
        ensures exact { (c : ℕ) → is_set result.now c ≡ admits (wiring_of self.now) sort c }
        ensures few { length result.now ≤ class_words }
    {
        self.admitting.row(sort)
    }

    /// Whether the type of this number admits the class, in constant time. A type without admit
    /// lines admits every class; no type admits what is no class.
    pub fn admits(&self, sort: usize, class: ClassId) -> bool
        ensures { result ≡ admits (wiring_of self.now) sort class }
    {
        has_bit(self.admitting(sort), class.0 as usize)
    }

    /// The row of what lines of the verb name for tasks of this class, a part for each right. It
    /// has no words if there is no such line.
    fn trusting_row(&self, verb: Verb, task: TaskId) -> &[u64]
        ensures limited { nat_lt 0 (length result.now)
            ≡ is_limited (wiring_of self.now) verb task }
        ensures wide { 0 < length result.now → length result.now ≡ right_words }
        ensures named { (right : PortRight) (c : ℕ) →
            (nat_lt c limit_of_classes && is_set result.now (right_place right c))
            ≡ list_any (trusts_by verb task right c) (wiring_of self.now).trusted }
    {
        words_at(self.trusting.as_slice(), trust_row(verb, task.0))
    }

    /// The classes on whose ports tasks of this class may use the verb with the right, as a row of
    /// bits; none if no line limits them in the verb.
    #[tactic(auto, unfolding(mrc_model::specs::Wiring::may))]
    pub fn trusted(&self, verb: Verb, task: TaskId, right: PortRight) -> Option<&[u64]>
        ensures none { IfNone result (is_limited (wiring_of self.now) verb task ≡ false) }
        ensures limited { IfSome result (λ row.
            is_limited (wiring_of self.now) verb task ≡ true) }
        ensures some { IfSome result (λ row. (c : ℕ) →
            is_set row.now c ≡ may (wiring_of self.now) verb task right c) }
        ensures few { IfSome result (λ row. length row.now ≤ class_words) }
    {
        let row = self.trusting_row(verb, task);
        if row.is_empty() {
            return None;
        }
        Some(right_part(row, right))
    }

    /// Whether a line limits what tasks of this class may do by the verb.
    pub fn is_limited(&self, verb: Verb, task: TaskId) -> bool
        ensures { result ≡ is_limited (wiring_of self.now) verb task }
    {
        !self.trusting_row(verb, task).is_empty()
    }

    /// Whether tasks of this class may use the verb with the right on ports of a class.
    #[tactic(auto, unfolding(mrc_model::specs::Wiring::may))]
    pub fn may(&self, verb: Verb, task: TaskId, right: PortRight, class: ClassId) -> bool
        ensures { result ≡ may (wiring_of self.now) verb task right class }
    {
        match self.trusted(verb, task, right) {
            Some(row) => has_bit(row, class.0 as usize),
            None => true,
        }
    }

    /// The lines about trusted tasks, in their order.
    pub fn trusts(&self) -> &[TrustedLine]
        ensures { result.now ≡ self.now.trusts }
    {
        self.trusts.as_slice()
    }

    /// Whether reply ports have to fit.
    pub fn replies_fit(&self) -> bool
        ensures { result ≡ (wiring_of self.now).replies_fit }
    {
        self.fits
    }

    /// The interfaces, in the order of their numbers.
    pub fn interfaces(&self) -> &[Interface]
        ensures { result.now ≡ self.now.interfaces }
    {
        self.interfaces.as_slice()
    }

    /// The interface of a number.
    pub fn interface(&self, number: usize) -> Option<&Interface>
        ensures { option_map (λ interface. interface.now) result
            ≡ slice_get self.now.interfaces number }
    {
        self.interfaces().get(number)
    }

    /// The form of this message at each id of the interface of this number.
    pub(crate) fn forms(&self, kind: MessageKind, number: usize) -> &[Option<TypedForm>]
        ensures exact { result.now ≡ typed_at kind self.now.interfaces number }
        ensures those { flat_map option_to_list result.now
            ≡ message_forms kind (wiring_of self.now) number }
    {
        forms_at(self.interfaces.typed(kind), number)
    }

    /// The interfaces by themselves, with the numbers of types.
    pub fn into_interfaces(self) -> Interfaces
        ensures { result ≡ self.interfaces }
    {
        let Wired { interfaces, .. } = self;
        interfaces
    }

    /// The name of a task.
    pub fn task_name(&self, task: TaskId) -> Option<&str>
        ensures { option_map (λ name. name.now) result ≡ slice_get self.now.names task }
    {
        self.names.name(task.0 as usize)
    }

    /// The task of a name.
    pub fn task_named(&self, name: &str) -> Option<TaskId>
        ensures exact { result ≡ number_of self.now.names name.now }
        ensures within { IfSome result (λ task. task < length self.now.names) }
        ensures kept { IsTable self.now }
    {
        let number = self.names.number_of(name)?;
        Some(TaskId(number as u32))
    }

    /// The name of a class.
    pub fn class_name(&self, class: ClassId) -> Option<ClassLabel<'_>>
        ensures { option_map shown_label result ≡ class_label self.now class }
    {
        let ports = self.ports();
        let births = ports + self.tasks();
        if class.0 < ports {
            let name = self.ports.name(class.0 as usize)?;
            Some(ClassLabel {
                kind: ClassKind::Port,
                name,
            })
        } else if class.0 < births {
            let name = self.names.name((class.0 - ports) as usize)?;
            Some(ClassLabel {
                kind: ClassKind::Task,
                name,
            })
        } else {
            let row = self.births().get((class.0 - births) as usize)?;
            let name = self.names.name(row.task as usize)?;
            Some(ClassLabel {
                kind: ClassKind::Births(row.kind),
                name,
            })
        }
    }

    /// The class of births as it is printed: `U` or `U:K`.
    fn births_named(&self, text: &str) -> Option<ClassId>
        ensures { result ≡ births_named self.now text.now }
    {
        let (name, kind) = match text.split_once(':') {
            Some((name, kind)) => (name, kind_named(kind)?),
            None => (text, 0),
        };
        let task = self.names.number_of(name)?;
        self.births_class(TaskId(task as u32), u32::from(kind))
    }

    /// The class of a name as it is printed: `port:P`, `task:U`, `births:U` of kind 0, or
    /// `births:U:K` of another kind K.
    #[tactic(auto, unfolding(crate::specs::Names::class_named))]
    pub fn class_named(&self, text: &str) -> Option<ClassId>
        ensures { result ≡ class_named self.now text.now }
    {
        if let Some(name) = text.strip_prefix("port:") {
            let number = self.ports.number_of(name)?;
            Some(ClassId(number as u16))
        } else if let Some(name) = text.strip_prefix("task:") {
            let number = self.names.number_of(name)?;
            Some(ClassId(self.ports() + number as u16))
        } else if let Some(name) = text.strip_prefix("births:") {
            self.births_named(name)
        } else {
            None
        }
    }

    /// The class of a name in a line.
    pub(crate) fn class_said(&self, class: &ClassName) -> Option<ClassId>
        ensures { result ≡ class_number self.now class.now }
    {
        let _births = self.birth_classes();
        let ports = usize::from(self.ports());
        let tasks = usize::from(self.tasks());
        let said = class_said(&self.names, &self.ports, self.births(), class)?;
        let class = class_of(ports, tasks, self.births(), said)?;
        Some(ClassId(class as u16))
    }

    /// What it has by numbers, computed again.
    fn by_numbers(&self, alloc: Global) -> Result<ByNumbers, AllocError>
        ensures admitting { IfOk result (λ numbered. IsAdmitting (length self.now.ports)
            (length self.now.names) self.now.births self.now.admits
            numbered.admitting.rows.items numbered.admitting.every.items) }
        ensures trusting { IfOk result (λ numbered. IsTrusting (length self.now.ports)
            (length self.now.names) self.now.births self.now.trusts
            numbered.trusting.items) }
        ensures classes { IfOk result (λ numbered. numbered.first_classes.items
            ≡ given_classes (wiring_of self.now)) }
    {
        Ok(ByNumbers {
            admitting: Admitting::of(
                alloc,
                self.ports.len(),
                self.names.len(),
                self.births(),
                &self.admits,
            )?,
            trusting: trusting(
                alloc,
                self.ports.len(),
                self.names.len(),
                self.births(),
                &self.trusts,
            )?,
            first_classes: self.first_classes().to_vec(alloc)?,
        })
    }

    /// A copy of its tasks and ports.
    fn declared(&self, alloc: Global) -> Result<Declared, AllocError>
        ensures names { IfOk result (λ copy. copy.names ≡ self.now.names) }
        ensures births { IfOk result (λ copy. copy.births.items ≡ self.now.births) }
        ensures ports { IfOk result (λ copy. copy.ports ≡ self.now.ports) }
        ensures accepts { IfOk result (λ copy. copy.accepts.items ≡ self.now.accepts) }
    {
        Ok(Declared {
            names: self.names.copy(alloc)?,
            births: copy_all(alloc, &self.births)?,
            ports: self.ports.copy(alloc)?,
            accepts: copy_all(alloc, &self.accepts)?,
        })
    }

    /// A copy of its other lines.
    fn given(&self, alloc: Global) -> Result<Given, AllocError>
        ensures lines { IfOk result (λ copy. copy.lines.items ≡ self.now.lines) }
        ensures admits { IfOk result (λ copy. copy.admits.items ≡ self.now.admits) }
        ensures trusts { IfOk result (λ copy. copy.trusts.items ≡ self.now.trusts) }
    {
        Ok(Given {
            lines: copy_all(alloc, &self.lines)?,
            admits: copy_all(alloc, &self.admits)?,
            trusts: copy_all(alloc, &self.trusts)?,
        })
    }

    /// An equal wiring.
    pub fn copy(&self, alloc: Global) -> Result<Wired, AllocError>
        ensures { IfOk result (λ copy. copy ≡ self.now) }
    {
        let interfaces = self.interfaces.copy(alloc)?;
        let by_numbers = self.by_numbers(alloc)?;
        let declared = self.declared(alloc)?;
        let given = self.given(alloc)?;
        Ok(Wired {
            names: declared.names,
            births: declared.births,
            ports: declared.ports,
            accepts: declared.accepts,
            lines: given.lines,
            admits: given.admits,
            trusts: given.trusts,
            fits: self.fits,
            interfaces,
            admitting: by_numbers.admitting,
            trusting: by_numbers.trusting,
            first_classes: by_numbers.first_classes,
        })
    }

    /// Whether the wirings are equal.
    pub fn same(&self, other: &Wired) -> bool
        ensures { IsTrue result ↔ (self.now ≡ other.now) }
    {
        self.names.same(&other.names)
            && same_all(&self.births, &other.births)
            && self.ports.same(&other.ports)
            && same_all(&self.accepts, &other.accepts)
            && same_all(&self.lines, &other.lines)
            && same_all(&self.admits, &other.admits)
            && same_all(&self.trusts, &other.trusts)
            && self.fits == other.fits
            && self.interfaces.same(&other.interfaces)
    }
}
