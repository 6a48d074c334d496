//! The types of port arguments, by numbers.

ghost use Rattle.std.specs.Prelude.{◌≡◌, ◌++◌, ◌∷◌, [], length, map, position, IfOk, OnOk};
ghost use Rattle.std.specs.Option.{option_map};
ghost use Rattle.mrc_wiring.specs.Sorts.{is_sort, form_slots, slot_sort, interface_sorts};
ghost use Rattle.mrc_wiring.specs.Sorts.{sorts_of};
ghost use Rattle.mrc_wiring.specs.SortPlaces.{AreBelow, IsFirsts};

use mrc_forms::{Form, Interface, MessageKind};
use std::alloc::{AllocError, Global};
use std::collections::BTreeMap;
use std::marker::Model;

/// A type of a port argument: the number of its interface, and its name.
#[derive(Debug, Drop)]
pub(crate) struct Sort {
    interface: usize,
    type_name: String,
}

impl Model for Sort {
    ghost use Rattle.std.specs.Prelude.{string_bytes};
    ghost use Rattle.mrc_wiring.specs.Sorts as definitions;

    ghost Value = { definitions.Sort };

    ghost view = { λ s. record {
      interface = s.interface;
      type_name = string_bytes s.type_name;
    } };
}

/// The types of all port arguments, in order, one for each argument. The first place of a type is
/// found by its name in a map of its interface.
#[derive(Debug, Drop)]
pub(crate) struct Sorts {
    sorts: Vec<Sort>,
    firsts: Vec<BTreeMap<String, usize>>,
}

impl Model for Sorts {
    ghost use Rattle.std.specs.Prelude.{List};
    ghost use Rattle.mrc_wiring.specs.Sorts as definitions;
    ghost use Rattle.mrc_wiring.specs.SortPlaces.{HasFirsts};

    ghost Value = { List definitions.Sort };

    ghost view = { λ s. s.sorts.items };

    ghost invariant = { λ s. HasFirsts s.sorts.items s.firsts.items };
}

impl Sorts {
    /// How many there are.
    pub(crate) fn len(&self) -> usize
        ensures { result ≡ length self.now }
    {
        self.sorts.len()
    }

    /// The first place of a type.
    pub(crate) fn place(&self, interface: usize, type_name: &str) -> Option<usize>
        ensures { result ≡ position (is_sort interface type_name.now) self.now }
    {
        self.firsts.get(interface)?.get(type_name).copied()
    }
}

/// Adds a type of the interface of this number.
fn add_sort(
    alloc: Global,
    sorts: &mut Vec<Sort>,
    firsts: &mut BTreeMap<String, usize>,
    interface: usize,
    type_name: &str,
) -> Result<(), AllocError>
    requires { IsFirsts interface sorts.old.items firsts.old }
    ensures added { OnOk result (sorts.new.items ≡ sorts.old.items
        ++ record { interface = interface; type_name = type_name.now } ∷ []) }
    ensures kept { OnOk result (IsFirsts interface sorts.new.items firsts.new) }
{
    if firsts.get(type_name).is_none() {
        let _ = firsts.insert(String::from_str(alloc, type_name)?, sorts.len())?;
    }
    sorts.push(Sort {
        interface,
        type_name: String::from_str(alloc, type_name)?,
    })?;
    Ok(())
}

/// Adds the types of a form's port arguments, if there is a form.
fn add_form(
    alloc: Global,
    sorts: &mut Vec<Sort>,
    firsts: &mut BTreeMap<String, usize>,
    interface: usize,
    form: Option<&Form>,
) -> Result<(), AllocError>
    requires { IsFirsts interface sorts.old.items firsts.old }
    ensures added { OnOk result (sorts.new.items ≡ sorts.old.items
        ++ map (slot_sort interface) (form_slots (option_map (λ form. form.now) form.entry))) }
    ensures kept { OnOk result (IsFirsts interface sorts.new.items firsts.new) }
{
    let Some(form) = form else {
        return Ok(());
    };
    for slot in form.slots() {
        add_sort(alloc, sorts, firsts, interface, slot.type_name.as_str())?;
    }
    Ok(())
}

/// Adds the types of an interface's port arguments, when no type is of the interface yet. Returns
/// the first place of each.
fn add_interface(
    alloc: Global,
    sorts: &mut Vec<Sort>,
    number: usize,
    interface: &Interface,
) -> Result<BTreeMap<String, usize>, AllocError>
    requires { AreBelow number sorts.old.items }
    ensures added { OnOk result (sorts.new.items
        ≡ sorts.old.items ++ interface_sorts number interface.now) }
    ensures firsts { IfOk result (λ firsts. IsFirsts number sorts.new.items firsts) }
{
    let mut firsts = BTreeMap::new(alloc);
    for row in interface.rows() {
        add_form(
            alloc,
            sorts,
            &mut firsts,
            number,
            row.form(MessageKind::Request),
        )?;
        add_form(
            alloc,
            sorts,
            &mut firsts,
            number,
            row.form(MessageKind::Reply),
        )?;
    }
    Ok(firsts)
}

/// The types of all port arguments, in order.
pub(crate) fn sorts_of(alloc: Global, interfaces: &[Interface]) -> Result<Sorts, AllocError>
    ensures { IfOk result (λ sorts. sorts ≡ sorts_of interfaces.now) }
{
    let mut sorts = Vec::new(alloc);
    let mut firsts = Vec::new(alloc);
    for (number, interface) in interfaces.iter().enumerate() {
        firsts.push(add_interface(alloc, &mut sorts, number, interface)?)?;
    }
    Ok(Sorts { sorts, firsts })
}
