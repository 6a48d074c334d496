//! What stands between two commas: names, classes, places, slots, rights and verbs.

ghost use Rattle.std.specs.Prelude.{◌≡◌, Some, map, IfOk};
ghost use Rattle.mrc_wiring_text.specs.Names.{name_of};
ghost use Rattle.mrc_wiring_text.specs.Policy.{right_of};
ghost use Rattle.mrc_wiring_text.specs.Wiring.{verb_of};
ghost use Rattle.mrc_stand_for.specs.declared.wide.Kinds.TheVariants as kinds;
ghost use Rattle.mrc_wide_text.specs.WideWords.{free_name, one, whom_word, all_but_who, whom_of};
ghost use Rattle.mrc_wide_text.specs.WideWords.{kinds_word, births_named, births_class};
ghost use Rattle.mrc_wide_text.specs.WideWords.{keyed_class, class_of, is_other, has_other};
ghost use Rattle.mrc_wide_text.specs.WideWords.{unless_other, fixed_class, keyed_place, place_of};
ghost use Rattle.mrc_wide_text.specs.WideWords.{port_of, slot_named, slot_word, right_verb};

use crate::lists::Part;
use crate::words::{free_name, right_verb};
use mrc_base::PortRight;
use mrc_stand_for::{Kinds, Place, RightVerb, SlotName, Whom, WideClass};
use mrc_wiring_text::{Kind, Name, TrustVerb, around_dot, is_word, kind_of, right_of, verb_of};
use std::alloc::{AllocError, Global};

/// Reads the name of a task or a group.
pub(crate) struct TaskName;

/// Reads the name of a subsystem.
pub(crate) struct AnyName;

/// Reads `port P`.
pub(crate) struct PortName;

/// Reads CLASS.
pub struct HeldClass;

/// Reads CLASS in a line without a holder.
pub struct FixedClass;

/// Reads PLACE.
pub(crate) struct SendPlace;

/// Reads SLOT.
pub(crate) struct SlotWord;

/// Reads a right.
pub struct RightWord;

/// Reads a verb that goes with rights.
pub(crate) struct RightVerbWord;

/// Reads a verb.
pub(crate) struct VerbWord;

/// A name alone.
fn one_name(alloc: Global, words: &[&[u8]]) -> Result<Option<Name>, AllocError>
    ensures { IfOk result (λ name. name ≡ one name_of (map (λ word. word.now) words.now)) }
{
    match *words {
        [word] => Name::new(alloc, word),
        _ => Ok(None),
    }
}

impl Part for TaskName {
    type Item = Name;

    ghost meaning = { one free_name };

    fn read(alloc: Global, words: &[&[u8]]) -> Result<Option<Name>, AllocError> {
        match *words {
            [word] => free_name(alloc, word),
            _ => Ok(None),
        }
    }
}

impl Part for AnyName {
    type Item = Name;

    ghost meaning = { one name_of };

    fn read(alloc: Global, words: &[&[u8]]) -> Result<Option<Name>, AllocError> {
        one_name(alloc, words)
    }
}

impl Part for PortName {
    type Item = Name;

    ghost meaning = { port_of };

    #[tactic(auto, unfolding(crate::specs::WideWords::port_of))]
    fn read(alloc: Global, words: &[&[u8]]) -> Result<Option<Name>, AllocError> {
        match *words {
            [key, port] if is_word(key, "port") => Name::new(alloc, port),
            _ => Ok(None),
        }
    }
}

/// WHOM of one word.
#[tactic(auto, unfolding(crate::specs::WideWords::whom_word))]
fn whom_word(alloc: Global, word: &[u8]) -> Result<Option<Whom>, AllocError>
    ensures { IfOk result (λ whom. whom ≡ whom_word word.now) }
{
    if is_word(word, "other") {
        Ok(Some(Whom::Other))
    } else if is_word(word, "all") {
        Ok(Some(Whom::All))
    } else {
        Ok(free_name(alloc, word)?.map(|name| Whom::Who(name)))
    }
}

/// WHOM of three words.
#[tactic(auto, unfolding(crate::specs::WideWords::all_but_who))]
fn all_but_who(
    alloc: Global,
    all: &[u8],
    but: &[u8],
    who: &[u8],
) -> Result<Option<Whom>, AllocError>
    ensures { IfOk result (λ whom. whom ≡ all_but_who all.now but.now who.now) }
{
    if is_word(all, "all") && is_word(but, "but") {
        Ok(free_name(alloc, who)?.map(|name| Whom::AllBut(name)))
    } else {
        Ok(None)
    }
}

/// WHOM.
#[tactic(auto, unfolding(crate::specs::WideWords::whom_of))]
fn whom_of(alloc: Global, words: &[&[u8]]) -> Result<Option<Whom>, AllocError>
    ensures { IfOk result (λ whom. whom ≡ whom_of (map (λ word. word.now) words.now)) }
{
    match *words {
        [word] => whom_word(alloc, word),
        [all, but, who] => all_but_who(alloc, all, but, who),
        _ => Ok(None),
    }
}

/// Which births.
#[tactic(auto, unfolding(crate::specs::WideWords::kinds_word))]
fn kinds_word(word: &[u8]) -> Option<Kinds>
    ensures { result ≡ kinds_word word.now }
{
    if is_word(word, "any") {
        Some(Kinds::Any)
    } else {
        kind_of(word).map(|kind| Kinds::One(kind))
    }
}

fn births_named(whom: Option<Whom>, kinds: Option<Kinds>) -> Option<WideClass>
    ensures { result ≡ births_named whom kinds }
{
    match (whom, kinds) {
        (Some(whom), Some(kinds)) => Some(WideClass::Births { whom, kinds }),
        _ => None,
    }
}

fn kind_0() -> Option<Kinds>
    ensures { result ≡ Some (kinds.One 0) }
{
    Kind::new(0).map(|kind| Kinds::One(kind))
}

/// Births, after the first word.
#[tactic(auto, unfolding(crate::specs::WideWords::births_class))]
fn births_class(alloc: Global, words: &[&[u8]]) -> Result<Option<WideClass>, AllocError>
    ensures { IfOk result (λ class. class ≡ births_class (map (λ word. word.now) words.now)) }
{
    match *words {
        [who] => Ok(births_named(whom_word(alloc, who)?, kind_0())),
        [who, kind] => Ok(births_named(whom_word(alloc, who)?, kinds_word(kind))),
        [all, but, who] => Ok(births_named(all_but_who(alloc, all, but, who)?, kind_0())),
        [all, but, who, kind] => {
            Ok(births_named(all_but_who(alloc, all, but, who)?, kinds_word(kind)))
        }
        _ => Ok(None),
    }
}

/// CLASS of several words.
#[tactic(auto, unfolding(crate::specs::WideWords::keyed_class))]
fn keyed_class(alloc: Global, key: &[u8], words: &[&[u8]]) -> Result<Option<WideClass>, AllocError>
    ensures { IfOk result (λ class. class ≡ keyed_class key.now
        (map (λ word. word.now) words.now)) }
{
    if is_word(key, "port") {
        Ok(one_name(alloc, words)?.map(|name| WideClass::Port(name)))
    } else if is_word(key, "task") {
        Ok(whom_of(alloc, words)?.map(|whom| WideClass::Task(whom)))
    } else if is_word(key, "births") {
        births_class(alloc, words)
    } else {
        Ok(None)
    }
}

/// CLASS.
#[tactic(auto, unfolding(crate::specs::WideWords::class_of))]
fn class_of(alloc: Global, words: &[&[u8]]) -> Result<Option<WideClass>, AllocError>
    ensures { IfOk result (λ class. class ≡ class_of (map (λ word. word.now) words.now)) }
{
    match words {
        [set] => Ok(free_name(alloc, *set)?.map(|name| WideClass::Set(name))),
        [key, words @ ..] => keyed_class(alloc, *key, words),
        [] => Ok(None),
    }
}

impl Part for HeldClass {
    type Item = WideClass;

    ghost meaning = { class_of };

    fn read(alloc: Global, words: &[&[u8]]) -> Result<Option<WideClass>, AllocError> {
        class_of(alloc, words)
    }
}

fn is_other(whom: &Whom) -> bool
    ensures { result ≡ is_other whom.now }
{
    match whom {
        Whom::Other => true,
        Whom::Who(_) | Whom::All | Whom::AllBut(_) => false,
    }
}

fn has_other(class: &WideClass) -> bool
    ensures { result ≡ has_other class.now }
{
    match class {
        WideClass::Task(whom) => is_other(whom),
        WideClass::Births { whom, kinds: _ } => is_other(whom),
        WideClass::Port(_) | WideClass::Set(_) => false,
    }
}

fn unless_other(class: Option<WideClass>) -> Option<WideClass>
    ensures { result ≡ unless_other class }
{
    match class {
        Some(class) => {
            if has_other(&class) {
                drop(class);
                None
            } else {
                Some(class)
            }
        }
        None => None,
    }
}

impl Part for FixedClass {
    type Item = WideClass;

    ghost meaning = { fixed_class };

    fn read(alloc: Global, words: &[&[u8]]) -> Result<Option<WideClass>, AllocError> {
        Ok(unless_other(class_of(alloc, words)?))
    }
}

/// PLACE, by the first of its words.
#[tactic(auto, unfolding(crate::specs::WideWords::keyed_place))]
fn keyed_place(alloc: Global, key: &[u8], words: &[&[u8]]) -> Result<Option<Place>, AllocError>
    ensures { IfOk result (λ place. place ≡ keyed_place key.now
        (map (λ word. word.now) words.now)) }
{
    if is_word(key, "port") {
        Ok(one_name(alloc, words)?.map(|name| Place::Port(name)))
    } else if is_word(key, "task") {
        Ok(whom_of(alloc, words)?.map(|whom| Place::Task(whom)))
    } else {
        Ok(None)
    }
}

impl Part for SendPlace {
    type Item = Place;

    ghost meaning = { place_of };

    #[tactic(auto, unfolding(crate::specs::WideWords::place_of))]
    fn read(alloc: Global, words: &[&[u8]]) -> Result<Option<Place>, AllocError> {
        match words {
            [key, words @ ..] => keyed_place(alloc, *key, words),
            [] => Ok(None),
        }
    }
}

fn slot_named(subsystem: Option<Name>, type_name: Option<Name>) -> Option<SlotName>
    ensures { result ≡ slot_named subsystem type_name }
{
    match (subsystem, type_name) {
        (Some(subsystem), Some(type_name)) => {
            Some(SlotName {
                subsystem,
                type_name,
            })
        }
        _ => None,
    }
}

/// SLOT.
#[tactic(auto, unfolding(crate::specs::WideWords::slot_word))]
fn slot_word(alloc: Global, word: &[u8]) -> Result<Option<SlotName>, AllocError>
    ensures { IfOk result (λ slot. slot ≡ slot_word word.now) }
{
    let (subsystem, type_name) = around_dot(word);
    let subsystem = Name::new(alloc, subsystem)?;
    let type_name = Name::new(alloc, type_name)?;
    Ok(slot_named(subsystem, type_name))
}

impl Part for SlotWord {
    type Item = SlotName;

    ghost meaning = { one slot_word };

    fn read(alloc: Global, words: &[&[u8]]) -> Result<Option<SlotName>, AllocError> {
        match *words {
            [word] => slot_word(alloc, word),
            _ => Ok(None),
        }
    }
}

impl Part for RightWord {
    type Item = PortRight;

    ghost meaning = { one right_of };

    fn read(_alloc: Global, words: &[&[u8]]) -> Result<Option<PortRight>, AllocError> {
        match *words {
            [word] => Ok(right_of(word)),
            _ => Ok(None),
        }
    }
}

impl Part for RightVerbWord {
    type Item = RightVerb;

    ghost meaning = { one right_verb };

    fn read(_alloc: Global, words: &[&[u8]]) -> Result<Option<RightVerb>, AllocError> {
        match *words {
            [word] => Ok(right_verb(word)),
            _ => Ok(None),
        }
    }
}

impl Part for VerbWord {
    type Item = TrustVerb;

    ghost meaning = { one verb_of };

    fn read(_alloc: Global, words: &[&[u8]]) -> Result<Option<TrustVerb>, AllocError> {
        match *words {
            [word] => Ok(verb_of(word)),
            _ => Ok(None),
        }
    }
}
