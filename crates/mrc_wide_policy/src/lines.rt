//! The lines of a policy of version 3.

ghost use Rattle.std.specs.Prelude.{◌≡◌, map, IfOk};
ghost use Rattle.mrc_wide_policy.specs.PolicyLines.{product_named, rights_and_classes, product_of};
ghost use Rattle.mrc_wide_policy.specs.PolicyLines.{has_any, unless_any, expected_class};
ghost use Rattle.mrc_wide_policy.specs.PolicyLines.{expected_rights, expected_of, name_in_front};
ghost use Rattle.mrc_wide_policy.specs.PolicyLines.{behind_name, group_named, group_says};
ghost use Rattle.mrc_wide_policy.specs.PolicyLines.{set_named, set_says, forbid_says, expect_says};
ghost use Rattle.mrc_wide_policy.specs.PolicyLines.{waive_named, last_word, but_last};
ghost use Rattle.mrc_wide_policy.specs.PolicyLines.{waived_product, waive_says, policy_says};

use crate::quotes::Quoted;
use crate::says::{PolicySays, Product};
use mrc_base::PortRight;
use mrc_stand_for::{Kinds, Several, Tasks, WideClass};
use mrc_wide_text::{
    FixedClass, HeldClass, Part, RightWord, free_name, list_and_rest, rights_of, separated,
    tasks_and_rest, tasks_of,
};
use mrc_wiring_text::{Name, is_word};
use std::alloc::{AllocError, Global};

fn product_named(
    tasks: Option<Tasks>,
    rights: Option<Several<PortRight>>,
    classes: Option<Several<WideClass>>,
) -> Option<Product>
    ensures { result ≡ product_named tasks rights classes }
{
    match (tasks, rights, classes) {
        (Some(tasks), Some(rights), Some(classes)) => {
            Some(Product {
                tasks,
                rights,
                classes,
            })
        }
        _ => None,
    }
}

/// RIGHTS CLASSES behind TASKS.
fn rights_and_classes(
    alloc: Global,
    tasks: Option<Tasks>,
    words: &[&[u8]],
) -> Result<Option<Product>, AllocError>
    ensures { IfOk result (λ product. product ≡ rights_and_classes tasks
        (map (λ word. word.now) words.now)) }
{
    let (rights, rest) = list_and_rest(words);
    let rights = rights_of(alloc, rights)?;
    let classes = separated::<HeldClass>(alloc, rest)?;
    Ok(product_named(tasks, rights, classes))
}

/// TASKS RIGHTS CLASSES.
fn product_of(alloc: Global, words: &[&[u8]]) -> Result<Option<Product>, AllocError>
    ensures { IfOk result (λ product. product ≡ product_of (map (λ word. word.now) words.now)) }
{
    let (tasks, rest) = tasks_and_rest(words);
    let tasks = tasks_of(alloc, tasks)?;
    rights_and_classes(alloc, tasks, rest)
}

/// Reads CLASS in a line that expects.
struct ExpectedClass;

fn has_any(class: &WideClass) -> bool
    ensures { result ≡ has_any class.now }
{
    match class {
        WideClass::Births { whom: _, kinds } => match kinds {
            Kinds::Any => true,
            Kinds::One(_) => false,
        },
        WideClass::Port(_) | WideClass::Task(_) | WideClass::Set(_) => false,
    }
}

fn unless_any(class: Option<WideClass>) -> Option<WideClass>
    ensures { result ≡ unless_any class }
{
    match class {
        Some(class) => {
            if has_any(&class) {
                drop(class);
                None
            } else {
                Some(class)
            }
        }
        None => None,
    }
}

impl Part for ExpectedClass {
    type Item = WideClass;

    ghost meaning = { expected_class };

    fn read(alloc: Global, words: &[&[u8]]) -> Result<Option<WideClass>, AllocError> {
        Ok(unless_any(HeldClass::read(alloc, words)?))
    }
}

/// RIGHTS CLASSES behind TASKS, in a line that expects.
fn expected_rights(
    alloc: Global,
    tasks: Option<Tasks>,
    words: &[&[u8]],
) -> Result<Option<Product>, AllocError>
    ensures { IfOk result (λ product. product ≡ expected_rights tasks
        (map (λ word. word.now) words.now)) }
{
    let (rights, rest) = list_and_rest(words);
    let rights = separated::<RightWord>(alloc, rights)?;
    let classes = separated::<ExpectedClass>(alloc, rest)?;
    Ok(product_named(tasks, rights, classes))
}

/// TASKS RIGHTS CLASSES in a line that expects.
fn expected_of(alloc: Global, words: &[&[u8]]) -> Result<Option<Product>, AllocError>
    ensures { IfOk result (λ product. product ≡ expected_of (map (λ word. word.now) words.now)) }
{
    let (tasks, rest) = tasks_and_rest(words);
    let tasks = tasks_of(alloc, tasks)?;
    expected_rights(alloc, tasks, rest)
}

/// The NAME with which words begin.
#[tactic(auto, unfolding(crate::specs::PolicyLines::name_in_front))]
fn name_in_front(alloc: Global, words: &[&[u8]]) -> Result<Option<Quoted>, AllocError>
    ensures { IfOk result (λ name. name ≡ name_in_front (map (λ word. word.now) words.now)) }
{
    match words {
        [word, ..] => Quoted::new(alloc, *word),
        [] => Ok(None),
    }
}

/// The words behind a NAME, if it is there.
fn behind_name<'a>(name: &Option<Quoted>, words: &'a [&'a [u8]]) -> &'a [&'a [u8]]
    ensures { map (λ word. word.now) result.now ≡
        behind_name name.now (map (λ word. word.now) words.now) }
{
    match words {
        [_, rest @ ..] if name.is_some() => rest,
        _ => words,
    }
}

fn group_named(group: Option<Name>, tasks: Option<Tasks>) -> Option<PolicySays>
    ensures { result ≡ group_named group tasks }
{
    match (group, tasks) {
        (Some(group), Some(tasks)) => Some(PolicySays::Group { group, tasks }),
        _ => None,
    }
}

/// `group G TASKS`, after its first word.
#[tactic(auto, unfolding(crate::specs::PolicyLines::group_says))]
fn group_says(alloc: Global, words: &[&[u8]]) -> Result<Option<PolicySays>, AllocError>
    ensures { IfOk result (λ says. says ≡ group_says (map (λ word. word.now) words.now)) }
{
    match words {
        [group, tasks @ ..] => {
            let group = free_name(alloc, *group)?;
            let tasks = tasks_of(alloc, tasks)?;
            Ok(group_named(group, tasks))
        }
        [] => Ok(None),
    }
}

fn set_named(set: Option<Name>, classes: Option<Several<WideClass>>) -> Option<PolicySays>
    ensures { result ≡ set_named set classes }
{
    match (set, classes) {
        (Some(set), Some(classes)) => Some(PolicySays::Set { set, classes }),
        _ => None,
    }
}

/// `set S CLASSES`, after its first word.
#[tactic(auto, unfolding(crate::specs::PolicyLines::set_says))]
fn set_says(alloc: Global, words: &[&[u8]]) -> Result<Option<PolicySays>, AllocError>
    ensures { IfOk result (λ says. says ≡ set_says (map (λ word. word.now) words.now)) }
{
    match words {
        [set, classes @ ..] => {
            let set = free_name(alloc, *set)?;
            let classes = separated::<FixedClass>(alloc, classes)?;
            Ok(set_named(set, classes))
        }
        [] => Ok(None),
    }
}

/// `forbid TASKS RIGHTS CLASSES` and the same behind "NAME", after the first word.
fn forbid_says(alloc: Global, words: &[&[u8]]) -> Result<Option<PolicySays>, AllocError>
    ensures { IfOk result (λ says. says ≡ forbid_says (map (λ word. word.now) words.now)) }
{
    let name = name_in_front(alloc, words)?;
    match product_of(alloc, behind_name(&name, words))? {
        Some(product) => Ok(Some(PolicySays::Forbid { name, product })),
        None => Ok(None),
    }
}

/// `expect TASKS RIGHTS CLASSES` and the same behind "NAME", after the first word.
fn expect_says(alloc: Global, words: &[&[u8]]) -> Result<Option<PolicySays>, AllocError>
    ensures { IfOk result (λ says. says ≡ expect_says (map (λ word. word.now) words.now)) }
{
    let name = name_in_front(alloc, words)?;
    match expected_of(alloc, behind_name(&name, words))? {
        Some(product) => Ok(Some(PolicySays::Expect { name, product })),
        None => Ok(None),
    }
}

fn waive_named(
    name: Option<Quoted>,
    product: Option<Option<Product>>,
    because: Option<Quoted>,
) -> Option<PolicySays>
    ensures { result ≡ waive_named name product because }
{
    match (name, product, because) {
        (Some(name), Some(product), Some(because)) => {
            Some(PolicySays::Waive {
                name,
                product,
                because,
            })
        }
        _ => None,
    }
}

/// The last of the words.
fn last_word<'a>(words: &'a [&'a [u8]]) -> &'a [u8]
    ensures { result.now ≡ last_word (map (λ word. word.now) words.now) }
{
    if words.is_empty() {
        return &[];
    }
    words[words.len() - 1]
}

/// The words in front of the last.
fn but_last<'a>(words: &'a [&'a [u8]]) -> &'a [&'a [u8]]
    ensures { map (λ word. word.now) result.now ≡ but_last (map (λ word. word.now) words.now) }
{
    &words[..words.len().saturating_sub(1)]
}

/// The product of a waiver whose words it is.
#[tactic(auto, unfolding(crate::specs::PolicyLines::waived_product))]
fn waived_product(alloc: Global, words: &[&[u8]]) -> Result<Option<Option<Product>>, AllocError>
    ensures { IfOk result (λ product. product ≡ waived_product (map (λ word. word.now) words.now)) }
{
    if words.is_empty() {
        return Ok(Some(None));
    }
    Ok(product_of(alloc, words)?.map(|product| Some(product)))
}

/// `waive "NAME" "WORDS"` and `waive "NAME" TASKS RIGHTS CLASSES "WORDS"`, after the first word.
#[tactic(auto, unfolding(crate::specs::PolicyLines::waive_says))]
fn waive_says(alloc: Global, words: &[&[u8]]) -> Result<Option<PolicySays>, AllocError>
    ensures { IfOk result (λ says. says ≡ waive_says (map (λ word. word.now) words.now)) }
{
    match words {
        [name, words @ ..] => {
            let name = Quoted::new(alloc, *name)?;
            let product = waived_product(alloc, but_last(words))?;
            let because = Quoted::new(alloc, last_word(words))?;
            Ok(waive_named(name, product, because))
        }
        [] => Ok(None),
    }
}

/// What the words of a line say, by the first of them.
#[tactic(auto, unfolding(crate::specs::PolicyLines::policy_says))]
pub(crate) fn policy_says(alloc: Global, words: &[&[u8]]) -> Result<Option<PolicySays>, AllocError>
    ensures { IfOk result (λ says. says ≡ policy_says (map (λ word. word.now) words.now)) }
{
    match words {
        [key, words @ ..] if is_word(*key, "group") => group_says(alloc, words),
        [key, words @ ..] if is_word(*key, "set") => set_says(alloc, words),
        [key, words @ ..] if is_word(*key, "forbid") => forbid_says(alloc, words),
        [key, words @ ..] if is_word(*key, "expect") => expect_says(alloc, words),
        [key, words @ ..] if is_word(*key, "waive") => waive_says(alloc, words),
        _ => Ok(None),
    }
}
