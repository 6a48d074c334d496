//! The right and the fact that a text names.

ghost use Rattle.std.specs.Prelude.{◌≡◌, IfSome};
ghost use Rattle.std.specs.Option.{option_map};
ghost use Rattle.mrc_base.specs.declared.Fact.{Fact};
ghost use Rattle.mrc_base.specs.declared.PortRight.{PortRight};
ghost use Rattle.mrc_model.specs.Rules.{InRange};
ghost use Rattle.mrc_wiring.specs.Table.{wiring_of};
ghost use Rattle.mrc_words.specs.Words.{right_word, fact_text};
ghost use Rattle.mrc_words.specs.Reading.{cut, right_named, hold_named, carry_named, backup_named};
ghost use Rattle.mrc_words.specs.Reading.{fact_named};

use mrc_base::{Fact, PortRight};
use mrc_wiring::Wired;

/// The word before the first blank, and what stands after the blank.
fn cut(text: &str) -> Option<(&str, &str)>
    ensures { option_map (λ parts. (parts.0.now, parts.1.now)) result ≡ cut text.now }
{
    text.split_once(' ')
}

/// The right of a word: `send`, `receive` or `once`.
pub fn right_named(word: &str) -> Option<PortRight>
    ensures value { result ≡ right_named word.now }
    // What is found has that word.
    ensures found { IfSome result (λ right. right_word right ≡ word.now) }
    // The right that has the word is found.
    ensures only { (right : PortRight) → right_word right ≡ word.now → result ≡ Some right }
{
    match word {
        "send" => Some(PortRight::Send),
        "receive" => Some(PortRight::Receive),
        "once" => Some(PortRight::SendOnce),
        _ => None,
    }
}

fn hold_named(wired: &Wired, text: &str) -> Option<Fact>
    ensures { result ≡ hold_named wired.now text.now }
{
    let (task, rest) = cut(text)?;
    let (class, right) = cut(rest)?;
    let task = wired.task_named(task)?;
    let class = wired.class_named(class)?;
    let right = right_named(right)?;
    Some(Fact::Hold {
        task: task.0 as u16,
        class,
        right,
    })
}

fn carry_named(wired: &Wired, text: &str) -> Option<Fact>
    ensures { result ≡ carry_named wired.now text.now }
{
    let (destination, rest) = cut(text)?;
    let (class, right) = cut(rest)?;
    let destination = wired.class_named(destination)?;
    let class = wired.class_named(class)?;
    let right = right_named(right)?;
    Some(Fact::Carry {
        destination,
        class,
        right,
    })
}

fn backup_named(wired: &Wired, text: &str) -> Option<Fact>
    ensures { result ≡ backup_named wired.now text.now }
{
    let (class, notify) = cut(text)?;
    let class = wired.class_named(class)?;
    let notify = wired.class_named(notify)?;
    Some(Fact::Backup { class, notify })
}

fn named(wired: &Wired, text: &str) -> Option<Fact>
    ensures { result ≡ fact_named wired.now text.now }
{
    let (kind, rest) = cut(text)?;
    match kind {
        "hold" => hold_named(wired, rest),
        "carry" => carry_named(wired, rest),
        "backup" => backup_named(wired, rest),
        _ => None,
    }
}

/// The fact of the wiring's tasks and classes that a text names: exactly the printed form, with
/// single blanks.
pub fn fact_named(wired: &Wired, text: &str) -> Option<Fact>
    // What is found is in range, and prints as the text.
    ensures found { IfSome result (λ fact. InRange (wiring_of wired.now) fact
        × (fact_text wired.now fact ≡ text.now)) }
    // A fact in range that prints as the text is found.
    ensures only { (fact : Fact) → InRange (wiring_of wired.now) fact
        → fact_text wired.now fact ≡ text.now → result ≡ Some fact }
{
    let _tasks = wired.tasks();
    let _ports = wired.ports();
    let _births = wired.birth_classes();
    named(wired, text)
}
