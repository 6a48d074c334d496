//! What is printed of attacks.

ghost use Rattle.std.specs.Prelude.{◌≡◌, IfOk, string_bytes};
ghost use Rattle.mrc_attack.specs.Attacks as definitions;
ghost use Rattle.mrc_attack.specs.Attacks.{line_words, aim_words, real_line, no_line, script_part};
ghost use Rattle.mrc_attack.specs.Attacks.{real_text, attack_text, cut_line};

use crate::aims::Aim;
use crate::attacking::Attack;
use mrc_why::forbidden_fact;
use mrc_wiring::Wired;
use mrc_words::fact_text;
use std::alloc::{AllocError, Global};

/// How an attack is printed.
#[derive(Clone, Copy, Debug, PartialEq, Eq)]
pub enum Listing {
    /// In a list: the script is below the heading, behind two blanks.
    Listed,
    /// As a script by itself: the heading is a comment.
    Script,
}

impl Listing {
    /// The blanks before each line of a script.
    pub(crate) fn blanks(self) -> &'static str {
        match self {
            Listing::Listed => "  ",
            Listing::Script => "",
        }
    }
}

/// The number of a line of the policy, or of a trust line.
fn line_words(alloc: Global, aim: &Aim) -> Result<String, AllocError>
    ensures { IfOk result (λ text. string_bytes text ≡ line_words aim.now) }
{
    let number = aim.line.line;
    if aim.trusted {
        format!(in alloc; "trusted line {number}")
    } else {
        format!(in alloc; "line {number}")
    }
}

/// The same with the fact that is objected to.
fn aim_words(alloc: Global, wired: &Wired, aim: &Aim) -> Result<String, AllocError>
    ensures { IfOk result (λ text. string_bytes text ≡ aim_words wired.now aim.now) }
{
    let line = line_words(alloc, aim)?;
    let fact = fact_text(alloc, wired, forbidden_fact(&aim.line))?;
    format!(in alloc; "{line} {fact}")
}

/// That a script was found.
pub(crate) fn real_line(alloc: Global, wired: &Wired, aim: &Aim) -> Result<String, AllocError>
    ensures { IfOk result (λ text. string_bytes text ≡ real_line wired.now aim.now) }
{
    let words = aim_words(alloc, wired, aim)?;
    format!(in alloc; "REAL {words}\n")
}

/// That none was found.
fn no_line(alloc: Global, wired: &Wired, aim: &Aim) -> Result<String, AllocError>
    ensures { IfOk result (λ text. string_bytes text ≡ no_line wired.now aim.now) }
{
    let words = aim_words(alloc, wired, aim)?;
    format!(in alloc; "NO {words} not reached\n")
}

/// The part of what is printed that is the script.
pub(crate) fn script_part(
    alloc: Global,
    listing: Listing,
    heading: &str,
    script: &str,
) -> Result<String, AllocError>
    ensures { IfOk result (λ text.
        string_bytes text ≡ script_part listing heading.now script.now) }
{
    match listing {
        Listing::Listed => String::from_str(alloc, script),
        Listing::Script => format!(in alloc; "# {heading}{script}"),
    }
}

/// What is printed if there is a script.
fn real_text(
    alloc: Global,
    listing: Listing,
    heading: &str,
    script: &str,
) -> Result<String, AllocError>
    ensures { IfOk result (λ text. string_bytes text ≡ real_text listing heading.now script.now) }
{
    match listing {
        Listing::Listed => format!(in alloc; "{heading}{script}"),
        Listing::Script => script_part(alloc, listing, heading, script),
    }
}

/// What is printed of an attack.
fn attack_text(
    alloc: Global,
    wired: &Wired,
    listing: Listing,
    attack: &Attack,
) -> Result<String, AllocError>
    ensures { IfOk result (λ text.
        string_bytes text ≡ attack_text listing wired.now attack.now) }
{
    match &attack.script {
        None => no_line(alloc, wired, &attack.aim),
        Some(script) => {
            let heading = real_line(alloc, wired, &attack.aim)?;
            real_text(alloc, listing, heading.as_str(), script.as_str())
        }
    }
}

/// What is printed of attacks, one after the other: `REAL line N FACT` with the script, or `NO line
/// N FACT not reached`; for a trusted task `trusted line N`.
pub fn attacks_text(
    alloc: Global,
    wired: &Wired,
    listing: Listing,
    found: &[Attack],
) -> Result<String, AllocError>
    ensures exact { IfOk result (λ text.
        string_bytes text ≡ definitions.attacks_text listing wired.now found.now) }
{
    let mut text = String::new(alloc);
    for attack in found {
        let one = attack_text(alloc, wired, listing, attack)?;
        text.push_str(one.as_str())?;
    }
    Ok(text)
}

/// What is printed of an attack if not all ways were tried.
fn cut_line(alloc: Global, attack: &Attack) -> Result<String, AllocError>
    ensures { IfOk result (λ text. string_bytes text ≡ cut_line attack.now) }
{
    if !attack.cut {
        return Ok(String::new(alloc));
    }
    let line = line_words(alloc, &attack.aim)?;
    format!(in alloc; "machcheck: attack: {line}: not all ways were tried\n")
}

/// A line for each attack for which not all ways were tried.
pub fn cut_text(alloc: Global, found: &[Attack]) -> Result<String, AllocError>
    ensures exact { IfOk result (λ text. string_bytes text ≡ definitions.cut_text found.now) }
{
    let mut text = String::new(alloc);
    for attack in found {
        let one = cut_line(alloc, attack)?;
        text.push_str(one.as_str())?;
    }
    Ok(text)
}
