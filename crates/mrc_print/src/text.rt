//! The text of a broken policy.

ghost use Rattle.std.specs.Prelude.{◌≡◌, IfOk, string_bytes};
ghost use Rattle.std.specs.List.{list_any};
ghost use Rattle.std.specs.Option.{is_some};
ghost use Rattle.mrc_answer.specs.Verified as verified;
ghost use Rattle.mrc_answer.specs.Verified.{asked_task, IsAsked};
ghost use Rattle.mrc_print.specs.Heads.{IsHead, HasTold, IsTold, IsToldIf};

use mrc_answer::{Attacked, JudgedPolicy};
use mrc_attack::{Listing, attacks_text};
use mrc_check::Demand;
use mrc_command::shown;
use mrc_objects::{Common, LineNames, TextLines, common_of, is_asked, unwaived};
use mrc_why::{
    Broken, Exposed, Layout, Sources, Step, Verdict, chain_text, exposed_line, forbidden_fact,
};
use mrc_wide_policy::Stance;
use mrc_wiring::ForbiddenLine;
use mrc_words::fact_text;
use std::alloc::{AllocError, Global};
use std::slice;

/// How a `NO` is printed.
#[derive(Drop)]
pub(crate) struct Manner<'a> {
    /// A first line names the fact that most chains have in common.
    pub(crate) common: bool,
    /// The layout of chains: none, if they are not printed.
    pub(crate) chains: Option<Layout>,
    /// The lines of the wiring, if they are quoted.
    pub(crate) wiring: Option<TextLines<'a>>,
    /// The lines of the policy, if they are quoted.
    pub(crate) policy: Option<TextLines<'a>>,
}

/// What a text is made with: chains of which files, in which manner, and the number of a line, if
/// what is told of one line alone is asked for. With the names of lines.
#[derive(Drop)]
struct Printing<'a, 'n> {
    alloc: Global,
    sources: &'a Sources<'a>,
    manner: &'a Manner<'a>,
    names: &'a LineNames<'n>,
    only: Option<u32>,
}

/// The quote of the line of this number: `  # TEXT`. Nothing, if nothing is quoted.
fn quote(alloc: Global, lines: &Option<TextLines<'_>>, number: u32) -> Result<String, AllocError> {
    let Some(lines) = lines else {
        return Ok(String::new(alloc));
    };
    let text = shown(alloc, lines.line(number))?;
    format!(in alloc; "  # {text}\n")
}

/// A text with two blanks before each of its lines.
fn indented(alloc: Global, text: &str) -> Result<String, AllocError> {
    text.split_terminator('\n')
        .map(|line| format!(in alloc; "  {line}\n"))
        .try_collect(alloc)
}

/// A chain behind two blanks, if chains are printed.
fn chain_if(printing: &Printing<'_, '_>, steps: &[Step]) -> Result<String, AllocError> {
    let alloc = printing.alloc;
    match printing.manner.chains {
        Some(layout) => {
            let text = chain_text(alloc, printing.sources, steps, layout)?;
            indented(alloc, text.as_str())
        }
        None => Ok(String::new(alloc)),
    }
}

/// The name of the line of this number behind a blank, if it has one.
fn name_word(printing: &Printing<'_, '_>, number: u32) -> Result<String, AllocError> {
    match printing.names.name(number) {
        Some(name) => format!(in printing.alloc; " \"{name}\""),
        None => Ok(String::new(printing.alloc)),
    }
}

/// A holding that is forbidden, its quote, and its chain.
fn forbidden_part(
    printing: &Printing<'_, '_>,
    line: &ForbiddenLine,
    steps: &[Step],
) -> Result<String, AllocError>
    ensures { IfOk result (λ text. IsTold (string_bytes text)) }
{
    let alloc = printing.alloc;
    let number = line.line;
    let name = name_word(printing, number)?;
    let fact = fact_text(alloc, printing.sources.wired(), forbidden_fact(line))?;
    let quote = quote(alloc, &printing.manner.policy, number)?;
    let chain = chain_if(printing, steps)?;
    format!(in alloc; "NO forbidden line {number}{name} {fact}\n{quote}{chain}")
}

/// A holding that is waived by the line of a number, and its quote.
fn waived_part(
    printing: &Printing<'_, '_>,
    line: &ForbiddenLine,
    waiver: u32,
) -> Result<String, AllocError>
    ensures { IfOk result (λ text. IsTold (string_bytes text)) }
{
    let alloc = printing.alloc;
    let number = line.line;
    let name = name_word(printing, number)?;
    let fact = fact_text(alloc, printing.sources.wired(), forbidden_fact(line))?;
    let reason = printing.names.reason(waiver);
    let quote = quote(alloc, &printing.manner.policy, number)?;
    format!(in alloc; "WAIVED line {number}{name} {fact} \"{reason}\"\n{quote}")
}

/// A holding that is expected and lacking, and its quote.
fn expected_part(printing: &Printing<'_, '_>, line: &ForbiddenLine) -> Result<String, AllocError>
    ensures { IfOk result (λ text. IsTold (string_bytes text)) }
{
    let alloc = printing.alloc;
    let number = line.line;
    let name = name_word(printing, number)?;
    let fact = fact_text(alloc, printing.sources.wired(), forbidden_fact(line))?;
    let quote = quote(alloc, &printing.manner.policy, number)?;
    format!(in alloc; "NO expected line {number}{name} {fact}\n{quote}")
}

/// What is told of a demand; a holding that is forbidden has this chain.
fn told_part(
    printing: &Printing<'_, '_>,
    demand: &Demand,
    steps: &[Step],
) -> Result<String, AllocError>
    ensures { IfOk result (λ text. IsTold (string_bytes text)) }
{
    match demand.stance {
        Stance::Forbidden => forbidden_part(printing, &demand.holding, steps),
        Stance::Waived(waiver) => waived_part(printing, &demand.holding, waiver),
        Stance::Expected => expected_part(printing, &demand.holding),
    }
}

/// A trusted task that another could rewrite, its quote, and its chain.
fn exposed_part(printing: &Printing<'_, '_>, exposed: &Exposed) -> Result<String, AllocError>
    ensures { IfOk result (λ text. IsTold (string_bytes text)) }
{
    let alloc = printing.alloc;
    let head = exposed_line(alloc, printing.sources.wired(), exposed)?;
    let quote = quote(alloc, &printing.manner.wiring, exposed.line())?;
    let chain = chain_if(printing, exposed.steps())?;
    format!(in alloc; "{head}{quote}{chain}")
}

/// A demand that is asked for. Nothing, if it is not.
#[tactic(auto, using(crate::proofs::HeadLaws::asked_so))]
fn part_if_asked(
    printing: &Printing<'_, '_>,
    demand: &Demand,
    steps: &[Step],
) -> Result<String, AllocError>
    ensures { IfOk result (λ text.
        IsToldIf (verified.is_asked printing.now.only demand.now) (string_bytes text)) }
{
    if is_asked(printing.only, demand) {
        told_part(printing, demand, steps)
    } else {
        Ok(String::new(printing.alloc))
    }
}

/// The chain of a holding, if it is the first of these broken lines.
fn chain_of<'a>(left: &'a [Broken], demand: &Demand) -> Option<(&'a [Step], &'a [Broken])> {
    let (first, behind) = left.split_first()?;
    if *first.line() == demand.holding {
        Some((first.steps(), behind))
    } else {
        None
    }
}

/// The demands that are told and asked for, one after the other, with the chains of these broken
/// lines, which are in the same order.
fn told_parts(
    printing: &Printing<'_, '_>,
    told: &[Demand],
    broken: &[Broken],
) -> Result<String, AllocError>
    ensures { IfOk result (λ text.
        IsToldIf (list_any (verified.is_asked printing.now.only) told.now) (string_bytes text)) }
{
    let mut text = String::new(printing.alloc);
    let mut left = broken;
    for demand in told {
        let (steps, behind) = chain_of(left, demand).unwrap_or((&[], left));
        left = behind;
        let part = part_if_asked(printing, demand, steps)?;
        text.push_str(part.as_str())?;
    }
    Ok(text)
}

/// The trusted task, if there is one, unless lines of one number are asked for.
fn task_part(printing: &Printing<'_, '_>, exposed: &Option<Exposed>) -> Result<String, AllocError>
    ensures { IfOk result (λ text.
        IsToldIf (is_some (asked_task printing.now.only exposed.now)) (string_bytes text)) }
{
    if printing.only.is_some() {
        return Ok(String::new(printing.alloc));
    }
    match exposed {
        Some(exposed) => exposed_part(printing, exposed),
        None => Ok(String::new(printing.alloc)),
    }
}

/// The line of a fact that is found in chains of so many lines. Nothing, if none is.
fn found_line(
    printing: &Printing<'_, '_>,
    lines: usize,
    found: Option<Common>,
) -> Result<String, AllocError>
    ensures { IfOk result (λ text. IsHead (string_bytes text)) }
{
    let alloc = printing.alloc;
    let Some(Common { fact, chains }) = found else {
        return Ok(String::new(alloc));
    };
    let fact = fact_text(alloc, printing.sources.wired(), fact)?;
    let words = format!(in alloc; "{chains} of {lines} lines by: {fact}")?;
    format!(in alloc; "# {words}\n")
}

/// The line of what most chains have in common, if there is such a fact and it is to be named.
fn common_if(printing: &Printing<'_, '_>, broken: &[&Broken]) -> Result<String, AllocError>
    ensures { IfOk result (λ text. IsHead (string_bytes text)) }
{
    if !printing.manner.common {
        return Ok(String::new(printing.alloc));
    }
    match common_of(printing.alloc, printing.sources.wired(), broken) {
        Ok(found) => found_line(printing, broken.len(), found),
        Err(AllocError) => Err(AllocError),
    }
}

/// The same of those broken lines that are not waived.
fn unwaived_common(
    printing: &Printing<'_, '_>,
    told: &[Demand],
    broken: &[Broken],
) -> Result<String, AllocError>
    ensures { IfOk result (λ text. IsHead (string_bytes text)) }
{
    let unwaived = unwaived(printing.alloc, told, broken)?;
    common_if(printing, &unwaived)
}

/// The text of what is asked for.
fn text_of(
    printing: &Printing<'_, '_>,
    verdict: &Verdict,
    told: &[Demand],
) -> Result<String, AllocError>
    ensures { IsAsked printing.now.only verdict.now.exposed told.now
        → IfOk result (λ text. HasTold (string_bytes text)) }
{
    let broken = verdict.broken.as_slice();
    let common = unwaived_common(printing, told, broken)?;
    let task = task_part(printing, &verdict.exposed)?;
    let lines = told_parts(printing, told, broken)?;
    let text = format!(in printing.alloc; "{common}{task}{lines}")?;
    Ok(text)
}

/// What is printed of a policy that is broken: the trusted task that another could rewrite, and
/// what is told of its demands; or what is told of one line alone. Behind each come its quote and
/// its chain, as is asked for, and before all the fact that most chains have in common.
pub(crate) fn no_text(
    alloc: Global,
    sources: &Sources<'_>,
    manner: &Manner<'_>,
    judged: &JudgedPolicy,
) -> Result<String, AllocError>
    // If something is asked for, the text begins with `NO ` or `WAIVED `, behind the line of a
    // common fact.
    ensures { IsAsked judged.now.only judged.now.verdict.exposed judged.now.told.items
        → IfOk result (λ text. HasTold (string_bytes text)) }
{
    let names = LineNames::of(alloc, &judged.stated.stands)?;
    let printing = Printing {
        alloc,
        sources,
        manner,
        names: &names,
        only: judged.only,
    };
    text_of(&printing, &judged.verdict, judged.told.as_slice())
}

/// What is printed of a yes besides what is waived.
pub(crate) fn waived_text(
    alloc: Global,
    sources: &Sources<'_>,
    manner: &Manner<'_>,
    judged: &JudgedPolicy,
) -> Result<String, AllocError> {
    let names = LineNames::of(alloc, &judged.stated.stands)?;
    let printing = Printing {
        alloc,
        sources,
        manner,
        names: &names,
        only: judged.only,
    };
    let lines = told_parts(&printing, judged.told.as_slice(), &[])?;
    format!(in alloc; "{lines}YES\n")
}

/// What is told of a demand beside attacks: that a holding is waived, or expected and lacking. By
/// itself a script has it as a comment.
fn beside_attacks(
    printing: &Printing<'_, '_>,
    listing: Listing,
    demand: &Demand,
) -> Result<String, AllocError> {
    let part = part_if_asked(printing, demand, &[])?;
    match listing {
        Listing::Listed => Ok(part),
        Listing::Script if part.is_empty() => Ok(part),
        Listing::Script => format!(in printing.alloc; "# {part}"),
    }
}

/// Attacks, and between them what is told beside them, in the order of the policy.
pub(crate) fn attacks_and_told(
    alloc: Global,
    sources: &Sources<'_>,
    manner: &Manner<'_>,
    listing: Listing,
    attacked: &Attacked,
) -> Result<String, AllocError> {
    let wired = attacked.stated.claim.wired();
    let names = LineNames::of(alloc, &attacked.stated.stands)?;
    let printing = Printing {
        alloc,
        sources,
        manner,
        names: &names,
        only: attacked.only,
    };
    let mut text = String::new(alloc);
    let mut left = attacked.found.as_slice();
    if let Some((first, behind)) = left.split_first() {
        if first.aim.trusted {
            let part = attacks_text(alloc, wired, listing, slice::from_ref(first))?;
            text.push_str(part.as_str())?;
            left = behind;
        }
    }
    for demand in attacked.told.as_slice() {
        if demand.stance != Stance::Forbidden {
            let part = beside_attacks(&printing, listing, demand)?;
            text.push_str(part.as_str())?;
        } else if is_asked(attacked.only, demand) {
            if let Some((one, behind)) = left.split_first() {
                let part = attacks_text(alloc, wired, listing, slice::from_ref(one))?;
                text.push_str(part.as_str())?;
                left = behind;
            }
        }
    }
    Ok(text)
}
