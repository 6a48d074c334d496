//! The texts in which chains and broken lines are told.

ghost use Rattle.std.specs.Prelude.{◌≡◌, None, codes, IfOk, string_bytes};
ghost use Rattle.mrc_why.specs.Texts.{slot_text, source_text, places_text, source_at, rule_text};
ghost use Rattle.mrc_why.specs.Texts.{step_line, lines_from, deeper, told_text, tree_line};
ghost use Rattle.mrc_why.specs.Texts.{tree_from, chain_lines, plain_lines, IsChainText};
ghost use Rattle.mrc_why.specs.Texts.{broken_line, IsBrokenText, AreToldBy, exposed_line};
ghost use Rattle.mrc_why.specs.Texts.{IsExposedText, IsNoText, IsVerdictText};

use crate::judging::{Broken, Exposed, Verdict, forbidden_fact};
use crate::origins::{SlotNames, Source};
use crate::sources::Sources;
use crate::trees::{TreeLine, tree_lines};
use mrc_closure::{Places, Step};
use mrc_wiring::{ForbiddenLine, Wired};
use mrc_words::fact_text;
use std::alloc::{AllocError, Global};

/// How a chain is told.
#[derive(Clone, Copy, Debug, PartialEq, Eq)]
pub enum Layout {
    /// A line for each step, in the order of the chain.
    Flat,
    /// From the conclusion down, each premise below what it serves.
    Tree,
}

fn slot_text(alloc: Global, names: &SlotNames<'_>) -> Result<String, AllocError>
    ensures { IfOk result (λ text. string_bytes text ≡ slot_text names.now) }
{
    let subsystem = names.subsystem;
    let routine = names.routine;
    let argument = names.argument;
    let type_name = names.type_name;
    format!(in alloc; "{subsystem}.{routine}.{argument} ({subsystem}.{type_name})")
}

/// Where a step comes from, as it stands behind the line of the step: nothing where that is not
/// known.
pub fn source_text(alloc: Global, source: Option<Source<'_>>) -> Result<String, AllocError>
    ensures { IfOk result (λ text. string_bytes text ≡ source_text source.entry) }
{
    match source {
        None => Ok(String::new(alloc)),
        Some(Source::Line(number)) => format!(in alloc; " by line {number}"),
        Some(Source::Slot(names)) => {
            let slot = slot_text(alloc, &names)?;
            format!(in alloc; " by {slot}")
        }
        Some(Source::Subsystem(name)) => format!(in alloc; " by {name}"),
        Some(Source::KernelPort(name)) => format!(in alloc; " by task:{name}"),
    }
}

/// The places of a step's premises. A place that is both premises is told once.
pub fn places_text(alloc: Global, places: Places) -> Result<String, AllocError>
    ensures { IfOk result (λ text. string_bytes text ≡ places_text places) }
{
    match places {
        Places::Empty => Ok(String::new(alloc)),
        Places::One(one) => format!(in alloc; " from {one}"),
        Places::Two(one, other) => {
            if one == other {
                format!(in alloc; " from {one}")
            } else {
                format!(in alloc; " from {one} {other}")
            }
        }
    }
}

/// The source of the step at this place.
fn source_at<'a>(sources: &[Option<Source<'a>>], place: usize) -> Option<Source<'a>>
    ensures { result ≡ source_at sources.now place }
{
    *sources.get(place)?
}

/// A rule and the fact that it concludes.
fn rule_text(alloc: Global, wired: &Wired, step: &Step) -> Result<String, AllocError>
    ensures { IfOk result (λ text. string_bytes text ≡ rule_text wired.now step.now) }
{
    let rule = step.rule.number();
    let fact = fact_text(alloc, wired, step.fact)?;
    format!(in alloc; "K{rule} {fact}")
}

/// The line of a step of a chain.
fn step_line(
    alloc: Global,
    blanks: &str,
    wired: &Wired,
    place: usize,
    step: &Step,
    source: Option<Source<'_>>,
) -> Result<String, AllocError>
    ensures { IfOk result (λ text. string_bytes text
        ≡ step_line blanks.now wired.now place step.now source.entry) }
{
    let rule = rule_text(alloc, wired, step)?;
    let from = places_text(alloc, step.premises)?;
    let by = source_text(alloc, source)?;
    format!(in alloc; "{blanks}{place} {rule}{from}{by}\n")
}

/// The lines of a chain.
fn lines_text(
    alloc: Global,
    blanks: &str,
    wired: &Wired,
    sources: &[Option<Source<'_>>],
    steps: &[Step],
) -> Result<String, AllocError>
    ensures { IfOk result (λ text. string_bytes text
        ≡ lines_from blanks.now wired.now sources.now 0 steps.now) }
{
    let mut text = String::new(alloc);
    for (place, step) in steps.iter().enumerate() {
        let line = step_line(alloc, blanks, wired, place, step, source_at(sources, place))?;
        text.push_str(line.as_str())?;
    }
    Ok(text)
}

/// Two blanks for each deeper line.
fn deeper(alloc: Global, depth: usize) -> Result<String, AllocError>
    ensures { IfOk result (λ text. string_bytes text ≡ deeper depth) }
{
    let mut blanks = String::new(alloc);
    for _ in 0..depth {
        blanks.push_str("  ")?;
    }
    Ok(blanks)
}

/// The step of a line: told whole, or by the line that has told it.
fn told_text(
    alloc: Global,
    wired: &Wired,
    step: &Step,
    source: Option<Source<'_>>,
    seen: Option<usize>,
) -> Result<String, AllocError>
    ensures { IfOk result (λ text. string_bytes text
        ≡ told_text wired.now step.now source.entry seen) }
{
    match seen {
        None => {
            let rule = rule_text(alloc, wired, step)?;
            let by = source_text(alloc, source)?;
            format!(in alloc; "{rule}{by}")
        }
        Some(number) => {
            let fact = fact_text(alloc, wired, step.fact)?;
            format!(in alloc; "{fact} (see {number})")
        }
    }
}

/// A line of a tree, of this number.
fn tree_line(
    alloc: Global,
    blanks: &str,
    wired: &Wired,
    steps: &[Step],
    sources: &[Option<Source<'_>>],
    number: usize,
    line: &TreeLine,
) -> Result<String, AllocError>
    ensures { IfOk result (λ text. string_bytes text
        ≡ tree_line blanks.now wired.now steps.now sources.now number line.now) }
{
    let depth = deeper(alloc, line.depth)?;
    let told = match steps.get(line.place) {
        Some(step) => told_text(
            alloc,
            wired,
            step,
            source_at(sources, line.place),
            line.seen,
        )?,
        None => String::new(alloc),
    };
    format!(in alloc; "{blanks}{depth}{number} {told}\n")
}

/// The lines of a chain as a tree.
fn tree_from(
    alloc: Global,
    blanks: &str,
    wired: &Wired,
    steps: &[Step],
    sources: &[Option<Source<'_>>],
    lines: &[TreeLine],
) -> Result<String, AllocError>
    ensures { IfOk result (λ text. string_bytes text
        ≡ tree_from blanks.now wired.now steps.now sources.now 1 lines.now) }
{
    let mut text = String::new(alloc);
    for (place, line) in lines.iter().enumerate() {
        let told = tree_line(alloc, blanks, wired, steps, sources, place + 1, line)?;
        text.push_str(told.as_str())?;
    }
    Ok(text)
}

/// A chain in this layout.
fn chain_lines(
    alloc: Global,
    layout: Layout,
    blanks: &str,
    wired: &Wired,
    sources: &[Option<Source<'_>>],
    steps: &[Step],
) -> Result<String, AllocError>
    ensures { IfOk result (λ text. string_bytes text
        ≡ chain_lines layout blanks.now wired.now sources.now steps.now) }
{
    match layout {
        Layout::Flat => lines_text(alloc, blanks, wired, sources, steps),
        Layout::Tree => {
            let lines = tree_lines(alloc, steps)?;
            tree_from(alloc, blanks, wired, steps, sources, &lines)
        }
    }
}

/// A chain in this layout behind these blanks, with where its steps come from.
fn chain_told(
    alloc: Global,
    layout: Layout,
    blanks: &str,
    sources: &Sources<'_>,
    steps: &[Step],
) -> Result<String, AllocError>
    ensures { IfOk result (λ text.
        IsChainText layout blanks.now sources.now steps.now (string_bytes text)) }
{
    let known = sources.all(alloc, steps)?;
    chain_lines(alloc, layout, blanks, sources.wired(), &known, steps)
}

/// A chain in this layout, with where its steps come from: `N Kk FACT from A B by ..` for each
/// step, or as a tree.
pub fn chain_text(
    alloc: Global,
    sources: &Sources<'_>,
    steps: &[Step],
    layout: Layout,
) -> Result<String, AllocError>
    ensures { IfOk result (λ text.
        IsChainText layout (codes "") sources.now steps.now (string_bytes text)) }
{
    chain_told(alloc, layout, "", sources, steps)
}

/// A chain without where its steps come from: `N Kk FACT from A B` for each step.
pub fn plain_lines(alloc: Global, wired: &Wired, steps: &[Step]) -> Result<String, AllocError>
    ensures { IfOk result (λ text. string_bytes text ≡ plain_lines wired.now steps.now) }
{
    lines_text(alloc, "", wired, &[], steps)
}

/// That a line is broken.
pub fn broken_line(alloc: Global, wired: &Wired, line: &ForbiddenLine) -> Result<String, AllocError>
    ensures { IfOk result (λ text. string_bytes text ≡ broken_line wired.now line.now) }
{
    let number = line.line;
    let fact = fact_text(alloc, wired, forbidden_fact(line))?;
    format!(in alloc; "NO forbidden line {number} {fact}\n")
}

/// A broken line, and under it, behind two blanks, its chain.
fn broken_text(
    alloc: Global,
    sources: &Sources<'_>,
    broken: &Broken,
    layout: Layout,
) -> Result<String, AllocError>
    ensures { IfOk result (λ text.
        IsBrokenText layout sources.now broken.now (string_bytes text)) }
{
    let head = broken_line(alloc, sources.wired(), broken.line())?;
    let chain = chain_told(alloc, layout, "  ", sources, broken.steps())?;
    let text = format!(in alloc; "{head}{chain}")?;
    Ok(text)
}

/// The broken lines, one after the other.
fn all_broken(
    alloc: Global,
    sources: &Sources<'_>,
    broken: &[Broken],
    layout: Layout,
) -> Result<String, AllocError>
    ensures { IfOk result (λ text.
        AreToldBy layout sources.now broken.now (string_bytes text)) }
{
    let mut text = String::new(alloc);
    for line in broken {
        let told = broken_text(alloc, sources, line, layout)?;
        text.push_str(told.as_str())?;
    }
    Ok(text)
}

/// That another task could rewrite a trusted one.
pub fn exposed_line(alloc: Global, wired: &Wired, exposed: &Exposed) -> Result<String, AllocError>
    ensures { IfOk result (λ text. string_bytes text ≡ exposed_line wired.now exposed.now) }
{
    let number = exposed.line();
    let fact = fact_text(alloc, wired, exposed.fact())?;
    format!(in alloc; "NO trusted line {number} {fact}\n")
}

/// A trusted task that another could rewrite, and under it, behind two blanks, its chain.
fn exposed_text(
    alloc: Global,
    sources: &Sources<'_>,
    exposed: &Exposed,
    layout: Layout,
) -> Result<String, AllocError>
    ensures { IfOk result (λ text.
        IsExposedText layout sources.now exposed.now (string_bytes text)) }
{
    let head = exposed_line(alloc, sources.wired(), exposed)?;
    let chain = chain_told(alloc, layout, "  ", sources, exposed.steps())?;
    let text = format!(in alloc; "{head}{chain}")?;
    Ok(text)
}

/// The same, and then the broken lines.
fn no_text(
    alloc: Global,
    sources: &Sources<'_>,
    exposed: &Exposed,
    broken: &[Broken],
    layout: Layout,
) -> Result<String, AllocError>
    ensures { IfOk result (λ text.
        IsNoText layout sources.now exposed.now broken.now (string_bytes text)) }
{
    let first = exposed_text(alloc, sources, exposed, layout)?;
    let lines = all_broken(alloc, sources, broken, layout)?;
    let text = format!(in alloc; "{first}{lines}")?;
    Ok(text)
}

/// `YES`, or each broken line with its chain.
fn lines_or_yes(
    alloc: Global,
    sources: &Sources<'_>,
    broken: &[Broken],
    layout: Layout,
) -> Result<String, AllocError>
    ensures { IfOk result (λ text.
        IsVerdictText layout sources.now None broken.now (string_bytes text)) }
{
    if broken.is_empty() {
        let text = String::from_str(alloc, "YES\n")?;
        return Ok(text);
    }
    let text = all_broken(alloc, sources, broken, layout)?;
    Ok(text)
}

/// What is printed of a policy: `YES`, or the trusted task that another could rewrite, and each
/// broken line. The task and each line have their chains below them, behind two blanks.
pub fn verify_text(
    alloc: Global,
    sources: &Sources<'_>,
    verdict: &Verdict,
    layout: Layout,
) -> Result<String, AllocError>
    ensures { IfOk result (λ text. IsVerdictText layout sources.now verdict.now.exposed
        verdict.now.broken.items (string_bytes text)) }
{
    let broken = verdict.broken.as_slice();
    match &verdict.exposed {
        Some(exposed) => no_text(alloc, sources, exposed, broken, layout),
        None => lines_or_yes(alloc, sources, broken, layout),
    }
}
