//! What is printed of an answer for people.

ghost use Rattle.std.specs.Prelude.{◌≡◌, IfOk, string_bytes};
ghost use Rattle.mrc_answer.specs.Verified.{IsAsked};
ghost use Rattle.mrc_answer.specs.Verified as verified;
ghost use Rattle.std.specs.Prelude.{false};
ghost use Rattle.std.specs.List.{list_any};
ghost use Rattle.mrc_attack.specs.Attacks.{attacks_text};
ghost use Rattle.mrc_print.specs.Heads as heads;
ghost use Rattle.mrc_print.specs.Heads.{HasTold, IsHeadOf, IsShown};

use crate::asked::Asked;
use crate::reading::{policy_text, wiring_text};
use crate::reasons::reason_line;
use crate::text::{Manner, attacks_and_told, no_text, waived_text};
use mrc_answer::{Answer, Attacked, Explained, JudgedPolicy, WasRead};
use mrc_attack::{Listing, attacks_text};
use mrc_check::Demand;
use mrc_command::Showing;
use mrc_draw::{facts_text, graph_text};
use mrc_mend::mends_text;
use mrc_objects::{TextLines, expanded_text, promises_text, slots_text};
use mrc_why::{Layout, Sources, chain_text, is_expected, is_waived, plain_lines};
use std::alloc::{AllocError, Global};

/// The layout of chains: none, if the answer is to be brief, and from their conclusions down if a
/// tree is asked for.
fn chains_of(showing: Showing) -> Option<Layout> {
    match (showing.brief, showing.tree) {
        (true, _) => None,
        (false, true) => Some(Layout::Tree),
        (false, false) => Some(Layout::Flat),
    }
}

/// The lines of a text, if they are quoted.
fn quoted_if(alloc: Global, asked: bool, text: &[u8]) -> Result<Option<TextLines<'_>>, AllocError> {
    if asked {
        Ok(Some(TextLines::of(alloc, text)?))
    } else {
        Ok(None)
    }
}

/// How a `NO` is printed of what was read. A first line names what most chains have in common if
/// the answer is brief or lines are quoted, unless one line is asked for.
fn manner_of<'a>(
    alloc: Global,
    read: &'a WasRead<'_>,
    showing: Showing,
) -> Result<Manner<'a>, AllocError> {
    let wiring = quoted_if(alloc, showing.quotes, wiring_text(read))?;
    let policy = quoted_if(alloc, showing.quotes, policy_text(read))?;
    Ok(Manner {
        common: showing.line.is_none() && (showing.brief || showing.quotes),
        chains: chains_of(showing),
        wiring,
        policy,
    })
}

/// The text of a policy that is broken.
fn broken_text(
    alloc: Global,
    showing: Showing,
    read: &WasRead<'_>,
    broken: &JudgedPolicy,
) -> Result<String, AllocError>
    requires { IsAsked broken.now.only broken.now.verdict.exposed broken.now.told.items }
    ensures { IfOk result (λ text. HasTold (string_bytes text)) }
{
    let stated = &broken.stated;
    let sources = Sources::new(alloc, stated.claim.wired(), stated.lines.as_slice())?;
    let manner = manner_of(alloc, read, showing)?;
    let text = no_text(alloc, &sources, &manner, broken)?;
    Ok(text)
}

/// The text of a yes besides what is waived.
fn yes_text(
    alloc: Global,
    showing: Showing,
    read: &WasRead<'_>,
    judged: &JudgedPolicy,
) -> Result<String, AllocError> {
    let stated = &judged.stated;
    let sources = Sources::new(alloc, stated.claim.wired(), stated.lines.as_slice())?;
    let manner = manner_of(alloc, read, showing)?;
    waived_text(alloc, &sources, &manner, judged)
}

/// Whether what is asked of a holding is told beside attacks.
fn is_beside(demand: &Demand) -> bool
    ensures { result ≡ heads.is_beside demand.now }
{
    is_waived(demand) || is_expected(demand)
}

/// Whether something is told beside attacks.
fn has_beside(told: &[Demand]) -> bool
    ensures { result ≡ list_any heads.is_beside told.now }
{
    told.iter().any(|demand| is_beside(demand))
}

/// The text of attacks, and of what is told beside them.
fn attacked_text(
    alloc: Global,
    showing: Showing,
    read: &WasRead<'_>,
    attacked: &Attacked,
) -> Result<String, AllocError>
    ensures { list_any heads.is_beside attacked.now.told.items ≡ false
        → IfOk result (λ text. string_bytes text
        ≡ attacks_text (verified.form_of attacked.now.only) attacked.now.stated.claim.table
        attacked.now.found.items) }
{
    let stated = &attacked.stated;
    let listing = form_of(attacked.only);
    if has_beside(attacked.told.as_slice()) {
        let sources = Sources::new(alloc, stated.claim.wired(), stated.lines.as_slice())?;
        let manner = manner_of(alloc, read, showing)?;
        return attacks_and_told(alloc, &sources, &manner, listing, attacked);
    }
    attacks_text(
        alloc,
        stated.claim.wired(),
        listing,
        attacked.found.as_slice(),
    )
}

/// A script is printed by itself if one line is asked for.
fn form_of(only: Option<u32>) -> Listing
    ensures { result ≡ verified.form_of only }
{
    match only {
        None => Listing::Listed,
        Some(_) => Listing::Script,
    }
}

/// A chain, with what its steps come from if that is asked for (`by`).
fn explained_text(alloc: Global, by: bool, explained: &Explained) -> Result<String, AllocError> {
    let wired = &explained.system.wired;
    let steps = explained.chain.steps();
    if !by {
        return plain_lines(alloc, wired, steps);
    }
    let sources = Sources::new(alloc, wired, explained.system.lines.as_slice())?;
    chain_text(alloc, &sources, steps, Layout::Flat)
}

/// Bytes as HEX: two digits a byte, and a blank behind each four.
fn hex_line(alloc: Global, bytes: &[u8]) -> Result<String, AllocError> {
    let mut text = String::new(alloc);
    for (place, byte) in bytes.iter().enumerate() {
        if place > 0 && place % 4 == 0 {
            text.push(' ')?;
        }
        let digits = format!(in alloc; "{byte:02x}")?;
        text.push_str(digits.as_str())?;
    }
    text.push('\n')?;
    Ok(text)
}

/// What is printed for people of facts, of drawings, and of what is asked of a system alone:
/// nothing of other answers.
fn listing_text(
    alloc: Global,
    asked: Asked<'_>,
    answer: &Answer<'_>,
) -> Result<String, AllocError> {
    match answer {
        Answer::Chain(explained) => explained_text(alloc, asked.is_by(), explained),
        Answer::Facts(listed) => facts_text(alloc, &listed.wired, &listed.facts, &listed.filter),
        Answer::Drawing(drawing) => {
            let claim = &drawing.stated.claim;
            graph_text(alloc, claim.wired(), &drawing.facts, claim.lines())
        }
        Answer::Slots(system) => slots_text(alloc, system),
        Answer::Promises(system) => promises_text(alloc, system.lines.as_slice()),
        Answer::Encoded(bytes) => hex_line(alloc, bytes.as_slice()),
        Answer::Decoded(words) => format!(in alloc; "{words}\n"),
        Answer::Expanded(expanded) => {
            expanded_text(alloc, expanded.older, expanded.system.lines.as_slice())
        }
        _ => Ok(String::new(alloc)),
    }
}

/// What is printed of an answer for people, by what was read.
pub(crate) fn answer_text(
    alloc: Global,
    asked: Asked<'_>,
    read: &WasRead<'_>,
    answer: &Answer<'_>,
) -> Result<String, AllocError>
    requires { IsShown answer.now }
    ensures { IfOk result (λ text. IsHeadOf read.now answer.now (string_bytes text)) }
{
    match answer {
        Answer::Yes => String::from_str(alloc, "YES\n"),
        Answer::Broken(broken) => broken_text(alloc, asked.showing(), read, broken),
        Answer::Refused(refused) => {
            reason_line(alloc, refused.claim.wired(), policy_text(read), refused.why)
        }
        Answer::Waived(judged) => yes_text(alloc, asked.showing(), read, judged),
        Answer::Attacks(attacked) => attacked_text(alloc, asked.showing(), read, attacked),
        Answer::Mends(answer) => mends_text(alloc, wiring_text(read), answer),
        Answer::Made(count) => format!(in alloc; "facts {count}\n"),
        Answer::NoChain(_) | Answer::NoDrawing(_) => String::from_str(alloc, "none\n"),
        Answer::OtherCounts => String::from_str(alloc, "NO counts\n"),
        Answer::Replay(_)
        | Answer::Journal(_)
        | Answer::Waits(_)
        | Answer::Mig(_)
        | Answer::Fault(_) => Ok(String::new(alloc)),
        Answer::Chain(_)
        | Answer::Facts(_)
        | Answer::Drawing(_)
        | Answer::Slots(_)
        | Answer::Promises(_)
        | Answer::Expanded(_)
        | Answer::Encoded(_)
        | Answer::Decoded(_) => listing_text(alloc, asked, answer),
    }
}
