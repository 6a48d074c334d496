ghost use Rattle.std.specs.Prelude.{◌≡◌, ◌≤◌, length, IfOk, OnOk};
ghost use Rattle.std.specs.Int.{w16, w32};
ghost use Rattle.mrc_base.specs.Reading.{Gives};
ghost use Rattle.mrc_facts.specs.Sets.{IsAscending};
ghost use Rattle.mrc_certificate.specs.Drafts.{Content, is_within, AreWithin};
ghost use Rattle.mrc_certificate.specs.Spelling.{content, Spells};
ghost use Rattle.mrc_certificate.specs.Reading.{behind_magic, version_at, births_at, number_at};
ghost use Rattle.mrc_certificate.specs.Reading.{first_place};
ghost use Rattle.mrc_certificate.specs.Reading.{right_from, fact_from, fact_at, comes_after};
ghost use Rattle.mrc_certificate.specs.Reading.{facts_at, draft_from};

use crate::draft::{Draft, is_within};
use crate::fault::DraftFault;
use mrc_base::{ClassId, OrMemory, PortRight};
use mrc_rows::{Fact, Facts};
use std::alloc::Global;

#[tactic(auto, unfolding(crate::specs::Reading::behind_magic))]
fn behind_magic(bytes: &[u8]) -> Result<&[u8], OrMemory<DraftFault>>
    ensures { Gives (λ rest. rest.now) result (behind_magic bytes.now) }
{
    if !bytes.starts_with(b"MRCC") {
        return Err(OrMemory::Fault(DraftFault::Magic));
    }
    Ok(&bytes[4..])
}

fn u16_at(bytes: &[u8]) -> Result<(u16, &[u8]), OrMemory<DraftFault>>
    ensures { Gives (λ x. (x.0, x.1.now)) result (number_at w16 bytes.now) }
{
    if bytes.len() < 2 {
        return Err(OrMemory::Fault(DraftFault::Truncated));
    }
    let (front, rest) = bytes.split_at(2);
    Ok((u16::from_be_bytes([front[0], front[1]]), rest))
}

fn u32_at(bytes: &[u8]) -> Result<(u32, &[u8]), OrMemory<DraftFault>>
    ensures { Gives (λ x. (x.0, x.1.now)) result (number_at w32 bytes.now) }
{
    if bytes.len() < 4 {
        return Err(OrMemory::Fault(DraftFault::Truncated));
    }
    let (front, rest) = bytes.split_at(4);
    let number = u32::from_be_bytes([front[0], front[1], front[2], front[3]]);
    Ok((number, rest))
}

/// The version, 1 or 2, and the bytes behind it.
#[tactic(auto, unfolding(crate::specs::Reading::version_at))]
fn version_at(bytes: &[u8]) -> Result<(u16, &[u8]), OrMemory<DraftFault>>
    ensures { Gives (λ x. (x.0, x.1.now)) result (version_at bytes.now) }
{
    let (version, rest) = u16_at(bytes)?;
    if version != 1 && version != 2 {
        return Err(OrMemory::Fault(DraftFault::Version));
    }
    Ok((version, rest))
}

/// The number of classes of births, and the bytes behind it: in version 1 it is that of tasks, in
/// version 2 it is there, and is greater.
#[tactic(auto, unfolding(crate::specs::Reading::births_at))]
fn births_at(version: u16, tasks: u16, bytes: &[u8]) -> Result<(u16, &[u8]), OrMemory<DraftFault>>
    ensures fault { Gives (λ x. (x.0, x.1.now)) result (births_at version tasks bytes.now) }
    ensures enough { IfOk result (λ x. tasks ≤ x.0) }
{
    if version == 1 {
        return Ok((tasks, bytes));
    }
    let (births, rest) = u16_at(bytes)?;
    if births <= tasks {
        return Err(OrMemory::Fault(DraftFault::Version));
    }
    Ok((births, rest))
}

/// The place of the first fact.
fn first_place(version: u16) -> usize
    ensures exact { result ≡ first_place version }
    ensures within { result ≤ 16 }
{
    if version == 1 { 14 } else { 16 }
}

fn right_from(number: u8) -> Option<PortRight>
    ensures { result ≡ right_from number }
{
    match number {
        0 => Some(PortRight::Send),
        1 => Some(PortRight::Receive),
        2 => Some(PortRight::SendOnce),
        _ => None,
    }
}

fn fact_from(kind: u8, first: u16, second: u16, last: u8) -> Option<Fact>
    ensures { result ≡ fact_from kind first second last }
{
    match kind {
        1 => Some(Fact::Hold {
            task: first,
            class: ClassId(second),
            right: right_from(last)?,
        }),
        2 => Some(Fact::Carry {
            destination: ClassId(first),
            class: ClassId(second),
            right: right_from(last)?,
        }),
        3 if last == 0 => Some(Fact::Backup {
            class: ClassId(first),
            notify: ClassId(second),
        }),
        _ => None,
    }
}

#[tactic(auto, unfolding(crate::specs::Reading::fact_at))]
fn fact_at(tasks: u16, classes: u16, at: usize, bytes: &[u8]) -> Result<Fact, OrMemory<DraftFault>>
    ensures fault { Gives (λ fact. fact) result (fact_at tasks classes at bytes.now) }
    ensures long { OnOk result (6 ≤ length bytes.now) }
{
    let [kind, a, b, c, d, last, ..] = bytes else {
        return Err(OrMemory::Fault(DraftFault::Truncated));
    };
    let first = u16::from_be_bytes([*a, *b]);
    let second = u16::from_be_bytes([*c, *d]);
    let Some(fact) = fact_from(*kind, first, second, *last) else {
        return Err(OrMemory::Fault(DraftFault::BadFact(at)));
    };
    if !is_within(tasks, classes, &fact) {
        return Err(OrMemory::Fault(DraftFault::BadFact(at)));
    }
    Ok(fact)
}

fn comes_after(before: Option<Fact>, fact: &Fact) -> bool
    ensures { result ≡ comes_after before fact.now }
{
    match before {
        None => true,
        Some(before) => before < *fact,
    }
}

fn facts_at(
    alloc: Global,
    tasks: u16,
    classes: u16,
    count: u32,
    first: usize,
    bytes: &[u8],
) -> Result<(Facts, &[u8]), OrMemory<DraftFault>>
    requires { first ≤ 16 }
    ensures fault { Gives (λ x. (x.0, x.1.now)) result
        (facts_at tasks classes count first None bytes.now) }
    ensures ascending { IfOk result (λ x. IsAscending x.0) }
    ensures within { IfOk result (λ x. AreWithin tasks classes x.0) }
    ensures len { IfOk result (λ x. length x.0 ≡ count) }
{
    let mut facts = Facts::new(alloc);
    let mut before = None;
    let mut rest = bytes;
    let mut at = first;
    for _ in 0..count {
        let fact = fact_at(tasks, classes, at, rest)?;
        if !comes_after(before, &fact) {
            return Err(OrMemory::Fault(DraftFault::NotAscending(at)));
        }
        let _ = facts.insert(fact)?;
        before = Some(fact);
        rest = rest.split_at(6).1;
        at += 6;
    }
    Ok((facts, rest))
}

#[tactic(auto, unfolding(crate::specs::Reading::draft_from))]
fn draft_from(alloc: Global, bytes: &[u8]) -> Result<Draft, OrMemory<DraftFault>>
    ensures { Gives content result (draft_from bytes.now) }
{
    let rest = behind_magic(bytes)?;
    let (version, rest) = version_at(rest)?;
    let (tasks, rest) = u16_at(rest)?;
    let (classes, rest) = u16_at(rest)?;
    let (births, rest) = births_at(version, tasks, rest)?;
    let (count, rest) = u32_at(rest)?;
    let first = first_place(version);
    let (facts, rest) = facts_at(alloc, tasks, classes, count, first, rest)?;
    if !rest.is_empty() {
        return Err(OrMemory::Fault(DraftFault::Trailing));
    }
    Ok(Draft {
        tasks,
        classes,
        births,
        facts,
    })
}

/// The draft that all of the bytes encode. Of several faults it returns the first from left to
/// right. At each fact that is first that it is cut off, then that it is none within the counts,
/// then that it does not come after the one before. Bytes that end within the header are truncated
/// if the first four are there and right, and no byte that is there makes the version wrong.
pub fn read_draft(alloc: Global, bytes: &[u8]) -> Result<Draft, OrMemory<DraftFault>>
    // What is read is encoded so.
    ensures found { IfOk result (λ draft. Spells bytes.now (content draft)) }
    // What is encoded so is read, unless it is out of memory.
    ensures only { (d : Content) → Spells bytes.now d → Gives content result (Ok d) }
    // Which fault it is: the first.
    ensures fault { Gives content result (draft_from bytes.now) }
{
    draft_from(alloc, bytes)
}
