//! What is answered to a question, as a value, and what is told besides.

ghost use Rattle.std.specs.Prelude.{◌≡◌, ◌≤◌};
ghost use Rattle.mrc_answer.specs.Statuses.{mig_status, mend_status, status_of};

use crate::faults::{Fault, Unwritten};
use crate::notices::Notices;
use mrc_attack::Attack;
use mrc_base::Fact;
use mrc_check::{Demand, Refused, Stated, System, Why};
use mrc_closure::Chain;
use mrc_draw::Filter;
use mrc_interface::Forms;
use mrc_report::{Ran, Script};
use mrc_rows::Facts;
use mrc_why::Verdict;
use mrc_wiring::Wired;
use mrc_wiring_text::Edition;

/// A system, and what is found of its policy.
#[derive(Drop)]
pub struct JudgedPolicy {
    /// The system.
    pub stated: Stated,
    /// What is found of it.
    pub verdict: Verdict,
    /// The demands of the policy that are told: what is forbidden or waived and is there, and what
    /// is expected and is not.
    pub told: Vec<Demand>,
    /// The number of the line of the policy that is asked for, if one is.
    pub only: Option<u32>,
}

/// A system whose policy is broken, and the calls that were found for what breaks it.
#[derive(Drop)]
pub struct Attacked {
    /// The system.
    pub stated: Stated,
    /// The number of the line of the policy that is asked for, if one is.
    pub only: Option<u32>,
    /// What was found for each line.
    pub found: Vec<Attack>,
    /// The demands of the policy that are told.
    pub told: Vec<Demand>,
}

/// A fact of a system, and a chain that derives it.
#[derive(Drop)]
pub struct Explained {
    /// The system.
    pub system: System,
    /// The fact.
    pub fact: Fact,
    /// The chain.
    pub chain: Chain,
}

/// A fact of a system that no chain derives.
#[derive(Drop)]
pub struct Underived {
    /// The system.
    pub system: System,
    /// The fact.
    pub fact: Fact,
}

/// Facts of a wiring, and which of them are asked for.
#[derive(Drop)]
pub struct Listed {
    /// The wiring.
    pub wired: Wired,
    /// Which facts are asked for.
    pub filter: Filter,
    /// The facts.
    pub facts: Facts,
}

/// Facts of a system that are drawn, and what its policy forbids.
#[derive(Drop)]
pub struct Drawing {
    /// The system. Without a policy it forbids nothing.
    pub stated: Stated,
    /// The facts that are drawn.
    pub facts: Facts,
}

/// A fact of a system that is not drawn, since no chain derives it.
#[derive(Drop)]
pub struct Undrawn {
    /// The system.
    pub stated: Stated,
    /// The fact.
    pub fact: Fact,
}

/// A MIG file as a text of edition 2, and what that says.
#[derive(Drop)]
pub struct MigText<'a> {
    /// The name of the file.
    pub file: &'a str,
    /// The text: the file's own bytes, with the line of the edition in front where it is missing.
    pub bytes: Vec<u8>,
    /// How many bytes of the text stand in front of the file's own.
    pub front: usize,
    /// Whether an older `mig` has cut the file.
    pub was_cut: bool,
    /// What is read of the text.
    pub forms: Forms,
}

/// What became of MIG files as texts of edition 2.
#[derive(Drop)]
pub enum MigEnd {
    /// All were written.
    Written,
    /// None was: too little is read of them.
    Little,
    /// They were written up to this one, which was refused.
    Refused(Unwritten),
}

/// MIG files as texts of edition 2, and what became of them.
#[derive(Drop)]
pub struct MigTexts<'a> {
    /// The files.
    pub texts: Vec<MigText<'a>>,
    /// What became of them.
    pub end: MigEnd,
}

/// A wiring, and a script of its tasks.
#[derive(Drop)]
pub struct WiredScript {
    /// The wiring.
    pub wired: Wired,
    /// The script.
    pub script: Script,
}

/// A system, and the version that its wiring's text names.
#[derive(Drop)]
pub struct Expanded {
    /// What the texts mean.
    pub system: System,
    /// The edition that the wiring's version names, of versions 1 to 3; none of version 4.
    pub older: Option<Edition>,
}

/// The journal of a run after which no task can go on.
#[derive(Drop)]
pub struct Waiting {
    /// The journal.
    pub ran: Ran,
    /// The numbers of the lines of the script that wait for messages, ascending.
    pub lines: Vec<u32>,
}

/// What is answered to a question.
#[derive(Drop)]
pub enum Answer<'a> {
    /// `verify`, `attack`: the least set is a yes. `check`: the certificate is accepted.
    Yes,
    /// `verify`: the policy is broken, or what it expects is lacking. `attack`: only the latter.
    Broken(JudgedPolicy),
    /// `verify`, `attack`: the least set is a yes besides what is waived.
    Waived(JudgedPolicy),
    /// `check`, `live`: the certificate is refused.
    Refused(Refused<Why>),
    /// `attack`: the policy is broken.
    Attacks(Attacked),
    /// `mend`: what there is to mend.
    Mends(mrc_mend::Answer),
    /// `make`: a certificate was made and written; the number of its facts.
    Made(usize),
    /// `explain`: a chain derives the fact.
    Chain(Explained),
    /// `explain`: none does.
    NoChain(Underived),
    /// `facts`: facts of the certificate, or of the least set.
    Facts(Listed),
    /// `facts`, `graph`: the certificate has other numbers than the wiring.
    OtherCounts,
    /// `graph`: facts that are drawn.
    Drawing(Drawing),
    /// `graph`: no chain derives the fact.
    NoDrawing(Undrawn),
    /// `slots`: the system whose slots are listed.
    Slots(System),
    /// `promises`: the system whose lines are listed.
    Promises(System),
    /// `expand`: the system whose lines are printed.
    Expanded(Expanded),
    /// `replay`: the script that is replayed.
    Replay(WiredScript),
    /// `live`: the journal of the script's run.
    Journal(Ran),
    /// `live`: the journal of a run after which no task can go on.
    Waits(Waiting),
    /// `encode`: the bytes of a message.
    Encoded(Vec<u8>),
    /// `decode`: the words of a message.
    Decoded(String),
    /// `mig`: MIG files as texts of edition 2.
    Mig(MigTexts<'a>),
    /// There is no answer.
    Fault(Fault<'a>),
}

/// An answer, and what is told besides.
#[derive(Drop)]
pub struct Reply<'a> {
    /// The answer.
    pub answer: Answer<'a>,
    /// What is told besides.
    pub notices: Notices,
}

/// The status of mends: 1 if there is something to mend and no mend was found.
fn mend_status(answer: &mrc_mend::Answer) -> u8
    ensures exact { result ≡ mend_status answer.now }
    ensures within { result ≤ 2 }
{
    match answer {
        mrc_mend::Answer::Nothing => 0,
        mrc_mend::Answer::Found(mends) => { if mends.mends.is_empty() { 1 } else { 0 } }
    }
}

/// The status of MIG files that are to be written: 2 if not all were.
fn mig_status(end: &MigEnd) -> u8
    ensures exact { result ≡ mig_status end.now }
    ensures within { result ≤ 2 }
{
    match end {
        MigEnd::Written => 0,
        MigEnd::Little | MigEnd::Refused(_) => 2,
    }
}

/// The exit status of an answer, if all of it is printed.
pub fn status_of(answer: &Answer<'_>) -> u8
    ensures exact { result ≡ status_of answer.now }
    ensures within { result ≤ 2 }
{
    match answer {
        Answer::Yes
        | Answer::Waived(_)
        | Answer::Made(_)
        | Answer::Chain(_)
        | Answer::Facts(_)
        | Answer::Drawing(_)
        | Answer::Slots(_)
        | Answer::Promises(_)
        | Answer::Expanded(_)
        | Answer::Encoded(_)
        | Answer::Decoded(_)
        | Answer::Replay(_)
        | Answer::Journal(_) => 0,
        Answer::Broken(_)
        | Answer::Refused(_)
        | Answer::Attacks(_)
        | Answer::NoChain(_)
        | Answer::OtherCounts
        | Answer::NoDrawing(_) => 1,
        Answer::Waits(_) | Answer::Fault(_) => 2,
        Answer::Mends(answer) => mend_status(answer),
        Answer::Mig(mig_texts) => mig_status(&mig_texts.end),
    }
}
