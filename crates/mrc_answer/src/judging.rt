//! What is found of a system and its policy, and the replies that are made of it.

ghost use Rattle.std.specs.Prelude.{◌≡◌, true, false, Ok, IfOk};
ghost use Rattle.mrc_facts.specs.Sets.{has};
ghost use Rattle.mrc_model.specs.Rules.{IsLeast};
ghost use Rattle.mrc_wiring.specs.Table.{wiring_of};
ghost use Rattle.mrc_answer.specs.Judging as definitions;
ghost use Rattle.mrc_answer.specs.Judging.{IsJudged, IsShownLine, IsBrokenReply, IsWaivedReply};
ghost use Rattle.mrc_answer.specs.Judging.{IsYesReply};
ghost use Rattle.mrc_answer.specs.Notices.{AreNotices, AreWaivedNotices};
ghost use Rattle.mrc_answer.specs.Texts as texts;
ghost use Rattle.mrc_answer.specs.declared.answers.Answer.TheVariants as answers;

use crate::answers::{Answer, JudgedPolicy, Reply};
use crate::files::Files;
use crate::gathering::{notices, waived_notices};
use crate::replies::yes_reply;
use mrc_check::{Demand, Stated};
use mrc_why::{Verdict, are_met, told, verify};
use std::alloc::{AllocError, Global};

/// What is found of a system: the verdict on its claim, and the demands of its policy that are told.
#[derive(Drop)]
pub(crate) struct Judgement {
    pub(crate) verdict: Verdict,
    pub(crate) told: Vec<Demand>,
}

impl Judgement {
    /// Whether nothing is objected to, and nothing that is expected is lacking.
    pub(crate) fn is_passed(&self) -> bool
        ensures { result ≡ definitions.is_passed self.now }
    {
        self.verdict.is_yes() && are_met(self.told.as_slice())
    }
}

/// What is found of a system.
pub(crate) fn judged(alloc: Global, stated: &Stated) -> Result<Judgement, AllocError>
    ensures { IfOk result (IsJudged stated.now) }
{
    let verdict = verify(alloc, &stated.claim)?;
    let told = told(alloc, &verdict.facts, stated.demands.as_slice())?;
    Ok(Judgement { verdict, told })
}

/// That the policy is broken: all that is told, or what is told of one line.
pub(crate) fn broken_reply<'a>(
    alloc: Global,
    files: &Files<'_>,
    stated: Stated,
    found: Judgement,
    line: Option<usize>,
    only: Option<u32>,
) -> Result<Reply<'a>, AllocError>
    requires says { texts.stated files.now.texts ≡ Ok stated }
    requires judged { IsJudged stated found }
    requires not_passed { definitions.is_passed found ≡ false }
    requires shown { IsShownLine line only found }
    ensures { IfOk result (IsBrokenReply line files.now) }
{
    let _line = line;
    let notices = match notices(alloc, files, &stated, &found.verdict.facts) {
        Ok(notices) => notices,
        Err(error) => {
            drop((stated, found));
            return Err(error);
        }
    };
    let Judgement { verdict, told } = found;
    Ok(Reply {
        answer: Answer::Broken(JudgedPolicy {
            stated,
            verdict,
            told,
            only,
        }),
        notices,
    })
}

/// A yes besides what is waived: all of it, or that of one line.
pub(crate) fn waived_reply<'a>(
    alloc: Global,
    files: &Files<'_>,
    stated: Stated,
    found: Judgement,
    line: Option<usize>,
    only: Option<u32>,
) -> Result<Reply<'a>, AllocError>
    requires says { texts.stated files.now.texts ≡ Ok stated }
    requires judged { IsJudged stated found }
    requires passed { definitions.is_passed found ≡ true }
    requires same { only ≡ line }
    ensures { IfOk result (IsWaivedReply line files.now) }
{
    let _line = line;
    let notices = match waived_notices(alloc, files, &stated, &found.verdict.facts) {
        Ok(notices) => notices,
        Err(error) => {
            drop((stated, found));
            return Err(error);
        }
    };
    let Judgement { verdict, told } = found;
    Ok(Reply {
        answer: Answer::Waived(JudgedPolicy {
            stated,
            verdict,
            told,
            only,
        }),
        notices,
    })
}

/// A yes of which nothing is told.
pub(crate) fn passed_reply<'a>(
    alloc: Global,
    files: &Files<'_>,
    stated: Stated,
    found: Judgement,
) -> Result<Reply<'a>, AllocError>
    requires says { texts.stated files.now.texts ≡ Ok stated }
    requires judged { IsJudged stated found }
    requires passed { definitions.is_passed found ≡ true }
    ensures { IfOk result (IsYesReply files.now) }
{
    let reply = yes_reply(alloc, files, stated, &found.verdict.facts);
    drop(found);
    reply
}
