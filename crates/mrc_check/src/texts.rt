//! From the bytes of the files to the verdict, stage by stage.

ghost use Rattle.std.specs.Prelude.{◌≡◌, IfOk, IfErr, map, slice_get};
ghost use Rattle.std.specs.Option.{option_map};
ghost use Rattle.mrc_base.specs.Reading.{Gives, UnlessMemory};
ghost use Rattle.mrc_interface.specs.Reading.{GivesAs, step};
ghost use Rattle.mrc_wiring.specs.declared.faults.ResolveFault.{ResolveFault};
ghost use Rattle.mrc_wiring.specs.Resolving.{task_names};
ghost use Rattle.mrc_check.specs.Verdict.{Case};
ghost use Rattle.mrc_check.specs.Texts.{SayYes, GivesOrReturns, meaningless};
ghost use Rattle.mrc_check.specs.Texts.{InWiring, lines_fault, system_over, system_of, stated_by};
ghost use Rattle.mrc_check.specs.Texts.{InPolicy, demanded_by, policy_over};
ghost use Rattle.mrc_check.specs.Texts.{stated_of, answered_by, case_of, Tells};

use crate::confined::{Confined, Refused, check};
use crate::demands::{Demand, demands_of, forbidden_in};
use crate::faults::{CaseFault, PolicyFault, WiringFault};
use crate::verdict::Why;
use mrc_base::{Copies, OrMemory};
use mrc_certificate::read_draft;
use mrc_interface::read_interfaces;
use mrc_stand_for::Known;
use mrc_wide_policy::{PolicyRefusal, PolicyStands, asked_by, read_stands};
use mrc_wide_text::{Said, read_said};
use mrc_wiring::{Claim, Interfaces, ResolveFault, Wired};
use mrc_wiring_text::{Name, WiringLine, WiringSays};
use std::alloc::{AllocError, Global};
use std::marker::Model;
use std::thread::Threads;

/// What MIG files and a wiring mean.
#[derive(Drop)]
pub struct System {
    /// The lines that the wiring stands for: its own, or, of version 4, those of its wide lines.
    pub lines: Vec<WiringLine>,
    /// What is known after them, by which a policy is read.
    pub known: Known,
    /// What they mean over the interfaces of the MIG files.
    pub wired: Wired,
}

impl Model for System {
    ghost use Rattle.mrc_check.specs.Texts.{Meant};

    ghost Value = { Meant };

    ghost view = { λ s. record { lines = s.lines.items; known = s.known; table = s.wired } };
}

/// A policy, as it is asked for.
#[derive(Drop)]
pub struct PolicyText<'a> {
    /// Its bytes.
    pub bytes: &'a [u8],
    /// Whether what it waives is let pass.
    pub waives: bool,
}

impl<'a> Model for PolicyText<'a> {
    ghost use Rattle.mrc_check.specs.Texts.{Policy};

    ghost Value = { Policy };

    ghost view = { λ p. record { bytes = p.bytes.now; waives = p.waives } };
}

/// What MIG files, a wiring and a policy mean.
#[derive(Drop)]
pub struct Stated {
    /// The lines that the wiring stands for.
    pub lines: Vec<WiringLine>,
    /// What they mean, and what the policy forbids.
    pub claim: Claim,
    /// What the policy stands for.
    pub stands: PolicyStands,
    /// Each holding that the policy demands something of, in its order.
    pub demands: Vec<Demand>,
}

impl Model for Stated {
    ghost use Rattle.mrc_check.specs.Texts as definitions;

    ghost Value = { definitions.Stated };

    ghost view = { λ s. record {
      lines = s.lines.items;
      claim = s.claim;
      stands = s.stands;
      demands = s.demands.items;
    } };
}

/// Why texts are not accepted.
#[derive(Debug, Drop)]
pub enum TextsFault {
    /// One of them has no meaning.
    Meaning(CaseFault),
    /// All have a meaning, and the certificate is refused.
    Check(Refused<Why>),
}

/// The name of a task by its number: the place of its line among those that name tasks.
fn task_named(lines: &[WiringLine], number: u32) -> Option<&Name>
    ensures { option_map (λ name. name.now) result ≡ slice_get (task_names lines.now) number }
{
    let mut left = number;
    for line in lines {
        if let WiringSays::Task(name) = &line.says {
            if left == 0 {
                return Some(name);
            }
            left -= 1;
        }
    }
    None
}

/// A fault of lines as it is reported: a task with too many names is named.
fn lines_fault(
    alloc: Global,
    lines: &[WiringLine],
    fault: ResolveFault,
) -> Result<WiringFault, AllocError>
    ensures { IfOk result (λ told. told ≡ lines_fault lines.now fault) }
{
    if let ResolveFault::TooManyNames(task) = fault {
        if let Some(name) = task_named(lines, task) {
            return Ok(WiringFault::TooManyNames(name.copy(alloc)?));
        }
    }
    Ok(WiringFault::Lines(fault))
}

/// Why lines have no meaning together.
fn lines_refusal(
    alloc: Global,
    lines: &[WiringLine],
    refusal: OrMemory<ResolveFault>,
) -> OrMemory<CaseFault>
    ensures { UnlessMemory (λ told. (fault : ResolveFault) × (refusal ≡ OrMemory.Fault fault)
        × (meaningless told ≡ InWiring (lines_fault lines.now fault))) result }
{
    match refusal {
        OrMemory::Fault(fault) => match lines_fault(alloc, lines, fault) {
            Ok(fault) => OrMemory::Fault(CaseFault::Wiring(fault)),
            Err(AllocError) => OrMemory::Memory,
        },
        OrMemory::Memory => OrMemory::Memory,
    }
}

/// What a policy's bytes stand for over what is known of a wiring.
fn policy_over(
    alloc: Global,
    known: &Known,
    policy: &[u8],
) -> Result<PolicyStands, OrMemory<CaseFault>>
    ensures { GivesAs (λ stands. stands) meaningless result
        (step InPolicy (policy_over known.now policy.now)) }
{
    match read_stands(alloc, known.copy(alloc)?, policy) {
        Ok(stands) => Ok(stands),
        Err(refusal) => Err(refusal.map_fault(|refusal| {
            CaseFault::Policy(match refusal {
                PolicyRefusal::Text(fault) => PolicyFault::Text(fault),
                PolicyRefusal::Stands(fault) => PolicyFault::Stands(fault),
            })
        })),
    }
}

/// What a policy stands for, and each holding that it demands something of.
#[derive(Drop)]
struct Demanded {
    stands: PolicyStands,
    demands: Vec<Demand>,
}

impl Model for Demanded {
    ghost use Rattle.mrc_check.specs.Texts as definitions;

    ghost Value = { definitions.Demanded };

    ghost view = { λ d. record { stands = d.stands; demands = d.demands.items } };
}

/// What a policy's bytes demand over a wiring.
fn demanded_by(
    alloc: Global,
    known: &Known,
    wired: &Wired,
    policy: &[u8],
) -> Result<Demanded, OrMemory<CaseFault>>
    ensures { GivesAs (λ made. made) meaningless result
        (step InPolicy (demanded_by known.now wired.now policy.now)) }
{
    let stands = policy_over(alloc, known, policy)?;
    let asked = asked_by(alloc, &stands)?;
    match demands_of(alloc, wired, &asked) {
        Ok(demands) => Ok(Demanded { stands, demands }),
        Err(refusal) => {
            drop(stands);
            Err(refusal.map_fault(|fault| CaseFault::Policy(PolicyFault::Lines(fault))))
        }
    }
}

impl System {
    /// The system that the bytes of a wiring mean over interfaces, which the wiring keeps. With a
    /// refusal they come back.
    pub fn over(
        alloc: Global,
        interfaces: Interfaces,
        wiring: &[u8],
    ) -> Result<System, (Interfaces, OrMemory<CaseFault>)>
        ensures exact { GivesOrReturns (λ system. system) meaningless interfaces result
            (step InWiring (system_over interfaces wiring.now)) }
        ensures kept { IfOk result (λ system. system.table.interfaces ≡ interfaces) }
    {
        let Said {
            edition,
            lines,
            end,
        } = match read_said(alloc, wiring) {
            Ok(said) => said,
            Err(refusal) => {
                let fault = refusal.map_fault(|fault| CaseFault::Wiring(WiringFault::Text(fault)));
                return Err((interfaces, fault));
            }
        };
        let wired = match Wired::over(alloc, edition, lines.as_slice(), interfaces) {
            Ok(wired) => wired,
            Err((interfaces, why)) => {
                let fault = lines_refusal(alloc, lines.as_slice(), why);
                drop((lines, end));
                return Err((interfaces, fault));
            }
        };
        match end {
            Ok(known) => {
                Ok(System {
                    lines,
                    known,
                    wired,
                })
            }
            Err(fault) => {
                drop(lines);
                let fault = CaseFault::Wiring(WiringFault::Stands(fault));
                Err((wired.into_interfaces(), OrMemory::Fault(fault)))
            }
        }
    }

    /// The system that the bytes of MIG files and of a wiring mean together; or the first of them
    /// that has no meaning.
    pub fn read(
        alloc: Global,
        defs: &[Vec<u8>],
        wiring: &[u8],
    ) -> Result<System, OrMemory<CaseFault>>
        ensures { GivesAs (λ system. system) meaningless result
            (system_of (map (λ bytes. bytes.items) defs.now) wiring.now) }
    {
        let interfaces = match read_interfaces(alloc, defs) {
            Ok(interfaces) => interfaces,
            Err(refusal) => return Err(refusal.map_fault(CaseFault::Defs)),
        };
        let interfaces = match Interfaces::new(alloc, interfaces) {
            Ok(interfaces) => interfaces,
            Err((back, _)) => {
                drop(back);
                return Err(OrMemory::Memory);
            }
        };
        match System::over(alloc, interfaces, wiring) {
            Ok(system) => Ok(system),
            Err((back, refusal)) => {
                drop(back);
                Err(refusal)
            }
        }
    }

    /// The system with what a policy forbids in it. With a refusal the system comes back.
    pub fn claim(
        self,
        alloc: Global,
        policy: &PolicyText<'_>,
    ) -> Result<Stated, (System, OrMemory<CaseFault>)>
        ensures { GivesOrReturns (λ stated. stated) meaningless self result
            (stated_by self policy.now) }
    {
        let made = match demanded_by(alloc, &self.known, &self.wired, policy.bytes) {
            Ok(made) => made,
            Err(refusal) => return Err((self, refusal)),
        };
        let forbidden = match forbidden_in(alloc, policy.waives, &made.demands) {
            Ok(forbidden) => forbidden,
            Err(AllocError) => {
                drop(made);
                return Err((self, OrMemory::Memory));
            }
        };
        let System {
            lines,
            known,
            wired,
        } = self;
        let Demanded { stands, demands } = made;
        drop(known);
        Ok(Stated {
            lines,
            claim: Claim::over(wired, forbidden),
            stands,
            demands,
        })
    }
}

impl Stated {
    /// What the bytes of MIG files, of a wiring and of a policy mean together; or the first of them
    /// that has no meaning.
    pub fn read(
        alloc: Global,
        defs: &[Vec<u8>],
        wiring: &[u8],
        policy: &PolicyText<'_>,
    ) -> Result<Stated, OrMemory<CaseFault>>
        ensures { GivesAs (λ stated. stated) meaningless result
            (stated_of (map (λ bytes. bytes.items) defs.now) wiring.now policy.now) }
    {
        match System::read(alloc, defs, wiring)?.claim(alloc, policy) {
            Ok(stated) => Ok(stated),
            Err((back, refusal)) => {
                drop(back);
                Err(refusal)
            }
        }
    }
}

/// What a certificate answers to a claim.
fn answered_by(
    rt: &(impl Threads + Sync),
    alloc: Global,
    claim: Claim,
    certificate: &[u8],
) -> Result<Confined, OrMemory<TextsFault>>
    ensures { Tells result (answered_by claim certificate.now) }
{
    let draft = match read_draft(alloc, certificate) {
        Ok(draft) => draft,
        Err(refusal) => {
            drop(claim);
            return Err(refusal.map_fault(|f| TextsFault::Meaning(CaseFault::Certificate(f))));
        }
    };
    match check(rt, alloc, claim, draft) {
        Ok(confined) => Ok(confined),
        Err(Refused { claim, draft, why }) => match why {
            OrMemory::Fault(why) => Err(OrMemory::Fault(TextsFault::Check(Refused {
                claim,
                draft,
                why,
            }))),
            OrMemory::Memory => {
                drop((claim, draft));
                Err(OrMemory::Memory)
            }
        },
    }
}

/// What the files say, stage by stage.
fn checked(
    rt: &(impl Threads + Sync),
    alloc: Global,
    defs: &[Vec<u8>],
    wiring: &[u8],
    policy: &PolicyText<'_>,
    certificate: &[u8],
) -> Result<Confined, OrMemory<TextsFault>>
    ensures { Tells result (case_of (map (λ bytes. bytes.items) defs.now) wiring.now policy.now
        certificate.now) }
{
    match Stated::read(alloc, defs, wiring, policy) {
        Ok(
            Stated {
                lines,
                claim,
                stands,
                demands,
            },
        ) => {
            drop((lines, stands, demands));
            answered_by(rt, alloc, claim, certificate)
        }
        Err(refusal) => Err(refusal.map_fault(TextsFault::Meaning)),
    }
}

/// Checks a certificate for a wiring and a policy over MIG files, all from their bytes. It is
/// accepted if and only if each file is a MIG file, the wiring over their interfaces and the policy
/// have meanings, and the certificate encodes a draft that [`check`] accepts. If not, the first
/// step that refuses is returned, in the order of the arguments, or that memory ran out. Of a MIG
/// file that the grammar refuses the fault is only that it is so; of the tokens or ids it is also
/// where and why.
pub fn check_texts(
    rt: &(impl Threads + Sync),
    alloc: Global,
    defs: &[Vec<u8>],
    wiring: &[u8],
    policy: &PolicyText<'_>,
    certificate: &[u8],
) -> Result<Confined, OrMemory<TextsFault>>
    // A yes is right.
    ensures found { IfOk result (SayYes (map (λ bytes. bytes.items) defs.now) wiring.now policy.now
        certificate.now) }
    // Where the answer is yes it is given, unless memory runs out.
    ensures only { (case : Case)
        → SayYes (map (λ bytes. bytes.items) defs.now) wiring.now policy.now certificate.now case
        → IfErr result (λ refusal. refusal ≡ OrMemory.Memory) }
    // Which refusal it is: that of the first step.
    ensures fault { Tells result (case_of (map (λ bytes. bytes.items) defs.now) wiring.now
        policy.now certificate.now) }
{
    checked(rt, alloc, defs, wiring, policy, certificate)
}
