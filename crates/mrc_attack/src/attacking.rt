//! For each line that is broken a script that breaks it, if the search finds one.

ghost use Rattle.std.specs.Prelude.{◌≡◌, ◌++◌, map, flat_map, IfOk, OnOk};
ghost use Rattle.std.specs.List.{All};
ghost use Rattle.std.specs.Option.{option_to_list};
ghost use Rattle.mrc_attack.specs.Attacks.{aims, aim_of, IsAttack, broken_aims};

use crate::aims::{Aim, broken_aim, exposed_aim};
use crate::judging::is_leak;
use crate::printing::{Listing, real_line, script_part};
use crate::searching::{Brought, Hunt, Progress, searched};
use mrc_classes::Rules;
use mrc_closure::Step;
use mrc_why::{Broken, Verdict};
use mrc_wiring::Wired;
use std::alloc::{AllocError, Global};

/// What was found for a line that is broken.
#[derive(Debug, Drop)]
pub struct Attack {
    /// The line.
    pub aim: Aim,
    /// Lines of calls that break it, as they are printed, if any were found.
    pub script: Option<String>,
    /// Whether none was found and not all ways were tried.
    pub cut: bool,
}

/// Judges the lines that were brought. Those that don't break the line are dropped.
fn judged(
    alloc: Global,
    wired: &Wired,
    listing: Listing,
    aim: Aim,
    brought: Brought,
) -> Result<Attack, AllocError>
    ensures aim { IfOk result (λ attack. attack.aim ≡ aim) }
    ensures leak { IfOk result (IsAttack listing wired.now) }
{
    let Brought { script, cut } = brought;
    let Some(calls) = &script else {
        return Ok(Attack { aim, script, cut });
    };
    let heading = real_line(alloc, wired, &aim)?;
    let text = script_part(alloc, listing, heading.as_str(), calls.as_str())?;
    if is_leak(alloc, wired, &aim.line, text.as_str())? {
        let cut = false;
        return Ok(Attack { aim, script, cut });
    }
    let (script, cut) = (None, true);
    Ok(Attack { aim, script, cut })
}

/// Adds what is found, if there is something to look for.
fn add_attack<P: Progress>(
    alloc: Global,
    hunt: &Hunt<'_>,
    aim: Option<Aim>,
    chain: &[Step],
    found: &mut Vec<Attack>,
    progress: &mut P,
) -> Result<(), AllocError>
    requires { All (IsAttack hunt.now.listing hunt.now.wired.now) found.old.items }
    ensures aims { OnOk result
        (map aim_of found.new.items ≡ map aim_of found.old.items ++ option_to_list aim) }
    ensures leaks { OnOk result
        (All (IsAttack hunt.now.listing hunt.now.wired.now) found.new.items) }
{
    let Some(aim) = aim else {
        return Ok(());
    };
    let brought = searched(alloc, hunt, &aim.line, chain, progress)?;
    let attack = judged(alloc, hunt.wired, hunt.listing, aim, brought)?;
    found.push(attack)?;
    Ok(())
}

/// Adds what is found for the broken lines, in order: for all, or for that of one number.
fn add_attacks<P: Progress>(
    alloc: Global,
    hunt: &Hunt<'_>,
    only: Option<u32>,
    broken: &[Broken],
    found: &mut Vec<Attack>,
    progress: &mut P,
) -> Result<(), AllocError>
    requires { All (IsAttack hunt.now.listing hunt.now.wired.now) found.old.items }
    ensures aims { OnOk result (map aim_of found.new.items
        ≡ map aim_of found.old.items ++ flat_map (broken_aims only) broken.now) }
    ensures leaks { OnOk result
        (All (IsAttack hunt.now.listing hunt.now.wired.now) found.new.items) }
{
    for line in broken {
        let aim = broken_aim(only, line);
        add_attack(alloc, hunt, aim, line.steps(), found, progress)?;
    }
    Ok(())
}

/// What is found for the trusted task and the broken lines that are asked for.
fn all_attacks<P: Progress>(
    alloc: Global,
    hunt: &Hunt<'_>,
    verdict: &Verdict,
    only: Option<u32>,
    progress: &mut P,
) -> Result<Vec<Attack>, AllocError>
    ensures lines { IfOk result (λ found. map aim_of found.items
        ≡ aims only verdict.now.exposed verdict.now.broken.items) }
    ensures leaks { IfOk result (λ found.
        All (IsAttack hunt.now.listing hunt.now.wired.now) found.items) }
{
    let mut found = Vec::new(alloc);
    let (aim, chain) = exposed_aim(only, &verdict.exposed);
    add_attack(alloc, hunt, aim, chain, &mut found, progress)?;
    add_attacks(alloc, hunt, only, &verdict.broken, &mut found, progress)?;
    Ok(found)
}

/// For each line that is broken, in order, a script that breaks it, if the search finds one; with
/// `only` for the line of this number alone. If a trusted task could be rewritten, and no one line
/// is asked for, it comes first. `most` bounds the chains that are played for each.
pub fn attacks<P: Progress>(
    alloc: Global,
    wired: &Wired,
    verdict: &Verdict,
    listing: Listing,
    only: Option<u32>,
    most: usize,
    progress: &mut P,
) -> Result<Vec<Attack>, AllocError>
    // All are there that are asked for, in order, and no others.
    ensures lines { IfOk result (λ found. map aim_of found.items
        ≡ aims only verdict.now.exposed verdict.now.broken.items) }
    // What is printed of each script is read as one, and its calls break the line.
    ensures leaks { IfOk result (λ found. All (IsAttack listing wired.now) found.items) }
{
    let rules = Rules::new(alloc, wired)?;
    let hunt = Hunt {
        wired,
        rules: &rules,
        listing,
        most,
    };
    let found = all_attacks(alloc, &hunt, verdict, only, progress);
    drop(rules);
    found
}
