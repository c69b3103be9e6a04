//! The walk through the listed targets: what becomes of each.
ghost use Rattle.std.specs.Prelude.{◌≡◌, ◌≤◌, ◌+◌, ◌++◌, IfOk, OnOk};
ghost use Rattle.target_set.specs.Listed as spec;
ghost use Rattle.target_set.specs.Listed.{group_count, listed_count, files_groups, listed_groups};
ghost use Rattle.target_set.specs.Walk as walked;

use crate::files::FileGroups;
use crate::outcomes::judged;
use crate::prepare::{addressed, default_set, group_base};
use crate::targets::Outcome;
use label_set::{LabelSet, NoMemory, Steps};
use relabel::{Rules, Runner};
use scrape_config::{Group, JobConf};
use std::alloc::Global;
use std::sync::ledger::Ledger;

/// What becomes of a target, by the set of its group's targets. It takes one step.
#[tactic(auto, unfolding(crate::specs::Walk::outcome_from))]
fn outcome_from<L: Ledger>(
    alloc: Global,
    rules: &mut Runner<'_>,
    base: &LabelSet,
    text: &str,
    steps: &mut Steps<L>,
) -> Result<Outcome, NoMemory>
    ensures outcome { IfOk result (λ o. o ≡ walked.outcome_from rules.old base.now text.now) }
    ensures same { rules.new ≡ rules.old }
    ensures steps { OnOk result (steps.new ≡ steps.old + 1) }
    ensures at_least { steps.old ≤ steps.new }
    ensures at_most { steps.new ≤ steps.old + 1 }
{
    let set = addressed(alloc, base, text)?;
    let left = rules.process(alloc, &set, steps)?;
    judged(alloc, left)
}

/// Adds what becomes of each target of a group of a job, by what the job adds to its targets.
fn push_group<L: Ledger>(
    alloc: Global,
    defaults: &LabelSet,
    rules: &mut Runner<'_>,
    group: &Group,
    out: &mut Vec<Outcome>,
    steps: &mut Steps<L>,
) -> Result<(), NoMemory>
    ensures outcomes { OnOk result (out.new.items ≡ out.old.items ++ walked.group_walked defaults.now rules.old group.now) }
    ensures same { rules.new ≡ rules.old }
    ensures steps { OnOk result (steps.new ≡ steps.old + group_count group.now) }
    ensures at_least { steps.old ≤ steps.new }
    ensures at_most { steps.new ≤ steps.old + group_count group.now }
{
    let base = group_base(alloc, defaults, group)?;
    let texts = group.targets.as_slice();
    for text in texts {
        out.push(outcome_from(alloc, rules, &base, text.as_str(), steps)?)?;
    }
    Ok(())
}

/// Adds what becomes of each target of groups.
fn push_groups<L: Ledger>(
    alloc: Global,
    defaults: &LabelSet,
    rules: &mut Runner<'_>,
    groups: &[Group],
    out: &mut Vec<Outcome>,
    steps: &mut Steps<L>,
) -> Result<(), NoMemory>
    ensures outcomes { OnOk result (out.new.items ≡ out.old.items ++ walked.groups_walked defaults.now rules.old groups.now) }
    ensures same { rules.new ≡ rules.old }
    ensures steps { OnOk result (steps.new ≡ steps.old + listed_count groups.now) }
    ensures at_least { steps.old ≤ steps.new }
    ensures at_most { steps.new ≤ steps.old + listed_count groups.now }
{
    for group in groups {
        push_group(alloc, defaults, rules, group, out, steps)?;
    }
    Ok(())
}

/// Adds what becomes of each target of the groups of files.
fn push_files<L: Ledger>(
    alloc: Global,
    defaults: &LabelSet,
    rules: &mut Runner<'_>,
    files: &[FileGroups],
    out: &mut Vec<Outcome>,
    steps: &mut Steps<L>,
) -> Result<(), NoMemory>
    ensures outcomes { OnOk result (out.new.items ≡ out.old.items ++ walked.groups_walked defaults.now rules.old (files_groups files.now)) }
    ensures same { rules.new ≡ rules.old }
    ensures steps { OnOk result (steps.new ≡ steps.old + listed_count (files_groups files.now)) }
    ensures at_least { steps.old ≤ steps.new }
    ensures at_most { steps.new ≤ steps.old + listed_count (files_groups files.now) }
{
    for file in files {
        let groups = file.groups.as_slice();
        push_groups(alloc, defaults, rules, groups, out, steps)?;
    }
    Ok(())
}

/// What becomes of each target that groups list, in their order. Each takes one step.
#[tactic(auto, using(crate::proofs::WalkLemmas::walked_groups))]
pub fn outcomes_of<L: Ledger>(
    alloc: Global,
    conf: &JobConf,
    rules: &Rules,
    groups: &[Group],
    steps: &mut Steps<L>,
) -> Result<Vec<Outcome>, NoMemory>
    ensures outcomes { IfOk result (λ v. v.items ≡ spec.outcomes_of conf.now rules.now groups.now) }
    ensures steps { OnOk result (steps.new ≡ steps.old + listed_count groups.now) }
    ensures at_least { steps.old ≤ steps.new }
    ensures at_most { steps.new ≤ steps.old + listed_count groups.now }
{
    let defaults = default_set(alloc, conf)?;
    let mut runner = rules.runner(alloc)?;
    let mut out = Vec::new(alloc);
    push_groups(alloc, &defaults, &mut runner, groups, &mut out, steps)?;
    Ok(out)
}

/// What becomes of each target that a job and its files list, in their order. Each takes one step.
#[tactic(auto, using(crate::proofs::WalkLemmas::listed_walked, crate::proofs::WalkLemmas::listed_counted))]
pub fn outcomes_with_files<L: Ledger>(
    alloc: Global,
    conf: &JobConf,
    rules: &Rules,
    files: &[FileGroups],
    steps: &mut Steps<L>,
) -> Result<Vec<Outcome>, NoMemory>
    ensures outcomes { IfOk result (λ v. v.items ≡ spec.outcomes_of conf.now rules.now (listed_groups conf.now files.now)) }
    ensures steps { OnOk result (steps.new ≡ steps.old + listed_count (listed_groups conf.now files.now)) }
    ensures at_least { steps.old ≤ steps.new }
    ensures at_most { steps.new ≤ steps.old + listed_count (listed_groups conf.now files.now) }
{
    let defaults = default_set(alloc, conf)?;
    let mut runner = rules.runner(alloc)?;
    let mut out = Vec::new(alloc);
    let own = conf.groups.as_slice();
    push_groups(alloc, &defaults, &mut runner, own, &mut out, steps)?;
    push_files(alloc, &defaults, &mut runner, files, &mut out, steps)?;
    Ok(out)
}
