//! What becomes of the targets that a job lists.
ghost use Rattle.std.specs.Prelude.{◌≡◌, ◌≤◌, ◌+◌, length, IfOk, OnErr};
ghost use Rattle.scrape_config.specs.Counts.{most_targets};
ghost use Rattle.target_set.specs.Listed as spec;

use crate::counts::{dropped_of, refused_of};
use crate::files::FileGroups;
use crate::kept::kept_of;
use crate::walk::{outcomes_of, outcomes_with_files};
use label_set::{LabelSet, ListOf, NoMemory, Steps};
use relabel::Rules;
use scrape_config::{Group, JobConf};
use scrape_limits::exceeds;
use std::alloc::Global;
use std::marker::Model;
use std::sync::ledger::Ledger;

/// Why a target is refused. The first cause in this order is reported.
#[derive(Clone, Copy, PartialEq, Eq, Debug)]
pub enum TargetCause {
    /// It has no `__address__`.
    NoAddress,
    /// Its address holds one of the bytes `/ ? # @ \`.
    BadAddress,
    /// Its `__scheme__` is absent, or neither `http` nor `https`.
    BadScheme,
    /// Its scheme, `://`, its address and `/` are no URL.
    BadUrl,
}

/// What becomes of a listed target.
#[derive(Drop, Debug)]
pub enum Outcome {
    /// A rule drops it.
    Dropped,
    /// It is refused.
    Refused(TargetCause),
    /// It is kept, with this identity.
    Kept(LabelSet),
}

/// A target that is kept.
#[derive(Drop, Debug)]
pub struct Target {
    /// Its labels after relabelling, without those whose names begin with `__meta_`.
    pub identity: LabelSet,
    /// Its identity without the names that begin with `__`: what its samples bear.
    pub labels: LabelSet,
}

/// Kept targets. Contracts see their list.
#[derive(Drop, Debug)]
pub struct Targets {
    pub items: Vec<Target>,
}

impl Model for Targets {
    ghost use Rattle.std.specs.Prelude.{List};
    ghost use Rattle.target_set.specs.declared.targets.Target.{Target};

    ghost Value = { List Target };

    ghost view = { λ l. l.items.items };
}

/// A listed target that is refused.
#[derive(Clone, Copy, PartialEq, Eq, Debug)]
pub struct RefusedTarget {
    /// Its place among the listed targets, counted from 0.
    pub place: u32,
    pub cause: TargetCause,
}

/// Refused targets.
pub type RefusedList = ListOf<RefusedTarget>;

/// What becomes of the targets that a job lists.
#[derive(Drop, Debug)]
pub struct TargetList {
    /// The kept targets, each identity once, in the order of their first places.
    pub kept: Targets,
    /// The refused ones by rising place.
    pub refused: RefusedList,
    /// How many are dropped by a rule.
    pub dropped: u32,
    /// Whether more targets are kept than `target_limit`.
    pub over: bool,
}

#[tactic(auto, unfolding(crate::specs::Listed::sorted_out))]
fn sorted_out(alloc: Global, limit: u64, outcomes: &[Outcome]) -> Result<TargetList, NoMemory>
    requires { length outcomes.now ≤ most_targets }
    ensures { IfOk result (λ l. l ≡ spec.sorted_out limit outcomes.now) }
{
    let kept = kept_of(alloc, outcomes)?;
    let over = exceeds(limit, kept.items.len() as u64);
    Ok(TargetList {
        kept,
        refused: refused_of(alloc, outcomes)?,
        dropped: dropped_of(outcomes),
        over,
    })
}

/// What becomes of the targets that groups of a job list: the kept ones with their labels, each identity once, the refused ones with
/// their places and causes, and how many a rule drops.
///
/// A target starts with the labels of its group, the name of the group's file as `__meta_filepath`, and its text as `__address__`.
/// `job`, `__scheme__`, `__metrics_path__` and a `__param_` label for each parameter come in where nothing else is set. The rules run
/// once, which takes one step. What they leave is judged by `TargetCause`. A kept target's `instance` is its address where none is set.
///
/// The source is "Configuration" of the Prometheus documentation, scrape_config, static_config and relabel_config.
///
/// # Errors
///
/// The only error is out of memory.
#[tactic(auto, unfolding(crate::specs::Listed::target_list), using(crate::proofs::WalkLemmas::outcome_count))]
pub fn targets_of<L: Ledger>(
    alloc: Global,
    conf: &JobConf,
    rules: &Rules,
    groups: &[Group],
    steps: &mut Steps<L>,
) -> Result<TargetList, NoMemory>
    requires few { spec.listed_count groups.now ≤ most_targets }
    ensures targets { IfOk result (λ l. l ≡ spec.target_list conf.now rules.now groups.now) }
    ensures steps { IfOk result (λ _. steps.new ≡ steps.old + spec.listed_count groups.now) }
    ensures at_least { steps.old ≤ steps.new }
    ensures at_most { steps.new ≤ steps.old + spec.listed_count groups.now }
{
    let outcomes = outcomes_of(alloc, conf, rules, groups, steps)?;
    sorted_out(alloc, conf.limits.target, outcomes.as_slice())
}

/// What becomes of the targets that a job lists: those of its own groups, and then those of the groups of its files, file after file,
/// all of them under one limit, with one place each, and each identity once. The groups are walked where they lie, and not copied.
///
/// # Errors
///
/// The only error is out of memory.
#[tactic(auto, unfolding(crate::specs::Listed::target_list), using(crate::proofs::WalkLemmas::outcome_count))]
pub fn targets_with_files<L: Ledger>(
    alloc: Global,
    conf: &JobConf,
    rules: &Rules,
    files: &[FileGroups],
    steps: &mut Steps<L>,
) -> Result<TargetList, NoMemory>
    requires few { spec.listed_count (spec.listed_groups conf.now files.now) ≤ most_targets }
    ensures targets { IfOk result (λ l. l ≡ spec.target_list conf.now rules.now (spec.listed_groups conf.now files.now)) }
    ensures steps { IfOk result (λ _. steps.new ≡ steps.old + spec.listed_count (spec.listed_groups conf.now files.now)) }
    ensures at_least { steps.old ≤ steps.new }
    ensures at_most { steps.new ≤ steps.old + spec.listed_count (spec.listed_groups conf.now files.now) }
{
    let outcomes = outcomes_with_files(alloc, conf, rules, files, steps)?;
    sorted_out(alloc, conf.limits.target, outcomes.as_slice())
}
