//! What a load and an update of a file's targets make of the configuration in force.
ghost use Rattle.std.specs.Prelude.{◌≡◌, ◌≤◌, ◌+◌, ◌∷◌, [], ◌++◌, map, nat_lt, position, option_map, option_copied, unwrap_or, None, Ok, Err, IfOk, IfErr, OnOk, All, codes};
ghost use Rattle.std.specs.List.{find, list_any, sum_by};
ghost use Rattle.std.specs.Str.{bytes_eq};
ghost use Rattle.config_fields.specs.Places.{item_place};
ghost use Rattle.scrape_config.specs.Reading.{jobs_place};
ghost use Rattle.scrape_config.specs.declared.conf.Job.{Job};
ghost use Rattle.scrape_config.specs.Bounds.{IsBounded};
ghost use Rattle.jobs_in_force.specs.Jobs as spec;
ghost use Rattle.jobs_in_force.specs.Listed as listed;

use crate::jobs::{Filed, InForce, SharedFiles, SharedJob, SharedTargets};
use config_fields::ConfFault;
use config_fields::place::{at_field, at_item};
use label_set::{Name, NoMemory, Steps};
use scrape_config::{Conf, ConfError, GroupList, Job, MOST_TARGETS, read_conf, read_groups};
use std::alloc::Global;
use std::sync::ledger::Ledger;
use target_set::{FileGroups, SharedGroups, listed_within, targets_with_files};

/// The most targets that all jobs list together.
pub const MOST_TARGETS_OF_ALL: u64 = 100_000;

pub fn is_named(name: &Name, job: &InForce) -> bool
    ensures { result ≡ spec.is_named name.now job.now }
{
    name.as_str() == job.job.job().conf.job_name.as_str()
}

/// The job of a name.
pub fn job_named<'a>(name: &Name, jobs: &'a [InForce]) -> Option<&'a InForce>
    ensures { option_copied result ≡ spec.job_named name.now jobs.now }
{
    jobs.iter().find(|job| is_named(name, job))
}

pub fn is_of_file(file: &Name, groups: &FileGroups) -> bool
    ensures { result ≡ spec.is_of_file file.now groups.now }
{
    file.as_str() == groups.file.as_str()
}

fn groups_in<'a>(file: &Name, files: &'a [FileGroups]) -> Option<&'a SharedGroups>
    ensures { option_copied result ≡ spec.groups_in file.now files.now }
{
    match files.iter().find(|groups| is_of_file(file, groups)) {
        None => None,
        Some(found) => Some(&found.groups),
    }
}

fn no_groups(alloc: Global) -> Result<SharedGroups, NoMemory>
    ensures { IfOk result (λ g. g ≡ []) }
{
    SharedGroups::new(
        alloc,
        GroupList {
            items: Vec::new(alloc),
        },
    )
}

fn shared_groups(alloc: Global, found: Option<&SharedGroups>) -> Result<SharedGroups, NoMemory>
    ensures { IfOk result (λ g. g ≡ unwrap_or (option_copied found.entry) []) }
{
    match found {
        None => no_groups(alloc),
        Some(groups) => groups.share(),
    }
}

/// The groups that a file had, of the job before, or none.
fn groups_before(
    alloc: Global,
    before: Option<&InForce>,
    file: &Name,
) -> Result<SharedGroups, NoMemory>
    ensures { IfOk result (λ g. g ≡ spec.groups_before (option_copied before.entry) file.now) }
{
    match before {
        None => no_groups(alloc),
        Some(job) => shared_groups(alloc, groups_in(file, job.files.as_slice())),
    }
}

fn kept_file(alloc: Global, before: Option<&InForce>, file: &Name) -> Result<FileGroups, NoMemory>
    ensures { IfOk result (λ f. f ≡ spec.kept_file (option_copied before.entry) file.now) }
{
    Ok(FileGroups {
        file: file.copy(alloc)?,
        groups: groups_before(alloc, before, file)?,
    })
}

/// The groups of files that a load keeps.
fn kept_files(
    alloc: Global,
    before: Option<&InForce>,
    files: &[Name],
) -> Result<SharedFiles, NoMemory>
    ensures { IfOk result (λ f. f ≡ map (spec.kept_file (option_copied before.entry)) files.now) }
{
    let mut items = Vec::new(alloc);
    for file in files {
        let kept = kept_file(alloc, before, file)?;
        items.reserve(1)?;
        items.push_reserved(kept);
    }
    SharedFiles::new(alloc, items)
}

/// A job of a load with the groups that its files keep.
fn loaded_job(alloc: Global, jobs: &[InForce], job: Job) -> Result<Filed, NoMemory>
    requires { IsBounded job.conf }
    ensures { IfOk result (λ f. f ≡ spec.loaded_job jobs.now job) }
{
    let before = job_named(&job.conf.job_name, jobs);
    let files = kept_files(alloc, before, job.conf.files.as_slice())?;
    let job = SharedJob::new(alloc, job)?;
    Ok(Filed { job, files })
}

/// The jobs of a load with the groups that their files keep.
fn filed_by_load(alloc: Global, jobs: &[InForce], loaded: Vec<Job>) -> Result<Vec<Filed>, NoMemory>
    requires { All (λ (j : Job). IsBounded j.conf) loaded.items }
    ensures { IfOk result (λ v. v.items ≡ spec.filed_by_load jobs.now loaded.items) }
{
    let mut filed = Vec::with_capacity(alloc, loaded.len())?;
    for job in loaded {
        let one = loaded_job(alloc, jobs, job)?;
        filed.push(one)?;
    }
    Ok(filed)
}

#[tactic(auto, unfolding(crate::specs::Jobs::is_crowd))]
fn is_crowd(filed: &Filed) -> bool
    ensures { result ≡ spec.is_crowd filed.now }
{
    listed_within(&filed.job.job().conf, filed.files.as_slice(), MOST_TARGETS).is_none()
}

pub fn crowd_place(filed: &[Filed]) -> Option<usize>
    ensures { result ≡ position spec.is_crowd filed.now }
{
    filed.iter().position(|job| is_crowd(job))
}

/// Whether jobs list more targets together than all may.
fn are_crowd(filed: &[Filed]) -> bool
    ensures { result ≡ nat_lt spec.most_targets_of_all (sum_by spec.count_of filed.now) }
{
    let mut left = MOST_TARGETS_OF_ALL;
    for one in filed {
        let Some(count) = listed_within(&one.job.job().conf, one.files.as_slice(), left) else {
            return true;
        };
        left -= count;
    }
    false
}

pub fn crowd_of_all(alloc: Global, filed: &[Filed]) -> Result<Option<ConfFault>, NoMemory>
    ensures { IfOk result (λ o. o ≡ spec.crowd_by spec.no_place (sum_by spec.count_of filed.now) None) }
{
    if !are_crowd(filed) {
        return Ok(None);
    }
    Ok(Some(ConfFault::TooMany {
        place: Name::from_str(alloc, "")?,
        limit: MOST_TARGETS_OF_ALL,
    }))
}

#[tactic(auto, unfolding(scrape_config::specs::Reading::jobs_place))]
fn job_place(alloc: Global, number: usize) -> Result<Name, NoMemory>
    ensures { IfOk result (λ n. n ≡ item_place jobs_place number) }
{
    let jobs = at_field(alloc, "", "scrape_configs")?;
    at_item(alloc, jobs.as_str(), number)
}

/// Why jobs of a load are refused by how many targets they list.
#[tactic(auto, unfolding(crate::specs::Jobs::load_crowd, crate::specs::Jobs::crowd_in))]
fn load_crowd(alloc: Global, filed: &[Filed]) -> Result<Option<ConfFault>, NoMemory>
    ensures { IfOk result (λ o. o ≡ spec.load_crowd filed.now) }
{
    match crowd_place(filed) {
        None => crowd_of_all(alloc, filed),
        Some(number) => {
            let place = job_place(alloc, number)?;
            let limit = MOST_TARGETS;
            Ok(Some(ConfFault::TooMany { place, limit }))
        }
    }
}

fn filed_or_crowd(alloc: Global, filed: Vec<Filed>) -> Result<Vec<Filed>, ConfError>
    ensures taken { IfOk result (λ v. spec.filed_or_crowd filed.items ≡ Ok v.items) }
    ensures refused { IfErr result (λ e. spec.IsLoadCause (spec.filed_or_crowd filed.items) e) }
{
    match load_crowd(alloc, &filed)? {
        None => Ok(filed),
        Some(fault) => Err(ConfError::Bad(fault)),
    }
}

/// The jobs of a load with the groups that their files keep, or the fault for which it is refused.
#[tactic(auto, unfolding(crate::specs::Jobs::loaded))]
pub fn load_of(alloc: Global, jobs: &[InForce], text: &[u8]) -> Result<Vec<Filed>, ConfError>
    ensures taken { IfOk result (λ v. spec.loaded jobs.now text.now ≡ Ok v.items) }
    ensures refused { IfErr result (λ e. spec.IsLoadCause (spec.loaded jobs.now text.now) e) }
{
    match read_conf(alloc, text) {
        Ok(conf) => {
            let filed = filed_by_load(alloc, jobs, conf.jobs.items)?;
            filed_or_crowd(alloc, filed)
        }
        Err(error) => Err(error),
    }
}

/// A job in force: with the targets that its groups and those of its files list. The rules for targets are run once for each, which takes one step.
#[tactic(auto, unfolding(crate::specs::Jobs::in_force), using(crate::proofs::TargetLemmas::no_names))]
pub fn in_force<L: Ledger>(
    alloc: Global,
    filed: Filed,
    steps: &mut Steps<L>,
) -> Result<InForce, NoMemory>
    requires { spec.IsFew filed }
    ensures job { IfOk result (λ j. j ≡ spec.in_force filed) }
    ensures steps { IfOk result (λ j. steps.new ≡ steps.old + listed.listed_in j) }
    ensures at_least { steps.old ≤ steps.new }
    ensures at_most { steps.new ≤ steps.old + spec.count_of filed }
{
    let Filed { job, files } = filed;
    let one = job.job();
    let list = targets_with_files(alloc, &one.conf, &one.target_rules, files.as_slice(), steps)?;
    let kept = SharedTargets::new(alloc, list.kept)?;
    let over = list.over;
    Ok(InForce {
        job,
        files,
        kept,
        over,
    })
}

/// The jobs in force after a load of these. Each target that they list takes one step.
pub fn in_force_all<L: Ledger>(
    alloc: Global,
    filed: Vec<Filed>,
    steps: &mut Steps<L>,
) -> Result<Vec<InForce>, NoMemory>
    requires { All spec.IsFew filed.items }
    ensures jobs { IfOk result (λ v. v.items ≡ map spec.in_force filed.items) }
    ensures steps { IfOk result (λ v. steps.new ≡ steps.old + listed.listed_by v.items) }
    ensures at_least { steps.old ≤ steps.new }
    ensures at_most { steps.new ≤ steps.old + listed.listed_by (map spec.in_force filed.items) }
{
    let mut jobs = Vec::with_capacity(alloc, filed.len())?;
    for one in filed {
        let job = in_force(alloc, one, steps)?;
        jobs.push(job)?;
    }
    Ok(jobs)
}
