//! What an update of a file's targets makes of the configuration in force.
ghost use Rattle.std.specs.Prelude.{◌≡◌, ◌≤◌, ◌+◌, [], map, option_copied, Ok, Err, IfOk, IfErr, OnOk, All};
ghost use Rattle.std.specs.List.{list_any};
ghost use Rattle.std.specs.Str.{bytes_eq};
ghost use Rattle.scrape_config.specs.Reading.{groups_reading};
ghost use Rattle.jobs_in_force.specs.Jobs as spec;
ghost use Rattle.jobs_in_force.specs.Listed as listed;

use crate::jobs::{Filed, InForce, SharedFiles};
use crate::loads::{crowd_of_all, crowd_place, in_force, is_named, is_of_file, job_named};
use config_fields::ConfFault;
use label_set::{Name, NoMemory, Steps};
use scrape_config::{ConfError, MOST_TARGETS, read_groups};
use std::alloc::Global;
use std::sync::ledger::Ledger;
use target_set::{FileGroups, SharedGroups};

/// Why an update isn't taken.
#[derive(Debug, Drop)]
pub enum UpdateError {
    /// No job has the name.
    NoJob,
    /// The job doesn't list the file.
    NoFile,
    /// The text is refused, or lists too many targets.
    Bad(ConfFault),
    /// An allocation failed.
    NoMemory,
}

impl From<NoMemory> for UpdateError {
    ghost use Rattle.std.specs.Prelude.{◌≡◌};
    ghost use Rattle.jobs_in_force.specs.declared.updates.UpdateError.TheVariants as update;

    ghost from_gives = { λ _ error. error ≡ update.NoMemory };

    fn from(_: NoMemory) -> UpdateError {
        UpdateError::NoMemory
    }
}

/// An update: the groups of one file of one job.
#[derive(Drop)]
pub struct Update {
    pub job: Name,
    pub file: Name,
    pub groups: SharedGroups,
}

fn with_groups(alloc: Global, update: &Update, one: &FileGroups) -> Result<FileGroups, NoMemory>
    ensures { IfOk result (λ f. f ≡ spec.with_groups update.now.file update.now.groups one.now) }
{
    let groups = if is_of_file(&update.file, one) {
        update.groups.share()?
    } else {
        one.groups.share()?
    };
    Ok(FileGroups {
        file: one.file.copy(alloc)?,
        groups,
    })
}

/// The groups of a job's files after an update of the job.
fn updated_files(
    alloc: Global,
    update: &Update,
    files: &[FileGroups],
) -> Result<SharedFiles, NoMemory>
    ensures { IfOk result (λ f. f ≡ spec.updated_files update.now.file update.now.groups files.now) }
{
    let mut items = Vec::with_capacity(alloc, files.len())?;
    for one in files {
        let new = with_groups(alloc, update, one)?;
        items.push(new)?;
    }
    SharedFiles::new(alloc, items)
}

/// A job with the groups that its files have after an update.
fn updated_job(alloc: Global, update: &Update, job: &InForce) -> Result<Filed, NoMemory>
    ensures { IfOk result (λ f. f ≡ spec.updated_job update.now.job update.now.file update.now.groups job.now) }
{
    let files = if is_named(&update.job, job) {
        updated_files(alloc, update, job.files.as_slice())?
    } else {
        job.files.share()?
    };
    Ok(Filed {
        job: job.job.share()?,
        files,
    })
}

/// The jobs with the groups that their files have after an update.
pub fn filed_by_update(
    alloc: Global,
    jobs: &[InForce],
    update: &Update,
) -> Result<Vec<Filed>, NoMemory>
    ensures { IfOk result (λ v. v.items ≡ spec.filed_by_update jobs.now update.now.job update.now.file update.now.groups) }
{
    let mut filed = Vec::with_capacity(alloc, jobs.len())?;
    for job in jobs {
        let one = updated_job(alloc, update, job)?;
        filed.push(one)?;
    }
    Ok(filed)
}

#[tactic(auto, unfolding(crate::specs::Jobs::crowd_in))]
fn crowd_in(alloc: Global, filed: &[Filed]) -> Result<Option<ConfFault>, NoMemory>
    ensures { IfOk result (λ o. o ≡ spec.crowd_in spec.no_place filed.now) }
{
    match crowd_place(filed) {
        None => crowd_of_all(alloc, filed),
        Some(_) => Ok(Some(ConfFault::TooMany {
            place: Name::from_str(alloc, "")?,
            limit: MOST_TARGETS,
        })),
    }
}

fn read_update(alloc: Global, job: &Name, file: &Name, text: &[u8]) -> Result<Update, UpdateError>
    ensures read { IfOk result (λ u. groups_reading file.now text.now ≡ Ok u.groups) }
    ensures job { IfOk result (λ u. u.job ≡ job.now) }
    ensures file { IfOk result (λ u. u.file ≡ file.now) }
    ensures refused { IfErr result (λ e. spec.IsReadCause (groups_reading file.now text.now) e) }
{
    match read_groups(alloc, text, file.as_str()) {
        Ok(groups) => Ok(Update {
            job: job.copy(alloc)?,
            file: file.copy(alloc)?,
            groups: SharedGroups::new(alloc, groups)?,
        }),
        Err(ConfError::Bad(fault)) => Err(UpdateError::Bad(fault)),
        Err(ConfError::NoMemory) => Err(UpdateError::NoMemory),
    }
}

fn update_or_crowd(alloc: Global, jobs: &[InForce], update: Update) -> Result<Update, UpdateError>
    ensures same { IfOk result (λ u. u ≡ update) }
    ensures taken { IfOk result (λ u. spec.update_or_crowd jobs.now update.job update.file update.groups ≡ Ok u.groups) }
    ensures refused { IfErr result (λ e. spec.IsUpdateCause (spec.update_or_crowd jobs.now update.job update.file update.groups) e) }
{
    let filed = filed_by_update(alloc, jobs, &update)?;
    match crowd_in(alloc, &filed)? {
        None => Ok(update),
        Some(fault) => Err(UpdateError::Bad(fault)),
    }
}

fn lists(job: &InForce, file: &Name) -> bool
    ensures { result ≡ list_any (bytes_eq file.now) job.now.job.conf.files }
{
    job.job
        .job()
        .conf
        .files
        .as_slice()
        .iter()
        .any(|one| file.as_str() == one.as_str())
}

/// The update of a file of a job, or why it isn't taken.
#[tactic(auto, unfolding(crate::specs::Jobs::updated))]
pub fn update_of(
    alloc: Global,
    jobs: &[InForce],
    job: &Name,
    file: &Name,
    text: &[u8],
) -> Result<Update, UpdateError>
    ensures taken { IfOk result (λ u. spec.updated jobs.now job.now file.now text.now ≡ Ok u.groups) }
    ensures refused { IfErr result (λ e. spec.IsUpdateCause (spec.updated jobs.now job.now file.now text.now) e) }
    ensures job { IfOk result (λ u. u.job ≡ job.now) }
    ensures file { IfOk result (λ u. u.file ≡ file.now) }
{
    match job_named(job, jobs) {
        None => Err(UpdateError::NoJob),
        Some(found) => {
            if lists(found, file) {
                let update = read_update(alloc, job, file, text)?;
                update_or_crowd(alloc, jobs, update)
            } else {
                Err(UpdateError::NoFile)
            }
        }
    }
}

fn share_job(job: &InForce) -> Result<InForce, NoMemory>
    ensures { IfOk result (λ j. j ≡ job.now) }
{
    Ok(InForce {
        job: job.job.share()?,
        files: job.files.share()?,
        kept: job.kept.share()?,
        over: job.over,
    })
}

/// A job in force after an update: only the targets of its job are listed anew.
fn renewed<L: Ledger>(
    alloc: Global,
    update: &Update,
    job: &InForce,
    steps: &mut Steps<L>,
) -> Result<InForce, NoMemory>
    requires { spec.IsFew (spec.updated_job update.now.job update.now.file update.now.groups job.now) }
    ensures job { IfOk result (λ j. j ≡ spec.renewed update.now.job update.now.file update.now.groups job.now) }
    ensures steps { IfOk result (λ j. steps.new ≡ steps.old + listed.named_count update.now.job j) }
    ensures at_least { steps.old ≤ steps.new }
    ensures at_most { steps.new
        ≤ steps.old + listed.named_count update.now.job (spec.renewed update.now.job update.now.file update.now.groups job.now) }
{
    if is_named(&update.job, job) {
        let filed = updated_job(alloc, update, job)?;
        in_force(alloc, filed, steps)
    } else {
        share_job(job)
    }
}

/// The jobs in force after an update. Each target that its job lists takes one step.
#[tactic(auto, unfolding(crate::specs::Jobs::jobs_updated))]
pub fn jobs_updated<L: Ledger>(
    alloc: Global,
    jobs: &[InForce],
    update: &Update,
    steps: &mut Steps<L>,
) -> Result<Vec<InForce>, NoMemory>
    requires { All spec.IsFew (spec.filed_by_update jobs.now update.now.job update.now.file update.now.groups) }
    ensures jobs { IfOk result (λ v. v.items ≡ spec.jobs_updated jobs.now update.now.job update.now.file update.now.groups) }
    ensures steps { IfOk result (λ v. steps.new ≡ steps.old + listed.listed_by_named update.now.job v.items) }
    ensures at_least { steps.old ≤ steps.new }
    ensures at_most { steps.new
        ≤ steps.old + listed.listed_by_named update.now.job (spec.jobs_updated jobs.now update.now.job update.now.file update.now.groups) }
{
    let mut news = Vec::with_capacity(alloc, jobs.len())?;
    for job in jobs {
        let one = renewed(alloc, update, job, steps)?;
        news.push(one)?;
    }
    Ok(news)
}
