//! The configuration in force: the jobs, the groups that their files gave, and their targets.
ghost use Rattle.std.specs.Prelude.{◌≡◌, IfOk, All};
ghost use Rattle.scrape_config.specs.declared.conf.Job.{Job};
ghost use Rattle.scrape_config.specs.Bounds.{IsBounded};
ghost use Rattle.journal_text.specs.Lines.{number};
ghost use Rattle.std.specs.List.{list_any};
ghost use Rattle.jobs_in_force.specs.TargetWords.{IsIndexed, HasNoName, is_target};
ghost use Rattle.jobs_in_force.specs.Settings.{settings_of};

use indexmap::IndexSet;
use label_set::{LabelSet, ListOf, NoMemory};
use life_roll::Interval;
use scrape_config::Job;
use std::alloc::Global;
use std::marker::Model;
use std::sync::Arc;
use target_set::{FileGroups, Target, Targets};

/// A job that is shared; seen as the job. Its interval and its timeout are from 1 to 2^40 milliseconds.
#[derive(Drop)]
pub struct SharedJob {
    job: Arc<Job>,
}

impl Model for SharedJob {
    ghost use Rattle.std.specs.Arc.{arc_value};
    ghost use Rattle.scrape_config.specs.declared.conf.Job.{Job};
    ghost use Rattle.scrape_config.specs.Bounds.{IsBounded};

    ghost Value = { Job };

    ghost view = { λ s. arc_value s.job };

    ghost invariant = { λ s. IsBounded (arc_value s.job).conf };
}

impl SharedJob {
    /// A job, to be shared.
    pub fn new(alloc: Global, job: Job) -> Result<SharedJob, NoMemory>
        requires { IsBounded job.conf }
        ensures { IfOk result (λ s. s ≡ job) }
    {
        Ok(SharedJob {
            job: Arc::new(alloc, job)?,
        })
    }

    /// The same job once more, which costs a count.
    pub fn share(&self) -> Result<SharedJob, NoMemory>
        ensures { IfOk result (λ s. s ≡ self.now) }
    {
        Ok(SharedJob {
            job: Arc::try_clone(&self.job)?,
        })
    }

    /// The job.
    pub fn job(&self) -> &Job
        ensures value { result.now ≡ self.now }
        ensures bounded { IsBounded self.now.conf }
    {
        &self.job
    }
}

/// The settings of a job, which its lives share; seen as the job without its groups and files.
#[derive(Drop)]
pub struct Settings {
    job: SharedJob,
}

impl Model for Settings {
    ghost use Rattle.scrape_config.specs.declared.conf.Job.{Job};
    ghost use Rattle.std.specs.List.{list_any};
    ghost use Rattle.jobs_in_force.specs.TargetWords.{IsIndexed, HasNoName, is_target};
    ghost use Rattle.jobs_in_force.specs.Settings.{settings_of};

    ghost Value = { Job };

    ghost view = { λ s. settings_of s.job };
}

impl Settings {
    /// The settings of a job.
    pub fn of(job: &SharedJob) -> Result<Settings, NoMemory>
        ensures { IfOk result (λ s. s ≡ settings_of job.now) }
    {
        Ok(Settings { job: job.share()? })
    }

    /// The same settings once more, which costs a count.
    pub fn share(&self) -> Result<Settings, NoMemory>
        ensures { IfOk result (λ s. s ≡ self.now) }
    {
        Ok(Settings {
            job: self.job.share()?,
        })
    }

    /// The job that they are of: its interval and its timeout are in their bounds.
    pub fn job(&self) -> &Job
        ensures settings { settings_of result.now ≡ self.now }
        ensures bounded { IsBounded result.now.conf }
    {
        self.job.job()
    }

    /// The scrape interval.
    pub fn interval(&self) -> Interval
        ensures { result ≡ number self.now.conf.scrape_interval }
    {
        Interval::new(self.job.job().conf.scrape_interval as u64)
    }
}

/// The groups of a job's files, shared; seen as their list, in the order of the files.
#[derive(Drop)]
pub struct SharedFiles {
    files: Arc<FileList>,
}

/// The groups of a job's files.
type FileList = ListOf<FileGroups>;

impl Model for SharedFiles {
    ghost use Rattle.std.specs.Prelude.{List};
    ghost use Rattle.std.specs.Arc.{arc_value};
    ghost use Rattle.target_set.specs.declared.files.FileGroups.{FileGroups};

    ghost Value = { List FileGroups };

    ghost view = { λ s. arc_value s.files };
}

impl SharedFiles {
    /// Groups of files, to be shared.
    pub fn new(alloc: Global, items: Vec<FileGroups>) -> Result<SharedFiles, NoMemory>
        ensures { IfOk result (λ s. s ≡ items.items) }
    {
        Ok(SharedFiles {
            files: Arc::new(alloc, FileList { items })?,
        })
    }

    /// The same once more, which costs a count.
    pub fn share(&self) -> Result<SharedFiles, NoMemory>
        ensures { IfOk result (λ s. s ≡ self.now) }
    {
        Ok(SharedFiles {
            files: Arc::try_clone(&self.files)?,
        })
    }

    /// The groups of the files.
    pub fn as_slice(&self) -> &[FileGroups]
        ensures { result.now ≡ self.now }
    {
        self.files.as_slice()
    }
}

/// The kept targets of a job, with a hashed look-up of their identities.
#[derive(Drop)]
pub struct TargetIndex {
    targets: Targets,
    identities: IndexSet<LabelSet>,
}

/// The kept targets of a job, shared; seen as their list. Their labels have no `__name__`.
#[derive(Drop)]
pub struct SharedTargets {
    index: Arc<TargetIndex>,
}

impl Model for SharedTargets {
    ghost use Rattle.std.specs.Prelude.{◌≡◌, List, All};
    ghost use Rattle.std.specs.List.{list_any};
    ghost use Rattle.std.specs.Arc.{arc_value};
    ghost use Rattle.label_set.specs.declared.texts.Pair.{Pair};
    ghost use Rattle.target_set.specs.declared.targets.Target.{Target};
    ghost use Rattle.jobs_in_force.specs.TargetWords.{IsIndexed, HasNoName};

    ghost Value = { List Target };

    ghost view = { λ s. (arc_value s.index).targets };

    ghost invariant = { λ s. IsIndexed (arc_value s.index).targets (arc_value s.index).identities.keys × All HasNoName (arc_value s.index).targets };
}

/// The identities of targets, each once.
fn identities_of(alloc: Global, targets: &[Target]) -> Result<IndexSet<LabelSet>, NoMemory>
    ensures { IfOk result (λ s. IsIndexed targets.now s.keys) }
{
    let mut identities = IndexSet::new(alloc);
    for target in targets {
        let _ = identities.insert(target.identity.copy()?)?;
    }
    Ok(identities)
}

impl SharedTargets {
    /// Targets, to be shared.
    pub fn new(alloc: Global, targets: Targets) -> Result<SharedTargets, NoMemory>
        requires { All HasNoName targets }
        ensures { IfOk result (λ s. s ≡ targets) }
    {
        let identities = identities_of(alloc, &targets.items)?;
        let index = TargetIndex {
            targets,
            identities,
        };
        Ok(SharedTargets {
            index: Arc::new(alloc, index)?,
        })
    }

    /// The same once more, which costs a count.
    pub fn share(&self) -> Result<SharedTargets, NoMemory>
        ensures { IfOk result (λ s. s ≡ self.now) }
    {
        Ok(SharedTargets {
            index: Arc::try_clone(&self.index)?,
        })
    }

    /// Whether a target of this identity is among them.
    pub fn has(&self, identity: &LabelSet) -> bool
        ensures { result ≡ list_any (is_target identity.now) self.now }
    {
        self.index.identities.contains(identity)
    }

    /// The targets.
    pub fn as_slice(&self) -> &[Target]
        ensures targets { result.now ≡ self.now }
        ensures nameless { All HasNoName self.now }
    {
        self.index.targets.items.as_slice()
    }
}

/// A job with the groups that its files have.
#[derive(Drop)]
pub struct Filed {
    pub job: SharedJob,
    pub files: SharedFiles,
}

/// A job of the configuration in force: its settings and static groups, the groups that its files have, its kept targets, and whether
/// these are more than its limit.
#[derive(Drop)]
pub struct InForce {
    pub job: SharedJob,
    pub files: SharedFiles,
    pub kept: SharedTargets,
    pub over: bool,
}
