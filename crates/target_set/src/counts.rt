//! How many targets are listed, and what isn't kept of them.
ghost use Rattle.std.specs.Prelude.{◌≡◌, ◌≤◌, ◌+◌, ◌<◌, length, IfOk, IfSome, IfNone};
ghost use Rattle.scrape_config.specs.Counts.{most_targets};
ghost use Rattle.target_set.specs.Listed as spec;

use crate::files::FileGroups;
use crate::targets::{Outcome, RefusedList, RefusedTarget};
use label_set::NoMemory;
use scrape_config::{Group, JobConf};
use std::alloc::Global;

/// The refused targets by rising place.
pub fn refused_of(alloc: Global, outcomes: &[Outcome]) -> Result<RefusedList, NoMemory>
    requires { length outcomes.now ≤ most_targets }
    ensures { IfOk result (λ l. l ≡ spec.refused_from 0 outcomes.now) }
{
    let mut items = Vec::new(alloc);
    let mut place = 0u32;
    for outcome in outcomes {
        if let Outcome::Refused(cause) = outcome {
            let cause = *cause;
            items.push(RefusedTarget { place, cause })?;
        }
        place += 1;
    }
    Ok(RefusedList { items })
}

/// How many targets a rule drops.
pub fn dropped_of(outcomes: &[Outcome]) -> u32
    requires { length outcomes.now ≤ most_targets }
    ensures { result ≡ spec.dropped_of outcomes.now }
{
    let mut dropped = 0u32;
    for outcome in outcomes {
        if let Outcome::Dropped = outcome {
            dropped += 1;
        }
    }
    dropped
}

/// What is left of a number after the targets that groups list are taken off; none where they are more.
fn left_after(groups: &[Group], mut left: u64) -> Option<u64>
    ensures enough { IfSome result (λ r. r + spec.listed_count groups.now ≡ left) }
    ensures too_few { IfNone result (left < spec.listed_count groups.now) }
{
    for group in groups {
        let count = group.targets.as_slice().len() as u64;
        if left < count {
            return None;
        }
        left -= count;
    }
    Some(left)
}

/// The same of the groups of files.
fn left_in_files(files: &[FileGroups], mut left: u64) -> Option<u64>
    ensures enough { IfSome result (λ r. r + spec.listed_count (spec.files_groups files.now) ≡ left) }
    ensures too_few { IfNone result (left < spec.listed_count (spec.files_groups files.now)) }
{
    for file in files {
        left = left_after(file.groups.as_slice(), left)?;
    }
    Some(left)
}

/// The same of a job's own groups and those of its files.
#[tactic(auto, using(crate::proofs::WalkLemmas::listed_counted))]
fn left_with_files(conf: &JobConf, files: &[FileGroups], most: u64) -> Option<u64>
    ensures enough { IfSome result (λ r. r + spec.listed_count (spec.listed_groups conf.now files.now) ≡ most) }
    ensures too_few { IfNone result (most < spec.listed_count (spec.listed_groups conf.now files.now)) }
{
    let left = left_after(conf.groups.as_slice(), most)?;
    left_in_files(files, left)
}

/// How many targets a job and its files list, where they are at most `most`; `None` exactly where they are more.
pub fn listed_within(conf: &JobConf, files: &[FileGroups], most: u64) -> Option<u64>
    ensures { result ≡ spec.within most (spec.listed_count (spec.listed_groups conf.now files.now)) }
{
    let left = left_with_files(conf, files, most)?;
    Some(most - left)
}
