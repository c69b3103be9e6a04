//! How many targets jobs in force list.
ghost use Rattle.std.specs.Prelude.{◌≡◌, IfOk};
ghost use Rattle.target_set.specs.Listed.{within};
ghost use Rattle.jobs_in_force.specs.Listed as spec;

use crate::jobs::InForce;
use crate::loads::is_named;
use label_set::{Name, NoMemory};
use target_set::listed_within;

/// How many targets a job lists, where they are at most `most`; `None` exactly where they are more.
fn listed_in(job: &InForce, most: u64) -> Option<u64>
    ensures { result ≡ within most (spec.listed_in job.now) }
{
    listed_within(&job.job.job().conf, job.files.as_slice(), most)
}

/// The same, where the job has the name; else 0.
fn named_count(name: &Name, job: &InForce, most: u64) -> Option<u64>
    ensures { result ≡ within most (spec.named_count name.now job.now) }
{
    if is_named(name, job) {
        listed_in(job, most)
    } else {
        Some(0)
    }
}

/// How many targets jobs list together.
///
/// # Errors
///
/// A number of more than 64 bits is answered as out of memory.
pub fn listed_by(jobs: &[InForce]) -> Result<u64, NoMemory>
    ensures { IfOk result (λ n. n ≡ spec.listed_by jobs.now) }
{
    let mut listed = 0u64;
    for job in jobs {
        let Some(count) = listed_in(job, u64::MAX - listed) else {
            return Err(NoMemory);
        };
        listed += count;
    }
    Ok(listed)
}

/// How many targets the job of a name lists.
///
/// # Errors
///
/// A number of more than 64 bits is answered as out of memory.
pub fn listed_by_named(name: &Name, jobs: &[InForce]) -> Result<u64, NoMemory>
    ensures { IfOk result (λ n. n ≡ spec.listed_by_named name.now jobs.now) }
{
    let mut listed = 0u64;
    for job in jobs {
        let Some(count) = named_count(name, job, u64::MAX - listed) else {
            return Err(NoMemory);
        };
        listed += count;
    }
    Ok(listed)
}
