//! The files that a configuration lists.
ghost use Rattle.std.specs.Prelude.{◌≡◌, ◌++◌, All, IfOk, OnOk};
ghost use Rattle.run_lock.specs.Listed as spec;
ghost use Rattle.run_lock.specs.Listed.{IsListed};

use control_lines::is_name;
use jobs_in_force::jobs::InForce;
use label_set::{Name, NoMemory};
use std::alloc::Global;

/// A file that a job lists.
#[derive(Drop, Debug)]
pub struct Listed {
    pub job: Name,
    pub file: Name,
}

/// Adds a file of a job, where both names have from 1 to 4,096 bytes, as those of a configuration do.
fn push_file(
    alloc: Global,
    listed: &mut Vec<Listed>,
    job: &Name,
    file: &Name,
) -> Result<(), NoMemory>
    ensures fit { OnOk result (All IsListed listed.old.items → All IsListed listed.new.items) }
    ensures pushed { OnOk result (listed.new.items ≡ listed.old.items ++ spec.file_listed job.now file.now) }
{
    if !is_name(job.as_str()) {
        return Ok(());
    }
    if !is_name(file.as_str()) {
        return Ok(());
    }
    let job = job.copy(alloc)?;
    let file = file.copy(alloc)?;
    listed.push(Listed { job, file })?;
    Ok(())
}

/// Adds the files of a job.
fn push_files(
    alloc: Global,
    listed: &mut Vec<Listed>,
    job: &Name,
    files: &[Name],
) -> Result<(), NoMemory>
    ensures fit { OnOk result (All IsListed listed.old.items → All IsListed listed.new.items) }
    ensures pushed { OnOk result (listed.new.items ≡ listed.old.items ++ spec.files_listed job.now files.now) }
{
    for file in files {
        push_file(alloc, listed, job, file)?;
    }
    Ok(())
}

/// The listed files of each job, in their order.
pub fn listed_in(alloc: Global, jobs: &[InForce]) -> Result<Vec<Listed>, NoMemory>
    ensures fit { IfOk result (λ v. All IsListed v.items) }
    ensures listed { IfOk result (λ v. v.items ≡ spec.listed_in jobs.now) }
{
    let mut listed = Vec::new(alloc);
    for job in jobs {
        let conf = &job.job.job().conf;
        push_files(alloc, &mut listed, &conf.job_name, conf.files.as_slice())?;
    }
    Ok(listed)
}
