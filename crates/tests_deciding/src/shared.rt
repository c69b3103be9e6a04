//! What several of the tests make, and what ends a test. A call of what ends one has no branch of its own, so a test
//! with many of them is proved fast.

use label_set::{LabelSet, NoMemory};
use scrape_config::{Conf, ConfError, Job, read_conf};
use std::alloc::Global;
use std::process::Abort;

/// Ends the test where something doesn't hold, with what was looked at.
pub(crate) fn holds(rt: &impl Abort, is_so: bool, what: &str) {
    assert!(rt; is_so, "wrong at [{what}]");
}

/// Ends the test where bytes are not those that are wanted.
pub(crate) fn are_bytes(rt: &impl Abort, found: &[u8], wanted: &[u8]) {
    assert_eq!(rt; found, wanted);
}

/// The set of labels that are written as `name=value`, with blanks between them.
pub(crate) fn set_of(alloc: Global, labels: &str) -> Result<LabelSet, NoMemory> {
    let mut set = LabelSet::empty();
    for label in labels.split(' ') {
        let (name, value) = label.split_once('=').unwrap_or((label, ""));
        set = set.with(alloc, name, value).map_err(|_| NoMemory)?;
    }
    Ok(set)
}

/// The configuration of a job `j` with these fields.
pub(crate) fn conf_of(rt: &impl Abort, alloc: Global, fields: &str) -> Result<Conf, NoMemory> {
    let text = format!(in alloc; "{{\"scrape_configs\":[{{\"job_name\":\"j\"{fields}}}]}}")?;
    match read_conf(alloc, text.as_str().as_bytes()) {
        Ok(conf) => Ok(conf),
        Err(ConfError::Bad(_)) => panic!(rt; "refused: {fields}"),
        Err(ConfError::NoMemory) => Err(NoMemory),
    }
}

/// Its job.
pub(crate) fn job_in<'a>(rt: &impl Abort, conf: &'a Conf) -> &'a Job {
    match conf.jobs.as_slice().first() {
        Some(job) => job,
        None => panic!(rt; "no job"),
    }
}
