//! Reports of a scrape by themselves. What they say, and the markers, the cases show.

use crate::shared::{holds, set_of};
use label_set::NoMemory;
use report_samples::{ExtraCounts, ReportCounts, reports};
use std::alloc::Global;
use std::process::Abort;

/// A scrape whose body was too long, with what the extra reports say.
const TOO_LONG: ReportCounts = ReportCounts {
    up: false,
    took: 15,
    scraped: 0,
    left: 0,
    added: 0,
    extra: Some(ExtraCounts {
        timeout: 10_000,
        limit: 7,
        size: -1,
    }),
};

pub(crate) fn reports_are_made(rt: &impl Abort, alloc: Global) -> Result<(), NoMemory> {
    let target = set_of(alloc, "instance=a:1 job=j")?;
    let entries = reports(alloc, 5, &target, 20, &TOO_LONG)?;
    holds(rt, entries.items.len() == 8, "eight reports");
    Ok(())
}
