//! The entries of an ending.
ghost use Rattle.std.specs.Prelude.{◌≡◌, map, IfOk};
ghost use Rattle.end_of_run.specs.Endings as spec;
ghost use Rattle.report_samples.specs.Markers as markers;

use crate::moments::marker_moment;
use label_set::{LabelSet, NoMemory};
use report_samples::{Closing, Entry, EntryList, ReportSets, stale_entry};
use std::alloc::Global;

/// A stale marker for each of some sets, at a moment.
fn set_markers(
    alloc: Global,
    life: u64,
    moment: i64,
    sets: &[LabelSet],
) -> Result<Vec<Entry>, NoMemory>
    ensures { IfOk result (λ v. v.items ≡ map (markers.stale_entry life moment) sets.now) }
{
    let mut items = Vec::with_capacity(alloc, sets.len())?;
    for set in sets {
        items.reserve(1)?;
        items.push_reserved(stale_entry(life, moment, set)?);
    }
    Ok(items)
}

/// The entries of the ending of a closed life, at the moment of its markers. Where a scrape of it counted, a forced one too, they are a stale marker
/// for each set that its last counted scrape tracked, sets rising, and then one for each of the reports that the life has, in the order of `Report`.
/// Where none did, there are none.
///
/// The source is "Staleness" of the Prometheus documentation.
///
/// # Errors
///
/// The only error is out of memory.
pub fn ending_entries(alloc: Global, closing: &Closing) -> Result<EntryList, NoMemory>
    requires { spec.IsInLimits closing.now }
    ensures { IfOk result (λ l. l ≡ spec.ending_entries closing.now) }
{
    if !closing.scraped {
        return Ok(EntryList {
            items: Vec::new(alloc),
        });
    }
    let moment = marker_moment(closing);
    let mut items = set_markers(alloc, closing.life, moment, closing.tracked.as_slice())?;
    let mut last = report_markers_of(alloc, closing, moment)?;
    items.append(&mut last.items)?;
    Ok(EntryList { items })
}

/// The markers of the reports.
fn report_markers_of(alloc: Global, closing: &Closing, moment: i64) -> Result<EntryList, NoMemory>
    ensures { IfOk result (λ l. l ≡ markers.report_markers closing.now.life closing.now.target closing.now.extra moment) }
{
    let reports = ReportSets::of(alloc, closing.target.copy()?, closing.extra)?;
    reports.markers(alloc, closing.life, moment, closing.extra)
}
