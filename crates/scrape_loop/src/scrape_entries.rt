//! The entries of a scrape.
ghost use Rattle.std.specs.Prelude.{◌≡◌, ◌++◌, map, IfOk, OnOk};
ghost use Rattle.report_samples.specs.Markers.{stale_entry};
ghost use Rattle.scrape_loop.specs.Entries as spec;
ghost use Rattle.scrape_loop.specs.Shown.{Shows};
ghost use Rattle.scrape_loop.specs.Tracked.{samples_of, tracked_sets};
ghost use Rattle.series_cache.specs.Caches.{kept_sets, was_sets};
ghost use Rattle.series_cache.specs.Sets.{gone, rising};

use crate::scrape_parts::into_samples;
use label_set::{LabelSet, NoMemory, SetList};
use report_samples::{Entry, ExtraCounts, Kind, ReportCounts, stale_entry};
use sample_rows::{Sample, Scrape};
use series_cache::SeriesCache;
use std::alloc::Global;

fn sample_entry(life: u64, moment: i64, sample: Sample) -> Entry
    ensures { result ≡ spec.sample_entry life moment sample }
{
    Entry {
        life,
        kind: Kind::Scraped,
        series: sample.set,
        moment: sample.stamp.unwrap_or(moment),
        value: Some(sample.value),
    }
}

/// Adds the samples of a scrape that started at a moment.
pub fn push_samples(
    entries: &mut Vec<Entry>,
    life: u64,
    moment: i64,
    samples: Vec<Sample>,
) -> Result<(), NoMemory>
    ensures { OnOk result (entries.new.items ≡ entries.old.items ++ map (spec.sample_entry life moment) samples.items) }
{
    entries.reserve(samples.len())?;
    for sample in samples {
        entries.reserve(1)?;
        entries.push_reserved(sample_entry(life, moment, sample));
    }
    Ok(())
}

/// Adds a stale marker for each of some sets.
pub fn push_stale(
    entries: &mut Vec<Entry>,
    life: u64,
    moment: i64,
    sets: &[LabelSet],
) -> Result<(), NoMemory>
    ensures { OnOk result (entries.new.items ≡ entries.old.items ++ map (stale_entry life moment) sets.now) }
{
    for set in sets {
        let entry = stale_entry(life, moment, set)?;
        entries.reserve(1)?;
        entries.push_reserved(entry);
    }
    Ok(())
}

/// The series that end with a scrape, sets rising, where the cache shows the sets of the scrape.
#[tactic(auto, using(crate::proofs::SettleLemmas::stale_shown))]
pub fn ended(alloc: Global, cache: &SeriesCache, scrape: &Scrape) -> Result<SetList, NoMemory>
    requires shows { Shows cache.now scrape.now }
    ensures { IfOk result (λ l. l ≡ gone (rising (was_sets cache.now.texts)) (tracked_sets scrape.now)) }
{
    cache.vanished(alloc)
}

/// The samples of a scrape that started at a moment, and behind them the stale markers of the series that end with it, where the cache shows its sets.
pub fn samples_and_markers(
    alloc: Global,
    life: u64,
    moment: i64,
    cache: &SeriesCache,
    scrape: Scrape,
) -> Result<Vec<Entry>, NoMemory>
    requires shows { Shows cache.now scrape }
    ensures { IfOk result (λ v. v.items ≡ map (spec.sample_entry life moment) (samples_of scrape)
        ++ map (stale_entry life moment) (gone (rising (was_sets cache.now.texts)) (tracked_sets scrape))) }
{
    let stale = ended(alloc, cache, &scrape)?;
    let mut items = Vec::new(alloc);
    push_samples(&mut items, life, moment, into_samples(alloc, scrape))?;
    push_stale(&mut items, life, moment, stale.as_slice())?;
    Ok(items)
}

/// How many series a scrape adds, where the cache shows its sets.
#[tactic(auto, using(crate::proofs::SettleLemmas::added_shown))]
fn added(alloc: Global, cache: &SeriesCache, scrape: &Scrape) -> Result<u64, NoMemory>
    requires shows { Shows cache.now scrape.now }
    ensures { IfOk result (λ n. n ≡ spec.added_count (rising (kept_sets cache.now)) scrape.now) }
{
    let count = cache.added(alloc)?;
    Ok(count as u64)
}

/// What the reports of a scrape say, where the cache shows its sets and this is what the extra ones say.
pub fn counts_of(
    alloc: Global,
    cache: &SeriesCache,
    scrape: &Scrape,
    extra: Option<ExtraCounts>,
    took: i64,
) -> Result<ReportCounts, NoMemory>
    requires shows { Shows cache.now scrape.now }
    ensures { IfOk result (λ r. r ≡ spec.counts_of (rising (kept_sets cache.now)) extra scrape.now took) }
{
    let added = added(alloc, cache, scrape)?;
    Ok(match scrape {
        Scrape::Good { rows, scraped } => ReportCounts {
            up: true,
            took,
            scraped: *scraped,
            left: rows.items.len() as u64,
            added,
            extra,
        },
        Scrape::Bad {
            fault: _,
            scraped,
            left,
        } => ReportCounts {
            up: false,
            took,
            scraped: *scraped,
            left: *left,
            added,
            extra,
        },
    })
}
