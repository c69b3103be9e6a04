//! A life of a target, and the entries of its scrapes.
ghost use Rattle.std.specs.Prelude.{◌≡◌, ◌≤◌, ◌+◌, ◌++◌, length, ◌≤ℤ◌, pos, IfOk, IfSome, OnOk, OnErr};
ghost use Rattle.scrape_loop.specs.Entries as spec;
ghost use Rattle.scrape_loop.specs.Shown.{Shows};
ghost use Rattle.scrape_loop.specs.Tracked.{life_of};

use crate::scrape_entries::{counts_of, samples_and_markers};
use crate::target_labels::TargetLabels;
use appender_book::Book;
use label_set::NoMemory;
use report_samples::{EntryList, ExtraCounts};
use sample_rows::Scrape;
use series_cache::SeriesCache;
use std::alloc::Global;

/// The number of a life, the labels of its target, whether it has the extra reports, and how its scrapes went.
#[derive(Debug, Drop)]
pub struct Past {
    pub(crate) life: u64,
    pub(crate) target: TargetLabels,
    /// Whether it has the three extra reports besides the five.
    pub(crate) extra: bool,
    /// Whether a scrape of it counted, a forced one too.
    pub(crate) scraped: bool,
    /// Whether the last one that counted was good.
    pub(crate) up: bool,
}

/// When a scrape started, and how many milliseconds its fetch took.
#[derive(Clone, Copy)]
pub struct Timing {
    pub moment: i64,
    pub took: i64,
}

impl Past {
    /// The entries of a scrape that started at a moment and took so many milliseconds, where the cache shows its sets; the extra reports where it is asked to
    /// what they say.
    pub fn entries_of(
        &self,
        alloc: Global,
        cache: &SeriesCache,
        scrape: Scrape,
        extra: Option<ExtraCounts>,
        timing: Timing,
    ) -> Result<EntryList, NoMemory>
        requires shows { Shows cache.now scrape }
        requires took { pos 0 ≤ℤ timing.took }
        requires timeout { IfSome extra (λ e. pos 0 ≤ℤ e.timeout) }
        ensures { IfOk result (λ l. l ≡ spec.entries_of
            (life_of self.now.life self.now.target self.now.extra cache.now (self.now.scraped, self.now.up))
            extra scrape timing.moment timing.took) }
    {
        let counts = counts_of(alloc, cache, &scrape, extra, timing.took)?;
        let mut items = samples_and_markers(alloc, self.life, timing.moment, cache, scrape)?;
        let sets_of_reports = self.target.report_sets();
        let mut last = sets_of_reports.reports(alloc, self.life, timing.moment, &counts)?;
        items.append(&mut last.items)?;
        Ok(EntryList { items })
    }

    /// Appends these entries to the book.
    pub fn append(
        &self,
        alloc: Global,
        cache: &SeriesCache,
        scrape: Scrape,
        extra: Option<ExtraCounts>,
        timing: Timing,
        book: &mut Book,
    ) -> Result<(), NoMemory>
        requires shows { Shows cache.now scrape }
        requires took { pos 0 ≤ℤ timing.took }
        requires timeout { IfSome extra (λ e. pos 0 ≤ℤ e.timeout) }
        ensures entries { OnOk result (book.new.entries ≡ book.old.entries ++ spec.entries_of
            (life_of self.now.life self.now.target self.now.extra cache.now (self.now.scraped, self.now.up))
            extra scrape timing.moment timing.took) }
        ensures spare { OnOk result (book.old.spare ≤ book.new.spare + length (spec.entries_of
            (life_of self.now.life self.now.target self.now.extra cache.now (self.now.scraped, self.now.up))
            extra scrape timing.moment timing.took)) }
        ensures err { OnErr result (book.new ≡ book.old) }
    {
        let entries = self.entries_of(alloc, cache, scrape, extra, timing)?;
        book.append_all(entries)
    }
}
