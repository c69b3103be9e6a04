//! The report samples of a scrape ("Jobs and instances" of the Prometheus documentation, automatically generated labels and time series; "Feature flags",
//! extra scrape metrics, for the last three).
ghost use Rattle.std.specs.Prelude.{◌≡◌, pos, ◌≤ℤ◌, IfOk, IfSome};
ghost use Rattle.std.specs.Fmt.{signed_decimal};
ghost use Rattle.report_samples.specs.Reports as spec;

use crate::entries::EntryList;
use crate::report_sets::ReportSets;
use label_set::{LabelSet, NoMemory};
use std::alloc::Global;
use value_text::ValueText;

/// A report of a scrape.
#[derive(Clone, Copy, Debug, PartialEq, Eq)]
pub enum Report {
    /// `up`: 1 where the scrape is good, else 0.
    Up,
    /// `scrape_duration_seconds`: how long the fetch took.
    Duration,
    /// `scrape_samples_scraped`: how many rows were scraped.
    Scraped,
    /// `scrape_samples_post_metric_relabeling`: how many rows were left.
    Left,
    /// `scrape_series_added`: how many sets the last good scrape didn't have.
    Added,
    /// `scrape_timeout_seconds`: the timeout of the job.
    Timeout,
    /// `scrape_sample_limit`: the job's limit of samples, 0 for none.
    SampleLimit,
    /// `scrape_body_size_bytes`: how long the body was, -1 where it was too long.
    BodySize,
}

/// What the extra reports of a scrape say.
#[derive(Clone, Copy, Debug, PartialEq, Eq)]
pub struct ExtraCounts {
    /// The timeout, in milliseconds.
    pub timeout: i64,
    /// The limit of samples (`sample_limit`), 0 for none.
    pub limit: u64,
    /// The length of a good body, -1 where it was too long, 0 for any other fault.
    pub size: i64,
}

/// What the reports of a scrape say.
#[derive(Clone, Copy, Debug, PartialEq, Eq)]
pub struct ReportCounts {
    /// Whether the scrape is good.
    pub up: bool,
    /// How long the fetch took, in milliseconds.
    pub took: i64,
    /// How many rows were scraped.
    pub scraped: u64,
    /// How many rows were left after the job's rules for samples.
    pub left: u64,
    /// How many sets of the scrape the last good one didn't have.
    pub added: u64,
    /// What the extra reports say, where the life has these.
    pub extra: Option<ExtraCounts>,
}

/// A target's labels with a metric name as `__name__`.
fn with_name(alloc: Global, target: &LabelSet, name: &str) -> Result<LabelSet, NoMemory>
    ensures { IfOk result (λ s. s ≡ spec.named target.now name.now) }
{
    // `__name__` is a label name, so only memory can be wanting
    match target.with(alloc, "__name__", name) {
        Ok(set) => Ok(set),
        Err(_) => Err(NoMemory),
    }
}

fn report_name(report: Report) -> &'static str
    ensures { result.now ≡ spec.report_name report }
{
    match report {
        Report::Up => "up",
        Report::Duration => "scrape_duration_seconds",
        Report::Scraped => "scrape_samples_scraped",
        Report::Left => "scrape_samples_post_metric_relabeling",
        Report::Added => "scrape_series_added",
        Report::Timeout => "scrape_timeout_seconds",
        Report::SampleLimit => "scrape_sample_limit",
        Report::BodySize => "scrape_body_size_bytes",
    }
}

/// The label set of a report's series: the target's labels, and the report's name as `__name__`.
///
/// # Errors
///
/// The only error is out of memory.
pub fn report_set(alloc: Global, target: &LabelSet, report: Report) -> Result<LabelSet, NoMemory>
    ensures { IfOk result (λ s. s ≡ spec.report_set target.now report) }
{
    with_name(alloc, target, report_name(report))
}

/// The value of `up`: 1 or 0.
pub(crate) fn up_value(alloc: Global, up: bool) -> Result<ValueText, NoMemory>
    ensures { IfOk result (λ v. v ≡ spec.up_text up) }
{
    if up {
        ValueText::of_count(alloc, 1)
    } else {
        ValueText::of_count(alloc, 0)
    }
}

/// The value of the size of a body.
pub(crate) fn size_value(alloc: Global, size: i64) -> Result<ValueText, NoMemory>
    ensures { IfOk result (λ v. v ≡ signed_decimal size) }
{
    let text = size.to_string(alloc)?;
    // digits, with a sign or none, are a value, so only memory can be wanting
    match ValueText::keep(alloc, text.as_bytes()) {
        Ok(value) => Ok(value),
        Err(_) => Err(NoMemory),
    }
}

/// The reports of a scrape of a life that started at a moment, in the order of `Report`: five, and the three extra ones where there are counts for
/// these. The fetch took 0 milliseconds or more, and so is the timeout; both are written in seconds with three decimals.
/// A life of many scrapes keeps its `ReportSets`.
///
/// # Errors
///
/// The only error is out of memory.
pub fn reports(
    alloc: Global,
    life: u64,
    target: &LabelSet,
    moment: i64,
    counts: &ReportCounts,
) -> Result<EntryList, NoMemory>
    requires took { pos 0 ≤ℤ counts.now.took }
    requires timeout { IfSome counts.now.extra (λ e. pos 0 ≤ℤ e.timeout) }
    ensures { IfOk result (λ l. l ≡ spec.report_entries life target.now moment counts.now) }
{
    let sets = ReportSets::of(alloc, target.copy()?, counts.extra.is_some())?;
    sets.reports(alloc, life, moment, counts)
}
