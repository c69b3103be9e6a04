//! What a scrape comes to, by its reply.
ghost use Rattle.std.specs.Prelude.{◌≡◌, ◌≤◌, ◌+◌, false, length, IfOk, OnOk};
ghost use Rattle.expo_reader.specs.Bodies.{reading};
ghost use Rattle.label_conflict.specs.Merging.{bears};
ghost use Rattle.label_set.specs.SetText.{metric_label};
ghost use Rattle.sample_rows.specs.Outcomes as spec;
ghost use Rattle.sample_rows.specs.Rows.{count_fault, first_of};

use crate::fault::ScrapeFault;
use crate::left::{Sifted, sift};
use crate::scrape::{RowRules, Sample, SampleList, Scrape};
use expo_reader::{BodyCause, ReadBody, read_form};
use label_set::{Blob, Form, LabelSet, NoMemory, Steps};
use outside::Reply;
use relabel::Rules;
use scrape_limits::{Limits, body_limit, too_many};
use std::alloc::Global;
use std::sync::ledger::Ledger;

/// A scrape that failed before a row was looked at: with no row scraped and none left.
pub fn failed(fault: ScrapeFault) -> Scrape
    ensures { result ≡ spec.failed fault }
{
    Scrape::Bad {
        fault,
        scraped: 0,
        left: 0,
    }
}

/// The fault of what is left of rows: that of a row, or that too many are left.
fn fault_of(limits: &Limits, sifted: &Sifted) -> Option<ScrapeFault>
    ensures { result ≡ first_of sifted.now.fault (count_fault limits.now (length sifted.now.samples.items)) }
{
    if sifted.fault.is_some() {
        return sifted.fault;
    }
    if too_many(limits, sifted.samples.len() as u64) {
        Some(ScrapeFault::Samples)
    } else {
        None
    }
}

/// What a scrape of so many rows comes to, by what is left of them: the fault of a row, or that too many are left, or the samples.
pub fn judged(rules: &RowRules, sifted: Sifted, scraped: u64) -> Scrape
    ensures { result ≡ spec.judged (first_of sifted.fault (count_fault rules.now.limits (length sifted.samples.items))) sifted.samples.items scraped }
{
    let fault = fault_of(&rules.limits, &sifted);
    let samples = sifted.samples;
    match fault {
        None => Scrape::Good {
            rows: SampleList { items: samples },
            scraped,
        },
        Some(fault) => Scrape::Bad {
            fault,
            scraped,
            left: samples.len() as u64,
        },
    }
}

/// The outcome of a body. Each row takes one step.
fn of_rows<L: Ledger>(
    alloc: Global,
    rules: &RowRules,
    metric: &Rules,
    target: &LabelSet,
    body: &ReadBody,
    steps: &mut Steps<L>,
) -> Result<Scrape, NoMemory>
    requires nameless { bears target.now metric_label ≡ false }
    ensures outcome { IfOk result (λ s. s ≡ spec.of_rows rules.now metric.now target.now body.now.rows) }
    ensures steps { OnOk result (steps.new ≡ steps.old + length body.now.rows) }
    ensures at_least { steps.old ≤ steps.new }
    ensures at_most { steps.new ≤ steps.old + length body.now.rows }
{
    let sifted = sift(alloc, rules, metric, target, body, steps)?;
    Ok(judged(rules, sifted, body.len() as u64))
}

/// The outcome of a reply whose body is read. Each row takes one step.
fn of_page<L: Ledger>(
    alloc: Global,
    rules: &RowRules,
    metric: &Rules,
    target: &LabelSet,
    reply: &Reply,
    steps: &mut Steps<L>,
) -> Result<Scrape, NoMemory>
    requires nameless { bears target.now metric_label ≡ false }
    ensures outcome { IfOk result (λ s. s ≡ spec.of_early rules.now metric.now target.now
        (spec.or_line (reading (spec.form_of reply.now) (spec.body_of reply.now)))) }
    ensures steps { OnOk result (steps.new ≡ steps.old + spec.row_count (spec.or_line (reading (spec.form_of reply.now) (spec.body_of reply.now)))) }
    ensures at_least { steps.old ≤ steps.new }
{
    let bytes = Blob::from_slice(alloc, body_of(reply))?;
    match read_form(alloc, bytes, form_of(reply)) {
        Ok(body) => of_rows(alloc, rules, metric, target, &body, steps),
        Err(unread) => match unread.cause {
            BodyCause::Line(line) => Ok(failed(ScrapeFault::Line(line))),
            BodyCause::NoMemory => Err(NoMemory),
        },
    }
}

/// The fault for which a body with a status and so many bytes that took so many milliseconds isn't looked at: the first of those of its time, its
/// status and its size; `None` exactly where there is none. It is `early_fault` of that body, and takes no memory.
///
/// The source is "Configuration" of the Prometheus documentation, scrape_config: scrape_timeout, body_size_limit.
pub fn early_read_fault(
    rules: &RowRules,
    status: u16,
    size: usize,
    took: i64,
) -> Option<ScrapeFault>
    ensures { result ≡ spec.early_read_fault rules.now status size took }
{
    if rules.timeout < took {
        return Some(ScrapeFault::Slow);
    }
    if status != 200 {
        return Some(ScrapeFault::Status(status));
    }
    if size as u64 > body_limit(&rules.limits) {
        return Some(ScrapeFault::Size);
    }
    None
}

/// The fault for which the body of a reply that took so many milliseconds isn't read: the first of those that stand before `Line`; `None` exactly
/// where there is none. It takes no memory.
///
/// The source is "Configuration" of the Prometheus documentation, scrape_config: scrape_timeout, body_size_limit.
#[tactic(auto, unfolding(crate::specs::Outcomes::early_fault))]
pub fn early_fault(rules: &RowRules, reply: &Reply, took: i64) -> Option<ScrapeFault>
    ensures { result ≡ spec.early_fault rules.now reply.now took }
{
    match reply {
        Reply::Lost => Some(ScrapeFault::Lost),
        Reply::Garbled => Some(ScrapeFault::Garbled),
        Reply::Unsent => Some(ScrapeFault::Unsent),
        Reply::Oversize => Some(if rules.timeout < took {
            ScrapeFault::Slow
        } else {
            ScrapeFault::Size
        }),
        Reply::Body { status, bytes } => {
            early_read_fault(rules, *status, bytes.as_slice().len(), took)
        }
        Reply::Quoted { status, bytes } => {
            early_read_fault(rules, *status, bytes.as_slice().len(), took)
        }
    }
}

/// The bytes of the body of a reply; a reply without a body has none.
pub fn body_of(reply: &Reply) -> &[u8]
    ensures { result.now ≡ spec.body_of reply.now }
{
    match reply {
        Reply::Body { status: _, bytes } => bytes.as_slice(),
        Reply::Quoted { status: _, bytes } => bytes.as_slice(),
        Reply::Lost | Reply::Garbled | Reply::Unsent | Reply::Oversize => &[],
    }
}

/// The form in which that is read.
pub fn form_of(reply: &Reply) -> Form
    ensures { result ≡ spec.form_of reply.now }
{
    match reply {
        Reply::Quoted {
            status: _,
            bytes: _,
        } => Form::Quoted,
        Reply::Body {
            status: _,
            bytes: _,
        } => Form::Plain,
        Reply::Lost | Reply::Garbled | Reply::Unsent | Reply::Oversize => Form::Plain,
    }
}

/// What a scrape of a target comes to, by its reply and the milliseconds that the fetch took: the samples that are left of its rows, or
/// the first fault in the order of `ScrapeFault`.
///
/// A row's labels are joined with the target's (`honor_labels`) and run through the job's rules for samples, which takes one step a row.
/// A row that a rule drops, or of which no label is left, isn't left. A sample keeps its own timestamp under `honor_timestamps`.
///
/// The source is "Configuration" of the Prometheus documentation, scrape_config, and "Exposition formats".
///
/// # Errors
///
/// The only error is out of memory.
#[tactic(auto, unfolding(crate::specs::Outcomes::outcome, crate::specs::Outcomes::runs))]
pub fn rows<L: Ledger>(
    alloc: Global,
    rules: &RowRules,
    metric: &Rules,
    target: &LabelSet,
    reply: &Reply,
    took: i64,
    steps: &mut Steps<L>,
) -> Result<Scrape, NoMemory>
    requires nameless { bears target.now metric_label ≡ false }
    ensures outcome { IfOk result (λ s. s ≡ spec.outcome rules.now metric.now target.now reply.now took) }
    ensures steps { OnOk result (steps.new ≡ steps.old + spec.runs rules.now reply.now took) }
    ensures at_least { steps.old ≤ steps.new }
{
    if let Some(fault) = early_fault(rules, reply, took) {
        return Ok(failed(fault));
    }
    of_page(alloc, rules, metric, target, reply, steps)
}
