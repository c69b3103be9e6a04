//! What is left of the rows of a body, where a raw text that is known costs no relabelling.
ghost use Rattle.std.specs.Prelude.{◌≡◌, ◌≤◌, ◌+◌, ◌-◌, false, length, true, None, IfOk, IfSome, OnOk, OnErr};
ghost use Rattle.expo_reader.specs.Bodies.{IsFit, reading};
ghost use Rattle.label_conflict.specs.Merging.{bears};
ghost use Rattle.label_set.specs.SetText.{metric_label};
ghost use Rattle.sample_rows.specs.Outcomes.{body_of, form_of, of_early, or_line, outcome};
ghost use Rattle.scrape_loop.specs.Replies.{is_page};
ghost use Rattle.sample_rows.specs.Rows.{row_series, left_from, samples_of, first_fault};
ghost use Rattle.series_cache.specs.Caches.{find, look_up, turned, undone, was_sets};
ghost use Rattle.scrape_loop.specs.Shown.{Shows};
ghost use Rattle.scrape_loop.specs.Tracked.{is_good};
ghost use Rattle.scrape_loop.specs.Texts as spec;

use crate::read_reply::{Page, ReadReply};
use crate::scrape_parts::fault_in;
use expo_reader::{ReadBody, SampleRow};
use label_conflict::{BorrowedTarget, labels_in};
use label_set::{LabelSet, NoMemory, Steps};
use relabel::{Rules, Runner};
use sample_rows::{RowRules, Scrape, ScrapeFault, Sifted, failed, is_tracked, judged, row_set};
use series_cache::{SeriesCache, shared};
use std::alloc::Global;
use std::sync::ledger::Ledger;

/// What the rows of a reply go by: the settings of the job, its rules for samples, and the labels of the target.
#[derive(Clone, Copy)]
pub struct ScrapeRules<'a> {
    pub rules: &'a RowRules,
    pub metric: &'a Rules,
    pub target: &'a LabelSet,
}

/// What the series of a row goes by beside the rules for samples: the settings of the job, and the labels of the target,
/// borrowed from their set.
#[derive(Clone, Copy)]
struct RowTerms<'r, 't, 'l, 'a> {
    rules: &'r RowRules,
    target: &'t BorrowedTarget<'l, 'a>,
}

/// A row, and the place at which its text is looked for first.
#[derive(Clone, Copy)]
struct HintedRow<'r, 'b> {
    row: &'r SampleRow<'b>,
    hint: usize,
}

/// What a scrape comes to, and how often the rules for samples were run for it.
#[derive(Debug, Drop)]
pub struct Settled {
    pub scrape: Scrape,
    pub runs: usize,
}

/// The series of a row whose text isn't known; the text is put with it. It takes one step.
#[tactic(auto, using(crate::proofs::TextLemmas::put_undone))]
fn put_series<L: Ledger>(
    alloc: Global,
    terms: &RowTerms<'_, '_, '_, '_>,
    metric: &mut Runner<'_>,
    row: &SampleRow<'_>,
    cache: &mut SeriesCache,
    steps: &mut Steps<L>,
) -> Result<Option<LabelSet>, NoMemory>
    requires fit { IsFit row.now }
    requires nameless { bears terms.now.target.now metric_label ≡ false }
    requires unknown { look_up row.now.raw cache.old.texts ≡ None }
    requires kept { cache.old.kept ≤ length cache.old.texts }
    ensures series { IfOk result (λ o. o ≡ row_series terms.now.rules.now.honor_labels metric.old terms.now.target.now row.now) }
    ensures same { metric.new ≡ metric.old }
    ensures cache { OnOk result (cache.new
        ≡ spec.with_put row.now.raw (row_series terms.now.rules.now.honor_labels metric.old terms.now.target.now row.now) cache.old) }
    ensures err { OnErr result (cache.new ≡ cache.old) }
    ensures undone { undone cache.new ≡ undone cache.old }
    ensures steps { OnOk result (steps.new ≡ steps.old + 1) }
    ensures at_least { steps.old ≤ steps.new }
    ensures at_most { steps.new ≤ steps.old + 1 }
{
    let series = row_set(alloc, terms.rules, metric, terms.target, row, steps)?;
    let kept = shared(&series)?;
    cache.put(alloc, row.raw(), kept)?;
    Ok(series)
}

/// The series of a row whose text isn't known; the text is put with it, and shown. It takes one step.
#[tactic(auto, using(crate::proofs::TextLemmas::stamp_undone))]
fn put_shown<L: Ledger>(
    alloc: Global,
    terms: &RowTerms<'_, '_, '_, '_>,
    metric: &mut Runner<'_>,
    row: &SampleRow<'_>,
    cache: &mut SeriesCache,
    steps: &mut Steps<L>,
) -> Result<Option<LabelSet>, NoMemory>
    requires fit { IsFit row.now }
    requires nameless { bears terms.now.target.now metric_label ≡ false }
    requires unknown { look_up row.now.raw cache.old.texts ≡ None }
    requires kept { cache.old.kept ≤ length cache.old.texts }
    ensures series { IfOk result (λ o. o ≡ row_series terms.now.rules.now.honor_labels metric.old terms.now.target.now row.now) }
    ensures same { metric.new ≡ metric.old }
    ensures cache { OnOk result (cache.new ≡ spec.shown_row terms.now.rules.now metric.old terms.now.target.now cache.old row.now) }
    ensures undone { undone cache.new ≡ undone cache.old }
    ensures steps { OnOk result (steps.new ≡ steps.old + 1) }
    ensures at_least { steps.old ≤ steps.new }
    ensures at_most { steps.new ≤ steps.old + 1 }
{
    let series = put_series(alloc, terms, metric, row, cache, steps)?;
    cache.stamp(row.raw(), is_tracked(terms.rules, row));
    Ok(series)
}

/// The series of a row, whose text is shown: by the text where that is known, which is looked for at a place first. It takes a step for a text that
/// isn't known.
fn show_row<L: Ledger>(
    alloc: Global,
    terms: &RowTerms<'_, '_, '_, '_>,
    metric: &mut Runner<'_>,
    hinted: &HintedRow<'_, '_>,
    cache: &mut SeriesCache,
    steps: &mut Steps<L>,
) -> Result<Option<LabelSet>, NoMemory>
    requires fit { IsFit hinted.now.row.now }
    requires nameless { bears terms.now.target.now metric_label ≡ false }
    requires right { IfSome (find hinted.now.row.now.raw cache.old.texts) (λ k. k.set
        ≡ row_series terms.now.rules.now.honor_labels metric.old terms.now.target.now hinted.now.row.now) }
    ensures series { IfOk result (λ o. o ≡ row_series terms.now.rules.now.honor_labels metric.old terms.now.target.now hinted.now.row.now) }
    ensures same { metric.new ≡ metric.old }
    ensures cache { OnOk result (cache.new ≡ spec.shown_row terms.now.rules.now metric.old terms.now.target.now cache.old hinted.now.row.now) }
    ensures undone { undone cache.new ≡ undone cache.old }
    ensures steps { OnOk result (steps.new + length cache.old.texts ≡ steps.old + length cache.new.texts) }
    ensures at_least { steps.old ≤ steps.new }
    ensures at_most { steps.new + length cache.old.texts ≤ steps.old
        + length (spec.shown_row terms.now.rules.now metric.old terms.now.target.now cache.old hinted.now.row.now).texts }
{
    let row = hinted.row;
    match cache.show(row.raw(), hinted.hint, is_tracked(terms.rules, row))? {
        Some(series) => Ok(series),
        None => put_shown(alloc, terms, metric, row, cache, steps),
    }
}

/// Where the text of a row is looked for first: the place that reading it gave, counted from 1; 0 is none.
fn hint_at(places: &[u32], row: usize) -> usize {
    match places.get(row) {
        Some(place) => *place as usize,
        None => 0,
    }
}

/// What is left of the rows of a body, whose texts are shown. It takes a step for each text that isn't known.
/// Where memory runs out, what was put and shown can be taken back.
fn sift_known<L: Ledger>(
    alloc: Global,
    terms: &ScrapeRules<'_>,
    body: &ReadBody,
    places: &[u32],
    cache: &mut SeriesCache,
    steps: &mut Steps<L>,
) -> Result<Sifted, NoMemory>
    requires nameless { bears terms.now.target.now metric_label ≡ false }
    requires right { spec.AreRight terms.now.rules.now.honor_labels terms.now.metric.now terms.now.target.now cache.old.texts }
    ensures samples { IfOk result (λ s. s.samples.items
        ≡ samples_of (left_from terms.now.rules.now terms.now.metric.now terms.now.target.now 0 body.now.rows)) }
    ensures fault { IfOk result (λ s. s.fault ≡ first_fault terms.now.rules.now.limits
        (left_from terms.now.rules.now terms.now.metric.now terms.now.target.now 0 body.now.rows)) }
    ensures cache { OnOk result (cache.new ≡ spec.shown_all terms.now.rules.now terms.now.metric.now terms.now.target.now cache.old body.now.rows) }
    ensures undone { undone cache.new ≡ undone cache.old }
    ensures steps { OnOk result (steps.new + length cache.old.texts ≡ steps.old + length cache.new.texts) }
    ensures at_least { steps.old ≤ steps.new }
    ensures at_most { steps.new + length cache.old.texts
        ≤ steps.old + length (spec.shown_all terms.now.rules.now terms.now.metric.now terms.now.target.now cache.old body.now.rows).texts }
{
    let mut runner = terms.metric.runner(alloc)?;
    let labels = labels_in(alloc, terms.target)?;
    let borrowed = BorrowedTarget::of(alloc, labels.as_slice())?;
    let mut sifted = Sifted::new(alloc);
    for place in 0..body.len() {
        let row = body.row(place);
        let row_terms = RowTerms {
            rules: terms.rules,
            target: &borrowed,
        };
        let hinted = HintedRow {
            row: &row,
            hint: hint_at(places, place),
        };
        let series = show_row(alloc, &row_terms, &mut runner, &hinted, cache, steps)?;
        let number = place as u64;
        sifted.take(alloc, terms.rules, number, &row, series)?;
    }
    Ok(sifted)
}

/// What a scrape comes to by the body of its reply, which is looked at; the texts of its rows are shown.
fn of_page<L: Ledger>(
    alloc: Global,
    terms: &ScrapeRules<'_>,
    reply: &ReadReply,
    cache: &mut SeriesCache,
    steps: &mut Steps<L>,
) -> Result<Scrape, NoMemory>
    requires page { is_page reply.now ≡ true }
    requires nameless { bears terms.now.target.now metric_label ≡ false }
    requires right { spec.AreRight terms.now.rules.now.honor_labels terms.now.metric.now terms.now.target.now cache.old.texts }
    ensures outcome { IfOk result (λ s. s ≡ of_early terms.now.rules.now terms.now.metric.now terms.now.target.now
        (or_line (reading (form_of reply.now) (body_of reply.now)))) }
    ensures cache { OnOk result (cache.new ≡ spec.texts_by terms.now.rules.now terms.now.metric.now terms.now.target.now cache.old
        (or_line (reading (form_of reply.now) (body_of reply.now)))) }
    ensures undone { undone cache.new ≡ undone cache.old }
    ensures steps { OnOk result (steps.new + length cache.old.texts ≡ steps.old + length cache.new.texts) }
    ensures at_least { steps.old ≤ steps.new }
    ensures at_most { steps.new + length cache.old.texts
        ≤ steps.old + length (spec.texts_by terms.now.rules.now terms.now.metric.now terms.now.target.now cache.old
        (or_line (reading (form_of reply.now) (body_of reply.now)))).texts }
{
    let (body, places) = match reply.page() {
        Page::Rows {
            status: _,
            body,
            places,
        } => (body, places),
        Page::Faulty {
            form: _,
            status: _,
            bytes: _,
            line,
        } => return Ok(failed(ScrapeFault::Line(*line))),
        Page::Passed(_) => unreachable!(),
    };
    let sifted = sift_known(alloc, terms, body, places.as_slice(), cache, steps)?;
    Ok(judged(terms.rules, sifted, body.len() as u64))
}

/// What a scrape comes to by its reply and the milliseconds that the fetch took, as `sample_rows::rows` has it. The texts of its rows are shown,
/// and the rules for samples are run on those that aren't known alone, each of which takes one step.
///
/// # Errors
///
/// The only error is out of memory; what was put and shown can then be taken back.
#[tactic(auto, unfolding(sample_rows::specs::Outcomes::outcome))]
fn known_rows<L: Ledger>(
    alloc: Global,
    terms: &ScrapeRules<'_>,
    reply: &ReadReply,
    took: i64,
    cache: &mut SeriesCache,
    steps: &mut Steps<L>,
) -> Result<Scrape, NoMemory>
    requires nameless { bears terms.now.target.now metric_label ≡ false }
    requires right { spec.AreRight terms.now.rules.now.honor_labels terms.now.metric.now terms.now.target.now cache.old.texts }
    ensures outcome { IfOk result (λ s. s ≡ outcome terms.now.rules.now terms.now.metric.now terms.now.target.now reply.now took) }
    ensures cache { OnOk result (cache.new ≡ spec.texts_shown terms.now reply.now took cache.old) }
    ensures undone { undone cache.new ≡ undone cache.old }
    ensures steps { OnOk result (steps.new + length cache.old.texts ≡ steps.old + length cache.new.texts) }
    ensures at_least { steps.old ≤ steps.new }
    ensures at_most { steps.new + length cache.old.texts ≤ steps.old + length (spec.texts_shown terms.now reply.now took cache.old).texts }
{
    if let Some(fault) = reply.early_fault(terms.rules, took) {
        return Ok(failed(fault));
    }
    of_page(alloc, terms, reply, cache, steps)
}

/// The same, after which the cache shows just the sets of the scrape: what a scrape that isn't good showed is taken back.
///
/// # Errors
///
/// The only error is out of memory; the cache is then as before.
pub fn shown_rows<L: Ledger>(
    alloc: Global,
    terms: &ScrapeRules<'_>,
    reply: &ReadReply,
    took: i64,
    cache: &mut SeriesCache,
    steps: &mut Steps<L>,
) -> Result<Settled, NoMemory>
    requires nameless { bears terms.now.target.now metric_label ≡ false }
    requires right { spec.AreRight terms.now.rules.now.honor_labels terms.now.metric.now terms.now.target.now cache.old.texts }
    requires rest { spec.IsAtRest cache.old }
    requires kept { cache.old.kept ≤ length cache.old.texts }
    ensures outcome { IfOk result (λ s. s.scrape ≡ outcome terms.now.rules.now terms.now.metric.now terms.now.target.now reply.now took) }
    ensures shows { IfOk result (λ s. Shows cache.new s.scrape) }
    ensures cache { IfOk result (λ s. turned (is_good s.scrape) cache.new
        ≡ turned (is_good s.scrape) (spec.texts_shown terms.now reply.now took cache.old)) }
    ensures was { OnOk result (was_sets cache.new.texts ≡ was_sets cache.old.texts) }
    ensures undone { undone cache.new ≡ cache.old }
    ensures err { OnErr result (cache.new ≡ cache.old) }
    ensures steps { OnOk result (steps.new + length cache.old.texts ≡ steps.old
        + length (spec.texts_shown terms.now reply.now took cache.old).texts) }
    ensures runs { IfOk result (λ s. s.runs ≡ length (spec.texts_shown terms.now reply.now took cache.old).texts - length cache.old.texts) }
    ensures at_least { steps.old ≤ steps.new }
    ensures at_most { steps.new + length cache.old.texts ≤ steps.old + length (spec.texts_shown terms.now reply.now took cache.old).texts }
{
    match known_rows(alloc, terms, reply, took, cache, steps) {
        Err(e) => {
            cache.undo();
            Err(e)
        }
        Ok(scrape) => {
            let runs = cache.put_count();
            if fault_in(&scrape).is_some() {
                cache.undo();
            }
            Ok(Settled { scrape, runs })
        }
    }
}
