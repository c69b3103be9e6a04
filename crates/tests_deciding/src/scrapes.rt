//! The hash of what a life knows of raw texts. What its scrapes append, and what it leaves behind, the cases show.
ghost use Rattle.std.specs.Prelude.{◌≡◌, ◌<◌};

use crate::shared::{conf_of, holds, job_in, set_of};
use appender_book::Book;
use label_set::{Blob, LabelSet, NoMemory, Steps};
use outside::Reply;
use sample_rows::RowRules;
use sample_rows::left::is_named;
use scrape_config::Job;
use scrape_limits::Limits;
use scrape_loop::{LifeState, ReadReply};
use series_cache::SeriesCache;
use std::alloc::Global;
use std::hash::RandomState;
use std::marker::Brand;
use std::process::Abort;
use std::sync::ledger::{Blank, Ledger};

const RULES: RowRules = RowRules {
    honor_labels: false,
    honor_timestamps: true,
    track_timestamps_staleness: false,
    extra_scrape_metrics: false,
    timeout: 10_000,
    limits: Limits {
        sample: 0,
        label: 0,
        name_length: 0,
        value_length: 0,
        body_size: 0,
        target: 0,
    },
};

/// Life 3 of a target after its first scrape, which started at 1000 and took 15 milliseconds.
fn counted<L: Ledger>(
    alloc: Global,
    blank: Blank,
    job: &Job,
    target: LabelSet,
    reply: &ReadReply,
    book: &mut Book,
) -> Result<LifeState, NoMemory>
    requires name { blank.name ≡ L.name }
    requires parts { blank.parts ≡ L.parts }
    requires some { 0 < blank.parts }
{
    if is_named(&target) {
        return Err(NoMemory);
    }
    let mut steps = Steps::<L>::open(blank);
    let mut life = LifeState::new(alloc, 3, target, false)?;
    let rules = &job.metric_rules;
    let said = life.count(alloc, &RULES, rules, 1000, reply, 15, book, &mut steps)?;
    if said.fault.is_some() || said.runs != 1 {
        return Err(NoMemory);
    }
    Ok(life)
}

/// That life of the target `{job="j"}` after the page `x 1`, under a job without rules for samples.
fn after_page(rt: &impl Abort, alloc: Global, book: &mut Book) -> Result<LifeState, NoMemory> {
    let conf = conf_of(rt, alloc, "")?;
    let bytes = Blob::from_slice(alloc, b"x 1\n")?;
    let reply = ReadReply::of(alloc, Reply::Body { status: 200, bytes })?;
    let target = set_of(alloc, "job=j")?;
    counted::<Brand>(
        alloc,
        Blank::new(1),
        job_in(rt, &conf),
        target,
        &reply,
        book,
    )
}

/// Ends the test where the raw text `x` of the life isn't hashed by the hasher of the book.
fn hashes_as(rt: &impl Abort, alloc: Global, life: &LifeState, book: &Book) {
    let wanted = SeriesCache::hashed(alloc, book.hasher());
    let is_so = life.hash_of(b"x") == wanted.hash_of(b"x");
    holds(rt, is_so, "the hash of a raw text");
}

/// The texts that a life knows, also once it let them go.
pub(crate) fn texts_are_hashed_with_the_seed_of_the_book(
    rt: &impl Abort,
    alloc: Global,
    seed: RandomState,
) -> Result<(), NoMemory> {
    let plain = SeriesCache::new(alloc)?.hash_of(b"x");
    let mut book = Book::seeded(alloc, seed)?;
    let mut life = after_page(rt, alloc, &mut book)?;
    hashes_as(rt, alloc, &life, &book);
    holds(rt, life.hash_of(b"x") != plain, "a hash with a seed");
    life.force();
    life.release();
    hashes_as(rt, alloc, &life, &book);
    holds(rt, life.scraped(), "a scrape still");
    Ok(())
}
