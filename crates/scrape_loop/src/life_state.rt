//! What the scrapes of one life leave for the next.
ghost use Rattle.std.specs.Prelude.{◌≡◌, ◌≤◌, ◌+◌, List, [], ◌++◌, length, pos, ◌≤ℤ◌, Bool, cond, false, true, IfOk, IfSome, OnOk, OnErr};
ghost use Rattle.label_conflict.specs.Merging.{bears};
ghost use Rattle.label_set.specs.SetText.{metric_label};
ghost use Rattle.rule_conf.specs.declared.conf.RuleConf.{RuleConf};
ghost use Rattle.sample_rows.specs.Outcomes.{forced};
ghost use Rattle.scrape_loop.specs.Closings.{closing_of};
ghost use Rattle.scrape_loop.specs.Entries.{entries_by, entries_of, extra_of, forced_entries};
ghost use Rattle.scrape_loop.specs.Fresh.{FreshLaw, KnownLaw};
ghost use Rattle.scrape_loop.specs.Shown.{Shows};
ghost use Rattle.scrape_loop.specs.Texts.{AreRight};
ghost use Rattle.scrape_loop.specs.Tracked as spec;
ghost use Rattle.series_cache.specs.Caches.{turned};
ghost use Rattle.series_cache.specs.Sets.{IsRising};

use crate::health::Health;
use crate::known_rows::{ScrapeRules, Settled, shown_rows};
use crate::last_texts::{LastTexts, form_after};
use crate::past::{Past, Timing};
use crate::read_reply::ReadReply;
use crate::scrape_parts::{extra_in, fault_in, size_in};
use crate::target_labels::TargetLabels;
use appender_book::Book;
use label_set::{Form, LabelSet, NoMemory, Steps};
use outside::Reply;
use relabel::Rules;
use report_samples::{Closing, EntryList};
use sample_rows::{RowRules, Scrape, ScrapeFault};
use series_cache::SeriesCache;
use std::alloc::Global;
use std::hash::DefaultHasher;
use std::marker::Model;
use std::sync::ledger::Ledger;

/// What a scrape that was counted came to.
#[derive(Debug, Drop)]
pub struct Counted {
    /// Its fault, if it isn't good.
    pub fault: Option<ScrapeFault>,
    /// How often the rules for samples were run: once for each raw text that the last good scrape didn't show.
    pub runs: usize,
}

/// The state of one life, a stretch of time in which a target is scraped: what its scrapes so far leave for the next.
/// Contracts see it as a `LifeView`.
#[derive(Drop)]
pub struct LifeState {
    past: Past,
    /// What is known of the raw texts of the last good scrape.
    cache: SeriesCache,
    /// The form of the body in which they stood.
    form: Form,
}

impl Model for LifeState {
    ghost use Rattle.scrape_loop.specs.Raw.{AreRaw};
    ghost use Rattle.scrape_loop.specs.Texts.{IsAtRest};
    ghost use Rattle.scrape_loop.specs.Tracked.{LifeView, life_of};

    ghost Value = { LifeView };

    ghost view = { λ s. life_of s.past.life s.past.target s.past.extra s.cache (s.past.scraped, s.past.up) };

    ghost invariant = { λ s. IsAtRest s.cache × AreRaw s.form s.cache };
}

/// Lets a cache without texts begin its hashes as a book does, whose seed a target doesn't know.
fn seed(cache: &mut SeriesCache, alloc: Global, hasher: DefaultHasher)
    ensures same { cache.new ≡ cache.old }
    ensures kept { cache.new.kept ≤ length cache.new.texts }
{
    if cache.is_empty() {
        *cache = SeriesCache::hashed(alloc, hasher);
    }
}

impl LifeState {
    /// The state of life number `life` of a target with these labels, `__name__` not among them, of which nothing was scraped yet. It has the three extra
    /// reports where `extra` says so, as its job's `extra_scrape_metrics` does.
    ///
    /// # Errors
    ///
    /// The only error is out of memory.
    pub fn new(
        alloc: Global,
        life: u64,
        target: LabelSet,
        extra: bool,
    ) -> Result<LifeState, NoMemory>
        requires nameless { bears target metric_label ≡ false }
        ensures state { IfOk result (λ s. s ≡ spec.fresh life target extra) }
        ensures right { IfOk result (λ s. (honor : Bool) (metric : List RuleConf) → AreRight honor metric target s.cache.texts) }
    {
        Ok(LifeState {
            past: Past {
                life,
                target: TargetLabels::of(alloc, target, extra)?,
                extra,
                scraped: false,
                up: false,
            },
            cache: SeriesCache::new(alloc)?,
            form: Form::Plain,
        })
    }

    /// The life's number.
    pub fn number(&self) -> u64
        ensures { result ≡ self.now.life }
    {
        self.past.life
    }

    /// The labels of the life's target.
    pub fn target(&self) -> &LabelSet
        ensures labels { result.now ≡ self.now.target }
        ensures nameless { bears self.now.target metric_label ≡ false }
    {
        self.past.target.set()
    }

    /// Whether a scrape of the life counted, a forced one too.
    pub fn scraped(&self) -> bool
        ensures { result ≡ self.now.scraped }
    {
        self.past.scraped
    }

    /// How the life's target is, by the last scrape of it that counted.
    pub fn health(&self) -> Health
        ensures { result ≡ spec.health_of self.now }
    {
        if !self.past.scraped {
            return Health::Unknown;
        }
        if self.past.up {
            Health::Up
        } else {
            Health::Down
        }
    }

    /// The hash of a raw text: once a scrape was counted, by the hasher of the book of the first one.
    pub fn hash_of(&self, raw: &[u8]) -> u64 {
        self.cache.hash_of(raw)
    }

    /// Reads a reply as `ReadReply::of` does, with the same result: a page that is like the last good one of the life is read several times as fast.
    ///
    /// # Errors
    ///
    /// Those of `ReadReply::of`.
    pub fn read(&self, alloc: Global, reply: Reply) -> Result<ReadReply, NoMemory>
        ensures { IfOk result (λ r. r ≡ reply) }
    {
        let known = LastTexts {
            cache: &self.cache,
            form: self.form,
        };
        ReadReply::like(alloc, reply, &known)
    }

    /// What the life leaves behind where it is closed at a moment, with its next scrape planned at another one and this scrape interval.
    /// It shares the labels of the target and of the sets.
    ///
    /// # Errors
    ///
    /// The only error is out of memory.
    pub fn closing(
        &self,
        alloc: Global,
        planned: i64,
        closed: i64,
        interval: i64,
    ) -> Result<Closing, NoMemory>
        ensures closing { IfOk result (λ c. c ≡ closing_of self.now planned closed interval) }
        ensures rising { IfOk result (λ c. IsRising c.tracked) }
    {
        Ok(Closing {
            life: self.past.life,
            target: self.target().copy()?,
            tracked: self.cache.tracked_list(alloc)?,
            scraped: self.past.scraped,
            planned,
            closed,
            interval,
            extra: self.past.extra,
        })
    }

    /// Counts a scrape of the life's target that started at a moment: appends its entries to the book, and keeps what it leaves for the next.
    /// The answer is its fault, if it isn't good, and how often the rules for samples were run.
    ///
    /// The entries are, in this order: a sample for each row that is left, at its own honoured timestamp or at the moment; a stale marker at the
    /// moment for each series that the scrape before tracked and this one doesn't, sets rising; its reports at the moment, the
    /// extra ones where the rules have `extra_scrape_metrics`, as the life's job has.
    /// A sample with an own honoured timestamp is tracked where the rules have `track_timestamps_staleness` alone, and a scrape that isn't good tracks nothing.
    /// The fetch took `took` milliseconds, 0 or more, and so is the timeout. The body of the reply is read already.
    ///
    /// The rules for samples are run once for each raw text that the last good scrape didn't show (`fresh`), which takes one step; the next scrape
    /// knows just the texts of this one's rows where it is good, and those of before where it isn't (`known`). So what is known of a text has to be
    /// right under `honor_labels` and these rules, as it is where each scrape of the life goes by the same ones (`right`).
    ///
    /// The source is "Staleness" of the Prometheus documentation, and "Configuration", scrape_config.
    ///
    /// # Errors
    ///
    /// The only error is out of memory; the state and the book, its room too, are then as before.
    pub fn count<L: Ledger>(
        &mut self,
        alloc: Global,
        rules: &RowRules,
        metric: &Rules,
        moment: i64,
        reply: &ReadReply,
        took: i64,
        book: &mut Book,
        steps: &mut Steps<L>,
    ) -> Result<Counted, NoMemory>
        requires took { pos 0 ≤ℤ took }
        requires timeout { pos 0 ≤ℤ rules.now.timeout }
        requires right { AreRight rules.now.honor_labels metric.now self.old.target self.old.cache.texts }
        ensures fault { IfOk result (λ c. c.fault ≡ spec.fault_of (spec.outcome_for self.old rules.now metric.now reply.now took)) }
        ensures runs { IfOk result (λ c. c.runs ≡ spec.runs_for self.old rules.now metric.now reply.now took) }
        ensures entries { OnOk result (book.new.entries ≡ book.old.entries ++ entries_by self.old rules.now metric.now (reply.now, took) moment) }
        ensures state { OnOk result (self.new ≡ spec.after_reply self.old rules.now metric.now reply.now took) }
        ensures spare { OnOk result (book.old.spare ≤ book.new.spare + length (entries_by self.old rules.now metric.now (reply.now, took) moment)) }
        ensures err_state { OnErr result (self.new ≡ self.old) }
        ensures err_book { OnErr result (book.new ≡ book.old) }
        ensures steps { OnOk result (steps.new ≡ steps.old + spec.runs_for self.old rules.now metric.now reply.now took) }
        ensures at_least { steps.old ≤ steps.new }
        ensures at_most { steps.new ≤ steps.old + spec.runs_for self.old rules.now metric.now reply.now took }
        ensures fresh { FreshLaw self.old rules.now metric.now reply.now took }
        ensures known { KnownLaw self.old rules.now metric.now reply.now took }
        ensures right { AreRight rules.now.honor_labels metric.now self.new.target self.new.cache.texts }
    {
        seed(&mut self.cache, alloc, book.hasher());
        let target = self.past.target.set();
        let terms = ScrapeRules {
            rules,
            metric,
            target,
        };
        let Settled { scrape, runs } = shown_rows(
            alloc,
            &terms,
            reply,
            took,
            &mut self.cache,
            steps,
        )?;
        let fault = fault_in(&scrape);
        let good = fault.is_none();
        let extra = extra_in(rules, size_in(&scrape, reply.size()));
        let timing = Timing { moment, took };
        match self
            .past
            .append(alloc, &self.cache, scrape, extra, timing, book)
        {
            Err(e) => {
                self.cache.undo();
                Err(e)
            }
            Ok(()) => {
                self.past.scraped = true;
                self.past.up = good;
                self.form = form_after(good, reply.form(), self.form);
                self.cache.turn(good);
                Ok(Counted { fault, runs })
            }
        }
    }

    /// The entries of a forced scrape at a moment, one that is not made, since the job has more targets than its `target_limit`:
    /// a stale marker for each series that the last counted scrape tracked, sets rising, and reports that say 0 but for the timeout and the limit of samples,
    /// where the rules have these. Nothing changes.
    ///
    /// # Errors
    ///
    /// The only error is out of memory.
    #[tactic(auto, using(crate::proofs::ForcedLemmas::gone_all))]
    pub fn force_entries(
        &self,
        alloc: Global,
        rules: &RowRules,
        moment: i64,
    ) -> Result<EntryList, NoMemory>
        requires { pos 0 ≤ℤ rules.now.timeout }
        ensures entries { IfOk result (λ l. l ≡ entries_of self.now (extra_of rules.now (pos 0)) forced moment (pos 0)) }
        ensures all_end { IfOk result (λ l. l ≡ forced_entries self.now rules.now moment) }
    {
        let scrape = Scrape::Bad {
            fault: ScrapeFault::TargetLimit,
            scraped: 0,
            left: 0,
        };
        let extra = extra_in(rules, 0);
        let timing = Timing { moment, took: 0 };
        self.past
            .entries_of(alloc, &self.cache, scrape, extra, timing)
    }

    /// Makes a forced scrape the last counted one: it tracks nothing, and what the last good scrape showed stays known. It takes no memory.
    pub fn force(&mut self)
        ensures state { self.new ≡ spec.after_forced self.old }
        ensures none_tracked { self.new ≡ record self.old { tracked = []; cache = turned false self.old.cache; scraped = true; up = false } }
        ensures right { (honor : Bool) (metric : List RuleConf) →
            AreRight honor metric self.old.target self.old.cache.texts → AreRight honor metric self.new.target self.new.cache.texts }
    {
        self.past.scraped = true;
        self.past.up = false;
        self.cache.turn(false);
    }

    /// Lets go what is known of raw texts, and with it the sets that were tracked, where the life's ending was taken: no scrape of it comes any more.
    /// It takes no memory, and what they took is given back.
    pub fn release(&mut self)
        ensures state { self.new ≡ spec.released self.old }
        ensures right { (honor : Bool) (metric : List RuleConf) → AreRight honor metric self.new.target self.new.cache.texts }
    {
        self.cache.clear();
    }
}
