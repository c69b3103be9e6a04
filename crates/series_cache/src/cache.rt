//! The series cache of one life of a target.
ghost use Rattle.std.specs.Prelude.{◌≡◌, ◌≤◌, ◌-◌, length, slice_get, ℕ, List, Option, true, false, if◌then◌else◌, Some, IsSome, IfSome, IfNone, ◌++◌, [], ◌∷◌, None, map, IfOk, OnOk, OnErr, IsTrue, ◌↔◌};
ghost use Rattle.std.specs.Map.{keys_of};
ghost use Rattle.std.specs.Str.{bytes_eq};
ghost use Rattle.label_set.specs.declared.texts.Pair.{Pair};
ghost use Rattle.series_cache.specs.Caches as spec;
ghost use Rattle.series_cache.specs.Remembered.{fresh};
ghost use Rattle.series_cache.specs.Sets.{IsRising, gone, has, rising};
ghost use Rattle.series_cache.specs.Added.{added_sets};

use crate::added::added;
use crate::known::shared;
use crate::texts::{Expected, Texts};
use crate::vanished::{vanished, were};
use label_set::{LabelSet, NoMemory, SetList};
use std::alloc::Global;
use std::hash::DefaultHasher;
use std::marker::Model;

/// What a look at a cache answers for a raw text.
#[derive(Clone, Copy, Debug)]
pub enum Look<'a> {
    /// The last good scrape didn't show it, and it didn't come since.
    Unknown,
    /// A rule dropped it.
    Dropped,
    /// It is a sample line of the series with this label set.
    Set(&'a LabelSet),
}

/// The raw texts of the last good scrape of a target and those that the running one has shown, each once, with what is known of each.
/// Contracts see the texts in the order in which they came, and how many of them, in front, are of the last good scrape.
#[derive(Drop)]
pub struct SeriesCache {
    texts: Texts,
    /// How many are of the last good scrape.
    kept: usize,
    expected: Expected,
}

impl Model for SeriesCache {
    ghost use Rattle.std.specs.Prelude.{◌≤◌, length};
    ghost use Rattle.series_cache.specs.Caches.{CacheView};
    ghost use Rattle.series_cache.specs.Kept.{AreNew, AreShown};

    ghost Value = { CacheView };

    ghost view = { λ c. record { texts = c.texts; kept = c.kept } };

    ghost invariant = { λ c. (c.kept ≤ length c.texts) × AreShown c.texts × AreNew c.kept c.texts };
}

impl SeriesCache {
    /// A cache without texts, whose hashes have a fixed seed: for texts that no stranger picks.
    pub fn new(alloc: Global) -> Result<SeriesCache, NoMemory>
        ensures texts { IfOk result (λ c. c.texts ≡ []) }
        ensures kept { IfOk result (λ c. c.kept ≡ 0) }
    {
        Ok(SeriesCache::hashed(alloc, DefaultHasher::new()))
    }

    /// A cache without texts, whose hashes begin with this hasher. Where its seed isn't known to the target, the target can't pick
    /// texts that share a hash.
    pub fn hashed(alloc: Global, hasher: DefaultHasher) -> SeriesCache
        ensures texts { result.texts ≡ [] }
        ensures kept { result.kept ≡ 0 }
    {
        SeriesCache {
            texts: Texts::new(alloc, hasher),
            kept: 0,
            expected: Expected::first(),
        }
    }

    /// The hash of a raw text, by the hasher with which the cache was made.
    pub fn hash_of(&self, raw: &[u8]) -> u64 {
        self.texts.hash_of(raw)
    }

    /// Whether no text is remembered.
    pub fn is_empty(&self) -> bool
        ensures empty { IsTrue result ↔ (self.now.texts ≡ []) }
        ensures kept { self.now.kept ≤ length self.now.texts }
    {
        self.texts.len() == 0
    }

    /// The text at a place, counted from 0, in the order in which they came, if there is one.
    pub fn text_at(&self, place: usize) -> Option<&[u8]>
        ensures { IfSome result (λ t. slice_get (keys_of self.now.texts) place ≡ Some t.now) }
    {
        self.texts.text_at(place)
    }

    /// What is known of a raw text. It takes no memory.
    pub fn look(&self, raw: &[u8]) -> Look<'_>
        ensures answered { spec.answered result ≡ spec.look_up raw.now self.now.texts }
        ensures kept { self.now.kept ≤ length self.now.texts }
    {
        match self.texts.find(raw, self.expected) {
            None => Look::Unknown,
            Some(known) => match &known.set {
                None => Look::Dropped,
                Some(set) => Look::Set(set),
            },
        }
    }

    /// How many texts were put since the last turn.
    pub fn put_count(&self) -> usize
        ensures { result ≡ length self.now.texts - self.now.kept }
    {
        self.texts.len() - self.kept
    }

    /// Remembers a raw text that isn't known, with the label set of its series, or none where a rule dropped it. It isn't shown yet.
    /// Where memory runs out, nothing changes.
    pub fn put(&mut self, alloc: Global, raw: &[u8], set: Option<LabelSet>) -> Result<(), NoMemory>
        requires { spec.look_up raw.now self.old.texts ≡ None }
        ensures texts { OnOk result (self.new.texts ≡ self.old.texts ++ (raw.now, fresh set) ∷ []) }
        ensures kept { self.new.kept ≡ self.old.kept }
        ensures known { OnOk result (spec.look_up raw.now self.new.texts ≡ Some set) }
        ensures others { OnOk result ((r : List ℕ) → bytes_eq r raw.now ≡ false → spec.look_up r self.new.texts ≡ spec.look_up r self.old.texts) }
        ensures was { OnOk result (spec.was_sets self.new.texts ≡ spec.was_sets self.old.texts) }
        ensures tracked { OnOk result (spec.now_sets self.new.texts ≡ spec.now_sets self.old.texts) }
        ensures err { OnErr result (self.new ≡ self.old) }
    {
        self.texts.push(alloc, raw, set)
    }

    /// Notes that the running scrape shows a known raw text, as tracked or not: a sample with a timestamp of its own isn't tracked.
    /// Shown more than once, it is tracked where it was tracked once. It takes no memory.
    pub fn stamp(&mut self, raw: &[u8], tracked: bool)
        requires { IsSome (spec.look_up raw.now self.old.texts) }
        ensures texts { self.new.texts ≡ map (spec.stamped raw.now tracked) self.old.texts }
        ensures kept { self.new.kept ≡ self.old.kept }
        ensures known { (r : List ℕ) → spec.look_up r self.new.texts ≡ spec.look_up r self.old.texts }
        ensures was { spec.was_sets self.new.texts ≡ spec.was_sets self.old.texts }
        ensures tracked { IfSome (spec.look_up raw.now self.old.texts)
            (λ set. (x : List Pair) → has x (spec.now_sets self.new.texts)
            ≡ has x (spec.now_sets self.old.texts ++ spec.set_if tracked set)) }
    {
        self.expected = self.texts.show(raw, self.expected, tracked);
    }

    /// Notes that the running scrape shows a raw text, as `stamp` does, where it is known, and gives the set of its series, or that it has none.
    /// For a text that isn't known it gives nothing, and nothing changes. It is looked for once, first at a place, which is counted from 1; 0 is none.
    ///
    /// # Errors
    ///
    /// The only error is out of memory; nothing changes then.
    pub fn show(
        &mut self,
        raw: &[u8],
        hint: usize,
        tracked: bool,
    ) -> Result<Option<Option<LabelSet>>, NoMemory>
        ensures answered { IfOk result (λ k. k ≡ spec.look_up raw.now self.old.texts) }
        ensures texts { IfOk result (λ k. IfSome k (λ _. self.new.texts ≡ map (spec.stamped raw.now tracked) self.old.texts)) }
        ensures unknown { IfOk result (λ k. IfNone k (self.new ≡ self.old)) }
        ensures kept { self.new.kept ≡ self.old.kept }
        ensures within { self.old.kept ≤ length self.old.texts }
        ensures err { OnErr result (self.new ≡ self.old) }
    {
        let Some((place, known)) = self.texts.found(raw, hint, self.expected) else {
            return Ok(None);
        };
        let series = shared(&known.set)?;
        self.texts.stamp(place, tracked);
        self.expected = self.expected.after(place);
        Ok(Some(series))
    }

    /// The label sets that the last turn left as tracked and that no text shown as tracked since has, each once, in rising order: the series
    /// that end with a stale marker.
    pub fn vanished(&self, alloc: Global) -> Result<SetList, NoMemory>
        ensures { IfOk result (λ sets. sets ≡ gone (rising (spec.was_sets self.now.texts)) (spec.now_sets self.now.texts)) }
    {
        vanished(alloc, &self.texts)
    }

    /// How many label sets the texts that were shown since the last turn have which no text of the last good scrape has, each once: the series
    /// that a scrape adds. Where no text was put, none is looked at.
    pub fn added(&self, alloc: Global) -> Result<usize, NoMemory>
        ensures { IfOk result (λ n. n ≡ length (added_sets self.now)) }
    {
        added(alloc, &self.texts, self.kept)
    }

    /// The label sets that the last turn left as tracked, each once, in rising order.
    pub fn tracked_list(&self, alloc: Global) -> Result<SetList, NoMemory>
        ensures list { IfOk result (λ l. l ≡ rising (spec.was_sets self.now.texts)) }
        ensures rises { IfOk result (λ l. IsRising l) }
    {
        were(alloc, &self.texts)?.list(alloc)
    }

    /// Ends a scrape. After a good one just the texts that it showed remain; after a failed one those of the last good one remain, and none
    /// is tracked. It takes no memory.
    pub fn turn(&mut self, good: bool)
        ensures turned { self.new ≡ spec.turned good self.old }
        ensures known { (r : List ℕ) (set : Option (List Pair)) → spec.look_up r self.new.texts ≡ Some set →
            spec.look_up r self.old.texts ≡ Some set }
        ensures was { spec.was_sets self.new.texts ≡ (if good then spec.now_sets self.old.texts else []) }
        ensures tracked { spec.now_sets self.new.texts ≡ [] }
    {
        if good {
            self.renew();
        } else {
            self.fail();
        }
    }

    /// Ends a good scrape.
    fn renew(&mut self)
        ensures turned { self.new ≡ spec.turned true self.old }
        ensures known { (r : List ℕ) (set : Option (List Pair)) → spec.look_up r self.new.texts ≡ Some set →
            spec.look_up r self.old.texts ≡ Some set }
        ensures was { spec.was_sets self.new.texts ≡ spec.now_sets self.old.texts }
        ensures tracked { spec.now_sets self.new.texts ≡ [] }
    {
        self.texts.renew();
        self.kept = self.texts.len();
        self.expected = Expected::first();
    }

    /// Ends a failed scrape.
    fn fail(&mut self)
        ensures turned { self.new ≡ spec.turned false self.old }
        ensures known { (r : List ℕ) (set : Option (List Pair)) → spec.look_up r self.new.texts ≡ Some set →
            spec.look_up r self.old.texts ≡ Some set }
        ensures was { spec.was_sets self.new.texts ≡ [] }
        ensures tracked { spec.now_sets self.new.texts ≡ [] }
    {
        self.texts.cut(self.kept);
        self.texts.fail();
        self.expected = Expected::first();
    }

    /// Takes back whatever was put and shown since the last turn. It takes no memory.
    pub fn undo(&mut self)
        ensures undone { self.new ≡ spec.undone self.old }
        ensures known { (r : List ℕ) (set : Option (List Pair)) → spec.look_up r self.new.texts ≡ Some set →
            spec.look_up r self.old.texts ≡ Some set }
        ensures was { spec.was_sets self.new.texts ≡ spec.was_sets self.old.texts }
        ensures tracked { spec.now_sets self.new.texts ≡ [] }
    {
        self.texts.cut(self.kept);
        self.texts.unshow();
        self.expected = Expected::first();
    }

    /// Forgets all texts, and gives back the memory that they took. Texts that come then are hashed as before. It takes no memory.
    pub fn clear(&mut self)
        ensures texts { self.new.texts ≡ [] }
        ensures kept { self.new.kept ≡ 0 }
    {
        self.texts.clear();
        self.kept = 0;
        self.expected = Expected::first();
    }
}
