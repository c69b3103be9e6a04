//! Where the last kept entry of a series is found.
ghost use Rattle.std.specs.Prelude.{◌≡◌, ℕ, ◌+◌, ◌++◌, ◌∷◌, [], true, length, nat_eq, if◌then◌else◌, IfSome, OnOk, reverse, slice_get};
ghost use Rattle.std.specs.Option.{option_map};
ghost use Rattle.appender_book.specs.Verdicts as verdict_words;
ghost use Rattle.appender_book.specs.Index as spec;
ghost use Rattle.appender_book.specs.declared.index.Found.TheVariants.{Known};

use crate::verdicts::{Verdict, verdict_after};
use label_set::{LabelSet, NoMemory};
use report_samples::Entry;
use std::alloc::Global;
use std::collections::HashMap;
use std::hash::{DefaultHasher, Hash, Hasher};

/// So many series have places of four bytes.
const SERIES: usize = 1 << 32;

/// What is noted beside the entries of a book. Series have places in the order in which they first came; a number is one more than a place, and
/// 0 where there is no series. An end is one more than the place of an entry, and 0 where there is no entry.
#[derive(Drop)]
pub struct Index {
    /// The verdict of each entry.
    verdicts: Vec<Verdict>,
    /// The place of the series of each entry.
    places: Vec<u32>,
    /// For each series, the end of its last kept entry.
    ends: Vec<usize>,
    /// For each series, the number of the last one before it whose set has the same hash.
    earlier: Vec<usize>,
    /// For each series, the place of the one that came behind it the last time.
    next: Vec<usize>,
    /// For each hash of a set, the number of the last series. These are seeded already, so the map needs no seed of its own.
    last: HashMap<u64, usize>,
    /// The place of the series that came last, markers apart.
    latest: usize,
    /// Begins the hash of each set, with the seed of the book.
    hasher: DefaultHasher,
}

/// What is found of a series.
#[derive(Clone, Copy, Debug)]
pub enum Found {
    /// It has this place.
    Known { place: usize },
    /// No entry of it came so far. Its set has this hash, and the last series of the hash has the number.
    New { hash: u64, last: usize },
}

impl Index {
    /// The index of no entries.
    pub(crate) fn new(alloc: Global, hasher: DefaultHasher) -> Index
        ensures index { spec.IsIndex [] result }
        ensures hasher { result.hasher ≡ hasher }
        ensures room { spec.HasRoom 0 result }
    {
        Index {
            verdicts: Vec::new(alloc),
            places: Vec::new(alloc),
            ends: Vec::new(alloc),
            earlier: Vec::new(alloc),
            next: Vec::new(alloc),
            last: HashMap::new(alloc),
            latest: 0,
            hasher,
        }
    }

    /// The hasher with which each hash begins.
    pub(crate) fn hasher(&self) -> DefaultHasher
        ensures { result ≡ self.now.hasher }
    {
        self.hasher
    }

    /// Makes room for so many more entries. There is none for a series whose place has more than four bytes.
    pub(crate) fn reserve(&mut self, more: usize) -> Result<(), NoMemory>
        ensures room { OnOk result (spec.HasRoom more self.new) }
        ensures kept { (n : ℕ) → spec.HasRoom n self.old → spec.HasRoom n self.new }
        ensures same { spec.IsSameIndex self.old self.new }
    {
        if more > SERIES || self.ends.len() > SERIES - more {
            return Err(NoMemory);
        }
        self.verdicts.reserve(more)?;
        self.places.reserve(more)?;
        self.ends.reserve(more)?;
        self.earlier.reserve(more)?;
        self.next.reserve(more)?;
        Ok(self.last.reserve(more)?)
    }

    /// The hash of a set.
    #[tactic(auto, unfolding(crate::specs::Index::hash_of))]
    fn hash_of(&self, set: &LabelSet) -> u64
        ensures { result ≡ spec.hash_of self.now.hasher set.now }
    {
        let mut hasher = self.hasher;
        set.hash(&mut hasher);
        hasher.finish()
    }

    /// The number of the last series whose set has a hash.
    fn number_of_hash(&self, hash: u64) -> usize
        ensures { result ≡ spec.number_of_hash self.now hash }
    {
        self.last.get(&hash).copied().unwrap_or(0)
    }

    /// The last kept entry of the series at a place.
    pub(crate) fn entry_at<'a>(&self, entries: &'a [Entry], place: usize) -> Option<&'a Entry>
        ensures { option_map (λ e. e.now) result ≡ spec.entry_at entries.now self.now.ends.items place }
    {
        match self.ends.get(place) {
            None => None,
            Some(end) => entry_before(entries, *end),
        }
    }

    /// Whether the series at a place is this one.
    fn is_at(&self, entries: &[Entry], place: usize, series: &LabelSet) -> bool
        ensures { result ≡ spec.passes_at (spec.sets_of entries.now self.now.ends.items) (spec.is_series series.now) place }
    {
        match self.entry_at(entries, place) {
            None => false,
            Some(entry) => *series == entry.series,
        }
    }

    /// The place of the series that came behind that at a place the last time.
    fn next_of(&self, place: usize) -> usize {
        self.next.get(place).copied().unwrap_or(usize::MAX)
    }

    /// The place of a series, where it is one that is expected: that which came next the last time, or next but one, where that one is left out,
    /// or that which first came next. No hash is made.
    fn expected(&self, entries: &[Entry], series: &LabelSet) -> Option<usize>
        ensures { IfSome result (λ place. spec.passes_at (spec.sets_of entries.now self.now.ends.items) (spec.is_series series.now) place ≡ true) }
    {
        let next = self.next_of(self.latest);
        if self.is_at(entries, next, series) {
            return Some(next);
        }
        let second = self.next_of(next);
        if self.is_at(entries, second, series) {
            return Some(second);
        }
        let first = self.latest.saturating_add(1);
        if self.is_at(entries, first, series) {
            return Some(first);
        }
        None
    }

    /// What is found of a series by the hash of its set: it goes back over the series of the same hash.
    fn hashed(&self, entries: &[Entry], series: &LabelSet) -> Found
        requires { spec.IsIndex entries.now self.now }
        ensures { spec.IsFound entries.now self.now series.now result }
    {
        let hash = self.hash_of(series);
        let last = self.number_of_hash(hash);
        let mut number = last;
        while number > 0 {
            let place = number - 1;
            if self.is_at(entries, place, series) {
                return Found::Known { place };
            }
            number = self.earlier[place];
        }
        Found::New { hash, last }
    }

    /// What is found of a series, where these are all entries.
    pub(crate) fn find(&self, entries: &[Entry], series: &LabelSet) -> Found
        requires { spec.IsIndex entries.now self.now }
        ensures { spec.IsFound entries.now self.now series.now result }
    {
        match self.expected(entries, series) {
            Some(place) => Found::Known { place },
            None => self.hashed(entries, series),
        }
    }

    /// The verdict of an entry that is to stand behind all entries, where this was found of its series.
    pub(crate) fn verdict_of(&self, entries: &[Entry], found: Found, entry: &Entry) -> Verdict
        requires index { spec.IsIndex entries.now self.now }
        requires found { spec.IsFound entries.now self.now entry.now.series found }
        ensures { result ≡ verdict_words.verdict_behind (reverse entries.now) entry.now }
    {
        match found {
            Found::Known { place } => verdict_after(self.entry_at(entries, place), entry),
            Found::New { .. } => Verdict::Kept,
        }
    }

    /// Notes which series comes behind the latest one.
    fn follow(&mut self, place: usize)
        ensures same { spec.IsSameIndex self.old self.new }
        ensures room { (n : ℕ) → spec.HasRoom n self.old → spec.HasRoom n self.new }
    {
        if let Some(next) = self.next.get_mut(self.latest) {
            *next = place;
        }
        self.latest = place;
    }

    /// Notes the end of an entry of the series at a place, if it is kept.
    fn renew(&mut self, place: usize, end: usize, verdict: Verdict)
        ensures ends { self.new.ends.items ≡ spec.ends_after self.old.ends.items end (verdict_words.is_kept verdict) (Known place) }
        ensures same { self.new ≡ record self.old { ends = self.new.ends } }
        ensures room { (n : ℕ) → spec.HasSeriesRoom n self.old → spec.HasSeriesRoom n self.new }
    {
        if verdict != Verdict::Kept {
            return;
        }
        if let Some(one) = self.ends.get_mut(place) {
            *one = end;
        }
    }

    /// Notes a new series, whose first entry has this end, and whose set this hash.
    fn begin(&mut self, end: usize, hash: u64, last: usize)
        requires { spec.HasSeriesRoom 1 self.old }
        ensures ends { self.new.ends.items ≡ self.old.ends.items ++ end ∷ [] }
        ensures earlier { self.new.earlier.items ≡ self.old.earlier.items ++ last ∷ [] }
        ensures last { (h : ℕ) → spec.number_of_hash self.new h
            ≡ (if nat_eq h hash then length self.old.ends.items + 1 else spec.number_of_hash self.old h) }
        ensures verdicts { self.new.verdicts ≡ self.old.verdicts }
        ensures places { self.new.places ≡ self.old.places }
        ensures hasher { self.new.hasher ≡ self.old.hasher }
        ensures room { (n : ℕ) → spec.HasSeriesRoom (n + 1) self.old → spec.HasSeriesRoom n self.new }
    {
        let next = self.next_of(self.latest);
        let _ = self.last.insert(hash, self.ends.len() + 1);
        self.ends.push_reserved(end);
        self.earlier.push_reserved(last);
        self.next.push_reserved(next);
    }

    /// Notes the end of an entry with its series; the answer is the place of that.
    fn enter(&mut self, end: usize, found: Found, verdict: Verdict) -> usize
        requires { spec.HasSeriesRoom 1 self.old }
        ensures place { result ≡ spec.place_of self.old found }
        ensures ends { self.new.ends.items ≡ spec.ends_after self.old.ends.items end (verdict_words.is_kept verdict) found }
        ensures earlier { self.new.earlier.items ≡ spec.earlier_after self.old.earlier.items found }
        ensures last { (h : ℕ) → spec.number_of_hash self.new h ≡ spec.last_after self.old h found }
        ensures verdicts { self.new.verdicts ≡ self.old.verdicts }
        ensures places { self.new.places ≡ self.old.places }
        ensures hasher { self.new.hasher ≡ self.old.hasher }
        ensures room { (n : ℕ) → spec.HasSeriesRoom (n + 1) self.old → spec.HasSeriesRoom n self.new }
    {
        match found {
            Found::Known { place } => {
                self.renew(place, end, verdict);
                place
            }
            Found::New { hash, last } => {
                let place = self.ends.len();
                self.begin(end, hash, last);
                place
            }
        }
    }

    /// Notes an entry with this end and verdict, where this was found of its series; `follows` says that it isn't a marker.
    pub(crate) fn note(&mut self, end: usize, found: Found, verdict: Verdict, follows: bool)
        requires room { spec.HasRoom 1 self.old }
        requires known { spec.IsWithin found self.old }
        ensures noted { spec.IsNoted self.old self.new end found verdict }
        ensures room { (n : ℕ) → spec.HasRoom (n + 1) self.old → spec.HasRoom n self.new }
    {
        let place = self.enter(end, found, verdict);
        self.verdicts.push_reserved(verdict);
        self.places.push_reserved(place as u32);
        if follows {
            self.follow(place);
        }
    }

    /// The verdict of the entry at a place.
    pub(crate) fn verdict(&self, place: usize) -> Option<Verdict>
        ensures { result ≡ slice_get self.now.verdicts.items place }
    {
        self.verdicts.get(place).copied()
    }

    /// The place of the series of the entry at a place.
    pub(crate) fn series_at(&self, place: usize) -> Option<usize>
        ensures { result ≡ slice_get self.now.places.items place }
    {
        match self.places.get(place) {
            None => None,
            Some(series) => Some(*series as usize),
        }
    }

    /// How many series there are.
    pub(crate) fn series_count(&self) -> usize
        ensures { result ≡ length self.now.ends.items }
    {
        self.ends.len()
    }
}

/// The entry before an end.
fn entry_before(entries: &[Entry], end: usize) -> Option<&Entry>
    ensures { option_map (λ e. e.now) result ≡ spec.entry_before entries.now end }
{
    match end.checked_sub(1) {
        None => None,
        Some(place) => entries.get(place),
    }
}
