//! The book: what was appended, entry by entry.
ghost use Rattle.std.specs.Prelude.{◌≡◌, ◌+◌, ◌≤◌, ◌<◌, ◌++◌, [], ◌∷◌, ℕ, length, reverse, slice_get, vec_len, vec_capacity, is_some, IfSome, IfOk, OnOk, OnErr, option_copied};
ghost use Rattle.std.specs.Hash.DefaultHasher.{initial};
ghost use Rattle.std.specs.Option.{option_map};
ghost use Rattle.std.specs.RandomState.{initial_hasher};
ghost use Rattle.appender_book.specs.Index as spec;
ghost use Rattle.appender_book.specs.Series as series_words;
ghost use Rattle.appender_book.specs.Verdicts.{verdict_at};

use crate::index::Index;
use crate::verdicts::Verdict;
use label_set::NoMemory;
use report_samples::{Entry, EntryList};
use std::alloc::Global;
use std::hash::{BuildHasher, DefaultHasher, RandomState};
use std::marker::Model;
use value_text::ValueText;

/// Entries that are only ever appended, with their verdicts. Contracts see the entries, the spare room, and the hasher.
#[derive(Drop)]
pub struct Book {
    entries: Vec<Entry>,
    index: Index,
    /// For how many more entries room was made, in all lists.
    room: usize,
    /// How many bytes the longest value has.
    longest: usize,
}

impl Model for Book {
    ghost use Rattle.std.specs.Prelude.{◌+◌, ◌≤◌, vec_capacity, vec_len};
    ghost use Rattle.appender_book.specs.Books.{BookView};
    ghost use Rattle.appender_book.specs.Index.{IsIndex, HasRoom};
    ghost use Rattle.appender_book.specs.Series.{AreShort};

    ghost Value = { BookView };

    ghost view = { λ b. record { entries = b.entries.items; spare = b.room; hasher = b.index.hasher } };

    ghost invariant = { λ b. IsIndex b.entries.items b.index × (vec_len b.entries + b.room ≤ vec_capacity b.entries)
        × HasRoom b.room b.index × AreShort b.longest b.entries.items };
}

fn value_len(value: &Option<ValueText>) -> usize
    ensures { result ≡ series_words.value_len value.now }
{
    match value {
        None => 0,
        Some(value) => value.bytes().len(),
    }
}

/// Makes room for so many more entries in both.
fn make_room(entries: &mut Vec<Entry>, index: &mut Index, more: usize) -> Result<(), NoMemory>
    requires { spec.IsIndex entries.old.items index.old }
    ensures entries { entries.new.items ≡ entries.old.items }
    ensures len { vec_len entries.new ≡ vec_len entries.old }
    ensures index { spec.IsIndex entries.new.items index.new }
    ensures hasher { index.new.hasher ≡ index.old.hasher }
    ensures capacity { vec_capacity entries.old ≤ vec_capacity entries.new }
    ensures index_room { (n : ℕ) → spec.HasRoom n index.old → spec.HasRoom n index.new }
    ensures ok { OnOk result (vec_len entries.new + more ≤ vec_capacity entries.new) }
    ensures index_ok { OnOk result (spec.HasRoom more index.new) }
{
    entries.reserve(more)?;
    index.reserve(more)
}

/// Appends an entry to the entries and to their index.
fn push(entries: &mut Vec<Entry>, index: &mut Index, entry: Entry)
    requires index { spec.IsIndex entries.old.items index.old }
    requires room { vec_len entries.old < vec_capacity entries.old }
    requires index_room { spec.HasRoom 1 index.old }
    ensures entries { entries.new.items ≡ entries.old.items ++ entry ∷ [] }
    ensures index { spec.IsIndex entries.new.items index.new }
    ensures hasher { index.new.hasher ≡ index.old.hasher }
    ensures room { vec_len entries.new ≡ vec_len entries.old + 1 }
    ensures capacity { vec_capacity entries.new ≡ vec_capacity entries.old }
    ensures index_room { (n : ℕ) → spec.HasRoom (n + 1) index.old → spec.HasRoom n index.new }
{
    let found = index.find(entries, &entry.series);
    let verdict = index.verdict_of(entries, found, &entry);
    let end = entries.len() + 1;
    index.note(end, found, verdict, entry.value.is_some());
    entries.push_reserved(entry);
}

impl Book {
    /// A book without entries, whose hashes have a fixed seed: for series that no stranger names.
    pub fn new(alloc: Global) -> Result<Book, NoMemory>
        ensures entries { IfOk result (λ b. b.entries ≡ []) }
        ensures hasher { IfOk result (λ b. b.hasher ≡ initial) }
    {
        Ok(Book::hashed(alloc, DefaultHasher::new()))
    }

    /// A book without entries, whose hashes have this seed: who doesn't know it can't name many series that share a hash.
    pub fn seeded(alloc: Global, seed: RandomState) -> Result<Book, NoMemory>
        ensures entries { IfOk result (λ b. b.entries ≡ []) }
        ensures hasher { IfOk result (λ b. b.hasher ≡ initial_hasher seed) }
    {
        Ok(Book::hashed(alloc, seed.build_hasher()))
    }

    fn hashed(alloc: Global, hasher: DefaultHasher) -> Book
        ensures entries { result.entries ≡ [] }
        ensures hasher { result.hasher ≡ hasher }
    {
        Book {
            entries: Vec::new(alloc),
            index: Index::new(alloc, hasher),
            room: 0,
            longest: 0,
        }
    }

    /// The hasher with which each hash of the book begins, with the seed that the book was made with.
    pub fn hasher(&self) -> DefaultHasher
        ensures { result ≡ self.now.hasher }
    {
        self.index.hasher()
    }

    /// Makes room for so many more entries.
    pub fn reserve(&mut self, more: usize) -> Result<(), NoMemory>
        ensures room { OnOk result (more ≤ self.new.spare) }
        ensures entries { self.new.entries ≡ self.old.entries }
        ensures kept { self.old.spare ≤ self.new.spare }
        ensures hasher { self.new.hasher ≡ self.old.hasher }
        ensures err { OnErr result (self.new ≡ self.old) }
    {
        if more > self.room {
            make_room(&mut self.entries, &mut self.index, more)?;
            self.room = more;
        }
        Ok(())
    }

    /// Appends an entry, into room that was made before.
    pub fn append(&mut self, entry: Entry)
        requires { 1 ≤ self.old.spare }
        ensures entries { self.new.entries ≡ self.old.entries ++ entry ∷ [] }
        ensures spare { self.old.spare ≤ self.new.spare + 1 }
        ensures hasher { self.new.hasher ≡ self.old.hasher }
    {
        self.longest = self.longest.max(value_len(&entry.value));
        push(&mut self.entries, &mut self.index, entry);
        self.room -= 1;
    }

    /// Appends entries, all of them or, after a refusal, none. It uses up no more room than they take.
    pub fn append_all(&mut self, entries: EntryList) -> Result<(), NoMemory>
        ensures ok { OnOk result (self.new.entries ≡ self.old.entries ++ entries) }
        ensures spare { OnOk result (self.old.spare ≤ self.new.spare + length entries) }
        ensures hasher { self.new.hasher ≡ self.old.hasher }
        ensures err { OnErr result (self.new ≡ self.old) }
    {
        let mut items = entries.items;
        self.reserve(items.len())?;
        items.reverse();
        while let Some(entry) = items.pop() {
            self.append(entry);
        }
        Ok(())
    }

    /// How many entries there are.
    pub fn len(&self) -> usize
        ensures { result ≡ length self.now.entries }
    {
        self.entries.len()
    }

    /// The entry at a place, counted from 0; `None` exactly at or past the end.
    pub fn entry(&self, place: usize) -> Option<&Entry>
        ensures { option_copied result ≡ slice_get self.now.entries place }
    {
        self.entries.get(place)
    }

    /// The verdict of the entry at a place, counted from 0; `None` exactly at or past the end. It was worked out when the entry was appended.
    pub fn verdict(&self, place: usize) -> Option<Verdict>
        ensures { result ≡ verdict_at self.now.entries place }
    {
        self.index.verdict(place)
    }

    /// The number of the series of the entry at a place: entries of one number have one label set. `None` exactly at or past the end.
    pub fn series_at(&self, place: usize) -> Option<usize>
        ensures some { is_some result ≡ is_some (slice_get self.now.entries place) }
        ensures set { IfSome result (λ n. slice_get (series_words.series_of self.now.entries) n
            ≡ option_map (λ e. e.series) (slice_get self.now.entries place)) }
    {
        self.index.series_at(place)
    }

    /// How many series there are. Their numbers run from 0, in the order in which they first came.
    pub fn series_count(&self) -> usize
        ensures { result ≡ length (series_words.series_of self.now.entries) }
    {
        self.index.series_count()
    }

    /// An entry of the series with a number; `None` exactly where there is none.
    pub fn entry_of(&self, number: usize) -> Option<&Entry>
        ensures { option_map (λ e. e.series) (option_copied result) ≡ slice_get (series_words.series_of self.now.entries) number }
    {
        self.index.entry_at(&self.entries, number)
    }

    /// No value has more bytes.
    pub fn longest_value(&self) -> usize
        ensures { series_words.AreShort result self.now.entries }
    {
        self.longest
    }
}
