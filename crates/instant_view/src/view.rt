//! The view of a book, and what a selector sees in it at a moment.
ghost use Rattle.std.specs.Prelude.{◌≡◌, ◌≤◌, ◌++◌, [], List, length, take, IfOk, OnOk, OnErr};
ghost use Rattle.report_samples.specs.declared.entries.Entry.{Entry};
ghost use Rattle.appender_book.specs.Index.{is_kept_one};
ghost use Rattle.appender_book.specs.Verdicts.{verdict_at};
ghost use Rattle.instant_view.specs.Threads.{listed_placed};
ghost use Rattle.instant_view.specs.Views as spec;

use crate::rows::{Placed, ViewRows};
use crate::selector::Selector;
use crate::threads::Threads;
use appender_book::{Book, Verdict, laws_of_verdicts};
use label_set::NoMemory;
use report_samples::Entry;
use std::alloc::Global;
use std::marker::Model;

/// The kept entries of a book, as far as it has gone over them. Contracts see how many entries these were, and the kept ones with their places.
#[derive(Drop)]
pub struct View {
    count: usize,
    threads: Threads,
}

impl Model for View {
    ghost use Rattle.instant_view.specs.Threads.{IsThreaded};
    ghost use Rattle.instant_view.specs.Views.{ViewOf};

    ghost Value = { ViewOf };

    ghost view = { λ v. record { count = v.count; kept = v.threads.kept.items } };

    ghost invariant = { λ v. IsThreaded v.threads };
}

/// A copy of an entry.
fn copied(alloc: Global, entry: &Entry) -> Result<Entry, NoMemory>
    ensures { IfOk result (λ e. e ≡ entry.now) }
{
    let value = match &entry.value {
        None => None,
        Some(value) => Some(value.copy(alloc)?),
    };
    let series = entry.series.copy()?;
    Ok(Entry {
        life: entry.life,
        kind: entry.kind,
        series,
        moment: entry.moment,
        value,
    })
}

/// Whether the entry at a place of a book is kept.
fn is_kept(book: &Book, place: usize) -> bool
    ensures { result ≡ is_kept_one (verdict_at book.now.entries place) }
{
    match book.verdict(place) {
        None => false,
        Some(verdict) => match verdict {
            Verdict::Kept => true,
            Verdict::OutOfOrder => false,
            Verdict::Duplicate => false,
            Verdict::Same => false,
        },
    }
}

/// The entry at a place of a book, where it is kept.
fn kept_at(alloc: Global, book: &Book, place: usize) -> Result<Option<Placed>, NoMemory>
    ensures { IfOk result (λ o. listed_placed o ≡ spec.kept_at book.now.entries place) }
{
    if !is_kept(book, place) {
        return Ok(None);
    }
    let Some(entry) = book.entry(place) else {
        return Ok(None);
    };
    let entry = copied(alloc, entry)?;
    Ok(Some(Placed {
        place: place as u64,
        entry,
    }))
}

/// Adds an entry, if there is one.
fn push_kept(fresh: &mut Vec<Placed>, placed: Option<Placed>) -> Result<(), NoMemory>
    ensures { OnOk result (fresh.new.items ≡ fresh.old.items ++ listed_placed placed) }
{
    if let Some(placed) = placed {
        fresh.push(placed)?;
    }
    Ok(())
}

/// The kept entries of a book from a place on.
fn kept_from(alloc: Global, book: &Book, from: usize) -> Result<Vec<Placed>, NoMemory>
    requires { from ≤ length book.now.entries }
    ensures { IfOk result (λ v. spec.kept_among book.now.entries (length book.now.entries) ≡ spec.kept_among book.now.entries from ++ v.items) }
{
    let mut fresh = Vec::new(alloc);
    for place in from..book.len() {
        let placed = kept_at(alloc, book, place)?;
        push_kept(&mut fresh, placed)?;
    }
    Ok(fresh)
}

impl View {
    /// The view of a book of which it has seen nothing. It takes no memory.
    pub fn new(alloc: Global) -> View
        ensures count { result.count ≡ 0 }
        ensures kept { result.kept ≡ [] }
        ensures stands { (entries : List Entry) → spec.StandsFor result entries }
    {
        View {
            count: 0,
            threads: Threads::new(alloc),
        }
    }

    /// Goes on to the end of the book. After a refusal the view is as it was.
    pub fn follow(&mut self, alloc: Global, book: &Book) -> Result<(), NoMemory>
        requires { spec.StandsFor self.old book.now.entries }
        ensures stands { OnOk result (spec.StandsFor self.new book.now.entries) }
        ensures count { OnOk result (self.new.count ≡ length book.now.entries) }
        ensures err { OnErr result (self.new ≡ self.old) }
    {
        let fresh = kept_from(alloc, book, self.count)?;
        self.threads.make_room(alloc, &fresh)?;
        laws_of_verdicts();
        self.threads.take_in(fresh);
        self.count = book.len();
        Ok(())
    }

    /// What a selector sees at a moment in each book that the view stands for, among the entries that the view has gone over.
    pub fn instant(
        &mut self,
        alloc: Global,
        selector: &Selector,
        moment: i64,
    ) -> Result<ViewRows, NoMemory>
        ensures rows { IfOk result (λ rows. spec.IsViewOf self.old selector.now moment rows) }
        ensures same { self.new ≡ self.old }
    {
        let mut selecting = selector.selecting(alloc)?;
        laws_of_verdicts();
        let items = self.threads.rows(alloc, &mut selecting, moment)?;
        Ok(ViewRows { items })
    }
}

/// The law that a view which stands for a book stands for it, whatever is appended later. It does nothing.
pub fn laws_of_views()
    ensures { spec.ViewsStand }
{
    laws_of_verdicts();
}
