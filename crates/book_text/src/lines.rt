//! Lines of the printed book.
ghost use Rattle.std.specs.Prelude.{◌≡◌, ◌++◌, ◌+◌, ◌<◌, ◌≤◌, ◌^◌, ℕ, Some, length, vec_len, vec_capacity, slice_get, IfOk, OnOk, OnErr};
ghost use Rattle.appender_book.specs.Series.{series_of};
ghost use Rattle.label_set.specs.SetText.{set_text};
ghost use Rattle.report_samples.specs.declared.entries.Entry.{Entry as EntryView};
ghost use Rattle.book_text.specs.Kept.{AreReady, IsTextOf};
ghost use Rattle.book_text.specs.Texts as spec;

use crate::heads::Head;
use crate::pieces::{push, push_value};
use crate::rooms::numbers_room;
use crate::texts::Texts;
use appender_book::Book;
use label_set::{LabelSet, NoMemory};
use report_samples::Entry;
use std::alloc::Global;

/// What the lines of a book are written with: the texts of its series, and the head of the last line.
#[derive(Drop)]
pub(crate) struct Lines {
    texts: Texts,
    head: Head,
    /// No line is longer.
    most: usize,
}

/// Appends the text of a series: that which is kept under its number, if one is.
fn push_series(
    text: &mut Vec<u8>,
    texts: &Texts,
    series: &LabelSet,
    number: usize,
) -> Result<(), NoMemory>
    requires { IsTextOf texts.now number series.now }
    ensures written { OnOk result (text.new.items ≡ text.old.items ++ set_text series.now) }
    ensures full { OnErr result (vec_capacity text.old < vec_len text.old + length (set_text series.now)) }
    ensures capacity { vec_capacity text.old ≤ vec_capacity text.new }
{
    match texts.kept(number) {
        Some(kept) => push(text, kept),
        None => series.append_text(text),
    }
}

/// Appends the line of an entry with this head, whose series has this number; it fails only where there is no room for it.
#[tactic(auto, unfolding(crate::specs::Texts::entry_line))]
fn push_entry(
    text: &mut Vec<u8>,
    head: &[u8],
    texts: &Texts,
    entry: &Entry,
    number: usize,
) -> Result<(), NoMemory>
    requires head { head.now ≡ spec.entry_head entry.now }
    requires series { IsTextOf texts.now number entry.now.series }
    ensures written { OnOk result (text.new.items ≡ text.old.items ++ spec.entry_line entry.now) }
    ensures full { OnErr result (vec_capacity text.old < vec_len text.old + length (spec.entry_line entry.now)) }
    ensures capacity { vec_capacity text.old ≤ vec_capacity text.new }
{
    push(text, head)?;
    push_series(text, texts, &entry.series, number)?;
    push_value(text, &entry.value)?;
    push(text, b"\n")
}

/// The number of the series of the entry at a place.
fn number_at(book: &Book, place: usize) -> usize
    ensures { (e : EntryView) → slice_get book.now.entries place ≡ Some e → slice_get (series_of book.now.entries) result ≡ Some e.series }
{
    match book.series_at(place) {
        Some(number) => number,
        None => 0,
    }
}

impl Lines {
    /// What the lines of a book are written with.
    pub(crate) fn of(alloc: Global, book: &Book) -> Result<Lines, NoMemory>
        ensures ready { IfOk result (λ l. AreReady book.now.entries l) }
        ensures small { IfOk result (λ l. l.most < 2 ^ 63) }
    {
        let texts = Texts::of(alloc, book)?;
        let longest = texts.longest();
        let value = book.longest_value();
        if longest >= 1 << 62 || value >= 1 << 61 {
            return Err(NoMemory);
        }
        Ok(Lines {
            texts,
            head: Head::new(alloc)?,
            most: longest + value + 100,
        })
    }

    /// No line is longer than so many bytes.
    pub(crate) fn most(&self) -> usize
        ensures { result ≡ self.now.most }
    {
        self.most
    }

    /// Appends the line of the entry of the book at a place; it fails only where there is no room for it.
    pub(crate) fn push(
        &mut self,
        text: &mut Vec<u8>,
        book: &Book,
        place: usize,
    ) -> Result<(), NoMemory>
        requires { AreReady book.now.entries self.old }
        ensures ready { AreReady book.now.entries self.new }
        ensures most { self.new.most ≡ self.old.most }
        ensures written { OnOk result (text.new.items ≡ text.old.items ++ spec.line_at book.now.entries place) }
        ensures full { OnErr result (vec_capacity text.old < vec_len text.old + length (spec.line_at book.now.entries place)) }
        ensures capacity { vec_capacity text.old ≤ vec_capacity text.new }
        ensures within { length (spec.line_at book.now.entries place) ≤ self.old.most }
    {
        match book.entry(place) {
            None => Ok(()),
            Some(entry) => {
                let _room = numbers_room(entry.moment, entry.life);
                let number = number_at(book, place);
                self.head.renew(entry);
                push_entry(text, self.head.bytes(), &self.texts, entry, number)
            }
        }
    }
}
