//! The texts of the series of a book, each written once.
ghost use Rattle.std.specs.Prelude.{◌≡◌, ◌+◌, ◌<◌, ◌≤◌, ◌^◌, ℕ, List, Some, length, slice_get, vec_len, vec_capacity, IfOk, IfSome, OnOk};
ghost use Rattle.appender_book.specs.Series.{series_of};
ghost use Rattle.label_set.specs.SetText.{set_text};
ghost use Rattle.label_set.specs.declared.texts.Pair.{Pair};
ghost use Rattle.book_text.specs.Kept as spec;
ghost use Rattle.book_text.specs.declared.texts.Span.{Span as SpanView};

use crate::rooms::text_room;
use appender_book::Book;
use label_set::{LabelSet, NoMemory};
use std::alloc::Global;

/// The texts that are kept have at most so many bytes: with the bounds of so many texts 64 MiB.
const BYTES: usize = 50_331_648;

/// Bounds are kept for at most so many texts, of eight bytes each.
const TEXTS: usize = 2_097_152;

/// Where a text stands. Bounds without their order are those of a text that isn't kept.
#[derive(Clone, Copy)]
pub(crate) struct Span {
    start: u32,
    end: u32,
}

/// The texts of series by their numbers, one behind another, as long as there is room for them.
#[derive(Drop)]
pub(crate) struct Texts {
    bytes: Vec<u8>,
    spans: Vec<Span>,
    /// So many series may have theirs kept.
    limit: usize,
    /// No text of a series is longer, kept or not.
    longest: usize,
}

/// How many series of a book have their texts kept: none where most come only once, since nothing would be copied.
fn limit_of(book: &Book) -> usize {
    let series = book.series_count();
    if series > book.len() - book.len() / 8 {
        return 0;
    }
    series.min(TEXTS)
}

/// Makes room for so many more bytes, and for as many again as there are, within what may be kept.
fn make_room(bytes: &mut Vec<u8>, room: usize) -> Result<(), NoMemory>
    ensures { bytes.new.items ≡ bytes.old.items }
{
    if bytes.capacity() - bytes.len() >= room {
        return Ok(());
    }
    let twice = bytes.len().min(BYTES.saturating_sub(bytes.len()));
    Ok(bytes.reserve_exact(room.max(twice))?)
}

/// Writes the text of a set behind the others, where there is room for so many bytes more.
fn push_text(bytes: &mut Vec<u8>, set: &LabelSet, room: usize) -> Result<Span, NoMemory>
    requires { length (set_text set.now) ≤ room }
    ensures kept { IfOk result (λ span. spec.IsKept bytes.new.items set.now span) }
    ensures others { IfOk result (λ _. (other : List Pair) (s : SpanView) → spec.IsKept bytes.old.items other s → spec.IsKept bytes.new.items other s) }
{
    let start = bytes.len();
    if room > BYTES.saturating_sub(start) {
        return Ok(Span { start: 1, end: 0 });
    }
    make_room(bytes, room)?;
    set.append_text(bytes)?;
    Ok(Span {
        start: start as u32,
        end: bytes.len() as u32,
    })
}

impl Texts {
    /// Keeps the text of the series with a number, behind which none is kept so far.
    fn keep(&mut self, number: usize, set: &LabelSet) -> Result<(), NoMemory>
        ensures { OnOk result ((series : List (List Pair)) → spec.AreTexts number series self.old →
            slice_get series number ≡ Some set.now → spec.AreTexts (number + 1) series self.new) }
    {
        let room = text_room(set)?;
        let limit = self.limit;
        self.longest = self.longest.max(room);
        if number < limit && self.spans.len() == number {
            let span = push_text(&mut self.bytes, set, room)?;
            self.spans.push(span)?;
        }
        Ok(())
    }

    /// Keeps the text of the series of a book with a number.
    fn keep_of(&mut self, book: &Book, number: usize) -> Result<(), NoMemory>
        requires { number < length (series_of book.now.entries) }
        ensures { OnOk result (spec.AreTexts number (series_of book.now.entries) self.old →
            spec.AreTexts (number + 1) (series_of book.now.entries) self.new) }
    {
        match book.entry_of(number) {
            Some(entry) => self.keep(number, &entry.series),
            None => Ok(()),
        }
    }

    /// The texts of the series of a book.
    pub(crate) fn of(alloc: Global, book: &Book) -> Result<Texts, NoMemory>
        ensures { IfOk result (λ t. spec.AreTexts (length (series_of book.now.entries)) (series_of book.now.entries) t) }
    {
        let limit = limit_of(book);
        let mut texts = Texts {
            bytes: Vec::new(alloc),
            spans: Vec::new(alloc),
            limit,
            longest: 0,
        };
        texts.spans.reserve_exact(limit)?;
        for number in 0..book.series_count() {
            texts.keep_of(book, number)?;
        }
        Ok(texts)
    }

    /// The text of a series, if it is kept.
    pub(crate) fn kept(&self, number: usize) -> Option<&[u8]>
        ensures { IfSome result (λ t. (set : List Pair) → spec.IsTextOf self.now number set → t.now ≡ set_text set) }
    {
        let span = self.spans.get(number)?;
        self.bytes.get(span.start as usize..span.end as usize)
    }

    /// No text of a series is longer.
    pub(crate) fn longest(&self) -> usize
        ensures { result ≡ self.now.longest }
    {
        self.longest
    }
}
