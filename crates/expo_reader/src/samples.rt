//! The rows of a body, as they stand in it.
ghost use Rattle.std.specs.Prelude.{◌≡◌, ◌≤◌, ◌<◌, ◌+◌, length, drop, take, slice_index_or, All, IfOk, IsTrue, Ok};
ghost use Rattle.std.specs.Str.{IsUtf8};
ghost use Rattle.value_text.specs.Values.{is_value};
ghost use Rattle.expo_reader.specs.Bodies.{reading};
ghost use Rattle.expo_reader.specs.Names.{braced_name};
ghost use Rattle.expo_reader.specs.Spans as seen;

use crate::faults::Fault;
use crate::labels::{BorrowedLabel, copies, labels_after, labels_in};
use crate::parts::{mark_in, word_in};
use crate::quotes::braced_name;
use crate::rows::BodyRow;
use crate::spans::{LineSpan, RowSpan};
use crate::texts::{BorrowedText, utf8_text, whole_text};
use label_set::{Blob, Form, Name, NoMemory, PairList};
use std::alloc::Global;
use std::marker::Model;
use value_text::ValueText;

/// A row of a body: the text of its line from the first byte that is no blank on, and where its parts stand. Contracts see the row.
#[derive(Drop, Debug)]
pub struct SampleRow<'a> {
    text: &'a [u8],
    line: u32,
    parts: LineSpan,
}

impl<'a> Model for SampleRow<'a> {
    ghost use Rattle.std.specs.Prelude.{length};
    ghost use Rattle.expo_reader.specs.Spans.{IsInside, IsWritten, row_at};
    ghost use Rattle.expo_reader.specs.declared.rows.BodyRow.{BodyRow};

    ghost Value = { BodyRow };

    ghost view = { λ s. row_at s.line s.text.now s.parts };

    ghost invariant = { λ s. IsInside (length s.text.now) s.parts × IsWritten (row_at s.line s.text.now s.parts) };
}

impl<'a> SampleRow<'a> {
    /// The number of the line in the body, counted from 1; every line counts.
    pub fn line(&self) -> u64
        ensures { result ≡ self.now.line }
    {
        self.line as u64
    }

    /// The bytes of the line from the metric name, or the `{` with which it begins, through `}`, or through the name where there are no braces.
    pub fn raw(&self) -> &'a [u8]
        ensures { result.now ≡ self.now.raw }
    {
        front_of(self.text, self.parts.raw_len as usize)
    }

    /// The value as it is written.
    pub fn value(&self) -> &'a [u8]
        ensures text { result.now ≡ self.now.value }
        ensures good { IsTrue (is_value self.now.value) }
    {
        part_of(
            self.text,
            self.parts.value_at as usize,
            self.parts.value_len as usize,
        )
    }

    /// A copy of the value.
    pub fn value_copy(&self, alloc: Global) -> Result<ValueText, NoMemory>
        ensures { IfOk result (λ v. v ≡ self.now.value) }
    {
        ValueText::keep_checked(alloc, self.value())
    }

    /// The timestamp in milliseconds, where the line has one.
    pub fn stamp(&self) -> Option<i64>
        ensures { result ≡ self.now.stamp }
    {
        self.parts.stamp
    }

    /// The metric name. It is read again.
    ///
    /// # Errors
    ///
    /// The only error is out of memory, where the name has an escape.
    pub fn name(&self, alloc: Global) -> Result<BorrowedText<'a>, NoMemory>
        ensures { IfOk result (λ n. n ≡ self.now.name) }
    {
        name_at(alloc, self.text)
    }

    /// The labels in the order of the text. They are read again.
    pub fn labels(&self, alloc: Global) -> Result<Vec<BorrowedLabel<'a>>, NoMemory>
        ensures { IfOk result (λ v. v.items ≡ self.now.labels) }
    {
        labels_at(alloc, self.text)
    }

    /// Copies of the labels.
    fn label_copies(&self, alloc: Global) -> Result<PairList, NoMemory>
        ensures { IfOk result (λ l. l ≡ self.now.labels) }
    {
        let labels = self.labels(alloc)?;
        copies(alloc, labels.as_slice())
    }

    /// A copy of the row.
    pub fn copied(&self, alloc: Global) -> Result<BodyRow, NoMemory>
        ensures { IfOk result (λ r. r ≡ self.now) }
    {
        Ok(BodyRow {
            line: self.line as u64,
            raw: Blob::from_slice(alloc, self.raw())?,
            name: Name::from_str(alloc, self.name(alloc)?.as_str())?,
            labels: self.label_copies(alloc)?,
            value: self.value_copy(alloc)?,
            stamp: self.parts.stamp,
        })
    }
}

/// The row at a place among those that are the reading of a body.
pub(crate) fn sample_row<'a>(
    form: Form,
    bytes: &'a Blob,
    rows: &[RowSpan],
    place: usize,
) -> SampleRow<'a>
    requires read { reading form bytes.now ≡ Ok (seen.rows_seen bytes.now rows.now) }
    requires within { All (seen.IsWithin (length bytes.now)) rows.now }
    requires place { place < length rows.now }
    ensures { result ≡ slice_index_or (seen.rows_seen bytes.now rows.now) place result }
{
    let row = span_at(rows, place);
    SampleRow {
        text: part_of(bytes.as_slice(), row.start as usize, row.len as usize),
        line: row.line,
        parts: row.parts,
    }
}

/// The row at a place.
fn span_at(rows: &[RowSpan], place: usize) -> RowSpan
    requires { place < length rows.now }
    ensures { result ≡ slice_index_or rows.now place result }
{
    rows[place]
}

/// The bytes in front.
pub(crate) fn front_of(text: &[u8], len: usize) -> &[u8]
    requires { len ≤ length text.now }
    ensures { result.now ≡ take len text.now }
{
    &text[..len]
}

/// So many bytes from a place on.
fn part_of(text: &[u8], place: usize, len: usize) -> &[u8]
    requires { place + len ≤ length text.now }
    ensures { result.now ≡ take len (drop place text.now) }
{
    &text[place..][..len]
}

/// The name of a line.
#[tactic(auto, unfolding(crate::specs::Spans::name_at))]
fn name_at<'b>(alloc: Global, line: &'b [u8]) -> Result<BorrowedText<'b>, NoMemory>
    requires { IsUtf8 (seen.name_at line.now) }
    ensures { IfOk result (λ n. n ≡ seen.name_at line.now) }
{
    if let Some(name) = word_in(line) {
        return Ok(whole_text(utf8_text(name.bytes)));
    }
    match braced_name(alloc, line) {
        Ok((name, _)) => Ok(name),
        Err(Fault::Faulty) => Ok(whole_text("")),
        Err(Fault::NoMemory) => Err(NoMemory),
    }
}

/// The labels of a line.
#[tactic(auto, unfolding(crate::specs::Spans::labels_at))]
fn labels_at<'b>(alloc: Global, line: &'b [u8]) -> Result<Vec<BorrowedLabel<'b>>, NoMemory>
    ensures { IfOk result (λ v. v.items ≡ seen.labels_at line.now) }
{
    let Some(name) = word_in(line) else {
        return braced_labels(alloc, line);
    };
    let mut labels = Vec::new(alloc);
    let Some(inside) = mark_in(b'{', name.rest) else {
        return Ok(labels);
    };
    match labels_in(alloc, Form::Quoted, inside, &mut labels) {
        Ok(_) => Ok(labels),
        Err(Fault::Faulty) => Ok(Vec::new(alloc)),
        Err(Fault::NoMemory) => Err(NoMemory),
    }
}

/// The labels of a line that begins with braces.
fn braced_labels<'b>(alloc: Global, line: &'b [u8]) -> Result<Vec<BorrowedLabel<'b>>, NoMemory>
    ensures { IfOk result (λ v. v.items ≡ seen.braced_labels (braced_name line.now)) }
{
    let mut labels = Vec::new(alloc);
    let rest = match braced_name(alloc, line) {
        Ok((_, rest)) => rest,
        Err(Fault::Faulty) => return Ok(labels),
        Err(Fault::NoMemory) => return Err(NoMemory),
    };
    match labels_after(alloc, rest, &mut labels) {
        Ok(_) => Ok(labels),
        Err(Fault::Faulty) => Ok(Vec::new(alloc)),
        Err(Fault::NoMemory) => Err(NoMemory),
    }
}
