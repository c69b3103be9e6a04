//! Where the rows of a body stand in it: the one parser. Rows are offsets into the bytes, so they borrow nothing.
ghost use Rattle.std.specs.Prelude.{◌≡◌, ◌≤◌, ◌<◌, ◌+◌, ◌++◌, ◌-◌, ◌^◌, [], length, drop, take, ℕ, List, All, IfErr, IfNone, IfOk, IfSome, IsTrue, MatchResult, None, OnOk, Ok, Some};
ghost use Rattle.expo_lexer.specs.Tokens.{blank_len};
ghost use Rattle.expo_reader.specs.Bodies.{CauseIs, line_reading, reading};
ghost use Rattle.expo_reader.specs.Faults.{FaultIs};
ghost use Rattle.expo_reader.specs.Forms as spec;
ghost use Rattle.expo_reader.specs.Like.{AreLike, IsLike, place_list};
ghost use Rattle.expo_reader.specs.Names.{braced_name};
ghost use Rattle.expo_reader.specs.Spans as seen;
ghost use Rattle.expo_reader.specs.Texts.{word_in};
ghost use Rattle.value_text.specs.Values.{is_value};

use crate::bodies::BodyCause;
use crate::faults::Fault;
use crate::labels::{BorrowedLabel, labels_after, labels_in};
use crate::like::{Expected, RawTexts, like_parts};
use crate::lines::{behind, line_end, metric_in};
use crate::parts::{Part, mark_in, quick_value, start_of, word_in};
use crate::quotes::braced_name;
use crate::repeats::names_differ;
use crate::values::stamp_in;
use label_set::Form;
use std::alloc::{AllocError, Global};
use value_text::ValueText;

/// Where the parts of a sample line stand, from its first byte that is no blank on, and its timestamp.
#[derive(Clone, Copy, Debug)]
pub(crate) struct LineSpan {
    pub raw_len: u32,
    pub value_at: u32,
    pub value_len: u32,
    pub stamp: Option<i64>,
}

/// Where a sample line stands in its body, from its first byte that is no blank to its end. It takes 40 bytes.
#[derive(Clone, Copy, Debug)]
pub(crate) struct RowSpan {
    pub line: u32,
    pub start: u32,
    pub len: u32,
    pub parts: LineSpan,
}

/// The value behind the blanks, and what follows it. Most are gone over once.
#[tactic(auto, unfolding(crate::specs::Forms::value_in))]
fn value_word(text: &[u8]) -> Option<Part<'_>>
    ensures part { IfSome result (λ p. word_in text.now ≡ Some (p.bytes.now, p.rest.now)) }
    ensures good { IfSome result (λ p. IsTrue (is_value p.bytes.now)) }
    ensures none { IfNone result (spec.value_in text.now ≡ None) }
{
    if let Some(word) = quick_value(text) {
        return Some(word);
    }
    let Some(word) = word_in(text) else {
        return None;
    };
    if ValueText::check(word.bytes).is_err() {
        return None;
    }
    Some(word)
}

/// Where the value stands that a line ends with, behind its raw text.
#[tactic(auto, unfolding(crate::specs::Forms::value_in))]
pub(crate) fn parts_of(line: &[u8], raw_len: usize, rest: &[u8]) -> Result<LineSpan, Fault>
    requires raw { raw_len ≤ length line.now }
    requires tail { seen.IsTail rest.now line.now }
    requires few { length line.now < 2 ^ 32 }
    ensures parts { MatchResult result (λ s. seen.HasParts line.now raw_len rest.now s) (λ f. (f ≡ Fault.Faulty) × (spec.value_in rest.now ≡ None)) }
    ensures inside { IfOk result (λ s. seen.IsInside (length line.now) s) }
{
    let Some(word) = value_word(rest) else {
        return Err(Fault::Faulty);
    };
    match stamp_in(word.rest) {
        Some(stamp) => Ok(LineSpan {
            raw_len: raw_len as u32,
            value_at: place_of(line, word.bytes, word.rest) as u32,
            value_len: word.bytes.len() as u32,
            stamp,
        }),
        None => Err(Fault::Faulty),
    }
}

/// Where a word stands that so much follows to the end of the line.
fn place_of(line: &[u8], word: &[u8], rest: &[u8]) -> usize
    requires { seen.IsTail (word.now ++ rest.now) line.now }
    ensures word { take (length word.now) (drop result line.now) ≡ word.now }
    ensures within { result + length word.now ≤ length line.now }
{
    line.len() - rest.len() - word.len()
}

/// Where the parts of a line stand whose labels are these, with what follows them.
#[inline(always)]
fn labelled_parts(
    alloc: Global,
    line: &[u8],
    labels: &[BorrowedLabel<'_>],
    rest: &[u8],
) -> Result<LineSpan, Fault>
    requires tail { seen.IsTail rest.now line.now }
    requires few { length line.now < 2 ^ 32 }
    ensures said { (number : ℕ) (name : List ℕ) → let said = spec.differing_row number line.now name labels.now rest.now in MatchResult result
        (λ s. said ≡ Some (seen.spanned_row number line.now name labels.now s)) (λ f. FaultIs f said) }
    ensures inside { IfOk result (λ s. seen.IsInside (length line.now) s) }
{
    let differ = names_differ(alloc, labels)?;
    if !differ {
        return Err(Fault::Faulty);
    }
    parts_of(line, line.len() - rest.len(), rest)
}

/// Where the parts of a line stand that begins with braces and has its name in quotes. The room for labels is used again.
#[inline(never)]
fn braced_parts<'b>(
    alloc: Global,
    line: &'b [u8],
    labels: &mut Vec<BorrowedLabel<'b>>,
) -> Result<LineSpan, Fault>
    requires few { length line.now < 2 ^ 32 }
    ensures said { (number : ℕ) → let said = spec.braced_row number line.now (braced_name line.now) in MatchResult result
        (λ s. said ≡ Some (seen.spanned_row number line.now (seen.word_of (braced_name line.now)) (seen.braced_labels (braced_name line.now)) s))
        (λ f. FaultIs f said) }
    ensures inside { IfOk result (λ s. seen.IsInside (length line.now) s) }
{
    let rest = match braced_name(alloc, line) {
        Ok((_, rest)) => rest,
        Err(fault) => return Err(fault),
    };
    labels.clear();
    match labels_after(alloc, rest, labels) {
        Ok(rest) => labelled_parts(alloc, line, labels, rest),
        Err(fault) => Err(fault),
    }
}

/// Where the parts of a sample line stand. The room for labels is used again.
pub(crate) fn line_parts<'b>(
    alloc: Global,
    form: Form,
    line: &'b [u8],
    labels: &mut Vec<BorrowedLabel<'b>>,
) -> Result<LineSpan, Fault>
    requires bare { blank_len line.now ≡ 0 }
    requires few { length line.now < 2 ^ 32 }
    ensures said { (number : ℕ) → MatchResult result (λ s. spec.sample_in form number line.now ≡ Some (seen.row_at number line.now s))
        (λ f. FaultIs f (spec.sample_in form number line.now)) }
    ensures inside { IfOk result (λ s. seen.IsInside (length line.now) s) }
{
    let Some(name) = metric_in(line) else {
        return match form {
            Form::Plain => Err(Fault::Faulty),
            Form::Quoted => braced_parts(alloc, line, labels),
        };
    };
    let Some(inside) = mark_in(b'{', name.rest) else {
        return parts_of(line, name.bytes.len(), name.rest);
    };
    labels.clear();
    match labels_in(alloc, form, inside, labels) {
        Ok(rest) => labelled_parts(alloc, line, labels, rest),
        Err(fault) => Err(fault),
    }
}

/// A line of a body: the form of the body, the number of the line, and its bytes.
#[derive(Clone, Copy)]
struct BodyLine<'b> {
    form: Form,
    number: u64,
    bytes: &'b [u8],
}

/// What a line says: where its parts stand behind its blanks, nothing where it is skipped, or that it is faulty. Beside it the place of its raw
/// text among those met before, and one, or 0.
fn read_parts<'b, T: RawTexts>(
    alloc: Global,
    body_line: &BodyLine<'b>,
    like: &T,
    expected: &mut Expected,
    labels: &mut Vec<BorrowedLabel<'b>>,
) -> Result<(Option<(usize, LineSpan)>, u32), BodyCause>
    requires { length body_line.now.bytes.now < 2 ^ 32 }
    ensures said { MatchResult result
        (λ r. line_reading body_line.now.form body_line.now.number body_line.now.bytes.now
        ≡ Ok (seen.span_row body_line.now.number body_line.now.bytes.now r.0))
        (λ c. CauseIs c (line_reading body_line.now.form body_line.now.number body_line.now.bytes.now)) }
    ensures inside { IfOk result (λ r. IfSome r.0 (λ p. (p.0 ≤ length body_line.now.bytes.now)
        × seen.IsInside (length body_line.now.bytes.now - p.0) p.1)) }
    ensures like { IfOk result (λ r. IfSome r.0
        (λ p. IsLike (T.texts like.now) r.1 (take p.1.raw_len (drop p.0 body_line.now.bytes.now)))) }
{
    let line = body_line.bytes;
    let Some(start) = start_of(line) else {
        return Ok((None, 0));
    };
    if line[start] == b'#' {
        return Ok((None, 0));
    }
    let form = body_line.form;
    match like_parts(alloc, form, behind(line, start), like, expected, labels) {
        Ok((parts, place)) => Ok((Some((start, parts)), place)),
        Err(Fault::Faulty) => Err(BodyCause::Line(body_line.number)),
        Err(Fault::NoMemory) => Err(BodyCause::NoMemory),
    }
}

/// Where the rows of a body stand, and the place of the raw text of each among those met before, and one, or 0.
#[derive(Drop)]
pub(crate) struct Spans {
    pub rows: Vec<RowSpan>,
    pub places: Vec<u32>,
}

/// How many bytes a line takes that is not long, and the most rows for which there is room at first.
const LINE_BYTES: usize = 40;

const FIRST_ROOM: usize = 65_536;

impl Spans {
    /// No rows, with room for those of so many bytes.
    fn new(alloc: Global, bytes: usize) -> Result<Spans, AllocError>
        ensures rows { IfOk result (λ s. s.rows.items ≡ []) }
        ensures places { IfOk result (λ s. s.places.items ≡ []) }
    {
        let room = (bytes / LINE_BYTES).min(FIRST_ROOM);
        Ok(Spans {
            rows: Vec::with_capacity(alloc, room)?,
            places: Vec::new(alloc),
        })
    }

    /// Adds the row of a line, if it has one: the line stands at a place and has that length. Its raw text has that place among those met before.
    fn push(
        &mut self,
        number: u64,
        place: usize,
        end: usize,
        parts: Option<(usize, LineSpan)>,
        like: u32,
    ) -> Result<(), AllocError>
        requires start { IfSome parts (λ p. p.0 ≤ end) }
        requires near { place + end < 2 ^ 32 }
        requires number { number < 2 ^ 32 }
        ensures rows { OnOk result (self.new.rows.items ≡ self.old.rows.items ++ seen.span_list number place end parts) }
        ensures places { OnOk result (self.new.places.items ≡ self.old.places.items ++ place_list like parts) }
    {
        if let Some((start, parts)) = parts {
            self.rows.reserve(1)?;
            self.places.reserve(1)?;
            self.rows.push_reserved(RowSpan {
                line: number as u32,
                start: (place + start) as u32,
                len: (end - start) as u32,
                parts,
            });
            self.places.push_reserved(like);
        }
        Ok(())
    }
}

/// Where the rows of a body stand, in the order of its lines. A line that begins with the raw text that is expected there isn't read as far as
/// that goes.
pub(crate) fn spans_of<T: RawTexts>(
    alloc: Global,
    form: Form,
    body: &[u8],
    like: &T,
) -> Result<Spans, BodyCause>
    requires { length body.now < 2 ^ 32 }
    ensures read { IfOk result (λ s. reading form body.now ≡ Ok (seen.rows_seen body.now s.rows.items)) }
    ensures within { IfOk result (λ s. All (seen.IsWithin (length body.now)) s.rows.items) }
    ensures like { IfOk result (λ s. AreLike (T.texts like.now) s.places.items (seen.rows_seen body.now s.rows.items)) }
    ensures cause { IfErr result (λ c. CauseIs c (reading form body.now)) }
{
    let mut spans = Spans::new(alloc, body.len())?;
    let mut labels = Vec::new(alloc);
    let mut expected = Expected::first();
    let mut place = 0;
    let mut number = 1;
    while place < body.len() {
        let rest = behind(body, place);
        let end = line_end(rest);
        let body_line = BodyLine {
            form,
            number,
            bytes: &rest[..end],
        };
        match read_parts(alloc, &body_line, like, &mut expected, &mut labels) {
            Ok((parts, found)) => spans.push(number, place, end, parts, found)?,
            Err(cause) => return Err(cause),
        }
        place += end + 1;
        number += 1;
    }
    Ok(spans)
}
