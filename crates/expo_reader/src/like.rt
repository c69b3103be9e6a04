//! Lines that begin with a raw text that was met before.
ghost use Rattle.std.specs.Prelude.{◌≡◌, ◌≤◌, ◌<◌, ◌+◌, ◌-◌, ◌^◌, length, take, slice_get, ℕ, IfOk, IfSome, MatchResult, Some, true};
ghost use Rattle.expo_lexer.specs.Tokens.{blank_len};
ghost use Rattle.expo_reader.specs.Faults.{FaultIs};
ghost use Rattle.expo_reader.specs.Forms as spec;
ghost use Rattle.expo_reader.specs.Like.{GoesIn, IsLike, IsRawText};
ghost use Rattle.expo_reader.specs.Spans as seen;

use crate::faults::Fault;
use crate::labels::BorrowedLabel;
use crate::lines::behind;
use crate::samples::front_of;
use crate::spans::{LineSpan, line_parts, parts_of};
use label_set::Form;
use std::alloc::Global;

/// Raw texts of sample lines, in the order in which a target showed them: those of another body, or those that its last good scrape left.
/// Contracts see the list of them, and the form of the bodies in which they stood.
pub trait RawTexts {
    ghost use Rattle.std.specs.Prelude.{◌≡◌, ℕ, List, IfSome, Some, slice_get};
    ghost use Rattle.label_set.specs.declared.forms.Form.{Form};
    ghost use Rattle.expo_reader.specs.Like.{IsRawText};

    ghost texts: { Self → List (List ℕ) };

    ghost form_of: { Self → Form };

    /// The form of the bodies in which they stood.
    fn form(&self) -> Form
        ensures { result ≡ form_of self.now };

    /// The one at a place, counted from 0, if there is one.
    fn text_at(&self, place: usize) -> Option<&[u8]>
        ensures text { IfSome result (λ r. slice_get (texts self.now) place ≡ Some r.now) }
        ensures raw { IfSome result (λ r. IsRawText (form_of self.now) r.now) };
}

/// No raw texts: of a target that showed none yet.
#[derive(Clone, Copy, Debug)]
pub struct NoTexts;

impl RawTexts for NoTexts {
    ghost use Rattle.std.specs.Prelude.{[]};
    ghost use Rattle.label_set.specs.declared.forms.Form.TheVariants.{Plain};

    ghost texts = { λ _. [] };

    ghost form_of = { λ _. Plain };

    fn form(&self) -> Form {
        Form::Plain
    }

    fn text_at(&self, _place: usize) -> Option<&[u8]> {
        None
    }
}

/// Which text is expected at the next line: the one behind the text that was found last. Nothing of what is read rests on it.
#[derive(Clone, Copy, Debug)]
pub(crate) struct Expected {
    next: usize,
    /// How many more texts may be looked at in vain: each one that is found pays for two.
    looks: usize,
}

/// How many texts are looked at for one that isn't expected.
const AHEAD: usize = 16;

/// How many looks are in hand at most.
const LOOKS: usize = 64;

/// The most texts that have a place.
const PLACES: usize = 0xffff_ffff;

impl Expected {
    /// The first text.
    pub(crate) fn first() -> Expected {
        Expected {
            next: 0,
            looks: LOOKS,
        }
    }

    /// The text at a place was found, and the one behind it is expected next.
    fn met(&mut self, place: usize) -> u32
        requires { place < 2 ^ 32 - 1 }
        ensures { result ≡ place + 1 }
    {
        self.next = place + 1;
        self.looks = self.looks.min(LOOKS) + 2;
        (place + 1) as u32
    }

    /// None was found after so many looks.
    fn missed(&mut self, looks: usize) {
        self.looks = self.looks.saturating_sub(looks);
    }
}

/// Whether each line of a body of the one form is read alike in a body of the other.
fn goes_in(from: Form, into: Form) -> bool
    ensures { result ≡ true → GoesIn from into }
{
    match into {
        Form::Quoted => true,
        Form::Plain => matches!(from, Form::Plain),
    }
}

/// The text at a place, if there is one, and if it is one of a body of that form.
fn raw_at<T: RawTexts>(like: &T, form: Form, place: usize) -> Option<&[u8]>
    ensures text { IfSome result (λ r. slice_get (T.texts like.now) place ≡ Some r.now) }
    ensures raw { IfSome result (λ r. IsRawText form r.now) }
    ensures near { IfSome result (λ _. place < 2 ^ 32 - 1) }
{
    if place < PLACES && goes_in(like.form(), form) {
        like.text_at(place)
    } else {
        None
    }
}

/// Where the parts of a sample line stand that begins with the raw text of some sample line of that form, and a blank behind it: its labels
/// aren't read.
fn known_parts(text: &[u8], form: Form, raw: &[u8]) -> Option<LineSpan>
    requires raw { IsRawText form raw.now }
    requires bare { blank_len text.now ≡ 0 }
    requires few { length text.now < 2 ^ 32 }
    ensures said { IfSome result (λ s. (number : ℕ) → spec.sample_in form number text.now ≡ Some (seen.row_at number text.now s)) }
    ensures inside { IfSome result (λ s. seen.IsInside (length text.now) s) }
    ensures front { IfSome result (λ s. take s.raw_len text.now ≡ raw.now) }
{
    if raw.len() >= text.len() {
        return None;
    }
    let rest = behind(text, raw.len());
    if rest[0] != b' ' {
        return None;
    }
    if front_of(text, raw.len()) != raw {
        return None;
    }
    match parts_of(text, raw.len(), rest) {
        Ok(parts) => Some(parts),
        Err(_) => None,
    }
}

/// Whether a text is the one at a place.
fn has_raw<T: RawTexts>(like: &T, place: usize, raw: &[u8]) -> bool
    ensures { result ≡ true → slice_get (T.texts like.now) place ≡ Some raw.now }
{
    match like.text_at(place) {
        Some(text) => text == raw,
        None => false,
    }
}

/// The first place from one on, and before another, that has a text.
fn place_from<T: RawTexts>(like: &T, first: usize, end: usize, raw: &[u8]) -> Option<usize>
    ensures text { IfSome result (λ k. slice_get (T.texts like.now) k ≡ Some raw.now) }
    ensures within { IfSome result (λ k. k < end) }
{
    for place in first..end {
        if has_raw(like, place, raw) {
            return Some(place);
        }
    }
    None
}

/// Which of the next texts this is: its place and one, or 0 for none.
fn found_ahead<T: RawTexts>(like: &T, expected: &mut Expected, raw: &[u8]) -> u32
    ensures { IsLike (T.texts like.now) result raw.now }
{
    let looks = expected.looks.min(AHEAD);
    let end = expected.next.saturating_add(looks).min(PLACES);
    match place_from(like, expected.next, end, raw) {
        Some(place) => expected.met(place),
        None => {
            expected.missed(looks);
            0
        }
    }
}

/// Where the parts of a line stand that begins with the text that is expected, and the place of that and one.
fn expected_parts<T: RawTexts>(
    form: Form,
    text: &[u8],
    like: &T,
    expected: &mut Expected,
) -> Option<(LineSpan, u32)>
    requires bare { blank_len text.now ≡ 0 }
    requires few { length text.now < 2 ^ 32 }
    ensures said { IfSome result (λ p. (number : ℕ) → spec.sample_in form number text.now ≡ Some (seen.row_at number text.now p.0)) }
    ensures inside { IfSome result (λ p. seen.IsInside (length text.now) p.0) }
    ensures like { IfSome result (λ p. IsLike (T.texts like.now) p.1 (take p.0.raw_len text.now)) }
{
    let raw = raw_at(like, form, expected.next)?;
    let parts = known_parts(text, form, raw)?;
    Some((parts, expected.met(expected.next)))
}

/// Where the parts of a sample line stand, and the place of its raw text among those met before, and one, or 0: the text that is expected, or
/// one of the next.
pub(crate) fn like_parts<'b, T: RawTexts>(
    alloc: Global,
    form: Form,
    line: &'b [u8],
    like: &T,
    expected: &mut Expected,
    labels: &mut Vec<BorrowedLabel<'b>>,
) -> Result<(LineSpan, u32), Fault>
    requires bare { blank_len line.now ≡ 0 }
    requires few { length line.now < 2 ^ 32 }
    ensures said { (number : ℕ) → MatchResult result (λ p. spec.sample_in form number line.now ≡ Some (seen.row_at number line.now p.0))
        (λ f. FaultIs f (spec.sample_in form number line.now)) }
    ensures inside { IfOk result (λ p. seen.IsInside (length line.now) p.0) }
    ensures like { IfOk result (λ p. IsLike (T.texts like.now) p.1 (take p.0.raw_len line.now)) }
{
    if let Some(known) = expected_parts(form, line, like, expected) {
        return Ok(known);
    }
    match line_parts(alloc, form, line, labels) {
        Ok(parts) => {
            let raw = front_of(line, parts.raw_len as usize);
            Ok((parts, found_ahead(like, expected, raw)))
        }
        Err(fault) => Err(fault),
    }
}
