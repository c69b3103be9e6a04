//! The labels of a line.
ghost use Rattle.std.specs.Prelude.{◌≡◌, ◌<◌, ◌++◌, ◌∷◌, [], length, IfNone, IfOk, IfSome, IsTrue, List, MatchResult, Some, None, codes};
ghost use Rattle.std.specs.Str.{bytes_eq};
ghost use Rattle.label_set.specs.declared.texts.Pair.{Pair};
ghost use Rattle.expo_reader.specs.Faults.{FaultIs};
ghost use Rattle.expo_reader.specs.Forms as spec;
ghost use Rattle.expo_reader.specs.Names as named;
ghost use Rattle.expo_reader.specs.Texts.{mark_in, word_in};

use crate::faults::Fault;
use crate::names::is_exposed_name;
use crate::parts::{Part, mark_in, quick_name, word_in};
use crate::quotes::{quote_in, quoted_name};
use crate::texts::{BorrowedText, utf8_text, whole_text};
use label_set::{Form, Name, NoMemory, Pair, PairList};
use std::alloc::Global;
use std::marker::Model;

/// A label that borrows from a body. Contracts see the label.
#[derive(Drop, Debug)]
pub struct BorrowedLabel<'b> {
    name: BorrowedText<'b>,
    value: BorrowedText<'b>,
}

impl<'b> Model for BorrowedLabel<'b> {
    ghost use Rattle.label_set.specs.declared.texts.Pair.{Pair};

    ghost Value = { Pair };

    ghost view = { λ l. record { name = l.name; value = l.value } };
}

impl<'b> BorrowedLabel<'b> {
    /// The name.
    pub fn name(&self) -> &str
        ensures { result.now ≡ self.now.name }
    {
        self.name.as_str()
    }

    /// The value.
    pub fn value(&self) -> &str
        ensures { result.now ≡ self.now.value }
    {
        self.value.as_str()
    }

    /// A copy of the name.
    pub(crate) fn name_copy(&self, alloc: Global) -> Result<Name, NoMemory>
        ensures { IfOk result (λ n. n ≡ self.now.name) }
    {
        Name::from_str(alloc, self.name())
    }

    /// A copy of the label.
    fn copied(&self, alloc: Global) -> Result<Pair, NoMemory>
        ensures { IfOk result (λ p. p ≡ self.now) }
    {
        Ok(Pair {
            name: self.name_copy(alloc)?,
            value: Name::from_str(alloc, self.value())?,
        })
    }
}

/// Copies of labels.
pub fn copies(alloc: Global, labels: &[BorrowedLabel<'_>]) -> Result<PairList, NoMemory>
    ensures { IfOk result (λ l. l ≡ labels.now) }
{
    let mut items = Vec::with_capacity(alloc, labels.len())?;
    for label in labels {
        items.push(label.copied(alloc)?)?;
    }
    Ok(PairList { items })
}

fn is_metric_label(name: &[u8]) -> bool
    ensures { result ≡ bytes_eq name.now (codes "__name__") }
{
    name == b"__name__".as_slice()
}

/// The bare name of a label in front, and what follows it. Most are gone over once.
#[inline(always)]
fn exposed_in(text: &[u8]) -> Option<Part<'_>>
    ensures part { IfSome result (λ p. word_in text.now ≡ Some (p.bytes.now, p.rest.now)) }
    ensures name { IfSome result (λ p. IsTrue (named.is_exposed_name p.bytes.now)) }
    ensures none { IfNone result (named.bare_name text.now ≡ None) }
    ensures shorter { IfSome result (λ p. length p.rest.now < length text.now) }
{
    if let Some(name) = quick_name(text) {
        if is_metric_label(name.bytes) {
            return None;
        }
        return Some(name);
    }
    let Some(name) = word_in(text) else {
        return None;
    };
    if !is_exposed_name(name.bytes) {
        return None;
    }
    Some(name)
}

/// A bare name as it is.
fn bare_text(name: &[u8]) -> BorrowedText<'_>
    requires { IsTrue (named.is_exposed_name name.now) }
    ensures { result ≡ name.now }
{
    whole_text(utf8_text(name))
}

/// Adds the label of a name, with the value that stands behind it, and gives what follows that.
#[inline(always)]
fn push_valued<'b>(
    alloc: Global,
    name: BorrowedText<'b>,
    rest: &'b [u8],
    labels: &mut Vec<BorrowedLabel<'b>>,
) -> Result<&'b [u8], Fault>
    ensures label { let said = spec.label_behind name.entry rest.now in MatchResult result
        (λ after. (p : Pair) × (said ≡ Some (p, after.now)) × (labels.new.items ≡ labels.old.items ++ p ∷ [])) (λ f. FaultIs f said) }
    ensures shorter { IfOk result (λ after. length after.now < length rest.now) }
{
    let Some(quoted) = mark_in(b'=', rest) else {
        return Err(Fault::Faulty);
    };
    match quote_in(alloc, quoted) {
        Ok((value, after)) => {
            labels.reserve(1)?;
            labels.push_reserved(BorrowedLabel { name, value });
            Ok(after)
        }
        Err(fault) => Err(fault),
    }
}

/// Adds the label behind the blanks whose name stands in quotes, and gives what follows it.
#[inline(never)]
fn push_quoted<'b>(
    alloc: Global,
    text: &'b [u8],
    labels: &mut Vec<BorrowedLabel<'b>>,
) -> Result<&'b [u8], Fault>
    ensures label { let said = spec.named_label (named.quoted_name text.now) in MatchResult result
        (λ rest. (p : Pair) × (said ≡ Some (p, rest.now)) × (labels.new.items ≡ labels.old.items ++ p ∷ [])) (λ f. FaultIs f said) }
    ensures shorter { IfOk result (λ rest. length rest.now < length text.now) }
{
    match quoted_name(alloc, text) {
        Ok((name, rest)) => push_valued(alloc, name, rest, labels),
        Err(fault) => Err(fault),
    }
}

/// Adds the label behind the blanks, and gives what follows it.
#[inline(always)]
fn push_label<'b>(
    alloc: Global,
    form: Form,
    text: &'b [u8],
    labels: &mut Vec<BorrowedLabel<'b>>,
) -> Result<&'b [u8], Fault>
    ensures label { MatchResult result (λ rest. (p : Pair) × (spec.label_in form text.now ≡ Some (p, rest.now))
        × (labels.new.items ≡ labels.old.items ++ p ∷ [])) (λ f. FaultIs f (spec.label_in form text.now)) }
    ensures shorter { IfOk result (λ rest. length rest.now < length text.now) }
{
    if let Some(name) = exposed_in(text) {
        return push_valued(alloc, bare_text(name.bytes), name.rest, labels);
    }
    match form {
        Form::Plain => Err(Fault::Faulty),
        Form::Quoted => push_quoted(alloc, text, labels),
    }
}

/// Adds the labels behind a `{`, and gives what follows the `}` behind them.
#[inline(always)]
pub fn labels_in<'b>(
    alloc: Global,
    form: Form,
    text: &'b [u8],
    labels: &mut Vec<BorrowedLabel<'b>>,
) -> Result<&'b [u8], Fault>
    ensures labels { MatchResult result (λ rest. (more : List Pair) × (spec.all_labels_in form text.now ≡ Some (more, rest.now))
        × (labels.new.items ≡ labels.old.items ++ more)) (λ f. FaultIs f (spec.all_labels_in form text.now)) }
    ensures shorter { IfOk result (λ rest. length rest.now < length text.now) }
{
    let mut left = text;
    loop {
        if let Some(rest) = mark_in(b'}', left) {
            return Ok(rest);
        }
        let rest = match push_label(alloc, form, left, labels) {
            Ok(rest) => rest,
            Err(fault) => return Err(fault),
        };
        left = match mark_in(b',', rest) {
            Some(next) => next,
            None => return closed(rest),
        };
    }
}

/// Adds the labels behind the metric name in braces, and gives what follows the `}` behind them.
pub fn labels_after<'b>(
    alloc: Global,
    text: &'b [u8],
    labels: &mut Vec<BorrowedLabel<'b>>,
) -> Result<&'b [u8], Fault>
    ensures labels { MatchResult result (λ rest. (more : List Pair) × (spec.labels_after text.now ≡ Some (more, rest.now))
        × (labels.new.items ≡ labels.old.items ++ more)) (λ f. FaultIs f (spec.labels_after text.now)) }
    ensures shorter { IfOk result (λ rest. length rest.now < length text.now) }
{
    match mark_in(b',', text) {
        Some(next) => labels_in(alloc, Form::Quoted, next, labels),
        None => closed(text),
    }
}

/// What follows a `}`.
fn closed(text: &[u8]) -> Result<&[u8], Fault>
    ensures rest { MatchResult result (λ rest. mark_in 125 text.now ≡ Some rest.now) (λ f. (f ≡ Fault.Faulty) × (mark_in 125 text.now ≡ None)) }
    ensures shorter { IfOk result (λ rest. length rest.now < length text.now) }
{
    match mark_in(b'}', text) {
        Some(rest) => Ok(rest),
        None => Err(Fault::Faulty),
    }
}
