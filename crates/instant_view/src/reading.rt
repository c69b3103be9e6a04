//! Reads the text of a selector.
ghost use Rattle.std.specs.Prelude.{◌≡◌, ◌<◌, ◌++◌, ◌∷◌, [], List, Some, None, length, IfOk, IsTrue, MatchResult, option_map};
ghost use Rattle.std.specs.List.{list_all};
ghost use Rattle.label_set.specs.Bytes.{is_label_name, is_metric_name};
ghost use Rattle.expo_reader.specs.Texts as texts;
ghost use Rattle.instant_view.specs.declared.matchers.Matcher.{Matcher};
ghost use Rattle.instant_view.specs.Faults.{AddsAll, AddsOne, Finds, from_to};
ghost use Rattle.instant_view.specs.Forms as spec;
ghost use Rattle.instant_view.specs.Grammar.{is_apart};

use crate::matchers::{Matcher, MatcherList, Operator, SelectorError, SelectorParts};
use crate::names::{label_name, metric_name};
use crate::parts::{label_in, operator_in};
use crate::texts::{is_one_line, text_value};
use expo_reader::names::metric_len;
use expo_reader::parts::{Part, mark_at, mark_in, text_in};
use label_set::Name;
use label_set::names::are_metric_name;
use std::alloc::Global;

/// A matcher of a label, an operator and a text in quotes.
fn matcher_of(
    alloc: Global,
    label: &[u8],
    operator: Operator,
    text: &[u8],
) -> Result<Matcher, SelectorError>
    requires { IsTrue (is_label_name label.now) }
    ensures { Finds (λ m. m) result (spec.matcher_of label.now operator text.now) }
{
    if !is_one_line(text) {
        return Err(SelectorError::Syntax);
    }
    let value = text_value(alloc, text)?;
    let label = label_name(alloc, label)?;
    Ok(Matcher {
        label,
        operator,
        value,
    })
}

/// Adds the matcher of a label, an operator and the text in quotes behind the blanks, and gives what follows it.
fn push_valued<'b>(
    alloc: Global,
    label: &[u8],
    operator: Operator,
    quoted: &'b [u8],
    matchers: &mut Vec<Matcher>,
) -> Result<&'b [u8], SelectorError>
    requires { IsTrue (is_label_name label.now) }
    ensures matcher { AddsOne (λ r. r.now) result (spec.valued label.now operator (texts.text_in quoted.now)) (from_to matchers.old.items matchers.new.items) }
    ensures shorter { IfOk result (λ rest. length rest.now < length quoted.now) }
{
    let Some(text) = text_in(quoted) else {
        return Err(SelectorError::Syntax);
    };
    match matcher_of(alloc, label, operator, text.bytes) {
        Ok(matcher) => {
            matchers.reserve(1)?;
            matchers.push_reserved(matcher);
            Ok(text.rest)
        }
        Err(fault) => Err(fault),
    }
}

/// Adds the matcher behind the blanks, and gives what follows it.
fn push_matcher<'b>(
    alloc: Global,
    text: &'b [u8],
    matchers: &mut Vec<Matcher>,
) -> Result<&'b [u8], SelectorError>
    ensures matcher { AddsOne (λ r. r.now) result (spec.matcher_in text.now) (from_to matchers.old.items matchers.new.items) }
    ensures shorter { IfOk result (λ rest. length rest.now < length text.now) }
{
    let Some(label) = label_in(text) else {
        return Err(SelectorError::Syntax);
    };
    let Some(compares) = operator_in(label.rest) else {
        return Err(SelectorError::Syntax);
    };
    push_valued(
        alloc,
        label.bytes,
        compares.operator,
        compares.rest,
        matchers,
    )
}

/// Adds the matchers behind a `{`, and gives what follows the `}` behind them.
fn matchers_in<'b>(
    alloc: Global,
    text: &'b [u8],
    matchers: &mut Vec<Matcher>,
) -> Result<&'b [u8], SelectorError>
    ensures { AddsAll (λ r. r.now) result (spec.all_matchers_in text.now) (from_to matchers.old.items matchers.new.items) }
{
    let mut left = text;
    loop {
        if let Some(rest) = mark_in(b'}', left) {
            return Ok(rest);
        }
        let rest = match push_matcher(alloc, left, matchers) {
            Ok(rest) => rest,
            Err(fault) => return Err(fault),
        };
        left = match mark_in(b',', rest) {
            Some(next) => next,
            None => return closed(rest),
        };
    }
}

/// What follows a `}`.
fn closed(text: &[u8]) -> Result<&[u8], SelectorError>
    ensures { let said = texts.mark_in 125 text.now in MatchResult result (λ r. said ≡ Some r.now) (λ f. (f ≡ SelectorError.Syntax) × (said ≡ None)) }
{
    match mark_in(b'}', text) {
        Some(rest) => Ok(rest),
        None => Err(SelectorError::Syntax),
    }
}

/// The matchers behind a `{`, where nothing follows the `}` behind them.
fn ending(alloc: Global, inside: &[u8]) -> Result<Vec<Matcher>, SelectorError>
    ensures { Finds (λ v. v.items) result (spec.ending (spec.all_matchers_in inside.now)) }
{
    let mut matchers = Vec::new(alloc);
    match matchers_in(alloc, inside, &mut matchers) {
        Ok(rest) => {
            if rest.is_empty() {
                Ok(matchers)
            } else {
                Err(SelectorError::Syntax)
            }
        }
        Err(fault) => Err(fault),
    }
}

/// Whether no matcher is for `__name__`.
fn are_apart(matchers: &[Matcher]) -> bool
    ensures { result ≡ list_all is_apart matchers.now }
{
    matchers.iter().all(|m| m.label.as_str() != "__name__")
}

/// The matchers behind the `{` behind a name and blanks.
fn named(alloc: Global, text: &[u8]) -> Result<Vec<Matcher>, SelectorError>
    ensures { Finds (λ v. v.items) result (spec.apart (spec.braced (texts.mark_in 123 text.now))) }
{
    let Some(inside) = mark_in(b'{', text) else {
        return Err(SelectorError::Syntax);
    };
    let matchers = ending(alloc, inside)?;
    if !are_apart(&matchers) {
        return Err(SelectorError::Syntax);
    }
    Ok(matchers)
}

/// What follows a name: nothing, or matchers in braces.
fn behind_name(alloc: Global, text: &[u8]) -> Result<Vec<Matcher>, SelectorError>
    ensures { Finds (λ v. v.items) result (spec.behind_name text.now) }
{
    if text.is_empty() {
        return Ok(Vec::new(alloc));
    }
    named(alloc, text)
}

/// Matchers in braces alone.
fn unnamed(alloc: Global, text: &[u8]) -> Result<Vec<Matcher>, SelectorError>
    ensures { Finds (λ v. v.items) result (spec.braced (texts.mark_at 123 text.now)) }
{
    match mark_at(b'{', text) {
        Some(inside) => ending(alloc, inside),
        None => Err(SelectorError::Syntax),
    }
}

fn parts_of(name: Option<Name>, items: Vec<Matcher>) -> SelectorParts
    ensures name { result.name ≡ name }
    ensures matchers { result.matchers ≡ items.items }
{
    SelectorParts {
        name,
        matchers: MatcherList { items },
    }
}

/// Matchers in braces alone, without a name.
fn without_name(alloc: Global, text: &[u8]) -> Result<SelectorParts, SelectorError>
    ensures { Finds (λ p. p) result (option_map (spec.parts_of None) (spec.braced (texts.mark_at 123 text.now))) }
{
    Ok(parts_of(None, unnamed(alloc, text)?))
}

/// A name, and what follows it.
fn with_name(alloc: Global, name: &[u8], rest: &[u8]) -> Result<SelectorParts, SelectorError>
    ensures { Finds (λ p. p) result (spec.with_name name.now (spec.behind_name rest.now)) }
{
    if !are_metric_name(name) {
        return Err(SelectorError::Syntax);
    }
    let matchers = behind_name(alloc, rest)?;
    let name = metric_name(alloc, name)?;
    Ok(parts_of(Some(name), matchers))
}

/// Reads a selector.
#[tactic(auto, unfolding(crate::specs::Forms::selector_in))]
pub fn selector_in(alloc: Global, text: &[u8]) -> Result<SelectorParts, SelectorError>
    ensures { Finds (λ p. p) result (spec.selector_in text.now) }
{
    let len = metric_len(text);
    if len == 0 {
        return without_name(alloc, text);
    }
    with_name(alloc, &text[..len], &text[len..])
}
