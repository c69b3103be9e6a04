//! Names and values in quotes, with what follows them.
ghost use Rattle.std.specs.Prelude.{◌≡◌, ◌<◌, length, IfOk, MatchResult, Some};
ghost use Rattle.expo_reader.specs.Faults.{FaultIs};
ghost use Rattle.expo_reader.specs.Names as spec;

use crate::faults::Fault;
use crate::names::{is_quoted_metric, is_quoted_name};
use crate::parts::{mark_in, quick_text, text_in};
use crate::texts::{BorrowedText, borrowed_text, plain_text};
use std::alloc::Global;

/// The text in quotes behind the blanks, with its escapes resolved, and what follows it. Most are gone over once.
#[inline(always)]
#[tactic(auto, unfolding(crate::specs::Names::quote_in))]
pub fn quote_in<'b>(alloc: Global, text: &'b [u8]) -> Result<(BorrowedText<'b>, &'b [u8]), Fault>
    ensures text { MatchResult result (λ r. spec.quote_in text.now ≡ Some (r.0, r.1.now)) (λ f. FaultIs f (spec.quote_in text.now)) }
    ensures shorter { IfOk result (λ r. length r.1.now < length text.now) }
{
    if let Some(value) = quick_text(text) {
        return Ok((plain_text(value.bytes), value.rest));
    }
    let Some(value) = text_in(text) else {
        return Err(Fault::Faulty);
    };
    match borrowed_text(alloc, value.bytes) {
        Ok(text) => Ok((text, value.rest)),
        Err(fault) => Err(fault),
    }
}

/// The name of a label in quotes behind the blanks, and what follows it.
pub fn quoted_name<'b>(alloc: Global, text: &'b [u8]) -> Result<(BorrowedText<'b>, &'b [u8]), Fault>
    ensures name { MatchResult result (λ r. spec.quoted_name text.now ≡ Some (r.0, r.1.now)) (λ f. FaultIs f (spec.quoted_name text.now)) }
    ensures shorter { IfOk result (λ r. length r.1.now < length text.now) }
{
    match quote_in(alloc, text) {
        Ok((name, rest)) => {
            if is_quoted_name(name.as_str().as_bytes()) {
                Ok((name, rest))
            } else {
                Err(Fault::Faulty)
            }
        }
        Err(fault) => Err(fault),
    }
}

/// The metric name in quotes behind the `{` with which a line begins, and what follows it.
#[tactic(auto, unfolding(crate::specs::Names::braced_name))]
pub fn braced_name<'b>(alloc: Global, line: &'b [u8]) -> Result<(BorrowedText<'b>, &'b [u8]), Fault>
    ensures name { MatchResult result (λ r. spec.braced_name line.now ≡ Some (r.0, r.1.now)) (λ f. FaultIs f (spec.braced_name line.now)) }
    ensures shorter { IfOk result (λ r. length r.1.now < length line.now) }
{
    let Some(inside) = mark_in(b'{', line) else {
        return Err(Fault::Faulty);
    };
    match quote_in(alloc, inside) {
        Ok((name, rest)) => {
            if is_quoted_metric(name.as_str().as_bytes()) {
                Ok((name, rest))
            } else {
                Err(Fault::Faulty)
            }
        }
        Err(fault) => Err(fault),
    }
}
