//! The parts of a selector.
ghost use Rattle.std.specs.Prelude.{◌≡◌, ◌≤◌, length, MatchOption, IfSome, IsTrue, None, Some};
ghost use Rattle.label_set.specs.Bytes.{is_label_name};
ghost use Rattle.instant_view.specs.Forms as spec;

use crate::matchers::Operator;
use expo_reader::names::name_len;
use expo_reader::parts::{Part, bare};
use label_set::names::are_label_name;

/// An operator, and what follows it.
#[derive(Clone, Copy)]
pub struct Compares<'a> {
    pub operator: Operator,
    pub rest: &'a [u8],
}

/// The label name behind the blanks, and what follows it.
#[tactic(auto, unfolding(crate::specs::Forms::label_in))]
pub fn label_in(text: &[u8]) -> Option<Part<'_>>
    ensures part { MatchOption result (spec.label_in text.now ≡ None) (λ p. spec.label_in text.now ≡ Some (p.bytes.now, p.rest.now)) }
    ensures name { IfSome result (λ p. IsTrue (is_label_name p.bytes.now)) }
    ensures shorter { IfSome result (λ p. length p.rest.now ≤ length text.now) }
{
    let text = bare(text);
    let len = name_len(text);
    if !are_label_name(&text[..len]) {
        return None;
    }
    Some(Part {
        bytes: &text[..len],
        rest: &text[len..],
    })
}

/// The operator of two bytes in front.
fn operator_of(first: u8, second: u8) -> Option<(Operator, usize)>
    ensures value { result ≡ spec.operator_of first second }
    ensures within { IfSome result (λ o. o.1 ≤ 2) }
{
    match (first, second) {
        (b'=', b'~') => Some((Operator::Match, 2)),
        (b'=', _) => Some((Operator::Equal, 1)),
        (b'!', b'=') => Some((Operator::Unequal, 2)),
        (b'!', b'~') => Some((Operator::Mismatch, 2)),
        _ => None,
    }
}

/// The operator behind the blanks, and what follows it.
#[tactic(auto, unfolding(crate::specs::Forms::operator_in))]
pub fn operator_in(text: &[u8]) -> Option<Compares<'_>>
    ensures part { MatchOption result (spec.operator_in text.now ≡ None) (λ o. spec.operator_in text.now ≡ Some (o.operator, o.rest.now)) }
    ensures shorter { IfSome result (λ o. length o.rest.now ≤ length text.now) }
{
    let text = bare(text);
    if text.len() < 2 {
        return None;
    }
    match operator_of(text[0], text[1]) {
        Some((operator, len)) => Some(Compares {
            operator,
            rest: &text[len..],
        }),
        None => None,
    }
}
