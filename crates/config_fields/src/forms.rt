//! What the value of a field may be ("Configuration" of the Prometheus documentation).
ghost use Rattle.std.specs.Prelude.{◌≡◌, option_map, pos};
ghost use Rattle.std.specs.Str.{str_eq_ignore_ascii_case};
ghost use Rattle.serde_json.specs.View.{view, number_view};
ghost use Rattle.config_fields.specs.Forms as spec;

use crate::fault::Flaw;
use label_set::is_label_name;
use outside::{MOST_NAME_BYTES, is_scheme};
use rule_conf::Action;
use serde_json::{Number, Value};
use value_text::read_duration;

/// What a text of a field may be.
#[derive(Clone, Copy, Debug)]
pub enum TextForm {
    Any,
    /// A text that isn't empty.
    Filled,
    /// A text of 1 to 4,096 bytes.
    ShortName,
    LabelName,
    /// `http` or `https`.
    Scheme,
    /// The name of an action of relabelling, the letters of ASCII in any case.
    Action,
    /// A duration of at most 2^40 milliseconds.
    Duration,
    /// A duration of at most so many milliseconds.
    Timeout(i64),
}

/// What a value without fields and items may be.
#[derive(Clone, Copy, Debug)]
pub enum Kind {
    /// Any value, accepted and not read.
    Any,
    /// `true` or `false`.
    Truth,
    /// A whole number up to 2^52 - 1.
    Limit,
    /// A whole number from 1 to 2^64 - 1.
    Modulus,
    Text(TextForm),
}

/// The milliseconds of a duration of at most 2^40; none where the text is no such duration.
#[tactic(auto, unfolding(crate::specs::Forms::millis_of))]
pub fn millis_of(text: &str) -> Option<i64>
    ensures { result ≡ option_map (λ n. pos n) (spec.millis_of text.now) }
{
    read_duration(text).ok()
}

/// Whether a text is this name, the letters of ASCII in any case.
fn is_named(text: &str, name: &str) -> bool
    ensures { result ≡ str_eq_ignore_ascii_case text.now name.now }
{
    text.eq_ignore_ascii_case(name)
}

/// The action of a name, the letters of ASCII in any case; none where no action has the name.
#[tactic(auto, unfolding(crate::specs::Forms::action_of))]
pub fn action_of(text: &str) -> Option<Action>
    ensures { result ≡ spec.action_of text.now }
{
    if is_named(text, "replace") {
        Some(Action::Replace)
    } else if is_named(text, "keep") {
        Some(Action::Keep)
    } else if is_named(text, "drop") {
        Some(Action::Drop)
    } else if is_named(text, "keepequal") {
        Some(Action::KeepEqual)
    } else if is_named(text, "dropequal") {
        Some(Action::DropEqual)
    } else if is_named(text, "hashmod") {
        Some(Action::HashMod)
    } else if is_named(text, "labelmap") {
        Some(Action::LabelMap)
    } else if is_named(text, "labeldrop") {
        Some(Action::LabelDrop)
    } else if is_named(text, "labelkeep") {
        Some(Action::LabelKeep)
    } else if is_named(text, "lowercase") {
        Some(Action::Lowercase)
    } else if is_named(text, "uppercase") {
        Some(Action::Uppercase)
    } else {
        None
    }
}

#[tactic(auto, unfolding(crate::specs::Forms::is_short_name))]
fn is_short_name(text: &str) -> bool
    ensures { result ≡ spec.is_short_name text.now }
{
    1 <= text.len() && text.len() as u64 <= MOST_NAME_BYTES
}

#[tactic(auto, unfolding(crate::specs::Forms::is_within))]
fn is_within(most: i64, text: &str) -> bool
    ensures { result ≡ spec.is_within most text.now }
{
    match millis_of(text) {
        Some(millis) => millis <= most,
        None => false,
    }
}

#[tactic(auto, unfolding(crate::specs::Forms::is_limit))]
fn is_limit(number: &Number) -> bool
    ensures { result ≡ spec.is_limit (number_view number.now) }
{
    match number.as_u64() {
        Some(number) => number < 1 << 52,
        None => false,
    }
}

#[tactic(auto, unfolding(crate::specs::Forms::is_modulus))]
fn is_modulus(number: &Number) -> bool
    ensures { result ≡ spec.is_modulus (number_view number.now) }
{
    match number.as_u64() {
        Some(number) => 0 < number,
        None => false,
    }
}

/// Whether a text is of a form.
#[tactic(auto, unfolding(crate::specs::Forms::is_text_of))]
pub fn is_text_of(form: TextForm, text: &str) -> bool
    ensures { result ≡ spec.is_text_of form text.now }
{
    match form {
        TextForm::Any => true,
        TextForm::Filled => !text.is_empty(),
        TextForm::ShortName => is_short_name(text),
        TextForm::LabelName => is_label_name(text),
        TextForm::Scheme => is_scheme(text),
        TextForm::Action => action_of(text).is_some(),
        TextForm::Duration => millis_of(text).is_some(),
        TextForm::Timeout(most) => is_within(most, text),
    }
}

/// The flaw of a value that is of the right kind or not (`None`), and then allowed or not; none where it is allowed.
pub fn judged(is_allowed: Option<bool>) -> Option<Flaw>
    ensures { result ≡ spec.judged is_allowed }
{
    match is_allowed {
        None => Some(Flaw::Shape),
        Some(true) => None,
        Some(false) => Some(Flaw::Value),
    }
}

/// What is wrong with the value of a field of a kind; none where it is allowed.
#[tactic(auto, unfolding(crate::specs::Forms::flaw_of))]
pub fn flaw_of(kind: Kind, value: &Value) -> Option<Flaw>
    ensures { result ≡ spec.flaw_of kind (view value.now) }
{
    match kind {
        Kind::Any => None,
        Kind::Truth => judged(value.as_bool().map(|_| true)),
        Kind::Limit => judged(value.as_number().map(is_limit)),
        Kind::Modulus => judged(value.as_number().map(is_modulus)),
        Kind::Text(form) => judged(value.as_str().map(|text| is_text_of(form, text))),
    }
}
