//! Limits, and what is past them.
ghost use Rattle.std.specs.Prelude.{◌≡◌, ◌≤◌, length};
ghost use Rattle.std.specs.List.{list_any};
ghost use Rattle.label_set.specs.declared.texts.Pair.{Pair};
ghost use Rattle.outside.specs.Sizes.{most_body_bytes};
ghost use Rattle.scrape_limits.specs.Limits as spec;
ghost use Rattle.scrape_limits.specs.Limits.{is_past, limit_fault, has_many_samples};

use label_set::LabelSet;
use outside::MOST_BODY_BYTES;

/// The limits of a scrape job; 0 is no limit.
/// (Prometheus documentation, "Configuration", `<scrape_config>`: the setting that each field names.)
#[derive(Clone, Copy, PartialEq, Eq, Debug)]
pub struct Limits {
    /// How many samples a scrape may leave after relabelling (`sample_limit`).
    pub sample: u64,
    /// How many labels a sample may have, `__name__` counted (`label_limit`).
    pub label: u64,
    /// How many bytes a label name may have, `__name__` looked at as well (`label_name_length_limit`).
    pub name_length: u64,
    /// How many bytes a label value may have (`label_value_length_limit`).
    pub value_length: u64,
    /// How many bytes an uncompressed body may have (`body_size_limit`).
    pub body_size: u64,
    /// How many targets a job may have after relabelling (`target_limit`).
    pub target: u64,
}

/// Which limit a label set is past.
#[derive(Clone, Copy, PartialEq, Eq, Debug)]
pub enum LimitFault {
    /// It has too many labels.
    Labels,
    /// It has a label name that is too long.
    NameLength,
    /// It has a label value that is too long.
    ValueLength,
}

/// Which limit a label set is past: the first that holds of too many labels, a label name of too many bytes, and a label value of too many
/// bytes; `None` exactly where none holds.
#[tactic(auto, unfolding(crate::specs::Limits::limit_fault))]
pub fn judge(limits: &Limits, set: &LabelSet) -> Option<LimitFault>
    ensures { result ≡ limit_fault limits.now set.now }
{
    if has_many_labels(limits.label, set) {
        Some(LimitFault::Labels)
    } else if has_long_name(limits.name_length, set) {
        Some(LimitFault::NameLength)
    } else if has_long_value(limits.value_length, set) {
        Some(LimitFault::ValueLength)
    } else {
        None
    }
}

/// Whether the samples that relabelling left are more than a scrape may leave.
pub fn too_many(limits: &Limits, left: u64) -> bool
    ensures { result ≡ has_many_samples limits.now left }
{
    exceeds(limits.sample, left)
}

/// How many bytes a body may have: `body_size_limit` where that is from 1 byte to 64 MiB, and 64 MiB in every other case.
pub fn body_limit(limits: &Limits) -> u64
    ensures value { result ≡ spec.body_limit limits.now }
    ensures most { result ≤ most_body_bytes }
{
    if limits.body_size > 0 && limits.body_size <= MOST_BODY_BYTES {
        limits.body_size
    } else {
        MOST_BODY_BYTES
    }
}

/// Whether a count is past a limit: there is a limit, and the count is greater. A limit of 0 is none.
pub fn exceeds(limit: u64, count: u64) -> bool
    ensures { result ≡ is_past limit count }
{
    limit != 0 && count > limit
}

fn has_many_labels(limit: u64, set: &LabelSet) -> bool
    ensures { result ≡ is_past limit (length set.now) }
{
    limit != 0 && exceeds(limit, set.len() as u64)
}

fn has_long_name(limit: u64, set: &LabelSet) -> bool
    ensures { result ≡ list_any (λ (p : Pair). is_past limit (length p.name)) set.now }
{
    limit != 0 && any_long_name(limit, set)
}

fn any_long_name(limit: u64, set: &LabelSet) -> bool
    ensures { result ≡ list_any (λ (p : Pair). is_past limit (length p.name)) set.now }
{
    for label in set.labels() {
        if exceeds(limit, label.name.len() as u64) {
            return true;
        }
    }
    false
}

fn has_long_value(limit: u64, set: &LabelSet) -> bool
    ensures { result ≡ list_any (λ (p : Pair). is_past limit (length p.value)) set.now }
{
    limit != 0 && any_long_value(limit, set)
}

fn any_long_value(limit: u64, set: &LabelSet) -> bool
    ensures { result ≡ list_any (λ (p : Pair). is_past limit (length p.value)) set.now }
{
    for label in set.labels() {
        if exceeds(limit, label.value.len() as u64) {
            return true;
        }
    }
    false
}
