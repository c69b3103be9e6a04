//! What fields say, and what stands in their place where they are absent.
ghost use Rattle.std.specs.Prelude.{◌≡◌, ℕ, pos, codes, nat_lt, option_map, OnOk, IfOk};
ghost use Rattle.serde_json.specs.View.{view, items_view};
ghost use Rattle.scrape_config.specs.Counts.{most_targets};
ghost use Rattle.scrape_config.specs.Defaults as spec;

use crate::counts::MOST_TARGETS;
use config_fields::forms::{action_of, millis_of};
use indexmap::IndexSet;
use label_set::{Name, NameList, NoMemory};
use relabel::Action;
use scrape_limits::Limits;
use serde_json::Value;
use std::alloc::Global;

/// What `global` says for all jobs.
#[derive(Clone, Copy, Debug)]
pub struct Base {
    /// The interval in milliseconds.
    pub interval: i64,
    /// The timeout in milliseconds.
    pub timeout: i64,
    pub limits: Limits,
}

/// The text of a field.
#[tactic(auto, unfolding(crate::specs::Defaults::text_under))]
pub fn text_under<'a>(key: &str, value: &'a Value) -> Option<&'a str>
    ensures { option_map (λ s. s.now) result ≡ spec.text_under key.now (view value.now) }
{
    value.get(key).and_then(Value::as_str)
}

/// The truth value of a field.
#[tactic(auto, unfolding(crate::specs::Defaults::truth_under))]
pub fn truth_under(key: &str, value: &Value) -> Option<bool>
    ensures { result ≡ spec.truth_under key.now (view value.now) }
{
    value.get(key).and_then(Value::as_bool)
}

/// The whole number of a field.
#[tactic(auto, unfolding(crate::specs::Defaults::whole_under))]
pub fn whole_under(key: &str, value: &Value) -> Option<u64>
    ensures { result ≡ spec.whole_under key.now (view value.now) }
{
    value.get(key).and_then(Value::as_u64)
}

/// The list of a field.
#[tactic(auto, unfolding(crate::specs::Defaults::list_under))]
pub fn list_under<'a>(key: &str, value: &'a Value) -> &'a [Value]
    ensures { items_view result.now ≡ spec.list_under key.now (view value.now) }
{
    match value.get(key).and_then(Value::as_array) {
        Some(items) => items.as_slice(),
        None => &[],
    }
}

/// How many items the list of a field has.
fn count_under(key: &str, value: &Value) -> usize
    ensures { result ≡ spec.item_count (spec.list_under key.now (view value.now)) }
{
    list_under(key, value).len()
}

/// Whether the groups of a list have more targets than a job may.
pub fn has_too_many_targets(groups: &[Value]) -> bool
    ensures { result ≡ nat_lt most_targets (spec.target_count (items_view groups.now)) }
{
    let mut left = MOST_TARGETS;
    for group in groups {
        let count = count_under("targets", group) as u64;
        if left < count {
            return true;
        }
        left -= count;
    }
    false
}

/// Puts the texts of a list that aren't seen yet behind those seen.
fn note_texts(alloc: Global, values: &[Value], seen: &mut IndexSet<Name>) -> Result<(), NoMemory>
    ensures { OnOk result (seen.new.keys ≡ spec.once seen.old.keys (spec.texts_of (items_view values.now))) }
{
    for value in values {
        if let Some(text) = value.as_str() {
            let _ = seen.insert(Name::from_str(alloc, text)?)?;
        }
    }
    Ok(())
}

/// Puts the files that an item of `file_sd_configs` lists and that aren't seen yet behind those seen.
#[tactic(auto, unfolding(crate::specs::Defaults::texts_under))]
fn note_files(alloc: Global, list: &Value, seen: &mut IndexSet<Name>) -> Result<(), NoMemory>
    ensures { OnOk result (seen.new.keys ≡ spec.once seen.old.keys (spec.texts_under (codes "files") (view list.now))) }
{
    note_texts(alloc, list_under("files", list), seen)
}

/// The texts of a set.
fn names_of(alloc: Global, seen: IndexSet<Name>) -> Result<NameList, NoMemory>
    ensures { IfOk result (λ l. l ≡ seen.keys) }
{
    let mut items = Vec::with_capacity(alloc, seen.len())?;
    for name in seen {
        items.push(name)?;
    }
    Ok(NameList { items })
}

/// The different files that a job lists, at their first places.
#[tactic(auto, using(crate::proofs::DefaultLemmas::once_more), unfolding(crate::specs::Defaults::files_in))]
pub fn files_in(alloc: Global, lists: &[Value]) -> Result<NameList, NoMemory>
    ensures { IfOk result (λ l. l ≡ spec.files_in (items_view lists.now)) }
{
    let mut seen = IndexSet::new(alloc);
    for list in lists {
        note_files(alloc, list, &mut seen)?;
    }
    names_of(alloc, seen)
}

/// The action that a rule says, `replace` where it says none.
#[tactic(auto, unfolding(crate::specs::Defaults::action_in))]
pub fn action_in(rule: &Value) -> Option<Action>
    ensures { result ≡ spec.action_in (view rule.now) }
{
    match rule.get("action") {
        Some(action) => action.as_str().and_then(action_of),
        None => Some(Action::Replace),
    }
}

/// The milliseconds of a field with a duration, where they aren't 0.
#[tactic(auto, unfolding(crate::specs::Defaults::duration_under))]
fn duration_under(key: &str, value: &Value) -> Option<i64>
    ensures { result ≡ option_map (λ n. pos n) (spec.duration_under key.now (view value.now)) }
{
    let millis = millis_of(text_under(key, value)?)?;
    if millis == 0 { None } else { Some(millis) }
}

/// The lesser of two moments.
fn lesser(a: i64, b: i64) -> i64
    ensures { result ≡ spec.lesser a b }
{
    if b < a { b } else { a }
}

/// The interval of `global` or a job, where `base` stands in its place.
#[tactic(auto, unfolding(crate::specs::Defaults::interval_or))]
fn interval_or(base: i64, value: &Value) -> i64
    ensures { result ≡ spec.interval_or base (view value.now) }
{
    duration_under("scrape_interval", value).unwrap_or(base)
}

/// The timeout, where `base` stands in its place unless the interval is less.
#[tactic(auto, unfolding(crate::specs::Defaults::timeout_or))]
pub fn timeout_or(base: i64, interval: i64, value: &Value) -> i64
    ensures { result ≡ spec.timeout_or base interval (view value.now) }
{
    duration_under("scrape_timeout", value).unwrap_or(lesser(base, interval))
}

/// A limit of `global` or a job.
#[tactic(auto, unfolding(crate::specs::Defaults::limit_or))]
fn limit_or(base: u64, key: &str, value: &Value) -> u64
    ensures { result ≡ spec.limit_or base key.now (view value.now) }
{
    match whole_under(key, value) {
        Some(limit) => { if limit == 0 { base } else { limit } }
        None => base,
    }
}

/// The limits of `global` or a job, where those of `base` stand in their place.
#[tactic(auto, unfolding(crate::specs::Defaults::limits_or))]
pub fn limits_or(base: Limits, value: &Value) -> Limits
    ensures { result ≡ spec.limits_or base (view value.now) }
{
    Limits {
        sample: limit_or(base.sample, "sample_limit", value),
        label: limit_or(base.label, "label_limit", value),
        name_length: limit_or(base.name_length, "label_name_length_limit", value),
        value_length: limit_or(base.value_length, "label_value_length_limit", value),
        body_size: limit_or(base.body_size, "body_size_limit", value),
        target: limit_or(base.target, "target_limit", value),
    }
}

/// No limit.
fn unlimited() -> Limits
    ensures { result ≡ spec.unlimited }
{
    Limits {
        sample: 0,
        label: 0,
        name_length: 0,
        value_length: 0,
        body_size: 0,
        target: 0,
    }
}

/// What `global` says: a minute, ten seconds and no limits where it says nothing.
#[tactic(auto, unfolding(crate::specs::Defaults::global_base))]
fn global_base(global: &Value) -> Base
    ensures { result ≡ spec.global_base (view global.now) }
{
    let interval = interval_or(60_000, global);
    Base {
        interval,
        timeout: timeout_or(10_000, interval, global),
        limits: limits_or(unlimited(), global),
    }
}

/// What a configuration says for all its jobs.
#[tactic(auto, using(crate::proofs::DefaultLemmas::global_base_null), unfolding(crate::specs::Defaults::base_of))]
pub fn base_of(value: &Value) -> Base
    ensures { result ≡ spec.base_of (view value.now) }
{
    match value.get("global") {
        Some(global) => global_base(global),
        None => Base {
            interval: 60_000,
            timeout: 10_000,
            limits: unlimited(),
        },
    }
}

/// The interval of a job.
#[tactic(auto, unfolding(crate::specs::Defaults::interval_in))]
pub fn interval_in(base: Base, job: &Value) -> i64
    ensures { result ≡ spec.interval_in base (view job.now) }
{
    interval_or(base.interval, job)
}
