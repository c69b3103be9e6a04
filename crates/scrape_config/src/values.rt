//! The configuration that a text without faults gives.
ghost use Rattle.std.specs.Prelude.{◌≡◌, ◌++◌, ℕ, codes, Some, IfOk, option_map, unwrap_or};
ghost use Rattle.serde_json.specs.Data.{no_items, no_members};
ghost use Rattle.serde_json.specs.Find.{as_array};
ghost use Rattle.serde_json.specs.View.{view, items_view, members_view};
ghost use Rattle.scrape_config.specs.Defaults as defaults;
ghost use Rattle.scrape_config.specs.Values as spec;

use crate::conf::{Group, GroupList, JobConf, Param, ParamList};
use crate::defaults::{
    Base, action_in, files_in, interval_in, limits_or, list_under, text_under, timeout_or,
    truth_under, whole_under,
};
use label_set::{Name, NameList, NoMemory, Pair, PairList};
use outside::{Scheme, scheme_of};
use relabel::{Action, RuleConf, RuleList};
use serde_json::{Map, Value};
use std::alloc::Global;

/// A copy of the text of a field, or of its default.
#[tactic(auto, unfolding(crate::specs::Values::text_or))]
fn text_or(alloc: Global, default: &str, key: &str, value: &Value) -> Result<Name, NoMemory>
    ensures { IfOk result (λ n. n ≡ spec.text_or default.now key.now (view value.now)) }
{
    Name::from_str(alloc, text_under(key, value).unwrap_or(default))
}

/// Copies of the texts of a list.
fn texts_of(alloc: Global, values: &[Value]) -> Result<NameList, NoMemory>
    ensures { IfOk result (λ l. l ≡ defaults.texts_of (items_view values.now)) }
{
    let mut items = Vec::new(alloc);
    for value in values {
        if let Some(text) = value.as_str() {
            items.push(Name::from_str(alloc, text)?)?;
        }
    }
    Ok(NameList { items })
}

/// Copies of the texts of a field that is a list.
#[tactic(auto, unfolding(crate::specs::Defaults::texts_under))]
fn texts_under(alloc: Global, key: &str, value: &Value) -> Result<NameList, NoMemory>
    ensures { IfOk result (λ l. l ≡ defaults.texts_under key.now (view value.now)) }
{
    texts_of(alloc, list_under(key, value))
}

/// A rule of `relabel_configs` or `metric_relabel_configs`, after defaults.
#[tactic(auto, unfolding(crate::specs::Values::rule_of))]
fn rule_of(alloc: Global, value: &Value) -> Result<RuleConf, NoMemory>
    ensures { IfOk result (λ r. r ≡ spec.rule_of (view value.now)) }
{
    Ok(RuleConf {
        sources: texts_under(alloc, "source_labels", value)?,
        separator: text_or(alloc, ";", "separator", value)?,
        regex: text_or(alloc, "(.*)", "regex", value)?,
        modulus: whole_under("modulus", value).unwrap_or(0),
        target: text_or(alloc, "", "target_label", value)?,
        replacement: text_or(alloc, "$1", "replacement", value)?,
        action: action_in(value).unwrap_or(Action::Replace),
    })
}

/// Rules, after defaults.
fn rules_of(alloc: Global, values: &[Value]) -> Result<RuleList, NoMemory>
    ensures { IfOk result (λ l. l ≡ spec.rules_of (items_view values.now)) }
{
    let mut items = Vec::new(alloc);
    for value in values {
        items.push(rule_of(alloc, value)?)?;
    }
    Ok(RuleList { items })
}

/// The labels of an object, by rising name.
fn pairs_of(alloc: Global, object: &Map<String, Value>) -> Result<PairList, NoMemory>
    ensures { IfOk result (λ l. l ≡ spec.pairs_of (members_view object.now.entries)) }
{
    let mut items = Vec::new(alloc);
    for (name, value) in object {
        if let Some(text) = value.as_str() {
            items.push(Pair {
                name: Name::from_str(alloc, name.as_str())?,
                value: Name::from_str(alloc, text)?,
            })?;
        }
    }
    Ok(PairList { items })
}

/// The labels of a group, by rising name.
#[tactic(auto, unfolding(crate::specs::Values::members_under))]
fn labels_in(alloc: Global, group: &Value) -> Result<PairList, NoMemory>
    ensures { IfOk result (λ l. l ≡ spec.pairs_of (spec.members_under (codes "labels") (view group.now))) }
{
    match group.get("labels").and_then(Value::as_object) {
        Some(object) => pairs_of(alloc, object),
        None => Ok(PairList {
            items: Vec::new(alloc),
        }),
    }
}

/// A copy of the name of a file.
fn file_of(alloc: Global, file: Option<&str>) -> Result<Option<Name>, NoMemory>
    ensures { IfOk result (λ f. f ≡ option_map (λ s. s.now) file.entry) }
{
    match file {
        Some(file) => Ok(Some(Name::from_str(alloc, file)?)),
        None => Ok(None),
    }
}

/// A group of a job or of a file.
#[tactic(auto, unfolding(crate::specs::Values::group_of))]
fn group_of(alloc: Global, file: Option<&str>, value: &Value) -> Result<Group, NoMemory>
    ensures { IfOk result (λ g. g ≡ spec.group_of (option_map (λ s. s.now) file.entry) (view value.now)) }
{
    Ok(Group {
        labels: labels_in(alloc, value)?,
        targets: texts_under(alloc, "targets", value)?,
        file: file_of(alloc, file)?,
    })
}

/// Groups of a job or of a file.
fn groups_of(alloc: Global, file: Option<&str>, values: &[Value]) -> Result<GroupList, NoMemory>
    ensures { IfOk result (λ l. l ≡ spec.groups_of (option_map (λ s. s.now) file.entry) (items_view values.now)) }
{
    let mut items = Vec::new(alloc);
    for value in values {
        items.push(group_of(alloc, file, value)?)?;
    }
    Ok(GroupList { items })
}

/// The values of a parameter.
fn values_of(alloc: Global, value: &Value) -> Result<NameList, NoMemory>
    ensures { IfOk result (λ l. l ≡ defaults.texts_of (unwrap_or (as_array (view value.now)) no_items)) }
{
    match value.as_array() {
        Some(values) => texts_of(alloc, values.as_slice()),
        None => Ok(NameList {
            items: Vec::new(alloc),
        }),
    }
}

/// The parameters of an object, by rising name.
fn params_of(alloc: Global, object: &Map<String, Value>) -> Result<ParamList, NoMemory>
    ensures { IfOk result (λ l. l ≡ spec.params_of (members_view object.now.entries)) }
{
    let mut items = Vec::new(alloc);
    for (name, value) in object {
        items.push(Param {
            name: Name::from_str(alloc, name.as_str())?,
            values: values_of(alloc, value)?,
        })?;
    }
    Ok(ParamList { items })
}

/// The parameters of a job, by rising name.
#[tactic(auto, unfolding(crate::specs::Values::members_under))]
fn params_in(alloc: Global, job: &Value) -> Result<ParamList, NoMemory>
    ensures { IfOk result (λ l. l ≡ spec.params_of (spec.members_under (codes "params") (view job.now))) }
{
    match job.get("params").and_then(Value::as_object) {
        Some(object) => params_of(alloc, object),
        None => Ok(ParamList {
            items: Vec::new(alloc),
        }),
    }
}

/// The timeout of a job.
#[tactic(auto, unfolding(crate::specs::Values::timeout_in))]
fn timeout_in(base: Base, job: &Value) -> i64
    ensures { result ≡ spec.timeout_in base (view job.now) }
{
    timeout_or(base.timeout, interval_in(base, job), job)
}

/// The scheme of a job.
#[tactic(auto, unfolding(crate::specs::Values::scheme_in))]
fn scheme_in(job: &Value) -> Scheme
    ensures { result ≡ spec.scheme_in (view job.now) }
{
    match text_under("scheme", job) {
        Some(text) => scheme_of(text).unwrap_or(Scheme::Http),
        None => Scheme::Http,
    }
}

/// A job, after defaults.
#[tactic(auto, unfolding(crate::specs::Values::job_of))]
pub fn job_of(alloc: Global, base: Base, value: &Value) -> Result<JobConf, NoMemory>
    ensures { IfOk result (λ c. c ≡ spec.job_of base (view value.now)) }
{
    Ok(JobConf {
        job_name: text_or(alloc, "", "job_name", value)?,
        scrape_interval: interval_in(base, value),
        scrape_timeout: timeout_in(base, value),
        metrics_path: text_or(alloc, "/metrics", "metrics_path", value)?,
        scheme: scheme_in(value),
        honor_labels: truth_under("honor_labels", value).unwrap_or(false),
        honor_timestamps: truth_under("honor_timestamps", value).unwrap_or(true),
        track_timestamps_staleness: truth_under("track_timestamps_staleness", value).unwrap_or(
            false,
        ),
        extra_scrape_metrics: truth_under("extra_scrape_metrics", value).unwrap_or(false),
        params: params_in(alloc, value)?,
        relabel: rules_of(alloc, list_under("relabel_configs", value))?,
        metric_relabel: rules_of(alloc, list_under("metric_relabel_configs", value))?,
        limits: limits_or(base.limits, value),
        groups: groups_of(alloc, None, list_under("static_configs", value))?,
        files: files_in(alloc, list_under("file_sd_configs", value))?,
    })
}

/// The groups of the list of a file.
#[tactic(auto, unfolding(crate::specs::Values::file_groups_of))]
pub fn file_groups_of(alloc: Global, file: &str, value: &Value) -> Result<GroupList, NoMemory>
    ensures { IfOk result (λ g. g ≡ spec.file_groups_of file.now (view value.now)) }
{
    match value.as_array() {
        Some(values) => groups_of(alloc, Some(file), values.as_slice()),
        None => Ok(GroupList {
            items: Vec::new(alloc),
        }),
    }
}
