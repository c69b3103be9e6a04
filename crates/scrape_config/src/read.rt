//! Reading a configuration and the list of a file.
ghost use Rattle.std.specs.Prelude.{◌≡◌, ◌++◌, ◌∷◌, [], Ok, None, All, IfOk, IfErr, OnOk, option_map, codes};
ghost use Rattle.serde_json.specs.View.{view, items_view};
ghost use Rattle.rule_conf.specs.Refusals.{first_bad_rule};
ghost use Rattle.config_fields.specs.Places.{field_place, item_place};
ghost use Rattle.scrape_config.specs.Lists.{conf_faults, job_faults, jobs_walk};
ghost use Rattle.scrape_config.specs.Values.{conf_of, job_of, jobs_of, built};
ghost use Rattle.scrape_config.specs.Reading as spec;
ghost use Rattle.scrape_config.specs.Bounds.{IsBounded, HasLabelNames, IsSound};
ghost use Rattle.scrape_config.specs.declared.conf.Job.{Job};

use crate::conf::{Conf, GroupList, Job, JobList};
use crate::defaults::{Base, base_of, list_under};
use crate::fault::ConfError;
use crate::lists::{conf_fault, groups_fault};
use crate::values::{file_groups_of, job_of};
use config_fields::ConfFault;
use config_fields::place::{at_field, at_item};
use label_set::{Name, NoMemory};
use relabel::{RuleConf, RuleFault, Rules};
use serde_json::Value;
use std::alloc::Global;
use std::str;

/// The JSON of bytes, where they are UTF-8 and JSON.
#[tactic(auto, unfolding(crate::specs::Reading::json_of))]
fn json_of(alloc: Global, bytes: &[u8]) -> Result<Option<Value>, NoMemory>
    ensures { IfOk result (λ o. option_map view o ≡ spec.json_of bytes.now) }
{
    let Ok(text) = str::from_utf8(bytes) else {
        return Ok(None);
    };
    match Value::from_str(alloc, text) {
        Ok(value) => Ok(Some(value)),
        Err(error) => {
            if error.is_memory() {
                Err(NoMemory)
            } else {
                Ok(None)
            }
        }
    }
}

/// The place of a pattern: that of the rule with number `rule` of a list of the job with number `job`.
#[tactic(auto, unfolding(crate::specs::Reading::rules_place, crate::specs::Reading::jobs_place))]
fn pattern_place(alloc: Global, job: usize, key: &str, rule: u32) -> Result<Name, NoMemory>
    ensures { IfOk result (λ n. n ≡ field_place (item_place (spec.rules_place job key.now) rule) (codes "regex")) }
{
    let jobs = at_field(alloc, "", "scrape_configs")?;
    let job = at_item(alloc, jobs.as_str(), job)?;
    let list = at_field(alloc, job.as_str(), key)?;
    let rule = at_item(alloc, list.as_str(), rule as usize)?;
    at_field(alloc, rule.as_str(), "regex")
}

/// Builds the rules of a list of the job with number `job`. The walk through the text has found none of their fields refused.
fn rules_in(alloc: Global, job: usize, key: &str, rules: &[RuleConf]) -> Result<Rules, ConfError>
    requires fine { first_bad_rule 0 rules.now ≡ None }
    ensures rules { IfOk result (λ r. r ≡ rules.now) }
    ensures none { IfOk result (λ _. spec.rules_pattern (spec.rules_place job key.now) rules.now ≡ None) }
    ensures first { IfErr result (λ e. spec.IsPatternCause (spec.rules_pattern (spec.rules_place job key.now) rules.now) e) }
{
    // so many rules don't fit into any memory
    if rules.len() >= 1 << 32 {
        return Err(ConfError::NoMemory);
    }
    match Rules::build(alloc, rules) {
        Ok(rules) => Ok(rules),
        Err(RuleFault::BadPattern { rule }) => {
            let place = pattern_place(alloc, job, key, rule)?;
            Err(ConfError::Bad(ConfFault::Rule { place }))
        }
        Err(RuleFault::NoMemory) => Err(ConfError::NoMemory),
        Err(RuleFault::BadRule { .. }) => unreachable!(),
    }
}

/// The job with number `index`, with its rules built.
#[tactic(auto, unfolding(crate::specs::Values::built))]
fn job_in(alloc: Global, base: Base, index: usize, value: &Value) -> Result<Job, ConfError>
    requires clean { job_faults base (item_place spec.jobs_place index) (view value.now) ≡ [] }
    ensures job { IfOk result (λ j. j ≡ built (job_of base (view value.now))) }
    ensures none { IfOk result (λ _. spec.job_pattern index (built (job_of base (view value.now))) ≡ None) }
    ensures first { IfErr result (λ e. spec.IsPatternCause (spec.job_pattern index (built (job_of base (view value.now)))) e) }
{
    let conf = job_of(alloc, base, value)?;
    let metric = conf.metric_relabel.as_slice();
    let metric_rules = match rules_in(alloc, index, "metric_relabel_configs", metric) {
        Ok(rules) => rules,
        Err(error) => return Err(error),
    };
    let target = conf.relabel.as_slice();
    let target_rules = match rules_in(alloc, index, "relabel_configs", target) {
        Ok(rules) => rules,
        Err(error) => return Err(error),
    };
    Ok(Job {
        conf,
        target_rules,
        metric_rules,
    })
}

fn push_job(jobs: &mut Vec<Job>, job: Job) -> Result<(), NoMemory>
    ensures { OnOk result (jobs.new.items ≡ jobs.old.items ++ job ∷ []) }
{
    jobs.push(job)?;
    Ok(())
}

/// The jobs, with their rules built.
fn jobs_in(alloc: Global, base: Base, values: &[Value]) -> Result<JobList, ConfError>
    requires clean { jobs_walk base spec.jobs_place 0 (items_view values.now) ≡ [] }
    ensures jobs { IfOk result (λ l. l ≡ jobs_of base (items_view values.now)) }
    ensures none { IfOk result (λ _. spec.jobs_pattern 0 (jobs_of base (items_view values.now)) ≡ None) }
    ensures first { IfErr result (λ e. spec.IsPatternCause (spec.jobs_pattern 0 (jobs_of base (items_view values.now))) e) }
{
    let mut items = Vec::new(alloc);
    for value in values {
        match job_in(alloc, base, items.len(), value) {
            Ok(job) => push_job(&mut items, job)?,
            Err(error) => return Err(error),
        }
    }
    Ok(JobList { items })
}

/// The configuration of JSON in which the walk found no fault.
#[tactic(auto, unfolding(crate::specs::Values::conf_of))]
fn conf_in(alloc: Global, value: &Value) -> Result<Conf, ConfError>
    requires clean { conf_faults (view value.now) ≡ [] }
    ensures conf { IfOk result (λ c. c ≡ conf_of (view value.now)) }
    ensures none { IfOk result (λ _. spec.jobs_pattern 0 (conf_of (view value.now)).jobs ≡ None) }
    ensures first { IfErr result (λ e. spec.IsPatternCause (spec.jobs_pattern 0 (conf_of (view value.now)).jobs) e) }
{
    match jobs_in(alloc, base_of(value), list_under("scrape_configs", value)) {
        Ok(jobs) => Ok(Conf { jobs }),
        Err(error) => Err(error),
    }
}

/// Reads the bytes of a configuration in JSON. `Bad` tells the one fault of the least number, the first of its kind in the walk through
/// the text; `Rule`, for the first pattern of the text that isn't one, comes only where there is no other fault.
#[tactic(auto, unfolding(crate::specs::Reading::reading, crate::specs::Reading::whole_reading))]
pub fn read_conf(alloc: Global, bytes: &[u8]) -> Result<Conf, ConfError>
    ensures read { IfOk result (λ c. spec.reading bytes.now ≡ Ok c) }
    ensures whole { IfOk result (λ c. spec.whole_reading bytes.now ≡ Ok c) }
    ensures refused { IfErr result (λ e. spec.IsCause (spec.whole_reading bytes.now) e) }
    ensures bounded { IfOk result (λ c. All (λ (j : Job). IsBounded j.conf) c.jobs) }
    ensures sound { IfOk result (λ c. All IsSound c.jobs) }
{
    let Some(value) = json_of(alloc, bytes)? else {
        return Err(ConfError::Bad(ConfFault::NotJson));
    };
    match conf_fault(alloc, &value)? {
        Some(fault) => Err(ConfError::Bad(fault)),
        None => conf_in(alloc, &value),
    }
}

/// Reads the bytes of the list of a file: groups in JSON, which bear the file's name.
#[tactic(auto, unfolding(crate::specs::Reading::groups_reading))]
pub fn read_groups(alloc: Global, bytes: &[u8], file: &str) -> Result<GroupList, ConfError>
    ensures read { IfOk result (λ g. spec.groups_reading file.now bytes.now ≡ Ok g) }
    ensures refused { IfErr result (λ e. spec.IsCause (spec.groups_reading file.now bytes.now) e) }
    ensures sound { IfOk result (λ g. All HasLabelNames g) }
{
    let Some(value) = json_of(alloc, bytes)? else {
        return Err(ConfError::Bad(ConfFault::NotJson));
    };
    match groups_fault(alloc, &value)? {
        Some(fault) => Err(ConfError::Bad(fault)),
        None => Ok(file_groups_of(alloc, file, &value)?),
    }
}
