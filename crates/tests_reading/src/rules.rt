//! Rules that are run once. Those that are kept for many sets, as the program does, the cases show.
ghost use Rattle.std.specs.Prelude.{◌≡◌, ◌<◌};

use crate::shared::holds;
use label_set::sets::LabelError;
use label_set::{LabelSet, NoMemory, Steps};
use relabel::Rules;
use scrape_config::{Conf, read_conf};
use std::alloc::Global;
use std::marker::Brand;
use std::process::Abort;
use std::sync::ledger::{Blank, Ledger};

/// A job with two rules for samples.
const JOB: &[u8] = br#"{"scrape_configs":[{"job_name":"j","metric_relabel_configs":[
    {"source_labels":["a"],"target_label":"b"},{"regex":"a","action":"labeldrop"}]}]}"#;

/// What rules leave of a set.
fn left_counted<L: Ledger>(
    alloc: Global,
    blank: Blank,
    rules: &Rules,
    set: &LabelSet,
) -> Result<Option<LabelSet>, NoMemory>
    requires name { blank.name ≡ L.name }
    requires parts { blank.parts ≡ L.parts }
    requires some { 0 < blank.parts }
{
    let mut steps = Steps::<L>::open(blank);
    rules.process(alloc, set, &mut steps)
}

/// What the rules of the job leave of a set with the label `a`.
fn left_by(alloc: Global, conf: &Conf) -> Result<Option<LabelSet>, LabelError> {
    let set = LabelSet::empty().with(alloc, "a", "x")?;
    match conf.jobs.as_slice().first() {
        Some(job) => Ok(left_counted::<Brand>(alloc, Blank::new(1), &job.metric_rules, &set)?),
        None => Ok(None),
    }
}

pub(crate) fn rules_run_on_a_set(rt: &impl Abort, alloc: Global) -> Result<(), LabelError> {
    let Ok(conf) = read_conf(alloc, JOB) else {
        panic!(rt; "a configuration");
    };
    match left_by(alloc, &conf)? {
        Some(set) => holds(
            rt,
            set.len() == 1 && set.get("b") == Some("x"),
            "what is left",
        ),
        None => panic!(rt; "a set is left"),
    }
    Ok(())
}
