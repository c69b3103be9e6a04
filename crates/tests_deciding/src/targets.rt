//! Targets that groups list: how many are kept, why others are refused, and how many are dropped. Those that are kept,
//! and those of files, the cases show.
mod requests;

ghost use Rattle.std.specs.Prelude.{◌≡◌, ◌<◌};

use crate::shared::{are_bytes, conf_of, job_in};
use label_set::{NoMemory, Steps};
use requests::requests_are_made_of_identities;
use scrape_config::{Job, MOST_TARGETS};
use std::alloc::Global;
use std::marker::Brand;
use std::process::Abort;
use std::sync::ledger::{Blank, Ledger};
use std::test::Fail;
use target_set::{TargetList, listed_within, targets_of};

/// The fields of a job `j`, and what becomes of the targets that it lists.
const ROWS: &[(&str, &str)] = &[
    (
        r#","static_configs":[{"targets":["/","a?","a#","u@a","a\\b",""," ","a[","[","a:99999",":1","[::1]:9","é",
        "é"]}]"#,
        "0 BadAddress; 1 BadAddress; 2 BadAddress; 3 BadAddress; 4 BadAddress; 5 NoAddress; 6 BadUrl; 7 BadUrl; \
        8 BadUrl; 9 BadUrl; 10 BadUrl; kept 2, dropped 0, false",
    ),
    (
        r#","relabel_configs":[{"target_label":"__scheme__","replacement":"ftp"}],
        "static_configs":[{"targets":["a:1","a/b","","a b"]}]"#,
        "0 BadScheme; 1 BadAddress; 2 NoAddress; 3 BadScheme; kept 0, dropped 0, false",
    ),
    (
        r#","relabel_configs":[{"target_label":"__scheme__","replacement":""}],
        "static_configs":[{"targets":["a b"]}]"#,
        "0 BadScheme; kept 0, dropped 0, false",
    ),
    (
        r#","relabel_configs":[{"source_labels":["__address__"],"regex":"a.*","action":"drop"}],
        "static_configs":[{"targets":["a/","b","a","/"]}]"#,
        "3 BadAddress; kept 1, dropped 2, false",
    ),
    (
        r#","target_limit":1,"static_configs":[{"targets":["a","a","/"]}]"#,
        "2 BadAddress; kept 1, dropped 0, false",
    ),
    (
        r#","target_limit":1,"static_configs":[{"targets":["a","b"]}]"#,
        "kept 2, dropped 0, true",
    ),
];

/// What becomes of the targets of the groups of a job, of which there must not be too many.
fn counted<L: Ledger>(alloc: Global, blank: Blank, job: &Job) -> Result<TargetList, NoMemory>
    requires name { blank.name ≡ L.name }
    requires parts { blank.parts ≡ L.parts }
    requires some { 0 < blank.parts }
{
    let Some(_count) = listed_within(&job.conf, &[], MOST_TARGETS) else {
        return Err(NoMemory);
    };
    let mut steps = Steps::<L>::open(blank);
    let groups = job.conf.groups.as_slice();
    targets_of(alloc, &job.conf, &job.target_rules, groups, &mut steps)
}

fn listed(alloc: Global, job: &Job) -> Result<TargetList, NoMemory> {
    counted::<Brand>(alloc, Blank::new(1), job)
}

/// The refused targets, the kept and the dropped ones, and whether these are too many.
fn shown(alloc: Global, list: &TargetList) -> Result<String, NoMemory> {
    let mut text = String::new(alloc);
    for refused in &list.refused.items {
        let shown = format!(in alloc; "{} {:?}; ", refused.place, refused.cause)?;
        text.push_str(shown.as_str())?;
    }
    let kept = list.kept.items.len();
    let shown = format!(in alloc; "kept {kept}, dropped {}, {}", list.dropped, list.over)?;
    text.push_str(shown.as_str())?;
    Ok(text)
}

fn listed_targets_are_told(rt: &impl Abort, alloc: Global) -> Result<(), NoMemory> {
    for &(fields, wanted) in ROWS {
        let conf = conf_of(rt, alloc, fields)?;
        let list = listed(alloc, job_in(rt, &conf))?;
        are_bytes(rt, shown(alloc, &list)?.as_bytes(), wanted.as_bytes());
    }
    Ok(())
}

#[test]
fn targets_are_kept_refused_or_dropped(rt: HostRuntime) -> Result<(), Fail> {
    listed_targets_are_told(&rt, rt.alloc())?;
    requests_are_made_of_identities(&rt, rt.alloc())?;
    Ok(())
}
