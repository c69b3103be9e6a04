//! Configurations at their limits, and why a list of a file is refused. A fault of each kind and field, and what the
//! settings do, the cases show.

use crate::control::lines_are_commands;
use crate::shared::are_bytes;
use control_lines::faults::push_fault;
use label_set::NoMemory;
use scrape_config::{ConfError, read_conf, read_groups};
use std::alloc::{AllocError, Global};
use std::process::Abort;
use std::test::Fail;

/// What is said of a text: `ok` with how many jobs or groups it has, or its fault.
fn said(alloc: Global, read: Result<usize, ConfError>) -> Result<String, NoMemory> {
    let mut text = String::new(alloc);
    match read {
        Ok(count) => text.push_str(format!(in alloc; "ok {count}")?.as_str())?,
        Err(ConfError::Bad(fault)) => push_fault(&mut text, &fault)?,
        Err(ConfError::NoMemory) => return Err(NoMemory),
    }
    Ok(text)
}

/// A configuration with something that stands in it many times: what stands before it, what it is, with `%` for its
/// number, and what stands behind the last.
type Repeated = (&'static str, &'static str, &'static str);

/// Jobs, and one more.
const JOBS: Repeated = (
    r#"{"scrape_configs":["#,
    r#"{"job_name":"%"},"#,
    r#"{"job_name":"j"}]}"#,
);

/// Files, and the first of them once more in a second list.
const FILES: Repeated = (
    r#"{"scrape_configs":[{"job_name":"j","file_sd_configs":[{"files":["#,
    r#""f%","#,
    r#""f0"]},{"files":["f0"]}]}]}"#,
);

/// Targets, and one more in a second group.
const TARGETS: Repeated = (
    r#"{"scrape_configs":[{"job_name":"j","static_configs":[{"targets":["#,
    r#""t%","#,
    r#"""]},{"targets":["t"]}]}]}"#,
);

/// The letters of a name.
const NAME: Repeated = (r#"{"scrape_configs":[{"job_name":""#, "n", r#""}]}"#);

/// Adds an item with its number.
fn push_item(
    alloc: Global,
    text: &mut String,
    item: &str,
    number: usize,
) -> Result<(), AllocError> {
    match item.split_once('%') {
        Some((before, behind)) => {
            text.push_str(before)?;
            text.push_str(number.to_string(alloc)?.as_str())?;
            text.push_str(behind)
        }
        None => text.push_str(item),
    }
}

fn repeated(
    alloc: Global,
    (before, item, behind): Repeated,
    count: usize,
) -> Result<String, AllocError> {
    let mut text = String::from_str(alloc, before)?;
    for number in 0..count {
        push_item(alloc, &mut text, item, number)?;
    }
    text.push_str(behind)?;
    Ok(text)
}

/// What stands in a configuration, how often, and what is said.
const LIMITS: &[(Repeated, usize, &str)] = &[
    (JOBS, 999, "ok 1000"),
    (JOBS, 1000, "TooMany /scrape_configs 1000"),
    (FILES, 100, "ok 1"),
    (FILES, 101, "TooMany /scrape_configs/0/file_sd_configs 100"),
    (TARGETS, 9998, "ok 1"),
    (
        TARGETS,
        9999,
        "TooMany /scrape_configs/0/static_configs 10000",
    ),
    (NAME, 4096, "ok 1"),
    (NAME, 4097, "Value /scrape_configs/0/job_name"),
];

fn configurations_have_limits(rt: &impl Abort, alloc: Global) -> Result<(), NoMemory> {
    for &(parts, count, wanted) in LIMITS {
        let conf = repeated(alloc, parts, count)?;
        let read = read_conf(alloc, conf.as_str().as_bytes());
        let count = read.map(|conf| conf.jobs.as_slice().len());
        are_bytes(rt, said(alloc, count)?.as_bytes(), wanted.as_bytes());
    }
    Ok(())
}

/// Lists of files, and what is said of them.
const LISTS: &[(&str, &str)] = &[
    (r#"[{"targets":["a:1"],"labels":{"env":"p"}},{}]"#, "ok 2"),
    ("{}", "Shape "),
    ("[1]", "Shape /0"),
    (r#"[{},{"targets":["a",1]}]"#, "Shape /1/targets/1"),
    (r#"[{"x":1}]"#, "Unknown /0/x"),
    (r#"[{"labels":{"":"x"}}]"#, "Value /0/labels"),
    ("x", "NotJson"),
];

fn lists_of_files_are_read(rt: &impl Abort, alloc: Global) -> Result<(), NoMemory> {
    for &(list, wanted) in LISTS {
        let count = read_groups(alloc, list.as_bytes(), "f.json").map(|groups| groups
            .as_slice()
            .len());
        are_bytes(rt, said(alloc, count)?.as_bytes(), wanted.as_bytes());
    }
    Ok(())
}

#[test]
fn configurations_and_lists_are_read_or_refused(rt: HostRuntime) -> Result<(), Fail> {
    configurations_have_limits(&rt, rt.alloc())?;
    lists_of_files_are_read(&rt, rt.alloc())?;
    lines_are_commands(&rt, rt.alloc())?;
    Ok(())
}
