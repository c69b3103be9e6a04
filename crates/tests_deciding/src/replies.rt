//! What a reply to a scrape comes to by itself. What a life makes of it, and the counts of each fault, the cases show.
ghost use Rattle.std.specs.Prelude.{◌≡◌, ◌<◌};

use crate::conflicts::lines_are_joined;
use crate::reports::reports_are_made;
use crate::shared::{are_bytes, conf_of, job_in, set_of};
use label_set::{Blob, LabelSet, NoMemory, Steps};
use outside::Reply;
use sample_rows::left::is_named;
use sample_rows::{RowRules, Scrape, rows};
use scrape_config::Job;
use scrape_limits::Limits;
use std::alloc::Global;
use std::marker::Brand;
use std::process::Abort;
use std::sync::ledger::{Blank, Ledger};
use std::test::Fail;

/// The rules of a job that drops the series `y`.
const FIELDS: &str =
    r#","metric_relabel_configs":[{"source_labels":["__name__"],"regex":"y","action":"drop"}]"#;

/// At most two samples, and timestamps as they are exposed.
const RULES: RowRules = RowRules {
    honor_labels: false,
    honor_timestamps: true,
    track_timestamps_staleness: false,
    extra_scrape_metrics: false,
    timeout: 10_000,
    limits: Limits {
        sample: 2,
        label: 0,
        name_length: 0,
        value_length: 0,
        body_size: 40,
        target: 0,
    },
};

/// What a reply that took so long comes to, for a target without a metric name.
fn counted<L: Ledger>(
    alloc: Global,
    blank: Blank,
    job: &Job,
    target: &LabelSet,
    reply: &Reply,
    took: i64,
) -> Result<Scrape, NoMemory>
    requires name { blank.name ≡ L.name }
    requires parts { blank.parts ≡ L.parts }
    requires some { 0 < blank.parts }
{
    if is_named(target) {
        return Err(NoMemory);
    }
    let mut steps = Steps::<L>::open(blank);
    rows(
        alloc,
        &RULES,
        &job.metric_rules,
        target,
        reply,
        took,
        &mut steps,
    )
}

fn outcome(alloc: Global, job: &Job, reply: &Reply, took: i64) -> Result<Scrape, NoMemory> {
    let target = set_of(alloc, "job=j")?;
    counted::<Brand>(alloc, Blank::new(1), job, &target, reply, took)
}

/// What a reply comes to under the job, as a text.
fn shown(rt: &impl Abort, alloc: Global, reply: &Reply, took: i64) -> Result<String, NoMemory> {
    let conf = conf_of(rt, alloc, FIELDS)?;
    let text = match outcome(alloc, job_in(rt, &conf), reply, took)? {
        Scrape::Good { rows, scraped } => format!(in alloc; "{} of {scraped}", rows.items.len())?,
        Scrape::Bad {
            fault,
            scraped,
            left,
        } => format!(in alloc; "{fault:?}, {left} of {scraped}")?,
    };
    Ok(text)
}

/// The status and the text of a body, how long its fetch took, and what it comes to.
const BODIES: &[(u16, &str, i64, &str)] = &[
    (200, "x{job=\"a\"} 1 5\ny 2\nz 3\n", 10_000, "2 of 3"),
    (200, "", 0, "0 of 0"),
    (404, "x 1\n", 10_001, "Slow, 0 of 0"),
    (404, "x{ 1\n", 5, "Status(404), 0 of 0"),
    (
        200,
        "# 345678901234567890123456789012345678\nx{",
        5,
        "Size, 0 of 0",
    ),
    (200, "x 1\nx{", 5, "Line(2), 0 of 0"),
    (200, "x 1\ny 2\nz 3\nv 4\n", 5, "Samples, 3 of 4"),
    (200, "{\"a.b\",\"c.d\"=\"x\"} 1\n", 5, "Line(1), 0 of 0"),
];

fn bodies_are_told(rt: &impl Abort, alloc: Global) -> Result<(), NoMemory> {
    for &(status, text, took, wanted) in BODIES {
        let bytes = Blob::from_slice(alloc, text.as_bytes())?;
        let found = shown(rt, alloc, &Reply::Body { status, bytes }, took)?;
        are_bytes(rt, found.as_bytes(), wanted.as_bytes());
    }
    let bytes = Blob::from_slice(alloc, b"{\"a.b\",\"c.d\"=\"x\"} 1\ny 2\n")?;
    let status = 200;
    let found = shown(rt, alloc, &Reply::Quoted { status, bytes }, 10_000)?;
    are_bytes(rt, found.as_bytes(), b"1 of 2");
    Ok(())
}

fn other_replies_are_told(rt: &impl Abort, alloc: Global) -> Result<(), NoMemory> {
    for (reply, wanted) in &[
        (Reply::Lost, "Lost, 0 of 0"),
        (Reply::Garbled, "Garbled, 0 of 0"),
        (Reply::Unsent, "Unsent, 0 of 0"),
        (Reply::Oversize, "Size, 0 of 0"),
    ] {
        let found = shown(rt, alloc, reply, 5)?;
        are_bytes(rt, found.as_bytes(), wanted.as_bytes());
    }
    Ok(())
}

#[test]
fn replies_come_to_samples_or_a_fault(rt: HostRuntime) -> Result<(), Fail> {
    lines_are_joined(&rt, rt.alloc())?;
    bodies_are_told(&rt, rt.alloc())?;
    other_replies_are_told(&rt, rt.alloc())?;
    reports_are_made(&rt, rt.alloc())?;
    Ok(())
}
