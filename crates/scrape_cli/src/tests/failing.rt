//! Each call of each outside object of the program fails in turn: what is left then.
//! docs/TESTED.md tells how many calls these are.
use super::live::{LIMITED, TWO};
use super::objects::{Failing, Object, Put, SOUND, made_ready, replayed, run_ready};
use super::{holds, is_number, means_of};
use label_set::{Blob, NoMemory};
use outside::{MemClock, MemSource, MomentList};
use scrape_core::Means;
use std::alloc::Global;
use std::marker::Sync;
use std::process::Abort;
use std::sync::Wait;
use std::test::Fail;
use std::thread::Threads;

/// More calls than an object gets here.
const MOST_CALLS: u64 = 100;

/// A configuration with a listed file.
const LISTING: &str =
    r#"{"scrape_configs":[{"job_name":"j","file_sd_configs":[{"files":["f.json"]}],
"static_configs":[{"targets":["a:1"]}]}]}"#;

/// Control lines that succeed, and one for each way not to but a file that is too long.
const LINES: &str = "load c.json\nload bad.json\nload no.json\nx\n\
targets j f.json\ntargets k f.json\ntargets j c.json";

const SAID: &str = "control 2: refused NotJson\ncontrol 3: absent\ncontrol 4: not a command\n\
control 6: no job\ncontrol 7: no file\n";

/// A call of the program: its words, its files, and its control lines.
#[derive(Clone, Copy)]
struct Row<'a> {
    words: &'a [&'a str],
    files: &'a [(&'a str, &'a str)],
    lines: &'a str,
}

/// A run with control lines of each kind, and one with a reload of two targets with a limit of one.
const EACH_KIND: Row<'static> = Row {
    words: &["run", "--turns", "3", "c.json"],
    files: &[
        ("c.json", LISTING),
        ("f.json", r#"[{"targets":["c:1"]}]"#),
        ("bad.json", "{"),
    ],
    lines: LINES,
};

const RELOAD: Row<'static> = Row {
    words: &["run", "--turns", "2", "c.json"],
    files: &[("c.json", TWO), ("d.json", LIMITED)],
    lines: "load d.json\n",
};

fn control_of(alloc: Global, lines: &str, failing: Failing) -> Result<MemSource, NoMemory> {
    let lines = Blob::from_slice(alloc, lines.as_bytes())?;
    MemSource::new(lines, failing.of(alloc, Object::Control)?)
}

fn clock_of(alloc: Global) -> Result<MemClock, NoMemory> {
    let items = vec![in alloc; 0, 0, 60_000, 120_000]?;
    MemClock::new(MomentList { items })
}

/// Makes a call of which an object fails.
fn call_failing<W: Threads + Wait + Sync>(
    rt: &W,
    means: Means,
    row: Row<'_>,
    failing: Failing,
) -> Result<Put, Fail> {
    let fetchers = failing.fetchers(means.alloc)?;
    let control = control_of(means.alloc, row.lines, failing)?;
    let clock = clock_of(means.alloc)?;
    let ready = made_ready(means.alloc, row.words, row.files, failing)?;
    Ok(run_ready(rt, means, ready, control, clock, fetchers))
}

/// What is printed is all, or where a put failed a front of it.
fn is_front(rt: &impl Abort, put: &Put, all: &[u8]) {
    let out = put.out.bytes();
    holds(rt, all.starts_with(out), "a front");
    holds(rt, put.status == 7 || all.len() == out.len(), "all of it");
}

/// A run prints what its trail replays to, another command what it prints where nothing fails.
fn is_printed(rt: &impl Abort, means: Means, put: &Put, all: Option<&[u8]>) -> Result<(), Fail> {
    if let Some(all) = all {
        is_front(rt, put, all);
        return Ok(());
    }
    let replayed = replayed(rt, means, put.trail.bytes())?;
    is_front(rt, put, replayed.out.bytes());
    Ok(())
}

/// How a call ends of which an object failed.
fn has_its_status(rt: &impl Abort, object: Object, put: &Put) {
    let (status, said) = match object {
        Object::Shelf | Object::Control => (6, b"scrape: read fault\n".as_slice()),
        _ => (7, b"scrape: write fault\n".as_slice()),
    };
    is_number(rt, put.status as u64, status, "a status");
    let is_said = put.err.bytes().ends_with(said);
    holds(rt, is_said || object == Object::Err, "the message");
}

/// What is left of a call of which an object failed. One that was refused at its start, and one of which `err` or the
/// trail failed, have written nothing; one of which control or a later file couldn't be read has written both texts.
fn is_left(
    rt: &impl Abort,
    means: Means,
    failing: Failing,
    put: &Put,
    all: Option<&[u8]>,
) -> Result<(), Fail> {
    has_its_status(rt, failing.object, put);
    match failing.object {
        Object::Out | Object::Control => is_printed(rt, means, put, all),
        Object::Shelf if failing.call > 0 => is_printed(rt, means, put, all),
        _ => {
            holds(rt, put.trail.bytes().is_empty(), "no trail");
            holds(rt, put.out.bytes().is_empty(), "no output");
            Ok(())
        }
    }
}

/// Fails each call of an object in turn, until a call of the program meets no failure; tells how many failed. Each next
/// put that fails leaves a longer front.
fn count_failing<W: Threads + Wait + Sync + Abort>(
    rt: &W,
    means: Means,
    row: Row<'_>,
    object: Object,
    all: Option<&[u8]>,
) -> Result<u64, Fail> {
    let mut front = 0;
    for call in 0..MOST_CALLS {
        let failing = Failing { object, call };
        let put = call_failing(rt, means, row, failing)?;
        if put.status == 0 {
            is_printed(rt, means, &put, all)?;
            return Ok(call);
        }
        is_left(rt, means, failing, &put, all)?;
        let count = put.out.bytes().len();
        let is_longer = object != Object::Out || call == 0 || front < count;
        holds(rt, is_longer, "a longer front");
        front = count;
    }
    Ok(MOST_CALLS)
}

/// Of each object of a call so many calls are to fail.
fn calls_fail<W: Threads + Wait + Sync + Abort>(
    rt: &W,
    means: Means,
    row: Row<'_>,
    counts: [(Object, u64); 5],
    all: Option<&[u8]>,
) -> Result<(), Fail> {
    for (object, count) in counts {
        let failed = count_failing(rt, means, row, object, all)?;
        is_number(rt, failed, count, "calls that fail");
    }
    Ok(())
}

/// How many calls of the shelf, of `out`, of `err`, of the trail and of control there are.
fn counts(shelf: u64, out: u64, err: u64, trail: u64, control: u64) -> [(Object, u64); 5] {
    [
        (Object::Shelf, shelf),
        (Object::Out, out),
        (Object::Err, err),
        (Object::Trail, trail),
        (Object::Control, control),
    ]
}

/// What is said of control lines.
fn lines_are_told<W: Threads + Wait + Sync + Abort>(rt: &W, means: Means) -> Result<(), Fail> {
    let put = call_failing(rt, means, EACH_KIND, SOUND)?;
    holds(rt, put.err.bytes() == SAID.as_bytes(), "what is said");
    Ok(())
}

/// A fetch that fails is a lost scrape, and the run goes on.
fn fetches_fail<W: Threads + Wait + Sync + Abort>(rt: &W, means: Means) -> Result<(), Fail> {
    for call in 0..4 {
        let object = Object::Fetch;
        let put = call_failing(rt, means, RELOAD, Failing { object, call })?;
        is_number(rt, put.status as u64, 0, "a lost scrape");
        is_printed(rt, means, &put, None)?;
    }
    Ok(())
}

#[test]
fn each_call_of_a_run_fails_in_turn(rt: HostRuntime) -> Result<(), Fail> {
    let means = means_of(&rt)?;
    lines_are_told(&rt, means)?;
    calls_fail(&rt, means, EACH_KIND, counts(9, 1, 5, 1, 2), None)?;
    calls_fail(&rt, means, RELOAD, counts(2, 1, 0, 1, 2), None)?;
    fetches_fail(&rt, means)
}

/// A put of the message fails: the status stays, and a front of the message is there.
fn message_fails<W: Threads + Wait + Sync + Abort>(
    rt: &W,
    means: Means,
    none: Row<'_>,
) -> Result<(), Fail> {
    for call in 0..4 {
        let object = Object::Err;
        let put = call_failing(rt, means, none, Failing { object, call })?;
        is_number(rt, put.status as u64, 3, "no file");
        let is_so = b"scrape: absent none\n"
            .as_slice()
            .starts_with(put.err.bytes());
        holds(rt, is_so, "a front of the message");
    }
    Ok(())
}

/// The read and each put of a command fail. Where nothing is wrong there is no message; trail and control are never
/// touched.
fn command_fails<W: Threads + Wait + Sync + Abort>(
    rt: &W,
    means: Means,
    row: Row<'_>,
    puts: u64,
) -> Result<(), Fail> {
    let sound = call_failing(rt, means, row, SOUND)?;
    holds(rt, sound.err.bytes().is_empty(), "no message");
    let all = Some(sound.out.bytes());
    calls_fail(rt, means, row, counts(1, puts, 0, 0, 0), all)
}

/// A script with one scrape.
const SCRIPT: &str = r#"scrape-journal 1
load 0 76
{"scrape_configs":[{"job_name":"j","static_configs":[{"targets":["a:1"]}]}]}
sweep 0
body 15 0 200 8
x 1
y 2

"#;

/// Commands, each of which makes one put; and one that names no file.
const REPLAY: Row<'static> = Row {
    words: &["replay", "s"],
    files: &[("s", SCRIPT)],
    lines: "",
};

const AT: Row<'static> = Row {
    words: &["at", "0", "x", "s"],
    files: &[("s", SCRIPT)],
    lines: "",
};

const CHECK: Row<'static> = Row {
    words: &["check", "s"],
    files: &[("s", "{}")],
    lines: "",
};

const NO_FILE: Row<'static> = Row {
    words: &["replay", "none"],
    files: &[],
    lines: "",
};

#[test]
fn each_call_of_a_command_fails_in_turn(rt: HostRuntime) -> Result<(), Fail> {
    let means = means_of(&rt)?;
    command_fails(&rt, means, REPLAY, 1)?;
    command_fails(&rt, means, AT, 1)?;
    command_fails(&rt, means, CHECK, 1)?;
    message_fails(&rt, means, NO_FILE)
}
