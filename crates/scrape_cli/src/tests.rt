//! What text can't show: outside objects that fail at a call, fetches that are held, and what a status server answers.
//! All else is a case in `crates/scrape_cases`, or a script in `checks`.
mod answers;
mod cases;
mod failing;
mod live;
mod objects;

use crate::tool::tool_still;
use label_set::{Blob, Name, NoMemory};
use outside::{CallList, FileList, MemSink, StoredFile, SureShelf, SureSink, SureSource};
use scrape_core::{Core, Means};
use std::alloc::Global;
use std::hash::{BuildHasher, Hasher, RandomState};
use std::process::Abort;
use std::test::Fail;

/// More room than any text here needs.
const ROOM: usize = 1 << 20;

/// What a run of the program left.
#[derive(Drop)]
struct Ran {
    status: u8,
    out: MemSink,
    err: MemSink,
}

/// What the program has of the machine that a test runs on.
fn means_of(rt: &HostRuntime) -> Result<Means, Fail> {
    Ok(Means {
        alloc: rt.alloc(),
        seed: RandomState::new(rt)?,
    })
}

fn words_of(alloc: Global, words: &[&str]) -> Result<Vec<String>, Fail> {
    let mut list = Vec::new(alloc);
    for word in words {
        list.push(String::from_str(alloc, word)?)?;
    }
    Ok(list)
}

fn stored(alloc: Global, name: &str, text: &[u8]) -> Result<StoredFile, NoMemory> {
    Ok(StoredFile {
        name: Name::from_str(alloc, name)?,
        bytes: Blob::from_slice(alloc, text)?,
    })
}

/// Files with their names.
fn files_of(alloc: Global, files: &[(&str, &str)]) -> Result<FileList, NoMemory> {
    let mut items = Vec::new(alloc);
    for &(name, text) in files {
        items.push(stored(alloc, name, text.as_bytes())?)?;
    }
    Ok(FileList { items })
}

/// The numbers of calls that are to fail.
fn fails(alloc: Global, calls: &[u64]) -> Result<CallList, NoMemory> {
    let mut items = Vec::new(alloc);
    items.extend_from_slice(calls)?;
    Ok(CallList { items })
}

/// Runs a command that makes no run, which leaves its trail and control alone, over a shelf.
fn run_to(
    means: Means,
    words: &[String],
    shelf: &mut SureShelf,
    out: &mut MemSink,
    err: &mut MemSink,
) -> Result<u8, NoMemory> {
    let mut trail = SureSink::new()?;
    let mut control = SureSource::new(Blob::from_slice(means.alloc, b"")?)?;
    Ok(tool_still(means, words, shelf, out, err, &mut trail, &mut control))
}

/// Runs it with outputs that take all.
fn run_over(means: Means, words: &[String], shelf: &mut SureShelf) -> Result<Ran, NoMemory> {
    let mut out = MemSink::new(means.alloc, ROOM, fails(means.alloc, &[])?)?;
    let mut err = MemSink::new(means.alloc, ROOM, fails(means.alloc, &[])?)?;
    let status = run_to(means, words, shelf, &mut out, &mut err)?;
    Ok(Ran { status, out, err })
}

/// Ends the test where something doesn't hold, with what was looked at.
fn holds(rt: &impl Abort, is_so: bool, what: &str) {
    assert!(rt; is_so, "wrong at [{what}]");
}

/// Ends the test where a number, as a status, is not the one that is wanted.
fn is_number(rt: &impl Abort, found: u64, wanted: u64, what: &str) {
    assert!(rt; found == wanted, "{found} in place of {wanted} at [{what}]");
}

/// What the hashes of a core's book begin with. The core is let go.
fn first_hash(core: Core) -> u64 {
    let hash = core.book().hasher().finish();
    core.let_go();
    hash
}

#[test]
fn a_core_hashes_with_its_seed(rt: HostRuntime) -> Result<(), Fail> {
    let seed = RandomState::new(&rt)?;
    let first = seed.build_hasher().finish();
    let seeded = first_hash(Core::seeded(rt.alloc(), seed)?);
    holds(&rt, seeded == first, "with a seed");
    let plain = first_hash(Core::new(rt.alloc())?);
    holds(&rt, plain != first, "without a seed");
    Ok(())
}
