//! What the program is run over: objects in memory, of which one may fail at a call.
ghost use Rattle.std.specs.Prelude.{◌≡◌, vec_len, IfOk};

use super::{ROOM, Ran, fails, files_of, is_number, run_over, stored, words_of};
use crate::tool::{Finished, tool};
use label_set::NoMemory;
use outside::{
    CallList, Clock, Fetch, FetchedList, FileList, MemFetch, MemShelf, MemSink, Source, SureShelf,
};
use scrape_core::Means;
use std::alloc::Global;
use std::marker::{Send, Sync};
use std::process::Abort;
use std::sync::Wait;
use std::test::Fail;
use std::thread::Threads;

/// The outside objects whose calls can fail.
#[derive(Clone, Copy, PartialEq, Eq)]
pub enum Object {
    Shelf,
    Out,
    Err,
    Trail,
    Control,
    Fetch,
}

/// The call that fails: of which object, and its number.
#[derive(Clone, Copy)]
pub struct Failing {
    pub object: Object,
    pub call: u64,
}

impl Failing {
    /// The calls of an object that fail.
    pub fn of(&self, alloc: Global, object: Object) -> Result<CallList, NoMemory> {
        if object == self.object {
            fails(alloc, &[self.call])
        } else {
            fails(alloc, &[])
        }
    }

    pub fn sink(&self, alloc: Global, object: Object) -> Result<MemSink, NoMemory> {
        MemSink::new(alloc, ROOM, self.of(alloc, object)?)
    }

    fn fetcher(&self, alloc: Global) -> Result<MemFetch, NoMemory> {
        let items = Vec::new(alloc);
        MemFetch::new(alloc, FetchedList { items }, self.of(alloc, Object::Fetch)?)
    }

    pub fn fetchers(&self, alloc: Global) -> Result<Vec<MemFetch>, NoMemory>
        ensures { IfOk result (λ v. vec_len v ≡ 2) }
    {
        let one = self.fetcher(alloc)?;
        let other = self.fetcher(alloc)?;
        Ok(vec![in alloc; one, other]?)
    }
}

/// No call fails.
pub const SOUND: Failing = Failing {
    object: Object::Fetch,
    call: u64::MAX,
};

/// What a run put to its outputs.
#[derive(Drop)]
pub struct Put {
    pub status: u8,
    pub out: MemSink,
    pub err: MemSink,
    pub trail: MemSink,
}

fn outputs_of(alloc: Global, failing: Failing) -> Result<Put, NoMemory> {
    let out = failing.sink(alloc, Object::Out)?;
    let err = failing.sink(alloc, Object::Err)?;
    let trail = failing.sink(alloc, Object::Trail)?;
    Ok(Put {
        status: 0,
        out,
        err,
        trail,
    })
}

/// What a run begins with: its words, its files, and what it puts to.
#[derive(Drop)]
pub struct Ready {
    words: Vec<String>,
    shelf: MemShelf,
    put: Put,
}

/// Makes ready for a call of the program.
pub fn made_ready(
    alloc: Global,
    words: &[&str],
    files: &[(&str, &str)],
    failing: Failing,
) -> Result<Ready, Fail> {
    let put = outputs_of(alloc, failing)?;
    let shelf = MemShelf::new(files_of(alloc, files)?, failing.of(alloc, Object::Shelf)?)?;
    Ok(Ready {
        words: words_of(alloc, words)?,
        shelf,
        put,
    })
}

/// Runs what was made ready.
pub fn run_ready<W: Threads + Wait + Sync, C: Source, K: Clock + Send, F: Fetch + Send>(
    rt: &W,
    means: Means,
    ready: Ready,
    control: C,
    clock: K,
    fetchers: Vec<F>,
) -> Put
    requires { vec_len fetchers ≡ 2 }
{
    let Ready {
        words,
        mut shelf,
        mut put,
    } = ready;
    let Finished { status, .. } = tool(
        rt,
        means,
        words.as_slice(),
        &mut shelf,
        &mut put.out,
        &mut put.err,
        &mut put.trail,
        control,
        clock,
        fetchers,
    );
    put.status = status;
    put
}

/// Replays a trail, and asks that this goes well.
pub fn replayed(rt: &impl Abort, means: Means, trail: &[u8]) -> Result<Ran, Fail> {
    let words = words_of(means.alloc, &["replay", "s"])?;
    let items = vec![in means.alloc; stored(means.alloc, "s", trail)?]?;
    let mut shelf = SureShelf::new(FileList { items })?;
    let ran = run_over(means, words.as_slice(), &mut shelf)?;
    is_number(rt, ran.status as u64, 0, "the replay of a trail");
    Ok(ran)
}
