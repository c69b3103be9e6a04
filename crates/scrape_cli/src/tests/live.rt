//! A live run over objects in memory: a reload while two fetches are held.
ghost use Rattle.std.specs.Prelude.{◌≡◌, vec_len, IfOk};

use super::objects::{Put, SOUND, made_ready, replayed, run_ready};
use super::{fails, holds, is_number, means_of};
use label_set::{Blob, NoMemory};
use outside::{
    Clock, Fetch, Fetched, FetchedList, MemClock, MemFetch, MemSource, MomentList, Request, Source,
    SourceFault,
};
use scrape_core::Means;
use std::alloc::Global;
use std::marker::Sync;
use std::sync::atomic::{AtomicU64, Ordering};
use std::sync::{Arc, Wait};
use std::test::Fail;
use std::thread::{Threads, yield_now};

/// How often a gate looks before it gives up.
const MOST_LOOKS: u32 = 50_000_000;

/// Two targets, and the same with a limit of one.
pub const TWO: &str =
    r#"{"scrape_configs":[{"job_name":"j","static_configs":[{"targets":["a:1","b:1"]}]}]}"#;

pub const LIMITED: &str =
    r#"{"scrape_configs":[{"job_name":"j","target_limit":1,"static_configs":[{"targets":["a:1","b:1"]}]}]}"#;

/// How far a run is: how many fetches have begun, and how often control was read.
#[derive(Drop)]
struct Stage {
    begun: AtomicU64,
    reads: AtomicU64,
    given_up: AtomicU64,
}

impl Stage {
    /// Waits until so many fetches have begun and control was read so often, or gives up.
    fn hold(&self, begun: u64, reads: u64) {
        for _look in 0..MOST_LOOKS {
            let has_begun = self.begun.load(Ordering::SeqCst) >= begun;
            if has_begun && self.reads.load(Ordering::SeqCst) >= reads {
                return;
            }
            yield_now();
        }
        let _ = self.given_up.fetch_add(1, Ordering::SeqCst);
    }
}

/// A fetcher whose calls are held until two have begun and control was read again after its line.
#[derive(Drop)]
struct HeldFetch {
    inner: MemFetch,
    stage: Arc<Stage, Global>,
}

impl Fetch for HeldFetch {
    ghost use Rattle.outside.specs.Replies.{failing_seen};

    ghost seen = { λ f. failing_seen f.inner };

    fn fetch(&mut self, alloc: Global, request: &Request) -> Result<Fetched, NoMemory> {
        let _ = self.stage.begun.fetch_add(1, Ordering::SeqCst);
        self.stage.hold(2, 2);
        self.inner.fetch(alloc, request)
    }
}

/// A control input whose line is given once two fetches have begun.
#[derive(Drop)]
struct HeldSource {
    inner: MemSource,
    stage: Arc<Stage, Global>,
}

impl Source for HeldSource {
    ghost use Rattle.outside.specs.Inputs.{failing_source_seen};

    ghost seen = { λ s. failing_source_seen s.inner };

    fn read(&mut self, room: &mut [u8]) -> Result<usize, SourceFault> {
        self.stage.hold(2, 0);
        let _ = self.stage.reads.fetch_add(1, Ordering::SeqCst);
        self.inner.read(room)
    }
}

/// A clock whose second wait is held as long as the fetches.
#[derive(Drop)]
struct HeldClock {
    inner: MemClock,
    stage: Arc<Stage, Global>,
    waits: u64,
}

impl Clock for HeldClock {
    ghost use Rattle.std.specs.Prelude.{Some};

    ghost seen = { λ c. record { readings = Some c.inner } };

    fn now(&mut self) -> i64 {
        self.inner.now()
    }

    fn wait_until(&mut self, moment: i64) {
        if self.waits > 0 {
            self.stage.hold(2, 2);
        }
        self.waits = 1;
        self.inner.wait_until(moment);
    }
}

fn held_fetch(alloc: Global, stage: &Arc<Stage, Global>) -> Result<HeldFetch, NoMemory> {
    let items = Vec::new(alloc);
    Ok(HeldFetch {
        inner: MemFetch::new(alloc, FetchedList { items }, fails(alloc, &[])?)?,
        stage: Arc::try_clone(stage)?,
    })
}

fn held_source(alloc: Global, stage: &Arc<Stage, Global>) -> Result<HeldSource, NoMemory> {
    let text = Blob::from_slice(alloc, b"load d.json\n")?;
    Ok(HeldSource {
        inner: MemSource::new(text, fails(alloc, &[])?)?,
        stage: Arc::try_clone(stage)?,
    })
}

fn held_clock(alloc: Global, stage: &Arc<Stage, Global>) -> Result<HeldClock, NoMemory> {
    let items = vec![in alloc; 0, 0, 60_000]?;
    Ok(HeldClock {
        inner: MemClock::new(MomentList { items })?,
        stage: Arc::try_clone(stage)?,
        waits: 0,
    })
}

fn new_stage(alloc: Global) -> Result<Arc<Stage, Global>, NoMemory> {
    let stage = Stage {
        begun: AtomicU64::new(0),
        reads: AtomicU64::new(0),
        given_up: AtomicU64::new(0),
    };
    Ok(Arc::new(alloc, stage)?)
}

fn held_fetches(alloc: Global, stage: &Arc<Stage, Global>) -> Result<Vec<HeldFetch>, NoMemory>
    ensures { IfOk result (λ v. vec_len v ≡ 2) }
{
    let one = held_fetch(alloc, stage)?;
    let other = held_fetch(alloc, stage)?;
    Ok(vec![in alloc; one, other]?)
}

/// A run of two targets and two sweeps, between which a limit of one is loaded.
fn held_run<W: Threads + Wait + Sync>(
    rt: &W,
    means: Means,
    stage: &Arc<Stage, Global>,
) -> Result<Put, Fail> {
    let alloc = means.alloc;
    let fetchers = held_fetches(alloc, stage)?;
    let control = held_source(alloc, stage)?;
    let clock = held_clock(alloc, stage)?;
    let named = [("c.json", TWO), ("d.json", LIMITED)];
    let words = ["run", "--turns", "2", "c.json"];
    let ready = made_ready(alloc, &words, &named, SOUND)?;
    Ok(run_ready(rt, means, ready, control, clock, fetchers))
}

/// What two forced scrapes print, at the second sweep.
const FORCED: &str = r#"60000 0 report up{instance="a:1",job="j"} 0
60000 0 report scrape_duration_seconds{instance="a:1",job="j"} 0.000
60000 0 report scrape_samples_scraped{instance="a:1",job="j"} 0
60000 0 report scrape_samples_post_metric_relabeling{instance="a:1",job="j"} 0
60000 0 report scrape_series_added{instance="a:1",job="j"} 0
60000 1 report up{instance="b:1",job="j"} 0
60000 1 report scrape_duration_seconds{instance="b:1",job="j"} 0.000
60000 1 report scrape_samples_scraped{instance="b:1",job="j"} 0
60000 1 report scrape_samples_post_metric_relabeling{instance="b:1",job="j"} 0
60000 1 report scrape_series_added{instance="b:1",job="j"} 0
"#;

/// Two fetches are in flight at once while a reload cancels both: their finishes are late, and the next sweep forces
/// both scrapes.
#[test]
fn run_with_held_fetches(rt: HostRuntime) -> Result<(), Fail> {
    let means = means_of(&rt)?;
    let stage = new_stage(rt.alloc())?;
    let put = held_run(&rt, means, &stage)?;
    is_number(&rt, put.status as u64, 0, "a held run");
    let given_up = stage.given_up.load(Ordering::SeqCst);
    is_number(&rt, given_up, 0, "gates that gave up");
    holds(&rt, put.err.bytes().is_empty(), "nothing is said");
    holds(&rt, put.out.bytes() == FORCED.as_bytes(), "both are forced");
    let replayed = replayed(&rt, means, put.trail.bytes())?;
    let is_so = replayed.out.bytes() == put.out.bytes();
    holds(&rt, is_so, "the trail replays to that");
    Ok(())
}
