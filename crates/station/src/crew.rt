//! The workers of a run, each in a thread of its own, and the ticker beside them.
ghost use Rattle.std.specs.Prelude.{◌≡◌, ◌&&◌, ◌<◌, ◌≤◌, ◌+◌, [], map, true, vec_len, vec_capacity};
ghost use Rattle.std.specs.Thread.{IsSync};
ghost use Rattle.run_lock.specs.Seats.{AreFresh, AreOwn, IsOwn};
ghost use Rattle.station.specs.Crews.{AllFinished, HasFinished, HasTicked};
ghost use Rattle.turn_lock.specs.Passes.{own_of};

use crate::ticker::{Ticked, Ticker};
use crate::workers::{Worked, Worker};
use outside::{Clock, Fetch};
use run_lock::{Asked, RunLock, RunPass, Seat};
use std::alloc::Global;
use std::marker::{Send, Sync};
use std::sync::Wait;
use std::sync::ledger::Ledger;
use std::thread;
use std::thread::Threads;

/// What the workers hand back: the fetchers and their passes, in their order.
#[derive(Drop)]
pub struct Crew<L: Ledger, B: Asked, F: Fetch> {
    pub fetchers: Vec<F>,
    pub passes: Vec<RunPass<L, B>>,
    /// Whether each of them saw the end of all work.
    pub ended: bool,
}

/// Takes the pass of the last worker, where one fetcher fewer is left.
fn pop_pass<L: Ledger, B: Asked, F>(
    lock: &RunLock<L, B>,
    fetchers: &Vec<F>,
    passes: &mut Vec<RunPass<L, B>>,
) -> RunPass<L, B>
    requires len { vec_len passes.old ≡ vec_len fetchers.now + 1 }
    requires fresh { AreFresh lock.now 2 passes.old.items }
    ensures fresh { AreFresh lock.now 2 passes.new.items }
    ensures own { IsOwn lock.now (2 + vec_len fetchers.now) result }
    ensures none { own_of result ≡ [] }
    ensures len { vec_len passes.new ≡ vec_len fetchers.now }
    ensures room { vec_capacity passes.new ≡ vec_capacity passes.old }
{
    let _ = lock;
    let _ = fetchers;
    let Some(pass) = passes.pop() else {
        unreachable!()
    };
    pass
}

/// Whether both hold.
pub fn both(one: bool, other: bool) -> bool
    ensures { result ≡ (one && other) }
{
    one && other
}

/// Runs each fetcher in a thread of its own.
pub fn work_all<
    L: Ledger + Send + Sync,
    B: Asked + Send + Sync,
    R: Threads + Wait + Sync,
    F: Fetch + Send,
>(
    rt: &R,
    alloc: Global,
    lock: &RunLock<L, B>,
    fetchers: Vec<F>,
    passes: Vec<RunPass<L, B>>,
) -> Crew<L, B, F>
    requires few { (vec_len fetchers ≤ B.workers) × (vec_len fetchers ≤ 1000) }
    requires len { vec_len passes ≡ vec_len fetchers }
    requires fresh { AreFresh lock.now 2 passes.items }
    ensures len { vec_len result.fetchers ≡ vec_len fetchers }
    ensures passes_len { vec_len result.passes ≡ vec_len passes }
    ensures room { vec_capacity result.fetchers ≡ vec_capacity fetchers }
    ensures passes_room { vec_capacity result.passes ≡ vec_capacity passes }
    ensures own { AreOwn lock.now 2 result.passes.items }
    ensures worked { result.ended ≡ true → AllFinished 0 (map F.seen fetchers.items) (map F.seen result.fetchers.items) result.passes.items }
{
    let mut fetchers = fetchers;
    let mut passes = passes;
    let Some(fetcher) = fetchers.pop() else {
        return Crew {
            fetchers,
            passes,
            ended: true,
        };
    };
    let pass = pop_pass(lock, &fetchers, &mut passes);
    let place = fetchers.len();
    let worker = Worker {
        place,
        seat: Seat {
            rt,
            alloc,
            lock,
            pass,
        },
        fetcher,
    };
    let (rest, one) = thread::join(
        rt,
        move || -> Crew<L, B, F>
            requires sync { IsSync R.row }
            requires few { (vec_len fetchers ≤ B.workers) × (vec_len fetchers ≤ 1000) }
            requires len { vec_len passes ≡ vec_len fetchers }
            requires fresh { AreFresh lock.now 2 passes.items }
            ensures worked { result.ended ≡ true → AllFinished 0 (map F.seen fetchers.items) (map F.seen result.fetchers.items) result.passes.items }
            ensures own { AreOwn lock.entry.now 2 result.passes.items }
            ensures len { vec_len result.fetchers ≡ vec_len fetchers }
            ensures passes_len { vec_len result.passes ≡ vec_len passes }
            ensures room { vec_capacity result.fetchers ≡ vec_capacity fetchers }
            ensures passes_room { vec_capacity result.passes ≡ vec_capacity passes }
        { work_all(rt, alloc, lock, fetchers, passes) },
        move || -> Worked<L, B, F>
            requires few { (worker.place < B.workers) × (worker.place < 1000) }
            requires seat { IsOwn worker.seat.lock.now (2 + worker.place) worker.seat.pass }
            requires fresh { own_of worker.seat.pass ≡ [] }
            ensures seat { IsOwn worker.entry.seat.lock.now (2 + worker.entry.place) result.pass }
            ensures worked { result.ended ≡ true → HasFinished worker.entry.place (F.seen worker.entry.fetcher) (F.seen result.fetcher) result.pass }
        { worker.work() },
    );
    let Crew {
        mut fetchers,
        mut passes,
        ended,
    } = rest;
    let Worked {
        fetcher,
        pass,
        ended: here,
    } = one;
    fetchers.push_reserved(fetcher);
    passes.push_reserved(pass);
    Crew {
        fetchers,
        passes,
        ended: both(ended, here),
    }
}

/// The ticker, with a worker for each fetcher beside it. Where no thread can be made the ticker goes first.
pub fn work_and_tick<
    'r,
    L: Ledger + Send + Sync,
    B: Asked + Send + Sync,
    R: Threads + Wait + Sync,
    K: Clock,
    F: Fetch + Send,
>(
    fetchers: Vec<F>,
    passes: Vec<RunPass<L, B>>,
    ticker: Ticker<'r, L, B, R, K>,
) -> (Crew<L, B, F>, Ticked<L, B, K>)
    requires few { (vec_len fetchers ≤ B.workers) × (vec_len fetchers ≤ 1000) }
    requires len { vec_len passes ≡ vec_len fetchers }
    requires fresh { AreFresh ticker.seat.lock.now 2 passes.items }
    requires turns { ticker.turns ≡ B.turns }
    requires seat { IsOwn ticker.seat.lock.now 1 ticker.seat.pass × (own_of ticker.seat.pass ≡ []) }
    ensures len { vec_len result.0.fetchers ≡ vec_len fetchers }
    ensures passes_len { vec_len result.0.passes ≡ vec_len passes }
    ensures passes_room { vec_capacity result.0.passes ≡ vec_capacity passes }
    ensures own { AreOwn ticker.entry.seat.lock.now 2 result.0.passes.items × IsOwn ticker.entry.seat.lock.now 1 result.1.pass }
    ensures worked { result.0.ended ≡ true → AllFinished 0 (map F.seen fetchers.items) (map F.seen result.0.fetchers.items) result.0.passes.items }
    ensures ticked { result.1.done ≡ true → HasTicked ticker.entry.turns (K.seen ticker.entry.clock) (K.seen result.1.clock) (own_of result.1.pass) }
{
    let Seat {
        rt,
        alloc,
        lock,
        pass: _,
    } = &ticker.seat;
    let (rt, alloc, lock) = (*rt, *alloc, *lock);
    thread::join(
        rt,
        move || -> Crew<L, B, F>
            requires sync { IsSync R.row }
            requires few { (vec_len fetchers ≤ B.workers) × (vec_len fetchers ≤ 1000) }
            requires len { vec_len passes ≡ vec_len fetchers }
            requires fresh { AreFresh lock.now 2 passes.items }
            ensures len { vec_len result.fetchers ≡ vec_len fetchers }
            ensures passes_len { vec_len result.passes ≡ vec_len passes }
            ensures passes_room { vec_capacity result.passes ≡ vec_capacity passes }
            ensures own { AreOwn lock.entry.now 2 result.passes.items }
            ensures worked { result.ended ≡ true → AllFinished 0 (map F.seen fetchers.items) (map F.seen result.fetchers.items) result.passes.items }
        { work_all(rt, alloc, lock, fetchers, passes) },
        move || -> Ticked<L, B, K>
            requires turns { ticker.turns ≡ B.turns }
            requires seat { IsOwn ticker.seat.lock.now 1 ticker.seat.pass × (own_of ticker.seat.pass ≡ []) }
            ensures seat { IsOwn ticker.entry.seat.lock.now 1 result.pass }
            ensures ticked { result.done ≡ true → HasTicked ticker.entry.turns
                (K.seen ticker.entry.clock) (K.seen result.clock) (own_of result.pass) }
        { ticker.tick() },
    )
}
