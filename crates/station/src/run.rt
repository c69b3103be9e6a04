//! A run: the caller reads control, a ticker sweeps, and a worker for each fetcher scrapes, all over one journal.
ghost use Rattle.std.specs.Prelude.{◌≡◌, ◌≢◌, ◌<◌, ◌≤◌, ◌+◌, ◌^◌, ◌∷◌, [], length, map, true, is_some, vec_len, vec_capacity, All, IfErr, IfOk, IfSome, IsTrue};
ghost use Rattle.std.specs.Thread.{IsSync};
ghost use Rattle.outside.specs.Objects.{used};
ghost use Rattle.run_lock.specs.Callers.{BeginsWith};
ghost use Rattle.run_lock.specs.Entries.{begun_with, seats_in};
ghost use Rattle.run_lock.specs.Seats.{AreFresh, AreOwn, IsOwn};
ghost use Rattle.scrape_core.specs.Records.{IsFresh, IsWhole};
ghost use Rattle.station.specs.Control.{RecordsCaller, caller_use};
ghost use Rattle.station.specs.Crews.{AllFinished, AllRecorded, AllHaveOwn, FirstEnded, HasTicked, IsByCaller, RecordsSweeps, behind_of, behinds_in};
ghost use Rattle.station.specs.Ends as spec;
ghost use Rattle.station.specs.Ends.{ShelfWent, SinkWent, SourceWent, EndsSo};
ghost use Rattle.turn_lock.specs.Passes.{made_of, own_of};

use crate::crew::{Crew, both, work_and_tick};
use crate::ends::{Ran, RunEnd, SeatList};
use crate::sides::{Caller, run_beside, take_back};
use crate::ticker::{Ticked, Ticker};
use label_set::Steps;
use outside::{Clock, Fetch, Shelf, Sink, Source};
use run_lock::{Asked, Mark, RunLock, RunPass, RunState, Seat};
use scrape_core::Core;
use std::alloc::Global;
use std::marker::{Brand, Send, Sync};
use std::sync::Wait;
use std::sync::ledger::{Blank, Ledger};
use std::thread::Threads;
use turn_lock::TurnLock;

/// A run before its loops: its lock, and the passes of its seats.
struct Opened<L: Ledger, B: Asked> {
    lock: RunLock<L, B>,
    caller: RunPass<L, B>,
    ticker: RunPass<L, B>,
    /// Those of the workers, with room for the other two.
    workers: Vec<RunPass<L, B>>,
}

/// Puts the core under a lock with so many seats for workers. Where memory runs out the core comes back, with the marks that there are.
fn open_run<L: Ledger, B: Asked>(
    alloc: Global,
    blank: Blank,
    core: Core,
    turns: u32,
    count: usize,
) -> Result<Opened<L, B>, (Core, SeatList)>
    requires blank { (blank.name ≡ L.name) × (blank.parts ≡ L.parts) × (0 < blank.parts) }
    requires few { (count ≡ B.workers) × (count ≤ 1000) }
    requires turns { turns ≡ B.turns }
    requires start { core ≡ B.start }
    requires fresh { IsFresh core }
    requires length { length core ≤ 2 ^ 39 }
    ensures err { IfErr result (λ e. (e.0 ≡ core) × (length e.1 ≡ length core)) }
    ensures caller { IfOk result (λ o. IsOwn o.lock 0 o.caller × (own_of o.caller ≡ begun_with core)) }
    ensures ticker { IfOk result (λ o. IsOwn o.lock 1 o.ticker × (own_of o.ticker ≡ [])) }
    ensures workers { IfOk result (λ o. AreFresh o.lock 2 o.workers.items) }
    ensures count { IfOk result (λ o. (vec_len o.workers ≡ count) × (made_of o.lock ≡ 2 + count)) }
    ensures room { IfOk result (λ o. vec_len o.workers + 2 ≤ vec_capacity o.workers) }
{
    let steps = Steps::<L>::open(blank);
    let state = match RunState::<L, B>::open(alloc, core, steps, turns, count) {
        Ok(state) => state,
        Err(core) => {
            let seats = SeatList {
                unmarked: core.events(),
                marks: Vec::new(alloc),
            };
            return Err((core, seats));
        }
    };
    let (lock, mut workers) = match TurnLock::new(alloc, state, 2 + count as u32) {
        Ok(made) => made,
        Err(unmade) => {
            let (core, marks) = unmade.value.into_core();
            return Err((core, SeatList { unmarked: 0, marks }));
        }
    };
    let caller = workers.remove(0);
    let ticker = workers.remove(0);
    Ok(Opened {
        lock,
        caller,
        ticker,
        workers,
    })
}

/// All passes, in the order of their numbers.
fn all_passes<L: Ledger, B: Asked>(
    caller: RunPass<L, B>,
    ticker: RunPass<L, B>,
    workers: Vec<RunPass<L, B>>,
) -> Vec<RunPass<L, B>>
    requires room { vec_len workers + 2 ≤ vec_capacity workers }
    ensures { result.items ≡ caller ∷ ticker ∷ workers.items }
{
    let mut passes = workers;
    let Ok(()) = passes.insert(0, ticker) else {
        unreachable!()
    };
    let Ok(()) = passes.insert(0, caller) else {
        unreachable!()
    };
    passes
}

/// The journal of a run whose loops are over, closed where none ran out of memory.
struct Closed {
    whole: bool,
    core: Core,
    marks: Vec<Mark>,
}

/// Closes the journal, where the loops say that they came to their ends and none ran out of memory. All passes come back to the lock.
fn close_run<L: Ledger, B: Asked>(
    lock: RunLock<L, B>,
    came: bool,
    caller: RunPass<L, B>,
    ticker: RunPass<L, B>,
    workers: Vec<RunPass<L, B>>,
) -> Closed
    requires caller { IsOwn lock 0 caller }
    requires ticker { IsOwn lock 1 ticker }
    requires workers { AreOwn lock 2 workers.items }
    requires all { made_of lock ≡ 2 + vec_len workers }
    requires room { vec_len workers + 2 ≤ vec_capacity workers }
    requires came { came ≡ true → FirstEnded workers.items }
    ensures came { result.whole ≡ true → came ≡ true }
    ensures done { result.whole ≡ true → IsWhole result.core }
    ensures seats { length (seats_in result.marks.items) ≡ length result.core }
    ensures begins { BeginsWith B.start result.core }
    ensures caller { result.whole ≡ true → IsByCaller result.core (seats_in result.marks.items) (own_of caller) }
    ensures known { result.whole ≡ true → All (λ q. q < 2 + vec_len workers) (seats_in result.marks.items) }
    ensures ticker { result.whole ≡ true → behind_of 1 0 result.core (seats_in result.marks.items) ≡ behinds_in (own_of ticker) }
    ensures own { result.whole ≡ true → AllHaveOwn result.core (seats_in result.marks.items) 2 workers.items }
{
    let passes = all_passes(caller, ticker, workers);
    let state = lock.close(passes);
    if !came || state.has_failed() {
        let (core, marks) = state.into_core();
        return Closed {
            whole: false,
            core,
            marks,
        };
    }
    let (core, marks) = state.close();
    Closed {
        whole: true,
        core,
        marks,
    }
}

/// The end of a run, by that of the caller's loop.
fn end_of(whole: bool, end: RunEnd) -> RunEnd
    ensures { result ≡ spec.run_end whole end }
{
    if whole { end } else { RunEnd::NoMemory }
}

/// The run, for the names of its steps and of what it was asked for.
fn run_with<
    L: Ledger + Send + Sync,
    B: Asked + Send + Sync,
    W: Threads + Wait + Sync,
    S: Shelf,
    E: Sink,
    C: Source,
    K: Clock + Send,
    F: Fetch + Send,
>(
    rt: &W,
    alloc: Global,
    blank: Blank,
    core: Core,
    turns: u32,
    shelf: &mut S,
    err: &mut E,
    control: C,
    clock: K,
    fetchers: Vec<F>,
) -> Ran<C, K, F>
    requires blank { (blank.name ≡ L.name) × (blank.parts ≡ L.parts) × (0 < blank.parts) }
    requires fetchers { (0 < vec_len fetchers) × (vec_len fetchers ≤ 1000) × (vec_len fetchers ≡ B.workers) }
    requires turns { turns ≡ B.turns }
    requires start { core ≡ B.start }
    requires fresh { IsFresh core }
    requires few { length core ≤ 2 ^ 39 }
    ensures done { result.end ≢ RunEnd.NoMemory → IsWhole result.core }
    ensures seats { length result.seats ≡ length result.core }
    ensures known { result.end ≢ RunEnd.NoMemory → All (λ q. q < 2 + vec_len fetchers) result.seats }
    ensures back { IsTrue (is_some result.control) × IsTrue (is_some result.clock) × (vec_len result.fetchers ≡ vec_len fetchers) }
    ensures workers { result.end ≢ RunEnd.NoMemory → AllRecorded 0 result.core result.seats (map F.seen fetchers.items) (map F.seen result.fetchers.items) }
    ensures sweeps { result.end ≢ RunEnd.NoMemory → IfSome result.clock (λ k. RecordsSweeps turns result.core result.seats (K.seen clock) (K.seen k)) }
    ensures shelf { ShelfWent (used (S.seen shelf.old) (S.seen shelf.new)) }
    ensures err { SinkWent (used (E.seen err.old) (E.seen err.new)) }
    ensures control { IfSome result.control (λ c. SourceWent (used (C.seen control) (C.seen c))) }
    ensures ends { IfSome result.control (λ c. EndsSo result.end (used (S.seen shelf.old) (S.seen shelf.new))
        (used (E.seen err.old) (E.seen err.new)) (used (C.seen control) (C.seen c))) }
    ensures begins { BeginsWith core result.core }
    ensures caller { IfSome result.control (λ c. RecordsCaller core result.end (caller_use (used (S.seen shelf.old) (S.seen shelf.new))
        (used (C.seen control) (C.seen c)) (used (E.seen err.old) (E.seen err.new))) result.core result.seats) }
{
    let Opened {
        lock,
        caller,
        ticker,
        workers,
    } = match open_run::<L, B>(alloc, blank, core, turns, fetchers.len()) {
        Ok(opened) => opened,
        Err((core, seats)) => {
            return Ran {
                end: RunEnd::NoMemory,
                core,
                seats,
                control: Some(control),
                clock: Some(clock),
                fetchers,
            };
        }
    };
    let shared = &lock;
    let ticker = Ticker {
        turns,
        seat: Seat {
            rt,
            alloc,
            lock: shared,
            pass: ticker,
        },
        clock,
    };
    let side = Caller {
        seat: Seat {
            rt,
            alloc,
            lock: shared,
            pass: caller,
        },
        shelf,
        err,
        control,
    };
    let ((crew, ticked), (shelf, err, called)) = run_beside(
        rt,
        move || -> (Crew<L, B, F>, Ticked<L, B, K>)
            requires sync { IsSync W.row }
            requires few { (vec_len fetchers ≤ B.workers) × (vec_len fetchers ≤ 1000) }
            requires len { vec_len workers ≡ vec_len fetchers }
            requires fresh { AreFresh ticker.seat.lock.now 2 workers.items }
            requires turns { ticker.turns ≡ B.turns }
            requires seat { IsOwn ticker.seat.lock.now 1 ticker.seat.pass × (own_of ticker.seat.pass ≡ []) }
            ensures len { vec_len result.0.fetchers ≡ vec_len fetchers }
            ensures passes_len { vec_len result.0.passes ≡ vec_len workers }
            ensures passes_room { vec_capacity result.0.passes ≡ vec_capacity workers }
            ensures own { AreOwn ticker.entry.seat.lock.now 2 result.0.passes.items × IsOwn ticker.entry.seat.lock.now 1 result.1.pass }
            ensures worked { result.0.ended ≡ true → AllFinished 0 (map F.seen fetchers.items) (map F.seen result.0.fetchers.items) result.0.passes.items }
            ensures ticked { result.1.done ≡ true → HasTicked ticker.entry.turns
                (K.seen ticker.entry.clock) (K.seen result.1.clock) (own_of result.1.pass) }
        { work_and_tick(fetchers, workers, ticker) },
        side,
    );
    take_back(shelf);
    take_back(err);
    let came = both(crew.ended, ticked.done);
    let Closed { whole, core, marks } = close_run(
        lock,
        came,
        called.pass,
        ticked.pass,
        crew.passes,
    );
    Ran {
        end: end_of(whole, called.end),
        core,
        seats: SeatList { unmarked: 0, marks },
        control: Some(called.control),
        clock: Some(ticked.clock),
        fetchers: crew.fetchers,
    }
}

/// Runs the loops beside one another until the sweeps are made, control has ended and every started scrape has its finish, and halts the core.
///
/// The caller reads control: a line is `load FILE` or `targets JOB FILE`; the listed files of the configuration in force are read first, and
/// again after each taken load. The ticker makes `turns` sweeps, each at the reading of the clock, or at the last moment where that is later.
/// A worker for each fetcher takes the least ready ticket, fetches without the lock, and brings the finish. What goes wrong with a control line
/// is said on `err`, as a line each.
///
/// There are 1 to 1,000 fetchers and at most 1,000,000 turns; the core has started no scrape, its journal has no finish and no halt, and at most 2^39 events.
///
/// # Errors
///
/// The first fault of the control input, of the shelf or of `err` ends the caller's loop alone, and is the end of the run; so does more than 1 MiB of
/// control input. What the caller did and said by then is a front of what control asks for. Where memory runs out all loops stop, and the core comes back
/// with the events made so far.
pub fn run_station<
    W: Threads + Wait + Sync,
    S: Shelf,
    E: Sink,
    C: Source,
    K: Clock + Send,
    F: Fetch + Send,
>(
    rt: &W,
    alloc: Global,
    core: Core,
    turns: u32,
    shelf: &mut S,
    err: &mut E,
    control: C,
    clock: K,
    fetchers: Vec<F>,
) -> Ran<C, K, F>
    requires fetchers { (0 < vec_len fetchers) × (vec_len fetchers ≤ 1000) }
    requires turns { turns ≤ 1000000 }
    requires fresh { IsFresh core }
    requires few { length core ≤ 2 ^ 39 }
    ensures done { result.end ≢ RunEnd.NoMemory → IsWhole result.core }
    ensures seats { length result.seats ≡ length result.core }
    ensures known { result.end ≢ RunEnd.NoMemory → All (λ q. q < 2 + vec_len fetchers) result.seats }
    ensures back { IsTrue (is_some result.control) × IsTrue (is_some result.clock) × (vec_len result.fetchers ≡ vec_len fetchers) }
    ensures workers { result.end ≢ RunEnd.NoMemory → AllRecorded 0 result.core result.seats (map F.seen fetchers.items) (map F.seen result.fetchers.items) }
    ensures sweeps { result.end ≢ RunEnd.NoMemory → IfSome result.clock (λ k. RecordsSweeps turns result.core result.seats (K.seen clock) (K.seen k)) }
    ensures shelf { ShelfWent (used (S.seen shelf.old) (S.seen shelf.new)) }
    ensures err { SinkWent (used (E.seen err.old) (E.seen err.new)) }
    ensures control { IfSome result.control (λ c. SourceWent (used (C.seen control) (C.seen c))) }
    ensures ends { IfSome result.control (λ c. EndsSo result.end (used (S.seen shelf.old) (S.seen shelf.new))
        (used (E.seen err.old) (E.seen err.new)) (used (C.seen control) (C.seen c))) }
    ensures begins { BeginsWith core result.core }
    ensures caller { IfSome result.control (λ c. RecordsCaller core result.end (caller_use (used (S.seen shelf.old) (S.seen shelf.new))
        (used (C.seen control) (C.seen c)) (used (E.seen err.old) (E.seen err.new))) result.core result.seats) }
{
    run_with::<Brand, Brand, W, S, E, C, K, F>(
        rt,
        alloc,
        Blank::new(1),
        core,
        turns,
        shelf,
        err,
        control,
        clock,
        fetchers,
    )
}
