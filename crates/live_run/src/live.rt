//! A run from the command line: the first load, the loops, and what is written at the end.
ghost use Rattle.std.specs.Prelude.{◌≡◌, ◌≢◌, ◌<◌, ◌≤◌, ◌^◌, map, length, is_some, vec_len, Some, IfSome, IsTrue};
ghost use Rattle.outside.specs.Objects.{used};
ghost use Rattle.live_run.specs.Runs as spec;
ghost use Rattle.live_run.specs.Runs.{outputs, touched, wanted, Ended, IsReadOnce, IsUnbegun};
ghost use Rattle.station.specs.Control.{caller_use};

use crate::asked::{Asked, LiveEnd, Lived};
use crate::first_load::first_load;
use crate::written::write_run;
use book_text::PrintError;
use outside::{Clock, Fetch, Shelf, Sink, Source};
use scrape_core::{Core, Means};
use station::{Ran, RunEnd, run_station};
use std::alloc::Global;
use std::marker::{Send, Sync};
use std::sync::Wait;
use std::thread::Threads;

/// A run that did not begin.
fn unstarted<C, K, F>(end: LiveEnd, control: C, clock: K, fetchers: Vec<F>) -> Lived<C, K, F>
    ensures end { result.end ≡ end }
    ensures control { result.control ≡ Some control }
    ensures clock { result.clock ≡ Some clock }
    ensures fetchers { result.fetchers ≡ fetchers }
{
    Lived {
        end,
        control: Some(control),
        clock: Some(clock),
        fetchers,
    }
}

/// The end of a run whose journal and book are written, by that of its control.
fn written_end(end: RunEnd) -> LiveEnd
    ensures { result ≡ spec.written_end end }
{
    match end {
        RunEnd::Done => LiveEnd::Done,
        RunEnd::ReadFault => LiveEnd::ControlFault,
        RunEnd::TooLong => LiveEnd::ControlLong,
        RunEnd::WriteFault => LiveEnd::WriteFault,
        RunEnd::NoMemory => LiveEnd::NoMemory,
    }
}

/// Writes a run that is over: nothing where memory was wanting, or the error output failed.
fn finish_run<R: Sink, O: Sink>(
    alloc: Global,
    kept: bool,
    end: RunEnd,
    core: &Core,
    trail: &mut R,
    out: &mut O,
) -> LiveEnd
    ensures { spec.Finishes end kept core.now result
        (outputs (used (R.seen trail.old) (R.seen trail.new)) (used (O.seen out.old) (O.seen out.new))) }
{
    match end {
        RunEnd::NoMemory => LiveEnd::NoMemory,
        RunEnd::WriteFault => LiveEnd::WriteFault,
        _ => match write_run(alloc, kept, core, trail, out) {
            Ok(()) => written_end(end),
            Err(PrintError::WriteFault) => LiveEnd::WriteFault,
            Err(PrintError::NoMemory) => LiveEnd::NoMemory,
        },
    }
}

/// Loads the file that was asked for at the clock's reading, runs the loops over it, and writes the text of the run's journal to the trail and
/// the text of its book to the output. There are 1 to 1,000 fetchers, and at most 1,000,000 sweeps.
///
/// # Errors
///
/// Before anything starts: a file that is absent, too long or not read, and a configuration that is refused; control and fetchers then come
/// back as they were, and the clock gave the one reading (`unbegun`). A fault of control or of a file that control names, and too much control
/// input, end the control loop alone: the journal and the book are written all the same. Where the error output fails, or memory runs out, nothing
/// is written of them.
pub fn run_live<
    W: Threads + Wait + Sync,
    S: Shelf,
    O: Sink,
    E: Sink,
    R: Sink,
    C: Source,
    K: Clock + Send,
    F: Fetch + Send,
>(
    rt: &W,
    means: Means,
    asked: Asked<'_>,
    shelf: &mut S,
    out: &mut O,
    err: &mut E,
    trail: &mut R,
    control: C,
    clock: K,
    fetchers: Vec<F>,
) -> Lived<C, K, F>
    requires fetchers { (0 < vec_len fetchers) × (vec_len fetchers ≤ 1000) }
    requires turns { asked.turns ≤ 1000000 }
    ensures back { IsTrue (is_some result.control) × IsTrue (is_some result.clock) × (vec_len result.fetchers ≡ vec_len fetchers) }
    ensures ended { IfSome result.clock (λ k. IfSome result.control (λ c. Ended result.end
        (wanted asked.entry.file.now asked.entry.turns asked.entry.kept)
        (touched (caller_use (used (S.seen shelf.old) (S.seen shelf.new)) (used (C.seen control) (C.seen c)) (used (E.seen err.old) (E.seen err.new)))
        (outputs (used (R.seen trail.old) (R.seen trail.new)) (used (O.seen out.old) (O.seen out.new))) (used (K.seen clock) (K.seen k))
        (used (map F.seen fetchers.items) (map F.seen result.fetchers.items))))) }
    ensures unbegun { IsUnbegun result.end →
        (result.control ≡ Some control) × IfSome result.clock (λ k. IsReadOnce (used (K.seen clock) (K.seen k))) × (result.fetchers ≡ fetchers) }
{
    let mut clock = clock;
    let moment = clock.now();
    let core = match first_load(means, moment, asked.file, shelf) {
        Ok(core) => core,
        Err(end) => return unstarted(end, control, clock, fetchers),
    };
    let ran = run_station(
        rt,
        means.alloc,
        core,
        asked.turns,
        shelf,
        err,
        control,
        clock,
        fetchers,
    );
    let end = finish_run(means.alloc, asked.kept, ran.end, &ran.core, trail, out);
    let Ran {
        end: _,
        core,
        seats: _,
        control,
        clock,
        fetchers,
    } = ran;
    core.let_go();
    Lived {
        end,
        control,
        clock,
        fetchers,
    }
}
