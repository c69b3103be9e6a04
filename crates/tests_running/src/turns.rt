//! Turns at a lock: two threads add to one log, of which one follows the other first.
ghost use Rattle.std.specs.Prelude.{◌≡◌, ◌≤◌, [], IfSome};
ghost use Rattle.std.specs.Vec.{vec_capacity};
ghost use Rattle.turn_lock.specs.Passes.{number_of, made_of, IsIdle, IsPassOf};

use crate::holds;
use std::alloc::Global;
use std::process::Abort;
use std::sync::Wait;
use std::test::Fail;
use std::thread::{Threads, join};
use turn_lock::{Entry, Log, Pass, PassList, TurnLock};

/// How many turns each thread makes.
const TURNS: u64 = 1_000;

/// Adds so many numbers, from 0 on, each in a turn of its own. False where memory ran out.
fn add_all<W: Wait>(
    rt: &W,
    lock: &TurnLock<Log<u64>>,
    pass: Pass<Log<u64>>,
    by: u64,
) -> (Pass<Log<u64>>, bool)
    requires lock { IsPassOf lock.now pass }
    requires idle { IsIdle pass }
    requires by { number_of pass ≡ by }
    ensures lock { IsPassOf lock.now result.0 }
    ensures idle { IsIdle result.0 }
    ensures by { number_of result.0 ≡ by }
{
    let mut pass = pass;
    let mut added = true;
    for item in 0..TURNS {
        added = lock.add(rt, &mut pass, by, item) && added;
    }
    (pass, added)
}

/// Takes turns until the log has so many entries, and rests while none comes.
fn follow<W: Wait>(
    rt: &W,
    lock: &TurnLock<Log<u64>>,
    pass: Pass<Log<u64>>,
    wanted: u64,
) -> Pass<Log<u64>>
    requires lock { IsPassOf lock.now pass }
    requires idle { IsIdle pass }
    ensures lock { IsPassOf lock.now result }
    ensures idle { IsIdle result }
    ensures by { number_of result ≡ number_of pass }
{
    let mut pass = pass;
    for _ in rt.forever() {
        let log = lock.take(rt, &mut pass);
        let found = log.entries.len() as u64;
        lock.give(&mut pass, log);
        if found >= wanted {
            return pass;
        }
        lock.rest(rt, &pass);
    }
    unreachable!()
}

/// A lock over an empty log, with two passes.
struct Opened {
    lock: TurnLock<Log<u64>>,
    passes: PassList<Log<u64>>,
    first: Pass<Log<u64>>,
    second: Pass<Log<u64>>,
}

fn open(alloc: Global) -> Option<Opened>
    ensures own { IfSome result (λ o. IsPassOf o.lock o.first × IsPassOf o.lock o.second) }
    ensures idle { IfSome result (λ o. IsIdle o.first × IsIdle o.second) }
    ensures numbers { IfSome result (λ o. (number_of o.first ≡ 0) × (number_of o.second ≡ 1)) }
    ensures made { IfSome result (λ o. made_of o.lock ≡ 2) }
    ensures room { IfSome result (λ o. (o.passes.items ≡ []) × (2 ≤ vec_capacity o.passes)) }
{
    let empty = Log {
        entries: Vec::new(alloc),
    };
    let (lock, mut passes) = TurnLock::new(alloc, empty, 2).ok()?;
    let Some(second) = passes.pop() else {
        unreachable!()
    };
    let Some(first) = passes.pop() else {
        unreachable!()
    };
    Some(Opened {
        lock,
        passes,
        first,
        second,
    })
}

/// Ends the test where the entries of each thread aren't all its numbers, in their order.
fn are_of_both(rt: &impl Abort, entries: &[Entry<u64>]) {
    holds(rt, entries.len() == 2_000, "2,000 entries");
    let mut next = [0u64, 0u64];
    for entry in entries {
        let by = if entry.by == 0 { 0 } else { 1 };
        holds(rt, entry.by < 2, "the number of a thread");
        holds(rt, entry.item == next[by], "the number of an entry");
        next[by] = next[by].wrapping_add(1);
    }
    holds(rt, next == [TURNS, TURNS], "1,000 of each");
}

/// How many entries of the other thread one waits for before it adds its own.
const SOME: u64 = 100;

#[test]
fn two_threads_take_turns(rt: HostRuntime) -> Result<(), Fail> {
    let Some(opened) = open(rt.alloc()) else {
        return Err(Fail::new("no memory"));
    };
    let Opened {
        lock,
        mut passes,
        first,
        second,
    } = opened;
    let (one, other) = join(
        &rt,
        || -> (Pass<Log<u64>>, bool)
            requires { IsPassOf lock first × IsIdle first × (number_of first ≡ 0) }
            ensures { IsPassOf lock result.0 × IsIdle result.0 × (number_of result.0 ≡ 0) }
        { add_all(&rt, &lock, first, 0) },
        || -> (Pass<Log<u64>>, bool)
            requires { IsPassOf lock second × IsIdle second × (number_of second ≡ 1) }
            ensures { IsPassOf lock result.0 × IsIdle result.0 × (number_of result.0 ≡ 1) }
        { add_all(&rt, &lock, follow(&rt, &lock, second, SOME), 1) },
    );
    passes.push_reserved(one.0);
    passes.push_reserved(other.0);
    let log = lock.close(passes);
    holds(&rt, one.1, "memory of the first");
    holds(&rt, other.1, "memory of the second");
    are_of_both(&rt, log.entries.as_slice());
    Ok(())
}
