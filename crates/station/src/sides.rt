//! The caller's own loop as work that is done once, beside what runs in threads of its own.
ghost use Rattle.std.specs.Prelude.{◌≡◌};

use crate::control::take_commands;
use crate::ends::RunEnd;
use outside::{Shelf, Sink, Source};
use run_lock::{Asked, RunPass, Seat};
use std::marker::Send;
use std::sync::Wait;
use std::sync::ledger::Ledger;
use std::thread;
use std::thread::Threads;

/// Work that is done once.
pub trait Side {
    type Output;

    ghost can_run: { Self → Type 0 };

    ghost run_gives: { Self → Self.Output → Type 0 };

    fn run(self) -> Self::Output
        requires { can_run self }
        ensures { run_gives self result };
}

/// Calls a closure in a thread of its own, or last where none can be made, and does the other work in this one.
pub fn run_beside<R: Threads, F: FnOnce() -> A + Send, T: Side<Output = B> + Drop, A: Send, B>(
    rt: &R,
    first: F,
    other: T,
) -> (A, B)
    requires { F.pre first × T.can_run other }
    ensures { F.post first result.0 × T.run_gives other result.1 }
{
    thread::join(
        rt,
        first,
        move || -> B
            requires { T.can_run other }
            ensures { T.run_gives other result }
        { other.run() },
    )
}

/// The caller: its seat, and the objects that it reads and writes.
#[derive(Drop)]
pub struct Caller<'r, 's, 'e, L: Ledger, B: Asked, R, S, E, C> {
    pub seat: Seat<'r, L, B, R>,
    pub shelf: &'s mut S,
    pub err: &'e mut E,
    pub control: C,
}

/// What the caller hands back beside the references that it borrowed.
#[derive(Drop)]
pub struct Called<L: Ledger, B: Asked, C> {
    pub control: C,
    pub pass: RunPass<L, B>,
    pub end: RunEnd,
}

impl<'r, 's, 'e, L: Ledger, B: Asked, R: Wait, S: Shelf, E: Sink, C: Source> Side
    for Caller<'r, 's, 'e, L, B, R, S, E, C> {
    type Output = (&'s mut S, &'e mut E, Called<L, B, C>);

    ghost use Rattle.std.specs.Prelude.{◌≡◌, []};
    ghost use Rattle.outside.specs.Objects.{used};
    ghost use Rattle.run_lock.specs.Seats.{IsOwn};
    ghost use Rattle.station.specs.Control.{CallerDid, caller_use};
    ghost use Rattle.station.specs.Ends.{ShelfWent, SinkWent, SourceWent, EndsSo};
    ghost use Rattle.turn_lock.specs.Passes.{own_of};

    ghost can_run = { λ c. IsOwn c.seat.lock.now 0 c.seat.pass };

    ghost run_gives = { λ c r. (r.0.ghost_name ≡ c.shelf.ghost_name) × (r.1.ghost_name ≡ c.err.ghost_name)
        × ShelfWent (used (S.seen c.shelf.now) (S.seen r.0.now)) × SinkWent (used (E.seen c.err.now) (E.seen r.1.now))
        × SourceWent (used (C.seen c.control) (C.seen r.2.control))
        × EndsSo r.2.end (used (S.seen c.shelf.now) (S.seen r.0.now)) (used (E.seen c.err.now) (E.seen r.1.now)) (used (C.seen c.control) (C.seen r.2.control))
        × IsOwn c.seat.lock.now 0 r.2.pass
        × CallerDid B.start r.2.end (caller_use (used (S.seen c.shelf.now) (S.seen r.0.now)) (used (C.seen c.control) (C.seen r.2.control))
        (used (E.seen c.err.now) (E.seen r.1.now))) (used (own_of c.seat.pass) (own_of r.2.pass)) };

    fn run(self) -> (&'s mut S, &'e mut E, Called<L, B, C>) {
        let Caller {
            mut seat,
            shelf,
            err,
            mut control,
        } = self;
        let end = take_commands(&mut seat, shelf, err, &mut control);
        let called = Called {
            control,
            pass: seat.pass,
            end,
        };
        (shelf, err, called)
    }
}

/// Does nothing, but this use of a reference that came back ties it to the one that was borrowed.
pub fn take_back<T>(x: &mut T)
    ensures { x.new ≡ x.old }
{}
