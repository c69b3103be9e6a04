//! The loop of a worker.
ghost use Rattle.std.specs.Prelude.{◌≡◌, ◌<◌, ◌+◌, [], true, false};
ghost use Rattle.outside.specs.Fetches.{FetchSeen};
ghost use Rattle.run_lock.specs.Seats.{IsOwn};
ghost use Rattle.station.specs.Crews.{HasFinished};
ghost use Rattle.turn_lock.specs.Passes.{own_of, seen_by};

use outside::Fetch;
use run_lock::{Asked, RunPass, Seat, WorkerTask};
use std::sync::Wait;
use std::sync::ledger::Ledger;

/// A worker: its place among the workers, its seat, and what fetches for it.
#[derive(Drop)]
pub struct Worker<'r, L: Ledger, B: Asked, R, F: Fetch> {
    pub place: usize,
    pub seat: Seat<'r, L, B, R>,
    pub fetcher: F,
}

/// What a worker hands back.
#[derive(Drop)]
pub struct Worked<L: Ledger, B: Asked, F: Fetch> {
    pub fetcher: F,
    pub pass: RunPass<L, B>,
    /// Whether it saw the end of all work.
    pub ended: bool,
}

/// A worker that stopped where memory ran out.
fn stopped<L: Ledger, B: Asked, F: Fetch>(fetcher: F, pass: RunPass<L, B>) -> Worked<L, B, F>
    ensures ended { result.ended ≡ false }
    ensures pass { result.pass ≡ pass }
{
    Worked {
        fetcher,
        pass,
        ended: false,
    }
}

impl<'r, L: Ledger, B: Asked, R: Wait, F: Fetch> Worker<'r, L, B, R, F> {
    /// Takes ready tickets, fetches without a turn, and brings what came back, until the end of all work or until memory runs out.
    pub fn work(self) -> Worked<L, B, F>
        requires few { (self.place < B.workers) × (self.place < 1000) }
        requires seat { IsOwn self.seat.lock.now (2 + self.place) self.seat.pass }
        requires fresh { own_of self.seat.pass ≡ [] }
        ensures seat { IsOwn self.entry.seat.lock.now (2 + self.entry.place) result.pass }
        ensures worked { result.ended ≡ true → HasFinished self.entry.place (F.seen self.entry.fetcher) (F.seen result.fetcher) result.pass }
    {
        let Worker {
            place,
            mut seat,
            mut fetcher,
        } = self;
        let rt = seat.rt;
        for _ in rt.forever() {
            match seat.next_task(place) {
                WorkerTask::Fetch { ticket, request } => {
                    let Ok(fetched) = fetcher.fetch(seat.alloc, &request) else {
                        seat.fail(2 + place as u32);
                        return stopped(fetcher, seat.pass);
                    };
                    if !seat.bring(place, ticket, fetched) {
                        return stopped(fetcher, seat.pass);
                    }
                }
                WorkerTask::Wait => {}
                WorkerTask::End => {
                    return Worked {
                        fetcher,
                        pass: seat.pass,
                        ended: true,
                    };
                }
                WorkerTask::Fail => return stopped(fetcher, seat.pass),
            }
        }
        unreachable!()
    }
}
