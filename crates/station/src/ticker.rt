//! The loop of the ticker.
ghost use Rattle.std.specs.Prelude.{◌≡◌, [], true};
ghost use Rattle.run_lock.specs.Seats.{IsOwn};
ghost use Rattle.station.specs.Crews.{HasTicked};
ghost use Rattle.turn_lock.specs.Passes.{own_of};

use life_roll::Moment;
use outside::Clock;
use run_lock::{Asked, RunPass, Seat};
use std::sync::Wait;
use std::sync::ledger::Ledger;

/// The ticker: how many sweeps it is to make, its seat, and its clock.
#[derive(Drop)]
pub struct Ticker<'r, L: Ledger, B: Asked, R, K: Clock> {
    pub turns: u32,
    pub seat: Seat<'r, L, B, R>,
    pub clock: K,
}

/// What the ticker hands back.
#[derive(Drop)]
pub struct Ticked<L: Ledger, B: Asked, K: Clock> {
    pub clock: K,
    pub pass: RunPass<L, B>,
    /// Whether it made all sweeps.
    pub done: bool,
}

impl<'r, L: Ledger, B: Asked, R: Wait, K: Clock> Ticker<'r, L, B, R, K> {
    /// Makes the sweeps: waits for a moment, reads the clock once, and sweeps, for each turn; until memory runs out.
    pub fn tick(self) -> Ticked<L, B, K>
        requires turns { self.turns ≡ B.turns }
        requires seat { IsOwn self.seat.lock.now 1 self.seat.pass }
        requires fresh { own_of self.seat.pass ≡ [] }
        ensures seat { IsOwn self.entry.seat.lock.now 1 result.pass }
        ensures ticked { result.done ≡ true → HasTicked self.entry.turns (K.seen self.entry.clock) (K.seen result.clock) (own_of result.pass) }
    {
        let Ticker {
            turns,
            mut seat,
            mut clock,
        } = self;
        for _turn in 0..turns {
            let Some(moment) = seat.plan() else {
                return Ticked {
                    clock,
                    pass: seat.pass,
                    done: false,
                };
            };
            clock.wait_until(moment);
            let reading = Moment::new(clock.now());
            if !seat.sweep(reading) {
                return Ticked {
                    clock,
                    pass: seat.pass,
                    done: false,
                };
            }
        }
        Ticked {
            clock,
            pass: seat.pass,
            done: true,
        }
    }
}
