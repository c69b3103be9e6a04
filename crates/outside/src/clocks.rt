//! Clocks: what their calls say, and a clock in memory.
ghost use Rattle.std.specs.Prelude.{◌≡◌, ◌≤◌, ◌<◌, ℕ, List, Option, Some, None, IfSome, Ok, OnOk, IfOk, All};
ghost use Rattle.outside.specs.Clocks.{IsReading, next_reading, later_readings};

use label_set::{ListOf, NoMemory};
use std::collections::VecDeque;
use std::marker::Model;

/// Moments, in milliseconds since 1970.
pub type MomentList = ListOf<i64>;

/// What tells the time.
pub trait Clock: Drop {
    ghost use Rattle.outside.specs.Objects.{used, IsUntouched};
    ghost use Rattle.outside.specs.Clocks.{ClockSeen, IsReading, Reads};

    /// What contracts see of it: its readings from here on, where they are known.
    ghost seen: { Self → ClockSeen };

    /// The moment, in milliseconds since 1970: from 0 to 2^52 - 1.
    fn now(&mut self) -> i64
        ensures limits { IsReading result }
        ensures read { IfSome (seen self.old).readings (λ readings. Reads result readings (seen self.new).readings) };

    /// Waits until a moment has come, and may return early. It uses up no reading.
    fn wait_until(&mut self, moment: i64)
        ensures { IsUntouched (used (seen self.old) (seen self.new)) };
}

/// Takes the next reading of a list, whose last one stays.
fn take_reading(readings: &mut VecDeque<i64>) -> i64
    ensures next { result ≡ next_reading readings.old.items }
    ensures later { readings.new.items ≡ later_readings readings.old.items }
{
    let next = readings.front().copied().unwrap_or(0);
    if readings.len() > 1 {
        let _ = readings.pop_front();
    }
    next
}

/// Readings in memory. Past their end the last comes again, and 0 where there is none.
#[derive(Drop)]
pub struct MemClock {
    readings: VecDeque<i64>,
}

impl Model for MemClock {
    ghost use Rattle.std.specs.Prelude.{List, ℤ, All};
    ghost use Rattle.outside.specs.Clocks.{IsReading};

    ghost Value = { List ℤ };

    ghost view = { λ c. c.readings.items };

    ghost invariant = { λ c. All IsReading c.readings.items };
}

impl MemClock {
    /// A clock of these readings. It takes no memory.
    pub fn new(readings: MomentList) -> Result<MemClock, NoMemory>
        requires { All IsReading readings }
        ensures { result ≡ Ok readings }
    {
        Ok(MemClock {
            readings: VecDeque::from(readings.items),
        })
    }
}

impl Clock for MemClock {
    ghost seen = { λ c. record { readings = Some c } };

    fn now(&mut self) -> i64 {
        take_reading(&mut self.readings)
    }

    fn wait_until(&mut self, _moment: i64) {}
}
