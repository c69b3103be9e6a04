//! How a run ends, and what it hands back.
use label_set::NoMemory;
use run_lock::Mark;
use scrape_core::Core;
use std::marker::Model;

/// How a run ended.
#[derive(Clone, Copy, PartialEq, Eq, Debug)]
pub enum RunEnd {
    /// Control was read to its end.
    Done,
    /// Reading control, or a file within the control loop, failed.
    ReadFault,
    /// Writing to the error output failed.
    WriteFault,
    /// Control gave more than 1 MiB.
    TooLong,
    /// An allocation failed.
    NoMemory,
}

/// Why the caller stops with a line.
#[derive(Clone, Copy, PartialEq, Eq, Debug)]
pub enum Stop {
    /// Reading a file failed.
    ReadFault,
    /// Writing to the error output failed.
    WriteFault,
    /// An allocation failed.
    NoMemory,
}

impl From<NoMemory> for Stop {
    ghost use Rattle.std.specs.Prelude.{◌≡◌};
    ghost use Rattle.station.specs.declared.ends.Stop.TheVariants as variants;

    ghost from_gives = { λ _ stop. stop ≡ variants.NoMemory };

    fn from(_: NoMemory) -> Stop {
        Stop::NoMemory
    }
}

/// The seats that brought the events of a journal, in their order.
#[derive(Drop, Debug)]
pub struct SeatList {
    /// How many events came first for whose marks there was no memory: the caller's.
    pub unmarked: u64,
    pub marks: Vec<Mark>,
}

impl Model for SeatList {
    ghost use Rattle.std.specs.Prelude.{ℕ, List, ◌++◌, replicate};
    ghost use Rattle.run_lock.specs.Entries.{seats_in};

    ghost Value = { List ℕ };

    ghost view = { λ l. replicate l.unmarked 0 ++ seats_in l.marks.items };
}

/// What a run hands back. Its core is to be let go by whoever takes it.
pub struct Ran<C, K, F> {
    pub end: RunEnd,
    pub core: Core,
    /// The seat that brought each event of the core's journal: 0 for the caller, 1 for the ticker, 2 and on for the workers.
    pub seats: SeatList,
    pub control: Option<C>,
    pub clock: Option<K>,
    pub fetchers: Vec<F>,
}
