//! What taking an event comes to.
ghost use Rattle.std.specs.Prelude.{◌≡◌};

use scrape_machine::Answer;

/// What taking an event comes to.
#[derive(Drop)]
pub struct Taken {
    /// What the event is answered.
    pub answer: Answer,
    /// How often relabelling rules were run for it.
    pub runs: u64,
}

/// An answer to an event for which no rules were run.
pub fn without_runs(answer: Answer) -> Taken
    ensures answer { result.answer ≡ answer }
    ensures runs { result.runs ≡ 0 }
{
    Taken { answer, runs: 0 }
}
