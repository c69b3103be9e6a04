//! The calls that take an event and say, beside what `take` says of it, what that means for a dashboard.
//!
//! What these calls add is one record of the laws of `scrape_laws`, which hold of every journal (`laws`: `specs/Laws.antt`). Each relabelling run
//! takes one step (`steps`).
//!
//! Who calls one of them pays for reading all that in its proof, so the crates above call `take` and `take_read`.
ghost use Rattle.std.specs.Prelude.{◌≡◌, ◌+◌, ◌≤◌, ℕ, List, ◌++◌, [], ◌∷◌, IfOk, OnOk, OnErr};
ghost use Rattle.journal_text.specs.declared.events.Event.{Event};
ghost use Rattle.journal_text.specs.Events.{IsInLimits, MayFollow, now_of};
ghost use Rattle.scrape_machine.specs.Machine as spec;
ghost use Rattle.scrape_machine.specs.Runs as relabelling;
ghost use Rattle.scrape_core.specs.Laws.{StepLaws};
ghost use Rattle.scrape_core.specs.ReadEvents.{finish_with};

use super::Core;
use expo_reader::ReadBody;
use journal_text::Event;
use label_set::{NoMemory, Steps};
use scrape_laws::laws::{
    closed_runs, late, lives_apart, markers, nothing, past, reloads, report_markers, undisturbed,
};
use scrape_loop::ReadReply;
use scrape_machine::Answer;
use std::alloc::Global;
use std::sync::ledger::Ledger;

/// What the laws say of each step.
fn step_laws()
    ensures { (before : List Event) (e : Event) (after : List Event) → StepLaws before e after }
{
    markers();
    closed_runs();
    report_markers();
    late();
    past();
    nothing();
    undisturbed();
    lives_apart();
    reloads();
}

impl Core {
    /// Takes an event: the answer is the defined one after the journal, which then ends with the event, and the book is that of the new journal.
    /// Where memory runs out, the event is dropped and the core is as before.
    /// The moment is at least `now`, and the event keeps the limits of a journal's events.
    pub fn step<L: Ledger>(
        &mut self,
        alloc: Global,
        event: Event,
        steps: &mut Steps<L>,
    ) -> Result<Answer, NoMemory>
        requires limits { IsInLimits event }
        requires order { MayFollow (now_of self.old) event }
        ensures answer { IfOk result (λ a. a ≡ spec.answer (spec.world_of self.old) event) }
        ensures joined { OnOk result (self.new ≡ self.old ++ event ∷ []) }
        ensures err { OnErr result (self.new ≡ self.old) }
        ensures laws { StepLaws self.old event self.new }
        ensures steps { OnOk result (steps.new ≡ steps.old + relabelling.runs (spec.world_of self.old) event) }
        ensures at_least { steps.old ≤ steps.new }
        ensures at_most { steps.new ≤ steps.old + relabelling.runs (spec.world_of self.old) event }
    {
        step_laws();
        self.take(alloc, event, steps)
    }

    /// Takes the finish of a ticket after so many milliseconds, by a reply with this status whose body is read already,
    /// in its form, as `step` takes it: with the same answer, journal and book, without reading the body once more. A
    /// finish carries no moment, so it may always follow.
    /// Where memory runs out, the body is dropped and the core is as before.
    pub fn finish_read<L: Ledger>(
        &mut self,
        alloc: Global,
        ticket: u64,
        took: i64,
        status: u16,
        body: ReadBody,
        steps: &mut Steps<L>,
    ) -> Result<Answer, NoMemory>
        requires { IsInLimits (finish_with ticket took body.form status body.bytes) }
        ensures answer { IfOk result (λ a. a ≡ spec.answer (spec.world_of self.old) (finish_with ticket took body.form status body.bytes)) }
        ensures joined { OnOk result (self.new ≡ self.old ++ finish_with ticket took body.form status body.bytes ∷ []) }
        ensures err { OnErr result (self.new ≡ self.old) }
        ensures laws { StepLaws self.old (finish_with ticket took body.form status body.bytes) self.new }
        ensures steps { OnOk result (steps.new ≡
            steps.old + relabelling.runs (spec.world_of self.old) (finish_with ticket took body.form status body.bytes)) }
        ensures at_least { steps.old ≤ steps.new }
        ensures at_most { steps.new ≤ steps.old + relabelling.runs (spec.world_of self.old) (finish_with ticket took body.form status body.bytes) }
    {
        step_laws();
        self.take_read(
            alloc,
            ticket,
            took,
            ReadReply::with(alloc, status, body),
            steps,
        )
    }
}
