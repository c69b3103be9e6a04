//! The journal of a script, event by event.
ghost use Rattle.std.specs.Prelude.{◌≡◌, ◌<◌, ◌≤◌, ◌+◌, ◌*◌, ◌^◌, ◌++◌, [], ◌∷◌, IfOk, OnOk, pos, length, flat_map};
ghost use Rattle.journal_text.specs.Events.{IsInLimits, MayFollow, now_of, now_after, journal_text};
ghost use Rattle.journal_text.specs.Faults.{Spells};
ghost use Rattle.outside.specs.Sizes.{most_text_bytes, most_body_bytes};
ghost use Rattle.outside.specs.declared.replies.Reply.TheVariants as replies;
ghost use Rattle.journal_text.specs.declared.events.Event.TheVariants as events;
ghost use Rattle.synth.specs.Scripts as spec;

use crate::pages::{conf_text, page};
use journal_text::{Event, Journal, Version, write_version};
use label_set::{Blob, NoMemory};
use outside::Reply;
use std::alloc::Global;

/// From one scrape to the next, in milliseconds.
const INTERVAL: u64 = 15_000;

/// From the moment at which all targets go to that of the last sweep: their markers are due by then.
const ENDING: u64 = 16_500;

/// The most targets of a script, and the most scrapes of each.
pub const MOST_TARGETS: u64 = 10_000;

pub const MOST_SCRAPES: u64 = 1_000;

/// The most scrapes of all targets of a script together.
pub const MOST_SCRAPES_OF_ALL: u64 = 20_000;

/// What a script is made of.
#[derive(Clone, Copy, Debug)]
pub struct Plan {
    /// What the numbers of the pages begin with.
    pub seed: u64,
    pub targets: u64,
    /// How often each target is scraped.
    pub scrapes: u64,
}

/// Adds an event to a journal.
fn push_event(journal: &mut Journal, event: Event) -> Result<(), NoMemory>
    requires limits { IsInLimits event }
    requires order { MayFollow (now_of journal.old.events) event }
    ensures joined { OnOk result (journal.new.events ≡ journal.old.events ++ event ∷ []) }
    ensures now { OnOk result (now_of journal.new.events ≡ now_after (now_of journal.old.events) event) }
{
    journal.reserve(1)?;
    journal.push(event);
    Ok(())
}

/// Adds a sweep. The moment is below 2^50.
fn push_sweep(journal: &mut Journal, moment: u64) -> Result<(), NoMemory>
    requires small { moment < 2 ^ 50 }
    requires order { now_of journal.old.events ≤ moment }
    ensures joined { OnOk result (journal.new.events ≡ journal.old.events ++ events.Sweep (pos moment) ∷ []) }
    ensures now { OnOk result (now_of journal.new.events ≡ moment) }
{
    push_event(
        journal,
        Event::Sweep {
            moment: moment as i64,
        },
    )
}

/// Adds a load. The moment is below 2^50.
fn push_load(journal: &mut Journal, moment: u64, text: Blob) -> Result<(), NoMemory>
    requires small { moment < 2 ^ 50 }
    requires short { length text ≤ most_text_bytes }
    requires order { now_of journal.old.events ≤ moment }
    ensures joined { OnOk result (journal.new.events ≡ journal.old.events ++ events.Load (pos moment) text ∷ []) }
    ensures now { OnOk result (now_of journal.new.events ≡ moment) }
{
    push_event(
        journal,
        Event::Load {
            moment: moment as i64,
            text,
        },
    )
}

/// Adds the reply of a scrape.
fn push_reply(journal: &mut Journal, ticket: u64, bytes: Blob) -> Result<(), NoMemory>
    requires short { length bytes ≤ most_body_bytes }
    ensures joined { OnOk result (journal.new.events ≡ journal.old.events ++ events.Finish ticket (pos 10) (replies.Body 200 bytes) ∷ []) }
    ensures now { OnOk result (now_of journal.new.events ≡ now_of journal.old.events) }
{
    push_event(
        journal,
        Event::Finish {
            ticket,
            took: 10,
            reply: Reply::Body { status: 200, bytes },
        },
    )
}

/// Adds a scrape of all targets.
#[tactic(auto, unfolding(crate::specs::Scripts::scrape_events))]
fn push_scrape(
    alloc: Global,
    plan: &Plan,
    scrape: u64,
    journal: &mut Journal,
) -> Result<(), NoMemory>
    requires plan { spec.IsPlan plan.now }
    requires scrape { scrape < spec.most_scrapes }
    requires order { now_of journal.old.events ≤ 15000 * scrape }
    ensures joined { OnOk result (journal.new.events ≡ journal.old.events ++ spec.scrape_events plan.now scrape) }
    ensures now { OnOk result (now_of journal.new.events ≡ 15000 * scrape) }
{
    push_sweep(journal, INTERVAL * scrape)?;
    for target in 0..plan.targets {
        let bytes = page(alloc, plan.seed + target + scrape)?;
        push_reply(journal, scrape * plan.targets + target, bytes)?;
    }
    Ok(())
}

/// Adds the scrapes, one after another.
fn push_scrapes(alloc: Global, plan: &Plan, journal: &mut Journal) -> Result<(), NoMemory>
    requires plan { spec.IsPlan plan.now }
    requires order { now_of journal.old.events ≡ 0 }
    ensures joined { OnOk result (journal.new.events ≡ journal.old.events ++ flat_map (spec.scrape_events plan.now) (spec.upto plan.now.scrapes)) }
    ensures now { OnOk result (now_of journal.new.events ≤ 15000 * plan.now.scrapes) }
{
    for scrape in 0..plan.scrapes {
        push_scrape(alloc, plan, scrape, journal)?;
    }
    Ok(())
}

/// Adds the end: a configuration without jobs, a sweep by which all markers are due, and the halt.
fn push_end(alloc: Global, end: u64, journal: &mut Journal) -> Result<(), NoMemory>
    requires small { end ≤ 2 ^ 40 }
    requires order { now_of journal.old.events ≤ end }
    ensures joined { OnOk result (journal.new.events ≡ journal.old.events ++ spec.last_events end) }
{
    let text = Blob {
        bytes: Vec::from_slice(alloc, b"{}")?,
    };
    push_load(journal, end, text)?;
    push_sweep(journal, end + ENDING)?;
    push_event(
        journal,
        Event::Halt {
            moment: (end + ENDING) as i64,
        },
    )
}

/// The journal of a plan.
#[tactic(auto, unfolding(crate::specs::Scripts::script_events))]
pub fn journal_of(alloc: Global, plan: &Plan) -> Result<Journal, NoMemory>
    requires { spec.IsPlan plan.now }
    ensures { IfOk result (λ j. j.events ≡ spec.script_events plan.now) }
{
    let mut journal = Journal::new(alloc);
    push_load(&mut journal, 0, conf_text(alloc, plan.targets)?)?;
    push_scrapes(alloc, plan, &mut journal)?;
    push_end(alloc, INTERVAL * plan.scrapes, &mut journal)?;
    Ok(journal)
}

/// The text of the journal that a seed, 1 to 10,000 targets and up to 1,000 scrapes of each make, at most 20,000 scrapes in all.
/// It spells that journal, in version 1.
#[tactic(auto, using(crate::proofs::VersionLemmas::script_has))]
pub fn make_script(alloc: Global, seed: u32, targets: u32, scrapes: u32) -> Result<Blob, NoMemory>
    requires targets { (1 ≤ targets) × (targets ≤ spec.most_targets) }
    requires scrapes { (scrapes ≤ spec.most_scrapes) × (targets * scrapes ≤ spec.most_scrapes_of_all) }
    ensures text { IfOk result (λ text. text ≡ journal_text Version.One (spec.script_events (spec.plan seed targets scrapes))) }
    ensures spells { IfOk result (λ text. Spells Version.One (spec.script_events (spec.plan seed targets scrapes)) text) }
{
    let plan = Plan {
        seed: seed as u64,
        targets: targets as u64,
        scrapes: scrapes as u64,
    };
    let journal = journal_of(alloc, &plan)?;
    let text = write_version(alloc, Version::One, &journal)?;
    let _events = journal.into_events();
    Ok(text)
}
