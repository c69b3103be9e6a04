//! The series that a scrape shows no more.
ghost use Rattle.std.specs.Prelude.{◌≡◌, ◌++◌, List, OnOk, IfOk};
ghost use Rattle.label_set.specs.declared.texts.Pair.{Pair};
ghost use Rattle.series_cache.specs.Caches.{now_sets, was_sets, set_if};
ghost use Rattle.series_cache.specs.Sets.{gone, rising};
ghost use Rattle.series_cache.specs.Vanished as spec;

use crate::known::Known;
use crate::rising::RisingSets;
use crate::texts::Texts;
use label_set::{NoMemory, SetList};
use std::alloc::Global;

/// Adds the set of a text that was tracked in the last turn and isn't since.
fn put_lost(sets: &mut RisingSets, known: &Known) -> Result<(), NoMemory>
    ensures { (xs : List (List Pair)) → sets.old ≡ rising xs → OnOk result (sets.new ≡ rising (set_if (spec.is_lost known.now) known.now.set ++ xs)) }
{
    match &known.set {
        Some(set) if known.was_tracked && !known.tracked => sets.put(set.copy()?),
        _ => Ok(()),
    }
}

/// The sets of the texts that were tracked in the last turn and aren't since.
fn lost(alloc: Global, texts: &Texts) -> Result<RisingSets, NoMemory>
    ensures { IfOk result (λ sets. sets ≡ rising (spec.lost_sets texts.now)) }
{
    let mut sets = RisingSets::new(alloc);
    let mut place = texts.len();
    while place > 0 {
        place -= 1;
        put_lost(&mut sets, texts.at(place))?;
    }
    Ok(sets)
}

/// Adds the set of a text that was tracked in the last turn.
fn put_was(sets: &mut RisingSets, known: &Known) -> Result<(), NoMemory>
    ensures { (xs : List (List Pair)) → sets.old ≡ rising xs → OnOk result (sets.new ≡ rising (set_if known.now.was_tracked known.now.set ++ xs)) }
{
    match &known.set {
        Some(set) if known.was_tracked => sets.put(set.copy()?),
        _ => Ok(()),
    }
}

/// The sets of the texts that were tracked in the last turn.
pub(crate) fn were(alloc: Global, texts: &Texts) -> Result<RisingSets, NoMemory>
    ensures { IfOk result (λ sets. sets ≡ rising (was_sets texts.now)) }
{
    let mut sets = RisingSets::new(alloc);
    let mut place = texts.len();
    while place > 0 {
        place -= 1;
        put_was(&mut sets, texts.at(place))?;
    }
    Ok(sets)
}

/// Takes out the set of a text that is tracked.
#[tactic(auto, using(crate::proofs::VanishLemmas::gone_none))]
fn take_out(sets: &mut RisingSets, known: &Known)
    ensures { sets.new ≡ gone sets.old (set_if known.now.tracked known.now.set) }
{
    if !known.tracked {
        return;
    }
    match &known.set {
        None => {}
        Some(set) => sets.remove(set),
    }
}

/// Takes out the sets of all texts that are tracked.
fn take_all_out(sets: &mut RisingSets, texts: &Texts)
    ensures { sets.new ≡ gone sets.old (now_sets texts.now) }
{
    let mut place = texts.len();
    while place > 0 {
        place -= 1;
        take_out(sets, texts.at(place));
    }
}

/// The same, where no text is looked at if there is no set to take out.
fn take_tracked_out(sets: &mut RisingSets, texts: &Texts)
    ensures { sets.new ≡ gone sets.old (now_sets texts.now) }
{
    if sets.is_empty() {
        return;
    }
    take_all_out(sets, texts);
}

/// The sets that were tracked in the last turn and aren't since, in rising order. Where each text that was tracked is so again, two flags
/// of each are all that is looked at.
#[tactic(auto, using(crate::proofs::VanishLemmas::vanished_lost))]
pub(crate) fn vanished(alloc: Global, texts: &Texts) -> Result<SetList, NoMemory>
    ensures { IfOk result (λ sets. sets ≡ gone (rising (was_sets texts.now)) (now_sets texts.now)) }
{
    let mut sets = lost(alloc, texts)?;
    take_tracked_out(&mut sets, texts);
    sets.list(alloc)
}
