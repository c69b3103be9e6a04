//! The series that a scrape shows and the last good one didn't.
ghost use Rattle.std.specs.Prelude.{◌≡◌, ◌≤◌, ◌++◌, List, OnOk, IfOk, drop, length, take};
ghost use Rattle.std.specs.Option.{option_to_list};
ghost use Rattle.label_set.specs.declared.texts.Pair.{Pair};
ghost use Rattle.series_cache.specs.Caches.{set_if, shown_sets, text_sets};
ghost use Rattle.series_cache.specs.Sets.{gone, rising};

use crate::known::Known;
use crate::rising::RisingSets;
use crate::texts::Texts;
use label_set::NoMemory;
use std::alloc::Global;

/// Adds the set of a text that was shown.
fn put_shown(sets: &mut RisingSets, known: &Known) -> Result<(), NoMemory>
    ensures { (xs : List (List Pair)) → sets.old ≡ rising xs → OnOk result (sets.new ≡ rising (set_if known.now.shown known.now.set ++ xs)) }
{
    match &known.set {
        Some(set) if known.shown => sets.put(set.copy()?),
        _ => Ok(()),
    }
}

/// The sets of the texts that were shown, of those behind the first so many.
fn new_sets(alloc: Global, texts: &Texts, kept: usize) -> Result<RisingSets, NoMemory>
    requires { kept ≤ length texts.now }
    ensures { IfOk result (λ sets. sets ≡ rising (shown_sets (drop kept texts.now))) }
{
    let mut sets = RisingSets::new(alloc);
    let mut place = texts.len();
    while place > kept {
        place -= 1;
        put_shown(&mut sets, texts.at(place))?;
    }
    Ok(sets)
}

/// Takes out the set of a text.
#[tactic(auto, using(crate::proofs::VanishLemmas::gone_none))]
fn take_out(sets: &mut RisingSets, known: &Known)
    ensures { sets.new ≡ gone sets.old (option_to_list known.now.set) }
{
    match &known.set {
        None => {}
        Some(set) => sets.remove(set),
    }
}

/// Takes out the sets of the first so many texts.
fn take_kept_out(sets: &mut RisingSets, texts: &Texts, kept: usize)
    requires { kept ≤ length texts.now }
    ensures { sets.new ≡ gone sets.old (text_sets (take kept texts.now)) }
{
    let mut place = kept;
    while place > 0 {
        place -= 1;
        take_out(sets, texts.at(place));
    }
}

/// The same, where no text is looked at if there is no set to take out.
fn take_known_out(sets: &mut RisingSets, texts: &Texts, kept: usize)
    requires { kept ≤ length texts.now }
    ensures { sets.new ≡ gone sets.old (text_sets (take kept texts.now)) }
{
    if sets.is_empty() {
        return;
    }
    take_kept_out(sets, texts, kept);
}

/// How many sets the texts that were shown have which none of the first so many texts has, each once. Where there is no text behind those,
/// none is looked at.
pub(crate) fn added(alloc: Global, texts: &Texts, kept: usize) -> Result<usize, NoMemory>
    requires { kept ≤ length texts.now }
    ensures { IfOk result (λ n. n ≡ length (gone (rising (shown_sets texts.now)) (text_sets (take kept texts.now)))) }
{
    let mut sets = new_sets(alloc, texts, kept)?;
    take_known_out(&mut sets, texts, kept);
    Ok(sets.len())
}
