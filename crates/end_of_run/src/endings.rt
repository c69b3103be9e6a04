//! The endings of closed lives, each taken once.
ghost use Rattle.std.specs.Prelude.{◌≡◌, ◌+◌, ◌≤◌, ◌++◌, [], ◌∷◌, length, None, IfOk, IsOk, IsTrue, OnErr, OnOk, ℤ, false};
ghost use Rattle.std.specs.List.{list_any, position_or_len};
ghost use Rattle.end_of_run.specs.Endings as spec;

use crate::ending::Ending;
use label_set::NoMemory;
use report_samples::{Closing, EntryList};
use std::alloc::Global;
use std::marker::Model;

/// The endings of the lives that were closed, in the order of their closings. Contracts see them, and the spare room.
#[derive(Debug, Drop)]
pub struct Endings {
    endings: Vec<Ending>,
}

impl Model for Endings {
    ghost use Rattle.std.specs.Prelude.{◌-◌, vec_capacity, vec_len};
    ghost use Rattle.end_of_run.specs.Endings.{EndingsView, IsOneEach};

    ghost Value = { EndingsView };

    ghost view = { λ e. record { endings = e.endings.items; spare = vec_capacity e.endings - vec_len e.endings } };

    ghost invariant = { λ e. IsOneEach e.endings.items };
}

/// How many endings stand before that of a life; all of them where it isn't there.
fn place_of(endings: &[Ending], life: u64) -> usize
    ensures value { result ≡ position_or_len (spec.is_of life) endings.now }
    ensures within { result ≤ length endings.now }
{
    endings
        .iter()
        .take_while(|ending| !ending.is_of(life))
        .count()
}

impl Endings {
    /// No endings.
    ///
    /// # Errors
    ///
    /// The only error is out of memory.
    pub fn new(alloc: Global) -> Result<Endings, NoMemory>
        ensures { IfOk result (λ e. e.endings ≡ []) }
    {
        Ok(Endings {
            endings: Vec::new(alloc),
        })
    }

    /// Makes room for so many more endings.
    ///
    /// # Errors
    ///
    /// The only error is out of memory.
    pub fn reserve(&mut self, more: usize) -> Result<(), NoMemory>
        ensures room { OnOk result (more ≤ self.new.spare) }
        ensures endings { self.new.endings ≡ self.old.endings }
        ensures kept { self.old.spare ≤ self.new.spare }
    {
        Ok(self.endings.reserve(more)?)
    }

    /// Adds the ending of a closed life, of which none was added before. It uses up the room of one ending at most.
    ///
    /// # Errors
    ///
    /// The only error is out of memory, and only where there is no room; the closing is dropped, and all else stays.
    #[tactic(auto, using(crate::proofs::EndingLemmas::one_added))]
    pub fn add(&mut self, closing: Closing) -> Result<(), NoMemory>
        requires first { spec.ending_of closing.life self.old.endings ≡ None }
        requires limits { spec.IsInLimits closing }
        ensures added { OnOk result (self.new.endings ≡ self.old.endings ++ spec.untaken closing ∷ []) }
        ensures refused { OnErr result (self.new ≡ self.old) }
        ensures room { 1 ≤ self.old.spare → IsOk result }
        ensures spare { self.old.spare ≤ self.new.spare + 1 }
    {
        self.endings.reserve(1)?;
        self.endings.push_reserved(Ending::new(closing));
        Ok(())
    }

    /// Whether some ending that was not taken is due at a moment. It takes no memory.
    pub fn due(&self, moment: i64) -> bool
        ensures { result ≡ list_any (spec.is_due moment) self.now.endings }
    {
        self.endings.iter().any(|ending| ending.is_due(moment))
    }

    /// The entries of the ending of a life; none where it was not added, or was taken.
    ///
    /// # Errors
    ///
    /// The only error is out of memory.
    pub fn entries(&self, alloc: Global, life: u64) -> Result<EntryList, NoMemory>
        ensures { IfOk result (λ l. l ≡ spec.life_entries life self.now.endings) }
    {
        match self.endings.get(place_of(&self.endings, life)) {
            Some(ending) => ending.entries(alloc),
            None => Ok(EntryList {
                items: Vec::new(alloc),
            }),
        }
    }

    /// Takes the ending of a life, if it was added, is due at a moment and was not taken; the answer says whether it was. It takes no memory.
    pub fn take(&mut self, life: u64, moment: i64) -> bool
        ensures answer { result ≡ spec.is_life_due life moment self.old.endings }
        ensures endings { self.new.endings ≡ spec.swept_life life moment self.old.endings }
        ensures spare { self.new.spare ≡ self.old.spare }
        ensures once { IsTrue result → (later : ℤ) → spec.is_life_due life later self.new.endings ≡ false }
    {
        let place = place_of(&self.endings, life);
        if place == self.endings.len() {
            return false;
        }
        let ending = &mut self.endings[place];
        ending.take(moment)
    }
}
