//! The names of jobs, and the place of each.
ghost use Rattle.std.specs.Prelude.{◌≡◌, ◌++◌, [], ◌∷◌, List, ℕ, OnOk, OnErr};
ghost use Rattle.std.specs.Str.{bytes_eq};
ghost use Rattle.indexmap.specs.IndexMap.{get};
ghost use Rattle.life_roll.specs.Names.{noted, place_in};

use indexmap::IndexMap;
use label_set::{Name, NoMemory};
use std::alloc::Global;
use std::marker::Model;

/// Names in order, with a hashed look-up of the first place of each; seen as their list.
#[derive(Drop)]
pub struct JobNames {
    names: Vec<Name>,
    places: IndexMap<Name, usize>,
}

impl Model for JobNames {
    ghost use Rattle.std.specs.Prelude.{◌≡◌, List, ℕ};
    ghost use Rattle.std.specs.Str.{bytes_eq};
    ghost use Rattle.indexmap.specs.IndexMap.{get};
    ghost use Rattle.life_roll.specs.Names.{place_in};

    ghost Value = { List (List ℕ) };

    ghost view = { λ s. s.names.items };

    ghost invariant = { λ s. (n : List ℕ) → get bytes_eq s.places n ≡ place_in n s.names.items };
}

/// Notes the place of a name that isn't there yet.
fn note(
    alloc: Global,
    places: &mut IndexMap<Name, usize>,
    name: &Name,
    place: usize,
) -> Result<(), NoMemory>
    ensures err { OnErr result ((n : List ℕ) → get bytes_eq places.new n ≡ get bytes_eq places.old n) }
    ensures noted { OnOk result ((n : List ℕ) → get bytes_eq places.new n ≡ noted (get bytes_eq places.old n) (bytes_eq n name.now) place) }
{
    if !places.contains_key(name) {
        places.insert(name.copy(alloc)?, place)?;
    }
    Ok(())
}

impl JobNames {
    /// No names.
    pub fn new(alloc: Global) -> JobNames
        ensures { result ≡ [] }
    {
        JobNames {
            names: Vec::new(alloc),
            places: IndexMap::new(alloc),
        }
    }

    /// Adds a name behind the others.
    pub fn push(&mut self, alloc: Global, name: &Name) -> Result<(), NoMemory>
        ensures joined { OnOk result (self.new ≡ self.old ++ name.now ∷ []) }
        ensures err { OnErr result (self.new ≡ self.old) }
    {
        let place = self.names.as_slice().len();
        self.names.reserve(1)?;
        let kept = name.copy(alloc)?;
        note(alloc, &mut self.places, name, place)?;
        self.names.push_reserved(kept);
        Ok(())
    }

    /// The first place of a name; `None` exactly where it isn't there.
    pub fn place(&self, name: &Name) -> Option<usize>
        ensures { result ≡ place_in name.now self.now }
    {
        self.places.get(name).copied()
    }
}
