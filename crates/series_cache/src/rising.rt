//! Sets of label sets, each once, in rising order.
ghost use Rattle.std.specs.Prelude.{◌≡◌, [], ◌∷◌, ◌↔◌, IsTrue, OnOk, IfOk, length};
ghost use Rattle.std.specs.BTreeSet.{insert_key};
ghost use Rattle.label_set.specs.Sets.{set_cmp};
ghost use Rattle.series_cache.specs.Sets.{IsRising, gone};

use label_set::{LabelSet, NoMemory, SetList};
use std::alloc::Global;
use std::collections::HashSet;
use std::marker::Model;

/// Label sets, each once, kept by hash, so that most are seen to differ before any two are compared; seen as their rising list.
#[derive(Debug, Drop)]
pub struct RisingSets {
    sets: HashSet<LabelSet>,
}

impl Model for RisingSets {
    ghost use Rattle.std.specs.Prelude.{List};
    ghost use Rattle.label_set.specs.declared.texts.Pair.{Pair};
    ghost use Rattle.series_cache.specs.Sets.{rising};

    ghost Value = { List (List Pair) };

    ghost view = { λ s. rising s.sets.keys };
}

impl RisingSets {
    /// No sets.
    pub fn new(alloc: Global) -> RisingSets
        ensures { result ≡ [] }
    {
        RisingSets {
            sets: HashSet::new(alloc),
        }
    }

    /// Puts a set among them, unless it is there.
    pub fn put(&mut self, set: LabelSet) -> Result<(), NoMemory>
        ensures { OnOk result (self.new ≡ insert_key set_cmp self.old set) }
    {
        let _ = self.sets.insert(set)?;
        Ok(())
    }

    /// Whether there are none.
    pub fn is_empty(&self) -> bool
        ensures { IsTrue result ↔ (self.now ≡ []) }
    {
        self.len() == 0
    }

    /// How many they are.
    pub fn len(&self) -> usize
        ensures { result ≡ length self.now }
    {
        self.sets.len()
    }

    /// Takes a set out, where it is there.
    pub fn remove(&mut self, set: &LabelSet)
        ensures { self.new ≡ gone self.old (set.now ∷ []) }
    {
        self.sets.remove(set);
    }

    /// Their list.
    pub fn list(&self, alloc: Global) -> Result<SetList, NoMemory>
        ensures list { IfOk result (λ l. l ≡ self.now) }
        ensures rising { IsRising self.now }
    {
        let mut items = Vec::new(alloc);
        for set in self.sets.iter() {
            items.reserve(1)?;
            items.push_reserved(set.copy()?);
        }
        items.sort_unstable();
        Ok(SetList { items })
    }
}
