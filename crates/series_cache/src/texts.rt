//! Raw texts with what is known of each, looked up by place or by hash.
ghost use Rattle.std.specs.Prelude.{◌≡◌, ℕ, List, Some, true, ◌<◌, ◌++◌, [], ◌∷◌, map, length, take, option_copied, slice_get, Option, IsSome, IfSome, IfNone, IfOk, OnOk, OnErr, IsTrue, None};
ghost use Rattle.series_cache.specs.Caches.{find, look_up, stamped, renewed, failed, unshown, shown_of};
ghost use Rattle.series_cache.specs.Places.{HasAt, AreDistinct};
ghost use Rattle.series_cache.specs.Remembered.{fresh, carried, unmarked};
ghost use Rattle.std.specs.Map.{keys_of, values_of};

use crate::known::Known;
use crate::seeded::Seeded;
use indexmap::IndexMap;
use label_set::{LabelSet, NoMemory};
use std::alloc::Global;
use std::hash::{BuildHasher, DefaultHasher, Hash, Hasher};
use std::marker::Model;

/// Where the next text is expected: a target mostly shows the same texts in the same order. Those that it showed later than others stand
/// behind them, wherever it shows them now, so two places move on side by side.
#[derive(Clone, Copy)]
pub struct Expected {
    /// Behind the last text that was shown.
    next: usize,
    /// Behind the last one before the order was left.
    other: usize,
}

impl Expected {
    /// Before the first text is shown.
    pub(crate) fn first() -> Expected {
        Expected { next: 0, other: 0 }
    }

    /// What is expected after the text at a place.
    pub(crate) fn after(self, place: usize) -> Expected {
        let behind = self.next.saturating_add(1);
        let other = if place == self.next || place == behind {
            self.other
        } else {
            self.next
        };
        Expected {
            next: place.saturating_add(1),
            other,
        }
    }
}

/// Raw texts in the order in which they came, each once, with what is known of each; seen as their list.
#[derive(Drop)]
pub struct Texts {
    entries: IndexMap<Vec<u8>, Known, Seeded>,
}

impl Model for Texts {
    ghost use Rattle.std.specs.Prelude.{ℕ, List};
    ghost use Rattle.series_cache.specs.declared.known.Known.{Known};

    ghost Value = { List (List ℕ × Known) };

    ghost use Rattle.series_cache.specs.Places.{texts_of};

    ghost view = { λ t. texts_of t.entries.entries };
}

impl Texts {
    /// No texts, which are hashed with this hasher.
    pub(crate) fn new(alloc: Global, hasher: DefaultHasher) -> Texts
        ensures { result ≡ [] }
    {
        Texts {
            entries: IndexMap::with_hasher(alloc, Seeded::new(hasher)),
        }
    }

    /// The hash of a text.
    pub(crate) fn hash_of(&self, raw: &[u8]) -> u64 {
        let mut hasher = self.entries.hasher().build_hasher();
        raw.hash(&mut hasher);
        hasher.finish()
    }

    /// How many there are.
    pub(crate) fn len(&self) -> usize
        ensures len { result ≡ length self.now }
        ensures distinct { AreDistinct self.now }
    {
        self.entries.len()
    }

    /// What is known of the text at a place.
    pub(crate) fn at(&self, place: usize) -> &Known
        requires { place < length self.now }
        ensures { slice_get (values_of self.now) place ≡ Some result.now }
    {
        &self.entries[place]
    }

    /// The text at a place, if there is one.
    pub(crate) fn text_at(&self, place: usize) -> Option<&[u8]>
        ensures { IfSome result (λ t. slice_get (keys_of self.now) place ≡ Some t.now) }
    {
        let (text, _) = self.entries.get_index(place)?;
        Some(text.as_slice())
    }

    /// Whether a text is the one at a place.
    fn is_at(&self, place: usize, raw: &[u8]) -> bool
        ensures { IsTrue result → HasAt raw.now self.now place }
    {
        match self.entries.get_index(place) {
            None => false,
            Some((text, _)) => raw == text.as_slice(),
        }
    }

    /// The place of a text, by its hash.
    fn hashed_place(&self, raw: &[u8]) -> Option<usize>
        ensures found { IfSome result (λ place. HasAt raw.now self.now place) }
        ensures absent { IfNone result (find raw.now self.now ≡ None) }
    {
        self.entries.get_index_of(raw)
    }

    /// Whether a text is the one at a place or the one behind it, and at which.
    fn place_from(&self, raw: &[u8], place: usize) -> Option<usize>
        ensures { IfSome result (λ found. HasAt raw.now self.now found) }
    {
        if self.is_at(place, raw) {
            return Some(place);
        }
        let behind = place.saturating_add(1);
        if self.is_at(behind, raw) {
            return Some(behind);
        }
        None
    }

    /// The place of a text, where it is one that is expected.
    fn near_place(&self, raw: &[u8], expected: Expected) -> Option<usize>
        ensures { IfSome result (λ place. HasAt raw.now self.now place) }
    {
        match self.place_from(raw, expected.next) {
            Some(place) => Some(place),
            None => self.place_from(raw, expected.other),
        }
    }

    /// What is known of a text. No hash is made where it is expected.
    pub(crate) fn find(&self, raw: &[u8], expected: Expected) -> Option<&Known>
        ensures { option_copied result ≡ find raw.now self.now }
    {
        match self.near_place(raw, expected) {
            Some(place) => self.known_at(place),
            None => self.entries.get(raw),
        }
    }

    /// What is known of the text at a place.
    fn known_at(&self, place: usize) -> Option<&Known>
        ensures { (raw : List ℕ) → HasAt raw self.now place → option_copied result ≡ find raw self.now }
    {
        let (_, known) = self.entries.get_index(place)?;
        Some(known)
    }

    /// The place of a text, where it is the one at this place, counted from 1, or one that is expected.
    fn hinted_place(&self, raw: &[u8], hint: usize, expected: Expected) -> Option<usize>
        ensures { IfSome result (λ place. HasAt raw.now self.now place) }
    {
        if hint > 0 && self.is_at(hint - 1, raw) {
            return Some(hint - 1);
        }
        self.near_place(raw, expected)
    }

    /// The place of a text, with what is known of it. It is looked for at a place first, counted from 1, and where it is expected; no hash is made
    /// where it stands there.
    pub(crate) fn found(
        &self,
        raw: &[u8],
        hint: usize,
        expected: Expected,
    ) -> Option<(usize, &Known)>
        ensures place { IfSome result (λ f. HasAt raw.now self.now f.0) }
        ensures known { IfSome result (λ f. find raw.now self.now ≡ Some f.1.now) }
        ensures none { IfNone result (find raw.now self.now ≡ None) }
    {
        let place = match self.hinted_place(raw, hint, expected) {
            Some(place) => place,
            None => self.hashed_place(raw)?,
        };
        let known = self.known_at(place)?;
        Some((place, known))
    }

    /// Notes that the text at a place was shown.
    pub(crate) fn stamp(&mut self, place: usize, tracked: bool)
        ensures stamped { (raw : List ℕ) → HasAt raw self.old place → self.new ≡ map (stamped raw tracked) self.old }
        ensures distinct { AreDistinct self.old }
    {
        if let Some(known) = self.entries.get_index_mut(place) {
            known.mark(tracked);
        }
    }

    /// Notes that a known text was shown, and notes what is expected next. No hash is made where it is expected, nor where it is the last text,
    /// which was just put: then the same is expected as before.
    pub(crate) fn show(&mut self, raw: &[u8], expected: Expected, tracked: bool) -> Expected
        requires { IsSome (look_up raw.now self.old) }
        ensures stamped { self.new ≡ map (stamped raw.now tracked) self.old }
        ensures distinct { AreDistinct self.old }
    {
        let last = self.len().saturating_sub(1);
        if let Some(place) = self.near_place(raw, expected) {
            self.stamp(place, tracked);
            return expected.after(place);
        }
        if self.is_at(last, raw) {
            self.stamp(last, tracked);
            return expected;
        }
        match self.hashed_place(raw) {
            None => expected,
            Some(place) => {
                self.stamp(place, tracked);
                expected.after(place)
            }
        }
    }

    /// Adds a text, with its set or none.
    pub(crate) fn push(
        &mut self,
        alloc: Global,
        raw: &[u8],
        set: Option<LabelSet>,
    ) -> Result<(), NoMemory>
        requires { find raw.now self.old ≡ None }
        ensures ok { OnOk result (self.new ≡ self.old ++ (raw.now, fresh set) ∷ []) }
        ensures err { OnErr result (self.new ≡ self.old) }
    {
        let mut text = Vec::with_capacity(alloc, raw.len())?;
        text.extend_from_slice(raw)?;
        let _ = self.entries.insert(text, Known::fresh(set))?;
        Ok(())
    }

    /// Keeps so many in front.
    pub(crate) fn cut(&mut self, kept: usize)
        ensures { self.new ≡ take kept self.old }
    {
        self.entries.truncate(kept);
    }

    /// Forgets all, and gives back the memory that they took. A text that comes then is hashed as before.
    pub(crate) fn clear(&mut self)
        ensures { self.new ≡ [] }
    {
        let hasher = *self.entries.hasher();
        self.entries = IndexMap::with_hasher(*self.entries.allocator(), hasher);
    }

    /// Keeps those that were shown, for the next scrape.
    pub(crate) fn renew(&mut self)
        ensures renewed { self.new ≡ map renewed (shown_of self.old) }
        ensures distinct { AreDistinct self.old }
    {
        // What it says is that no text stands there twice.
        let _len = self.len();
        self.entries.retain(
            |_text: &Vec<u8>, known: &mut Known| -> bool
                ensures { (result ≡ known.old.shown) × (known.new ≡ carried known.old) }
            {
                let shown = known.shown;
                known.carry();
                shown
            },
        );
    }

    /// Forgets what was shown and tracked, of each.
    pub(crate) fn fail(&mut self)
        ensures { self.new ≡ map failed self.old }
    {
        self.entries.retain(
            |_text: &Vec<u8>, known: &mut Known| -> bool
                ensures { (result ≡ true) × (known.new ≡ fresh known.old.set) }
            {
                known.forget();
                true
            },
        );
    }

    /// Takes back what was shown since the last turn, of each.
    pub(crate) fn unshow(&mut self)
        ensures { self.new ≡ map unshown self.old }
    {
        self.entries.retain(
            |_text: &Vec<u8>, known: &mut Known| -> bool
                ensures { (result ≡ true) × (known.new ≡ unmarked known.old) }
            {
                known.unmark();
                true
            },
        );
    }
}
