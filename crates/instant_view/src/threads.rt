//! The kept entries of a view, with an index of their series.
ghost use Rattle.std.specs.Prelude.{◌≡◌, ◌+◌, ◌≤ℤ◌, ◌++◌, ◌∷◌, [], true, All, List, ℕ, length, if◌then◌else◌, IfOk, OnOk, IsSome, codes};
ghost use Rattle.std.specs.BTreeMap.{get, keys};
ghost use Rattle.std.specs.Ordering.{is_eq};
ghost use Rattle.label_set.specs.Sets.{set_cmp};
ghost use Rattle.label_set.specs.declared.texts.Pair.{Pair};
ghost use Rattle.instant_view.specs.Selectors.{value_in};
ghost use Rattle.instant_view.specs.Threads as spec;

use crate::links::{Link, end_by, link_behind};
use crate::rows::{Placed, ViewRow};
use crate::selector::Selecting;
use label_set::{LabelSet, Name, NoMemory};
use std::alloc::Global;
use std::collections::{BTreeMap, BTreeSet};

/// An entry is seen for less than so many milliseconds.
const LOOKBACK: u64 = 300_000;

/// Kept entries, each with links to earlier ones of its series, the end of the last one of each series, and the series of each name.
#[derive(Drop)]
pub struct Threads {
    pub kept: Vec<Placed>,
    links: Vec<Link>,
    ends: BTreeMap<LabelSet, usize>,
    /// For each name, the label sets of its series.
    named: BTreeMap<Name, BTreeSet<LabelSet>>,
}

/// Notes a series for its name.
fn note_name(
    alloc: Global,
    named: &mut BTreeMap<Name, BTreeSet<LabelSet>>,
    name: &str,
    series: &LabelSet,
) -> Result<(), NoMemory>
    ensures ok { OnOk result (spec.is_named named.new name.now series.now ≡ true) }
    ensures others { (n : List ℕ) (s : List Pair) → spec.is_named named.old n s ≡ true → spec.is_named named.new n s ≡ true }
{
    let name = Name::from_str(alloc, name)?;
    let series = series.copy()?;
    if let Some(sets) = named.get_mut(&name) {
        sets.insert(series)?;
        return Ok(());
    }
    let mut sets = BTreeSet::new(alloc);
    sets.insert(series)?;
    named.insert(name, sets)?;
    Ok(())
}

/// The value of `__name__`.
fn name_of(series: &LabelSet) -> &str
    ensures { result.now ≡ value_in series.now (codes "__name__") }
{
    series.get("__name__").unwrap_or("")
}

/// Makes a place for the end of a series, and notes it for its name.
fn make_place(
    alloc: Global,
    ends: &mut BTreeMap<LabelSet, usize>,
    named: &mut BTreeMap<Name, BTreeSet<LabelSet>>,
    series: &LabelSet,
) -> Result<(), NoMemory>
    requires { spec.AreNamed ends.old named.old }
    ensures ok { OnOk result (IsSome (get set_cmp ends.new series.now)) }
    ensures places { (s : List Pair) → IsSome (get set_cmp ends.old s) → IsSome (get set_cmp ends.new s) }
    ensures same { (s : List Pair) → spec.end_of ends.new s ≡ spec.end_of ends.old s }
    ensures named { spec.AreNamed ends.new named.new }
{
    if ends.contains_key(series) {
        return Ok(());
    }
    note_name(alloc, named, name_of(series), series)?;
    let series = series.copy()?;
    ends.insert(series, 0)?;
    Ok(())
}

/// Makes places for the ends of the series of entries.
fn make_places(
    alloc: Global,
    ends: &mut BTreeMap<LabelSet, usize>,
    named: &mut BTreeMap<Name, BTreeSet<LabelSet>>,
    fresh: &[Placed],
) -> Result<(), NoMemory>
    requires { spec.AreNamed ends.old named.old }
    ensures ok { OnOk result (All (spec.HasPlace ends.new) fresh.now) }
    ensures same { (s : List Pair) → spec.end_of ends.new s ≡ spec.end_of ends.old s }
    ensures named { spec.AreNamed ends.new named.new }
{
    for placed in fresh {
        make_place(alloc, ends, named, &placed.entry.series)?;
    }
    Ok(())
}

/// Notes the end of the last entry of a series, and gives the one before.
fn renew(ends: &mut BTreeMap<LabelSet, usize>, series: &LabelSet, end: usize) -> usize
    requires { IsSome (get set_cmp ends.old series.now) }
    ensures before { result ≡ spec.end_of ends.old series.now }
    ensures ends { (s : List Pair) → spec.end_of ends.new s ≡ (if is_eq (set_cmp series.now s) then end else spec.end_of ends.old s) }
    ensures places { (s : List Pair) → IsSome (get set_cmp ends.old s) → IsSome (get set_cmp ends.new s) }
    ensures others { (s : List Pair) → IsSome (get set_cmp ends.new s) → IsSome (get set_cmp ends.old s) }
{
    match ends.get_mut(series) {
        Some(last) => {
            let before = *last;
            *last = end;
            before
        }
        None => 0,
    }
}

/// The row of an entry that isn't later than a moment, where it is seen then.
fn row_of(alloc: Global, placed: &Placed, moment: i64) -> Result<Option<ViewRow>, NoMemory>
    requires { placed.now.entry.moment ≤ℤ moment }
    ensures { IfOk result (λ o. spec.IsSeenAs moment placed.now o) }
{
    let entry = &placed.entry;
    let Some(value) = &entry.value else {
        return Ok(None);
    };
    if moment.abs_diff(entry.moment) >= LOOKBACK {
        return Ok(None);
    }
    let series = entry.series.copy()?;
    let value = value.copy(alloc)?;
    Ok(Some(ViewRow {
        place: placed.place,
        series,
        moment: entry.moment,
        value,
    }))
}

/// Adds a row, if there is one.
fn push_row(rows: &mut Vec<ViewRow>, row: Option<ViewRow>) -> Result<(), NoMemory>
    ensures { OnOk result (rows.new.items ≡ rows.old.items ++ spec.listed row) }
{
    if let Some(row) = row {
        rows.push(row)?;
    }
    Ok(())
}

impl Threads {
    /// The index of no entries. It takes no memory.
    pub fn new(alloc: Global) -> Threads
        ensures kept { result.kept.items ≡ [] }
        ensures threaded { spec.IsThreaded result }
    {
        Threads {
            kept: Vec::new(alloc),
            links: Vec::new(alloc),
            ends: BTreeMap::new(alloc),
            named: BTreeMap::new(alloc),
        }
    }

    /// Makes room for entries.
    pub fn make_room(&mut self, alloc: Global, fresh: &[Placed]) -> Result<(), NoMemory>
        requires { spec.IsThreaded self.old }
        ensures kept { self.new.kept.items ≡ self.old.kept.items }
        ensures threaded { spec.IsThreaded self.new }
        ensures room { OnOk result (spec.HasRoom (length fresh.now) self.new) }
        ensures places { OnOk result (All (spec.HasPlace self.new.ends) fresh.now) }
    {
        self.kept.reserve(fresh.len())?;
        self.links.reserve(fresh.len())?;
        make_places(alloc, &mut self.ends, &mut self.named, fresh)
    }

    /// Takes an entry in, into room that was made before.
    fn take_one(&mut self, placed: Placed)
        requires threaded { spec.IsThreaded self.old }
        requires rise { spec.Rise (self.old.kept.items ++ placed ∷ []) }
        requires room { spec.HasRoom 1 self.old }
        requires place { spec.HasPlace self.old.ends placed }
        ensures kept { self.new.kept.items ≡ self.old.kept.items ++ placed ∷ [] }
        ensures threaded { spec.IsThreaded self.new }
        ensures room { (n : ℕ) → spec.HasRoom (n + 1) self.old → spec.HasRoom n self.new }
        ensures places { (p : Placed) → spec.HasPlace self.old.ends p → spec.HasPlace self.new.ends p }
    {
        let end = self.kept.len() + 1;
        let last = renew(&mut self.ends, &placed.entry.series, end);
        let link = link_behind(&self.links, last);
        self.links.push_reserved(link);
        self.kept.push_reserved(placed);
    }

    /// Takes entries in, into room that was made before.
    pub fn take_in(&mut self, fresh: Vec<Placed>)
        requires threaded { spec.IsThreaded self.old }
        requires rise { spec.Rise (self.old.kept.items ++ fresh.items) }
        requires room { spec.HasRoom (length fresh.items) self.old }
        requires places { All (spec.HasPlace self.old.ends) fresh.items }
        ensures kept { self.new.kept.items ≡ self.old.kept.items ++ fresh.items }
        ensures threaded { spec.IsThreaded self.new }
    {
        let mut fresh = fresh;
        fresh.reverse();
        while let Some(placed) = fresh.pop() {
            self.take_one(placed);
        }
    }

    /// The row of a series, where this is the end of its last entry.
    fn row_of_series(
        &self,
        alloc: Global,
        end: usize,
        moment: i64,
    ) -> Result<Option<ViewRow>, NoMemory>
        requires { spec.IsThreaded self.now }
        ensures { let kept = self.now.kept.items in (s : List Pair) → spec.IsLastOf kept s (length kept) end →
            IfOk result (λ o. spec.IsRowOf kept moment s o) }
    {
        let end = end_by(&self.kept, &self.links, end, moment);
        let Some(place) = end.checked_sub(1) else {
            return Ok(None);
        };
        match self.kept.get(place) {
            None => Ok(None),
            Some(placed) => row_of(alloc, placed, moment),
        }
    }

    /// The row of a series that a selector selects, where this is the end of its last entry.
    fn selected_row(
        &self,
        alloc: Global,
        selecting: &mut Selecting<'_>,
        series: &LabelSet,
        end: usize,
        moment: i64,
    ) -> Result<Option<ViewRow>, NoMemory>
        requires threaded { spec.IsThreaded self.now }
        requires last { spec.IsLastOf self.now.kept.items series.now (length self.now.kept.items) end }
        ensures row { IfOk result (λ o. spec.IsSelectedRow self.now.kept.items selecting.old moment series.now o) }
        ensures same { selecting.new ≡ selecting.old }
    {
        if !selecting.selects(alloc, series)? {
            return Ok(None);
        }
        self.row_of_series(alloc, end, moment)
    }

    /// The end of the last entry of a series.
    fn end_of(&self, series: &LabelSet) -> usize
        ensures { result ≡ spec.end_of self.now.ends series.now }
    {
        self.ends.get(series).copied().unwrap_or(0)
    }

    /// The rows of all series, by rising label set.
    fn all_rows(
        &self,
        alloc: Global,
        selecting: &mut Selecting<'_>,
        moment: i64,
    ) -> Result<Vec<ViewRow>, NoMemory>
        requires { spec.IsThreaded self.now }
        ensures { IfOk result (λ v. spec.IsGatheredOf self.now.kept.items selecting.old moment (keys self.now.ends) v.items) }
    {
        let mut rows = Vec::new(alloc);
        for (series, end) in &self.ends {
            let row = self.selected_row(alloc, selecting, series, *end, moment)?;
            push_row(&mut rows, row)?;
        }
        Ok(rows)
    }

    /// The rows of some series, by rising label set.
    fn rows_of(
        &self,
        alloc: Global,
        sets: &BTreeSet<LabelSet>,
        selecting: &mut Selecting<'_>,
        moment: i64,
    ) -> Result<Vec<ViewRow>, NoMemory>
        requires { spec.IsThreaded self.now }
        ensures { IfOk result (λ v. spec.IsGatheredOf self.now.kept.items selecting.old moment sets.now.keys v.items) }
    {
        let mut rows = Vec::new(alloc);
        for series in sets {
            let end = self.end_of(series);
            let row = self.selected_row(alloc, selecting, series, end, moment)?;
            push_row(&mut rows, row)?;
        }
        Ok(rows)
    }

    /// The rows of the series that a selector selects, by rising label set: where it asks for one name, only series of that name are looked at.
    pub fn rows(
        &self,
        alloc: Global,
        selecting: &mut Selecting<'_>,
        moment: i64,
    ) -> Result<Vec<ViewRow>, NoMemory>
        requires { spec.IsThreaded self.now }
        ensures { IfOk result (λ v. spec.IsGathered self.now.kept.items selecting.old moment v.items) }
    {
        let Some(name) = selecting.name() else {
            return self.all_rows(alloc, selecting, moment);
        };
        match self.named.get(name) {
            None => Ok(Vec::new(alloc)),
            Some(sets) => self.rows_of(alloc, sets, selecting, moment),
        }
    }
}
