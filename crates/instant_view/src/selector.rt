//! Selectors, read and ready to be asked.
ghost use Rattle.std.specs.Prelude.{◌≡◌, All, IfErr, IfOk, IfSome, option_map, false};
ghost use Rattle.std.specs.List.{list_all};
ghost use Rattle.instant_view.specs.Grammar as grammar;
ghost use Rattle.instant_view.specs.Selectors as spec;

use crate::matchers::{SelectorError, SelectorParts};
use crate::reading::selector_in;
use crate::tests::{Test, Tester, built, name_among, testers};
use label_set::{LabelSet, Name, NoMemory};
use std::alloc::Global;
use std::marker::Model;

/// A selector whose patterns are built. Contracts see its name and its matchers.
#[derive(Drop)]
pub struct Selector {
    name: Option<Name>,
    tests: Vec<Test>,
}

impl Model for Selector {
    ghost use Rattle.instant_view.specs.Forms.{parts_of};
    ghost use Rattle.instant_view.specs.declared.matchers.SelectorParts.{SelectorParts};

    ghost Value = { SelectorParts };

    ghost view = { λ s. parts_of s.name s.tests.items };
}

/// Whether each of the matchers holds of the empty text.
fn all_hold_of_nothing(alloc: Global, tests: &[Test]) -> Result<bool, NoMemory>
    ensures { IfOk result (λ b. b ≡ list_all spec.holds_of_nothing tests.now) }
{
    for test in tests {
        if !test.tester().holds(alloc, "")? {
            return Ok(false);
        }
    }
    Ok(true)
}

/// Whether each of the matchers holds of a set.
fn all_hold(alloc: Global, testers: &mut [Tester<'_>], set: &LabelSet) -> Result<bool, NoMemory>
    ensures holds { IfOk result (λ b. b ≡ list_all (spec.holds_in set.now) testers.old) }
    ensures same { testers.new ≡ testers.old }
{
    for tester in testers.iter_mut() {
        if !tester.holds_in(alloc, set)? {
            return Ok(false);
        }
    }
    Ok(true)
}

/// Whether the name is that of a set, where there is a name.
fn is_of_name(name: &Option<Name>, set: &LabelSet) -> bool
    ensures { result ≡ spec.is_of_name name.now set.now }
{
    match name {
        None => true,
        Some(name) => set.get("__name__").unwrap_or("") == name.as_str(),
    }
}

impl Selector {
    /// Reads a selector. `Syntax` comes exactly where the text isn't written as one, and is looked for first; then `Pattern`, which comes only
    /// where a pattern isn't one; then `Bare`, which comes exactly where there is no name and each matcher holds for the empty text.
    pub fn read(alloc: Global, text: &str) -> Result<Selector, SelectorError>
        ensures written { IfOk result (λ s. grammar.IsSelector text.now s) }
        ensures patterns { IfOk result (λ s. All spec.IsBuilt s.matchers) }
        ensures some { IfOk result (λ s. spec.is_bare s ≡ false) }
        ensures refused { IfErr result (λ e. spec.Refuses e text.now) }
    {
        match selector_in(alloc, text.as_bytes()) {
            Ok(parts) => Selector::ready(alloc, parts),
            Err(fault) => Err(fault),
        }
    }

    /// Builds the patterns of a selector that was read, and refuses a bare one.
    fn ready(alloc: Global, parts: SelectorParts) -> Result<Selector, SelectorError>
        ensures parts { IfOk result (λ s. s ≡ parts) }
        ensures patterns { IfOk result (λ s. All spec.IsBuilt s.matchers) }
        ensures some { IfOk result (λ s. spec.is_bare s ≡ false) }
        ensures refused { IfErr result (λ e. spec.PartsRefused e parts) }
    {
        let tests = match built(alloc, parts.matchers.as_slice()) {
            Ok(tests) => tests,
            Err(fault) => return Err(fault),
        };
        let selector = Selector {
            name: parts.name,
            tests,
        };
        if selector.is_bare(alloc)? {
            return Err(SelectorError::Bare);
        }
        Ok(selector)
    }

    fn is_bare(&self, alloc: Global) -> Result<bool, NoMemory>
        ensures { IfOk result (λ b. b ≡ spec.is_bare self.now) }
    {
        if self.name.is_some() {
            return Ok(false);
        }
        all_hold_of_nothing(alloc, &self.tests)
    }

    /// The metric name in front, if there is one.
    pub fn name(&self) -> Option<&str>
        ensures { option_map (λ n. n.now) result ≡ self.now.name }
    {
        match &self.name {
            None => None,
            Some(name) => Some(name.as_str()),
        }
    }

    /// The selector with room for matchers of its patterns, to be asked of many sets.
    pub fn selecting(&self, alloc: Global) -> Result<Selecting<'_>, NoMemory>
        ensures { IfOk result (λ s. s ≡ self.now) }
    {
        Ok(Selecting {
            selector: self,
            testers: testers(alloc, &self.tests)?,
        })
    }

    /// Whether a set is selected.
    pub fn selects(&self, alloc: Global, set: &LabelSet) -> Result<bool, NoMemory>
        ensures { IfOk result (λ b. b ≡ spec.selects self.now set.now) }
    {
        self.selecting(alloc)?.selects(alloc, set)
    }
}

/// A selector that is asked of many sets: it keeps the matchers of its patterns. Contracts see the selector.
#[derive(Drop)]
pub struct Selecting<'s> {
    selector: &'s Selector,
    testers: Vec<Tester<'s>>,
}

impl<'s> Model for Selecting<'s> {
    ghost use Rattle.std.specs.Prelude.{◌≡◌};
    ghost use Rattle.instant_view.specs.declared.matchers.SelectorParts.{SelectorParts};

    ghost Value = { SelectorParts };

    ghost view = { λ s. s.selector.now };

    ghost invariant = { λ s. s.testers.items ≡ s.selector.now.matchers };
}

impl<'s> Selecting<'s> {
    /// The name of each set that is selected, where the selector asks for one name: that in front, or the text of a matcher.
    pub(crate) fn name(&self) -> Option<&'s Name>
        ensures { IfSome result (λ n. spec.IsNameOf self.now n.now) }
    {
        let selector = self.selector;
        match &selector.name {
            Some(name) => Some(name),
            None => name_among(&selector.tests),
        }
    }

    /// Whether a set is selected.
    #[tactic(auto, unfolding(crate::specs::Selectors::selects))]
    pub fn selects(&mut self, alloc: Global, set: &LabelSet) -> Result<bool, NoMemory>
        ensures selected { IfOk result (λ b. b ≡ spec.selects self.old set.now) }
        ensures same { self.new ≡ self.old }
    {
        let selector = self.selector;
        if !is_of_name(&selector.name, set) {
            return Ok(false);
        }
        all_hold(alloc, self.testers.as_mut_slice(), set)
    }
}

/// The law that a text gives one selector at most. It does nothing.
pub fn has_one_reading()
    ensures { grammar.HasOneReading }
{}
