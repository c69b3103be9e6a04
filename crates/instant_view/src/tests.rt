//! Matchers with their patterns.
ghost use Rattle.std.specs.Prelude.{◌≡◌, All, IfErr, IfOk, IfSome, IsSome, Some};
ghost use Rattle.pattern_rule.specs.Patterns as patterns;
ghost use Rattle.instant_view.specs.Selectors as spec;
ghost use Rattle.instant_view.specs.Tests as tests;

use crate::matchers::{Matcher, Operator, SelectorError};
use label_set::{LabelSet, Name, NoMemory};
use pattern_rule::{Matching, Pattern, PatternError};
use std::alloc::Global;
use std::marker::Model;

/// A matcher whose pattern is built, where it has one. Contracts see the matcher.
#[derive(Drop)]
pub struct Test {
    matcher: Matcher,
    pattern: Option<Pattern>,
}

impl Model for Test {
    ghost use Rattle.std.specs.Prelude.{◌≡◌};
    ghost use Rattle.instant_view.specs.Tests.{pattern_of};
    ghost use Rattle.instant_view.specs.declared.matchers.Matcher.{Matcher};

    ghost Value = { Matcher };

    ghost view = { λ t. t.matcher };

    ghost invariant = { λ t. t.pattern ≡ pattern_of t.matcher };
}

/// The pattern of a matcher, built, where it has one.
fn pattern_of(alloc: Global, matcher: &Matcher) -> Result<Option<Pattern>, SelectorError>
    ensures pattern { IfOk result (λ p. p ≡ tests.pattern_of matcher.now) }
    ensures built { IfOk result (λ _. spec.IsBuilt matcher.now) }
    ensures refused { IfErr result (λ e. tests.IsFaultOf e matcher.now) }
{
    match matcher.operator {
        Operator::Equal => Ok(None),
        Operator::Unequal => Ok(None),
        Operator::Match => built_pattern(alloc, matcher.value.as_str()),
        Operator::Mismatch => built_pattern(alloc, matcher.value.as_str()),
    }
}

/// A pattern, built.
fn built_pattern(alloc: Global, text: &str) -> Result<Option<Pattern>, SelectorError>
    ensures pattern { IfOk result (λ p. p ≡ Some text.now) }
    ensures built { IfOk result (λ _. patterns.IsPattern text.now) }
    ensures refused { IfErr result (λ e. tests.IsPatternFault e text.now) }
{
    match Pattern::build(alloc, text) {
        Ok(pattern) => Ok(Some(pattern)),
        Err(PatternError::BadPattern) => Err(SelectorError::Pattern),
        Err(PatternError::NoMemory) => Err(SelectorError::NoMemory),
    }
}

fn copied(alloc: Global, matcher: &Matcher) -> Result<Matcher, NoMemory>
    ensures { IfOk result (λ m. m ≡ matcher.now) }
{
    let label = matcher.label.copy(alloc)?;
    let value = matcher.value.copy(alloc)?;
    Ok(Matcher {
        label,
        operator: matcher.operator,
        value,
    })
}

impl Test {
    fn build(alloc: Global, matcher: &Matcher) -> Result<Test, SelectorError>
        ensures matcher { IfOk result (λ t. t ≡ matcher.now) }
        ensures built { IfOk result (λ _. spec.IsBuilt matcher.now) }
        ensures refused { IfErr result (λ e. tests.IsFaultOf e matcher.now) }
    {
        let pattern = pattern_of(alloc, matcher)?;
        let matcher = copied(alloc, matcher)?;
        Ok(Test { matcher, pattern })
    }

    /// The name of each set of which the matcher holds, where it asks for one name.
    fn name(&self) -> Option<&Name>
        ensures { IfSome result (λ n. spec.IsNameBy self.now n.now) }
    {
        match self.matcher.operator {
            Operator::Equal => {
                if self.matcher.label.as_str() == "__name__" {
                    return Some(&self.matcher.value);
                }
                None
            }
            Operator::Unequal => None,
            Operator::Match => None,
            Operator::Mismatch => None,
        }
    }

    /// The matcher with room for one of its pattern.
    pub fn tester(&self) -> Tester<'_>
        ensures { result ≡ self.now }
    {
        let matching = match &self.pattern {
            None => None,
            Some(pattern) => Some(pattern.matching()),
        };
        Tester {
            test: self,
            matching,
        }
    }
}

/// The name of each set of which the matchers hold, where one of them asks for one name.
pub fn name_among(tests: &[Test]) -> Option<&Name>
    ensures { IfSome result (λ n. spec.IsNameAmong tests.now n.now) }
{
    for test in tests {
        if let Some(name) = test.name() {
            return Some(name);
        }
    }
    None
}

/// Builds the patterns of matchers.
pub fn built(alloc: Global, matchers: &[Matcher]) -> Result<Vec<Test>, SelectorError>
    ensures matchers { IfOk result (λ v. v.items ≡ matchers.now) }
    ensures built { IfOk result (λ _. All spec.IsBuilt matchers.now) }
    ensures refused { IfErr result (λ e. tests.IsFaultAmong e matchers.now) }
{
    let mut built = Vec::with_capacity(alloc, matchers.len())?;
    for matcher in matchers {
        built.push(Test::build(alloc, matcher)?)?;
    }
    Ok(built)
}

/// Room for matchers of the patterns.
pub fn testers<'s>(alloc: Global, tests: &'s [Test]) -> Result<Vec<Tester<'s>>, NoMemory>
    ensures { IfOk result (λ v. v.items ≡ tests.now) }
{
    let mut testers = Vec::with_capacity(alloc, tests.len())?;
    for test in tests {
        testers.push(test.tester())?;
    }
    Ok(testers)
}

/// A matcher that is asked of many values: it keeps the matcher of its pattern. Contracts see the matcher of the selector.
#[derive(Drop)]
pub struct Tester<'s> {
    test: &'s Test,
    matching: Option<Matching<'s>>,
}

impl<'s> Model for Tester<'s> {
    ghost use Rattle.std.specs.Prelude.{◌≡◌};
    ghost use Rattle.instant_view.specs.Tests.{pattern_of};
    ghost use Rattle.instant_view.specs.declared.matchers.Matcher.{Matcher};

    ghost Value = { Matcher };

    ghost view = { λ t. t.test.now };

    ghost invariant = { λ t. t.matching ≡ pattern_of t.test.now };
}

/// Whether the pattern of a matcher matches a whole text.
fn matches(alloc: Global, matching: &mut Option<Matching<'_>>, text: &str) -> Result<bool, NoMemory>
    requires { IsSome matching.old }
    ensures found { IfOk result (λ b. IfSome matching.old (λ p. b ≡ patterns.matches p text.now)) }
    ensures same { matching.new ≡ matching.old }
{
    match matching {
        Some(matching) => matching.full_match(alloc, text),
        None => Err(NoMemory),
    }
}

impl<'s> Tester<'s> {
    /// Whether the matcher holds of a value.
    pub fn holds(&mut self, alloc: Global, value: &str) -> Result<bool, NoMemory>
        ensures holds { IfOk result (λ b. b ≡ spec.holds self.old value.now) }
        ensures same { self.new ≡ self.old }
    {
        let test = self.test;
        let text = test.matcher.value.as_str();
        match test.matcher.operator {
            Operator::Equal => Ok(value == text),
            Operator::Unequal => Ok(value != text),
            Operator::Match => matches(alloc, &mut self.matching, value),
            Operator::Mismatch => Ok(!matches(alloc, &mut self.matching, value)?),
        }
    }

    /// Whether the matcher holds of a set.
    pub fn holds_in(&mut self, alloc: Global, set: &LabelSet) -> Result<bool, NoMemory>
        ensures holds { IfOk result (λ b. b ≡ spec.holds_in set.now self.old) }
        ensures same { self.new ≡ self.old }
    {
        let test = self.test;
        let value = set.get(test.matcher.label.as_str()).unwrap_or("");
        self.holds(alloc, value)
    }
}
