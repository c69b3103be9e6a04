//! What a selector is made of.
use label_set::{ListOf, Name, NoMemory};
use std::alloc::{AllocError, AllocFailed};

/// How a matcher compares the value of its label.
#[derive(Clone, Copy, PartialEq, Eq, Debug)]
pub enum Operator {
    /// `=`: the value is the text.
    Equal,
    /// `!=`: the value is another text.
    Unequal,
    /// `=~`: the text is a pattern that matches the whole value.
    Match,
    /// `!~`: the text is a pattern that doesn't match the whole value.
    Mismatch,
}

/// What is asked of the value of a label.
#[derive(Drop, Debug)]
pub struct Matcher {
    pub label: Name,
    pub operator: Operator,
    /// The text in quotes, with its escapes resolved.
    pub value: Name,
}

/// Matchers in order.
pub type MatcherList = ListOf<Matcher>;

/// A selector as it is written: a metric name, or none, and matchers.
#[derive(Drop, Debug)]
pub struct SelectorParts {
    pub name: Option<Name>,
    pub matchers: MatcherList,
}

/// Why a text gives no selector.
#[derive(Clone, Copy, PartialEq, Eq, Debug)]
pub enum SelectorError {
    /// The text is not written as a selector.
    Syntax,
    /// The syntax of `regex` doesn't read the pattern of a matcher, or it nests too deep.
    Pattern,
    /// There is no name, and each matcher holds for the empty text.
    Bare,
    /// An allocation failed.
    NoMemory,
}

impl From<AllocError> for SelectorError {
    ghost use Rattle.std.specs.Prelude.{◌≡◌};
    ghost use Rattle.instant_view.specs.declared.matchers.SelectorError.TheVariants as variants;

    ghost from_gives = { λ _ error. error ≡ variants.NoMemory };

    fn from(_: AllocError) -> SelectorError {
        SelectorError::NoMemory
    }
}

impl From<NoMemory> for SelectorError {
    ghost use Rattle.std.specs.Prelude.{◌≡◌};
    ghost use Rattle.instant_view.specs.declared.matchers.SelectorError.TheVariants as variants;

    ghost from_gives = { λ _ error. error ≡ variants.NoMemory };

    fn from(_: NoMemory) -> SelectorError {
        SelectorError::NoMemory
    }
}

impl<T: Drop> From<AllocFailed<T>> for SelectorError {
    ghost use Rattle.std.specs.Prelude.{◌≡◌};
    ghost use Rattle.instant_view.specs.declared.matchers.SelectorError.TheVariants as variants;

    ghost from_gives = { λ _ error. error ≡ variants.NoMemory };

    fn from(_refused: AllocFailed<T>) -> SelectorError {
        SelectorError::NoMemory
    }
}
