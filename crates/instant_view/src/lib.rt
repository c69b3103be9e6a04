//! What a query sees of a book at a moment: selectors, and the instant view.
//! A selector is read of its text, with its patterns built, and asked of label sets. A view keeps the kept entries of a book with their places and
//! follows the book as it grows. For each series it has the end of its last entry, and for each entry links to earlier ones of its series, so that
//! an instant goes back from the last entry of each series, in steps that grow with the logarithm of how many there are, and never over the book.
//! For each name it has the series: a selector that asks for one name, in front or by a matcher with `=`, is asked of these alone, and else of each
//! series that the view has.
//! Contracts see a selector as its name and its matchers, and a view as how many entries of a book it has gone over and which of these are kept;
//! `specs/Grammar.antt` says how selectors are written, `specs/Selectors.antt` what they select, and `specs/Views.antt` what is seen at a moment.
//! Tests: `tests_deciding::instants`.
#![tactic(auto)]

mod links;
pub mod matchers;
mod names;
mod parts;
mod reading;
pub mod rows;
pub mod selector;
mod tests;
mod texts;
mod threads;
pub mod view;

pub use matchers::{Matcher, MatcherList, Operator, SelectorError, SelectorParts};
pub use rows::{Placed, ViewRow, ViewRows};
pub use selector::{Selecting, Selector, has_one_reading};
pub use view::{View, laws_of_views};
