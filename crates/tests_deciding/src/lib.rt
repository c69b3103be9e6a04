//! Tests of the crates that decide: targets, label conflicts, replies, reports, endings, rolls, scrapes, instant views.
//! They show that each call succeeds where there is memory, and what no case of `scrape_cases` shows; a file of cases
//! stands here by its name. There is no code here. What shows each public call, a test or what a test calls:
//!
//! | public call | test, or cases |
//! |---|---|
//! | `targets_with_files`, `SharedGroups` | `scrape_cases::targets`, `updates` |
//! | `targets_of`, `listed_within` | `targets::{listed_targets_are_told, listed_targets_are_counted}` |
//! | `request_of` | `targets::requests` |
//! | `merge` | `conflicts`, and within it `merge_borrowed`, `BorrowedTarget::of`, `labels_in`; `scrape_cases::conflicts` |
//! | `always_free` | contract alone |
//! | `sample_rows::rows`, and within it `early_fault`, `judged`, `body_of`, `form_of` | `replies` |
//! | `row_set` | `scrape_cases::limits`, `scripts` |
//! | `SeriesCache::{new, hashed, hash_of}` | `scrapes` |
//! | `SeriesCache::{put, look, show, stamp, turn, is_empty}` | within `LifeState::count`; `texts`, `tracked` |
//! | `SeriesCache::{vanished, added}` | the same |
//! | `SeriesCache::undo` | the same; `texts`, `scrape_cases::limits` |
//! | `SeriesCache::{put_count, tracked_list, clear}` | within `LifeState`; `synths`, `scrape_cases::endings` |
//! | `reports` | `reports` |
//! | `ReportSets::{of, reports, target, markers}`, `report_set`, `stale_entry` | `scripts`, `tracked`, `endings` |
//! | `marker_at`, `due_at`, `ending_entries` | `endings` of the cases |
//! | `Endings::{new, reserve, add, due, entries, take}` | `endings::an_ending_is_taken_once` |
//! | `Roll::{new, reserve, sync, begin, land, cancel, flight_of, lives, next_ticket}` | `rolls` |
//! | `Schedule`, `JobNames`, `Seats`, `Wishes` | within `Roll`, and `scrape_core`; `reloads` |
//! | `Book::{new, append_all}` | `instants::is_followed`, with `books`; `verdicts` |
//! | `Book::{reserve, append, verdict, entry, len}` | within `append_all` and `View::follow`; `verdicts`, `texts` |
//! | `Book::{series_at, series_count, entry_of, longest_value}` | within `book_text`'s calls; `texts` |
//! | `Book::{seeded, hasher}`, `LifeState::hash_of` | `scrapes::texts_are_hashed_with_the_seed_of_the_book` |
//! | `laws_of_verdicts` | contract alone |
//! | `Selector::{read, selects}` | `instants::{texts_are_selectors, sets_are_selected}`; `selectors` |
//! | `View::{new, follow, instant}` | `instants::is_followed`; `scrape_cases::instants` |
//! | `has_one_reading` of selectors, `laws_of_views` | contract alone |
//! | `LifeState::{new, count, scraped, force, release}` | `scrapes`; `scripts`, `texts`, `scrape_cases::limits` |
//! | `LifeState::{target, force_entries, closing}` | `scrape_cases::{limits, endings}` |
//! | `ReadReply::of` | `scrapes` |
//! | `ReadReply::{with, into_reply}`, `LifeState::read` | within `Core::take`; `texts` |
//!
//! The core's own calls are shown by `tests_running`, with what runs over it.
#![tactic(auto)]

#[cfg(test)]
mod books;
#[cfg(test)]
mod conflicts;
#[cfg(test)]
mod endings;
#[cfg(test)]
mod instants;
#[cfg(test)]
mod replies;
#[cfg(test)]
mod reports;
#[cfg(test)]
mod rolls;
#[cfg(test)]
mod scrapes;
#[cfg(test)]
mod shared;
#[cfg(test)]
mod targets;
