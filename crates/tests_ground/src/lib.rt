//! Tests of the ground: `label_set`, `outside` and `os_streams`. What a case or a check shows on the built program
//! isn't shown again here: what stays are calls that the program doesn't make, and what a signal or a slow server does
//! to an input and a link. There is no code here. What shows each public call, by a test, by a file of cases in
//! `crates/scrape_cases`, or by a script of `checks`:
//!
//! | public call | test, cases or check |
//! |---|---|
//! | `Name::{from_str, copy, as_str}`, `ListOf::as_slice` | `relabelling`, whose rules are copied |
//! | `Blob::{from_slice, as_slice}`, `Blob::copy` | `scripts`; `checks/live`, whose bodies are copied |
//! | `Pair::{from_strs, label}`, `borrowed` | `targets` |
//! | `Pair::copy` | `label_sets::is_copied`, which a test calls |
//! | `is_label_name`, `is_metric_name` | `fields`, `bodies` |
//! | `LabelSet::{of, from_labels, labels, with_all, len, get}` | `targets`, `conflicts`, `relabelling` |
//! | `LabelSet::{with, copy, eq, hash, cmp}` | `scripts`, `instants`, `updates` |
//! | `LabelSet::append_text` | `bodies`, `quoted` |
//! | `LabelSet::{with_any, write_text, is_same, at}` | `label_sets::a_set_of_any_names_is_made` |
//! | `LabelSet::without` | within `with_any` |
//! | `Form` | `quoted` |
//! | `LabelSet::with_label`, `Labels::{value_of, at}` | within `with_any`, `get` and `at` |
//! | `LabelSet::{empty, is_empty}`, `Labels::again` | contract alone |
//! | `Steps::{open, tick}` | `synths`, which tell how often rules are run |
//! | `Steps::of` | contract alone |
//! | `ValueText::{check, keep, keep_checked, copy, bytes}` | `bodies`, `instants` |
//! | `ValueText::{of_count, of_millis}`, `seconds_text` | `tracked`, `scripts` |
//! | `write_seconds3` | `tests_running::fetches`; `checks/live` |
//! | `read_millis`, `read_duration` | `bodies`, `fields` |
//! | `to_number`, `number_of`, `digit_count`, `is_number`, `without_sign`, `reads_the_values` | contract alone |
//! | `MemShelf`, `SureShelf`, `MemSink`, `SureSink`, `MemSource`, `SureSource` | the tests of `scrape_cli` |
//! | `MemClock`, `MemFetch` | the tests of `scrape_cli` |
//! | `FileShelf`, `FileSink`, `StdSink` | `checks/ends` |
//! | `StdSource` | `inputs::reads_that_signals_break_off_are_made_again`; `checks/ends` |
//! | `SystemClock` | `checks/live` |
//! | `MemLink`, `SureLink` | `tests_running::fetches` |
//! | `TcpLink` | `links::all_reads_together_keep_the_timeout`; `checks/live` |
//! | `SureFetch` | `fetches::is_given`, which a test of `inputs` calls |
//! | `is_scheme`, `scheme_of`, `scheme_text` | `targets`, `fields` |
//! | `note_call` | within `SureFetch::fetch` |
#![tactic(auto)]

#[cfg(test)]
mod fetches;
#[cfg(test)]
mod inputs;
#[cfg(test)]
mod label_sets;
#[cfg(test)]
mod links;

#[cfg(test)]
use std::process::Abort;

/// Ends the test where something doesn't hold, with what was looked at.
#[cfg(test)]
pub(crate) fn holds(rt: &impl Abort, is_so: bool, what: &str) {
    assert!(rt; is_so, "wrong at [{what}]");
}
