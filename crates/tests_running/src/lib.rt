//! Tests of the turns of `turn_lock`, and of `http_fetch` over links in memory: replies whole and cut at each place,
//! servers that mean no good, and links that fail at a call. What a case or a check shows on the built program isn't
//! shown again here: fetches over sockets, slow servers, and all that a core answers. There is no code here. What shows
//! each public call, by a test, by a file of cases in `crates/scrape_cases`, or by a script of `checks`:
//!
//! | public call | test, cases or check |
//! |---|---|
//! | `decode`, `Decoder::{new, feed, end}`, `receive::receive` | `replies::replies_whole_and_cut_at_each_place` |
//! | `Decoder::feed`, and that it is done | `replies::is_done_at`, which that test calls |
//! | `fields::{framing_of, kind_of}`, the kinds of a body | within `Decoder::feed` |
//! | `HttpFetch::{new, fetch}`, `exchange::exchange`, `requests::text_of` | `fetches`; `checks/live` |
//! | `stages::{is_done, is_body, frame_step, body_step}` | within `Decoder::feed` |
//! | `laws::{last_read, one_reply}` | contract alone |
//! | `Core::{take, runs, book, events}`, `replay` | `scripts`, `updates`, `synths`; `checks/scripts` |
//! | the answers of `Core::take` | `reloads`, `updates`; `scrape_cli`, by what is said of control lines |
//! | `Core::step`, `Core::finish_read` | contract alone: they are `take` and `take_read`, and cite laws |
//! | `Core::{now, moment, due}` | contract alone |
//! | `Core::{journal, wake, request, started, jobs, halt}` | `checks/live`, whose trail replays to its book |
//! | `Core::take_read` | `checks/live` |
//! | `ReadEvent` | within `Core::take` and `Core::take_read` |
//! | `Core::{new, seeded}` | `scrape_cli`, `a_core_hashes_with_its_seed` |
//! | `Core::let_go` | every case goes through it |
//! | `TurnLock::{new, take, give, add, rest, close}` | `turns::two_threads_take_turns` |
//! | `TurnLock::wake` | none: it only wakes |
//! | the calls of `jobs_in_force` and `scrape_steps` | `reloads`, `updates`, `endings` |
#![tactic(auto)]

#[cfg(test)]
mod fetches;
#[cfg(test)]
mod hostile;
#[cfg(test)]
mod replies;
#[cfg(test)]
mod turns;

#[cfg(test)]
use std::process::Abort;

/// Ends the test where something doesn't hold, with what was looked at.
#[cfg(test)]
pub(crate) fn holds(rt: &impl Abort, is_so: bool, what: &str) {
    assert!(rt; is_so, "wrong at [{what}]");
}
