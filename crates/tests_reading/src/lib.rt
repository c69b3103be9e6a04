//! Tests of the readers: tokens and bodies, patterns and rules, configurations, control lines, journals and requests.
//! They show that each call succeeds where there is memory, and what no case of `scrape_cases` shows; a file of cases
//! stands here by its name. There is no code here. What shows each public call, a test or what a test calls:
//!
//! | public call | test, or cases |
//! |---|---|
//! | `Lexer::{over, next}` | `tokens` |
//! | `expo_lexer::scan` | within `Lexer::next` |
//! | `read_body`, `ReadBody::{form, rows, bytes, into_bytes}` | `bodies::a_body_has_its_bytes_and_rows` |
//! | `ReadBody::{len, row}` | `bodies`; `scrape_cases::bodies` |
//! | `read_form`, `read_like`, `LikeBody`, `RawTexts` | `bodies::a_body_like_another_is_read_as_alone`; `texts` |
//! | `NoTexts` | within `read_form` |
//! | `SampleRow`, `BorrowedLabel`, `BorrowedText` | `bodies`; `scrape_cases::{bodies, quoted}` |
//! | `BodyReader::{of, feed, finish}`, `Unread`, `BodyCause` | `bodies::where_a_body_is_cut_makes_no_difference` |
//! | `BodyReader::new` | contract alone: it is `of` |
//! | `reads_the_format`, `has_one_reading`, `plain_reads_quoted`, `raw_texts_tell` | contract alone |
//! | `expo_reader::{faults, names, parts, texts}` | within `read_body`, `Selector::read` and `convert` |
//! | `convert`, `OmError` | `openmetrics`; `conversions` |
//! | `om_reader::{reads_the_format, has_one_reading, keeps_rows}` | contract alone |
//! | `Pattern::{build, as_str, full_match, expand}`, `Matching::expand` | `patterns::whole_texts_are_matched` |
//! | `Pattern::{filling, matching}`, `Matching::{full_match, fill, fill_both}` | within `Runner::process` |
//! | `read_or_refused` | contract alone |
//! | `Rules::process` | `rules` |
//! | `Rules::{build, runner}`, `Runner::process` | `relabelling` |
//! | `RuleConf::{copy, fault}` | within `Rules::build`; `fields`, `relabelling` |
//! | `judge`, `too_many`, `body_limit`, `exceeds` | `scrape_cases::limits` |
//! | `at_field`, `at_item` | within `read_conf`; `fields` |
//! | `config_fields::{fault, forms, tables, walks}` | within `read_conf`; `fields`, `checked` |
//! | `read_conf` | `configurations::configurations_have_limits`; `fields`, `checked` |
//! | `read_groups` | `configurations::lists_of_files_are_read`; `updates` |
//! | `JobConf` and its lists | `scrape_cases::limits`, `targets`, `updates`, `relabelling` |
//! | `JobConf::{compatible, same}` | `reloads` |
//! | `comparing_decides` | contract alone |
//! | `command_in`, `is_name` | `control::lines_are_commands`; `scrape_cli`'s test `live::run_with_control_lines` |
//! | `message_of` | the same two |
//! | `faults::{fault_word, fault_place, push_fault}` | `configurations`; `fields` |
//! | `read_journal` | `journals::texts_are_refused`; `broken` |
//! | `write_version`, `Version` | `journals::is_written` |
//! | `read_front` | `checks/ends`; `scrape_cases::cuts` |
//! | `Journal::{new, reserve, push, into_events, len, is_empty, now}` | `journals::events_are_pushed` |
//! | `write_journal` | the same |
//! | `Journal::events` | within `write_version` |
//! | `texts_tell_apart` | contract alone |
//! | `front_at` | `requests::requests_are_read` |
//! | `selectors_of` | `requests::selectors_are_decoded` |
//! | `request_heads::pages` | within `front_at` |
#![tactic(auto)]

#[cfg(test)]
mod bodies;
#[cfg(test)]
mod configurations;
#[cfg(test)]
mod control;
#[cfg(test)]
mod journals;
#[cfg(test)]
mod openmetrics;
#[cfg(test)]
mod patterns;
#[cfg(test)]
mod requests;
#[cfg(test)]
mod rules;
#[cfg(test)]
mod shared;
#[cfg(test)]
mod tokens;
