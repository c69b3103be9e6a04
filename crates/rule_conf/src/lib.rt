//! The settings of a rule of relabelling, and which fields of it are refused (`specs/Refusals.antt`). What rules do is in `relabel`.
//! They stand apart since whoever reads a configuration wants the settings alone, and no pattern.
//! Tests: `tests_reading::rules`; cases: `scrape_cases::relabelling`.
#![tactic(auto)]

pub mod conf;

pub use conf::{Action, RuleConf, RuleFault, RuleField, RuleList};
