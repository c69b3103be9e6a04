//! The configuration of a scrape manager, read from JSON: its jobs after defaults, or the one fault that is to be mended first.
//! `read_conf` reads a configuration and `read_groups` the list of a file of groups; `JobConf::same` and `JobConf::compatible` compare settings.
//! Contracts see a configuration as itself, with its lists as lists and its texts as lists of bytes; what each field may hold
//! is defined in the tables of `config_fields`, and a fault is the first of the least number in the walk through the text.
//! Tests: `tests_reading::configurations`; cases: `scrape_cases::{fields, checked}`.
#![tactic(auto)]

mod conf;
mod counts;
mod defaults;
mod fault;
mod lists;
mod read;
mod settings;
mod values;

pub use conf::{Conf, Group, GroupList, Job, JobConf, JobList, Param, ParamList};
pub use config_fields::ConfFault;
pub use counts::{MOST_FILES, MOST_JOBS, MOST_TARGETS};
pub use fault::ConfError;
pub use outside::Scheme;
pub use read::{read_conf, read_groups};
pub use settings::comparing_decides;
