//! What a core keeps of the events that it took.
use jobs_in_force::jobs::InForce;
use scrape_machine::lives::{Life, StartedScrape};
use scrape_steps::endings::Endings;

/// What the events so far come to.
#[derive(Drop)]
pub struct State {
    /// The configuration in force.
    pub jobs: Vec<InForce>,
    /// The lives, by number.
    pub lives: Vec<Life>,
    /// The numbers of the open lives, rising.
    pub open_lives: Vec<usize>,
    /// The endings of closed lives that weren't taken.
    pub endings: Endings,
    /// The started scrapes, by ticket.
    pub started: Vec<StartedScrape>,
    /// Whether a halt came.
    pub halted: bool,
}
