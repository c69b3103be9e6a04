//! The open lives of a core: what of each is shown to who asks for the targets.
ghost use Rattle.std.specs.Prelude.{◌≡◌, filter, length, option_map, slice_get};
ghost use Rattle.scrape_core.specs.Kept.{IsListed};
ghost use Rattle.scrape_core.specs.OpenLives as spec;
ghost use Rattle.scrape_machine.specs.Lives.{is_open};

use crate::state::State;
use label_set::LabelSet;
use scrape_loop::Health;
use scrape_steps::concerned::Lives;

/// An open life, as it is shown to who asks for the targets.
#[derive(Drop)]
pub struct OpenLife<'a> {
    /// Its number.
    pub life: u64,
    /// The labels of its target.
    pub labels: &'a LabelSet,
    /// How the target is, by the last scrape of it that counted.
    pub health: Health,
}

/// How many lives are open.
pub fn open_count_in(state: &State) -> usize
    requires { IsListed state.now }
    ensures { result ≡ length (filter is_open state.now.lives.items) }
{
    let lives = Lives::open(&state.lives, &state.open_lives);
    lives.count()
}

/// The open life at a place, by rising number.
pub fn open_life_in(state: &State, place: usize) -> Option<OpenLife<'_>>
    requires { IsListed state.now }
    ensures { option_map spec.seen result ≡ option_map spec.shown (slice_get (filter is_open state.now.lives.items) place) }
{
    let lives = Lives::open(&state.lives, &state.open_lives);
    if lives.count() <= place {
        return None;
    }
    let state = &lives.at(place).state;
    Some(OpenLife {
        life: state.number(),
        labels: state.target(),
        health: state.health(),
    })
}
