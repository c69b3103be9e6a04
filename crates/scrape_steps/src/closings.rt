//! The endings of the lives that a load or an update closes.
ghost use Rattle.std.specs.Prelude.{◌≡◌, ◌+◌, ◌++◌, ℕ, length, slice_get, option_copied};
ghost use Rattle.scrape_steps.specs.Endings as spec;

use crate::endings::Endings;
use end_of_run::due_at;
use scrape_machine::lives::Life;

/// From when on a sweep takes the ending of a life, where it is closed and its ending wasn't taken.
fn due_of(life: &Life) -> Option<u64>
    ensures { result ≡ spec.due_of life.now }
{
    let schedule = &life.schedule;
    match schedule.closed {
        None => None,
        Some(closed) => {
            if life.ended {
                return None;
            }
            Some(due_at(
                schedule.planned.ms(),
                closed.number(),
                schedule.interval.ms(),
            ))
        }
    }
}

/// Adds an ending that is due from a moment on, if there is one, into room that was made before.
fn add_due(endings: &mut Endings, number: usize, due: Option<u64>)
    requires { spec.HasRoom endings.old 1 }
    ensures added { spec.HoldSame (spec.ending_by number due ++ spec.waiting endings.old) (spec.waiting endings.new) }
    ensures room { (n : ℕ) → spec.HasRoom endings.old (n + 1) → spec.HasRoom endings.new n }
{
    match due {
        None => {}
        Some(due) => endings.add(due, number),
    }
}

/// Adds the ending of a life, where it waits, into room that was made before.
fn push_ending(endings: &mut Endings, number: usize, life: Option<&Life>)
    requires { spec.HasRoom endings.old 1 }
    ensures added { spec.HoldSame (spec.ending_there number (option_copied life.entry) ++ spec.waiting endings.old) (spec.waiting endings.new) }
    ensures room { (n : ℕ) → spec.HasRoom endings.old (n + 1) → spec.HasRoom endings.new n }
{
    match life {
        None => {}
        Some(life) => add_due(endings, number, due_of(life)),
    }
}

/// The life with a number, if there is one.
fn life_numbered(lives: &[Life], number: usize) -> Option<&Life>
    ensures { option_copied result ≡ slice_get lives.now number }
{
    lives.get(number)
}

/// Adds those endings of lives with some numbers that wait, into room that was made before.
pub fn push_endings(endings: &mut Endings, numbers: &[usize], lives: &[Life])
    requires { spec.HasRoom endings.old (length numbers.now) }
    ensures { spec.HoldSame (spec.endings_at lives.now numbers.now ++ spec.waiting endings.old) (spec.waiting endings.new) }
{
    for number in numbers {
        push_ending(endings, *number, life_numbered(lives, *number));
    }
}
