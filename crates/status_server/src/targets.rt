//! The page of the targets.
ghost use Rattle.std.specs.Prelude.{◌≡◌, ◌++◌, OnOk};
ghost use Rattle.scrape_core.specs.OpenLives.{open_life, seen};
ghost use Rattle.status_server.specs.Targets as spec;

use itoa::Buffer;
use label_set::NoMemory;
use scrape_core::{Core, OpenLife};
use scrape_loop::Health;

/// The word of a health, between blanks.
fn word(health: Health) -> &'static [u8]
    ensures { result.now ≡ spec.word health }
{
    match health {
        Health::Unknown => b" unknown ",
        Health::Up => b" up ",
        Health::Down => b" down ",
    }
}

/// Appends the line of a target.
fn push_target(text: &mut Vec<u8>, life: &OpenLife<'_>) -> Result<(), NoMemory>
    ensures added { OnOk result (text.new.items ≡ text.old.items ++ spec.line (seen life.now)) }
{
    let mut buffer = Buffer::new();
    text.extend_from_slice(buffer.format(life.life).as_bytes())?;
    text.extend_from_slice(word(life.health))?;
    life.labels.append_text(text)?;
    text.push(b'\n')?;
    Ok(())
}

/// Appends the line of the open life at a place, if there is one.
fn push_place(text: &mut Vec<u8>, core: &Core, place: usize) -> Result<(), NoMemory>
    ensures added { OnOk result (text.new.items ≡ text.old.items ++ spec.line_of (open_life core.now place)) }
{
    match core.open_life(place) {
        None => Ok(()),
        Some(life) => push_target(text, &life),
    }
}

/// Appends the page of the targets: a line each, by the number of their lives, with that number, `up`, `down` or `unknown`, and the labels.
///
/// # Errors
///
/// The only error is out of memory; a front of the page may stand in the text then.
pub fn push_targets(text: &mut Vec<u8>, core: &Core) -> Result<(), NoMemory>
    ensures added { OnOk result (text.new.items ≡ text.old.items ++ spec.page core.now) }
{
    for place in 0..core.open_count() {
        push_place(text, core, place)?;
    }
    Ok(())
}
