//! Links from each kept entry to earlier ones of its series. An end is one more than a place in the list of kept entries, and 0 where there is none.
ghost use Rattle.std.specs.Prelude.{◌≡◌, ◌⊎◌, List, false, length};
ghost use Rattle.label_set.specs.declared.texts.Pair.{Pair};
ghost use Rattle.instant_view.specs.Threads as spec;

use crate::rows::Placed;

/// Where earlier entries of a series are found.
#[derive(Clone, Copy, Debug)]
pub struct Link {
    /// The end of the one before.
    pub previous: usize,
    /// The end of one that stands further back: by these each earlier one is reached in few steps.
    pub jump: usize,
    /// How many of the series there are, with this one.
    pub depth: usize,
}

/// No entry has these.
const NO_LINK: Link = Link {
    previous: 0,
    jump: 0,
    depth: 0,
};

/// The links of the entry with an end.
fn link_at(links: &[Link], end: usize) -> Link
    ensures { result ≡ spec.link_at links.now end }
{
    match end.checked_sub(1) {
        None => NO_LINK,
        Some(place) => links.get(place).copied().unwrap_or(NO_LINK),
    }
}

/// The links of the next entry of a series, where this is the end of its last one.
pub fn link_behind(links: &[Link], end: usize) -> Link
    ensures previous { result.previous ≡ end }
    ensures jump { (result.jump ≡ end) ⊎ (result.jump ≡ spec.twice_back links.now end) }
{
    let last = link_at(links, end);
    let far = link_at(links, last.jump);
    let further = link_at(links, far.jump);
    let near = last.depth.saturating_sub(far.depth);
    let jump = if near == far.depth.saturating_sub(further.depth) {
        far.jump
    } else {
        end
    };
    Link {
        previous: end,
        jump,
        depth: last.depth.saturating_add(1),
    }
}

/// Whether there is an entry with an end, and its moment is later than another.
fn is_later(kept: &[Placed], end: usize, moment: i64) -> bool
    ensures { result ≡ spec.is_later kept.now end moment }
{
    match end.checked_sub(1) {
        None => false,
        Some(place) => match kept.get(place) {
            None => false,
            Some(placed) => placed.entry.moment > moment,
        },
    }
}

/// The end of an earlier entry of a series, where those between are later than a moment.
fn step_back(kept: &[Placed], links: &[Link], end: usize, moment: i64) -> usize
    ensures { result ≡ spec.step_back kept.now links.now end moment }
{
    let link = link_at(links, end);
    if is_later(kept, link.jump, moment) {
        return link.jump;
    }
    link.previous
}

/// The end of the last entry of a series that isn't later than a moment, where this is the end of its last one.
pub fn end_by(kept: &[Placed], links: &[Link], end: usize, moment: i64) -> usize
    requires rise { spec.Rise kept.now }
    requires linked { spec.AreLinked kept.now links.now }
    ensures early { spec.is_later kept.now result moment ≡ false }
    ensures back { (series : List Pair) → spec.IsLastOf kept.now series (length kept.now) end → spec.IsBackTo kept.now series moment result }
{
    let mut end = end;
    while is_later(kept, end, moment) {
        end = step_back(kept, links, end, moment);
    }
    end
}
