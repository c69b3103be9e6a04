//! Rows of two lists in one.
ghost use Rattle.std.specs.Prelude.{◌≡◌, ◌+◌, ◌<◌, IfOk, IfSome, vec_len};
ghost use Rattle.instant_view.specs.Views.{AreRising};
ghost use Rattle.federation.specs.Merges as spec;

use instant_view::ViewRow;
use label_set::NoMemory;
use std::alloc::Global;
use std::cmp::Ordering;

/// Which of two lists ends with the greater label set; one with no row comes before.
fn order_of_ends(left: &[ViewRow], right: &[ViewRow]) -> Ordering
    ensures { result ≡ spec.row_order (spec.last_row left.now) (spec.last_row right.now) }
{
    let Some(left) = left.last() else {
        return Ordering::Less;
    };
    let Some(right) = right.last() else {
        return Ordering::Greater;
    };
    left.series.cmp(&right.series)
}

/// Takes the row with the greatest label set from the ends of two lists, where there is one. Where both end with that
/// set, both lose their row.
fn take_last(left: &mut Vec<ViewRow>, right: &mut Vec<ViewRow>) -> Option<ViewRow>
    ensures taken { spec.IsTaken left.old.items right.old.items left.new.items right.new.items result }
    ensures fewer { IfSome result (λ _. vec_len left.new + vec_len right.new < vec_len left.old + vec_len right.old) }
{
    match order_of_ends(left, right) {
        Ordering::Less => right.pop(),
        Ordering::Equal => {
            let _same = left.pop();
            right.pop()
        }
        Ordering::Greater => left.pop(),
    }
}

/// Makes two rising lists of rows into one, which has a row for each series of either.
///
/// # Errors
///
/// The only error is out of memory.
pub fn merged(
    alloc: Global,
    left: &mut Vec<ViewRow>,
    right: &mut Vec<ViewRow>,
) -> Result<Vec<ViewRow>, NoMemory>
    ensures { AreRising left.old.items → AreRising right.old.items →
        IfOk result (λ v. spec.IsMerged left.old.items right.old.items v.items) }
{
    let mut rows = Vec::with_capacity(alloc, left.len().saturating_add(right.len()))?;
    while let Some(row) = take_last(left, right) {
        rows.push(row)?;
    }
    rows.reverse();
    Ok(rows)
}
