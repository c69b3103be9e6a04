//! What several selectors see.
ghost use Rattle.std.specs.Prelude.{◌≡◌, IfOk};
ghost use Rattle.federation.specs.Federations as spec;

use crate::merges::merged;
use instant_view::{Selector, View, ViewRows};
use label_set::NoMemory;
use std::alloc::Global;

/// What these selectors see at a moment in each book that the view stands for, among the entries that the view has
/// gone over: a row for each series that one of them at least selects and that is seen, by rising label set.
///
/// # Errors
///
/// The only error is out of memory.
pub fn federated(
    alloc: Global,
    view: &mut View,
    selectors: &[Selector],
    moment: i64,
) -> Result<ViewRows, NoMemory>
    ensures rows { IfOk result (λ rows. spec.IsFederationOf view.old selectors.now moment rows) }
    ensures same { view.new ≡ view.old }
{
    let mut rows = Vec::new(alloc);
    for selector in selectors {
        let mut more = view.instant(alloc, selector, moment)?;
        rows = merged(alloc, &mut rows, &mut more.items)?;
    }
    Ok(ViewRows { items: rows })
}
