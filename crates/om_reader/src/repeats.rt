//! Whether a name is given twice.
ghost use Rattle.std.specs.Prelude.{◌≡◌, ℕ, List, [], IfOk};
ghost use Rattle.std.specs.List.{list_any};
ghost use Rattle.std.specs.Str.{bytes_eq};
ghost use Rattle.label_set.specs.SetText.{metric_label};
ghost use Rattle.expo_reader.specs.Forms as spec;

use indexmap::IndexSet;
use label_set::NoMemory;
use std::alloc::Global;
use std::marker::Model;

/// A label's name that borrows from a body. Contracts see its bytes.
#[derive(Drop)]
pub struct BorrowedName<'b> {
    pub bytes: &'b [u8],
}

impl<'b> Model for BorrowedName<'b> {
    ghost use Rattle.std.specs.Prelude.{ℕ, List};

    ghost Value = { List ℕ };

    ghost view = { λ n. n.bytes.now };
}

/// Up to so many names are compared with one another; more of them go through a set.
const FEW_NAMES: usize = 16;

/// Whether no name is given twice.
pub fn names_differ(alloc: Global, names: &[BorrowedName<'_>]) -> Result<bool, NoMemory>
    ensures { IfOk result (λ b. b ≡ spec.names_differ_from [] names.now) }
{
    if names.len() <= FEW_NAMES {
        Ok(few_differ(names))
    } else {
        many_differ(alloc, names)
    }
}

fn few_differ(names: &[BorrowedName<'_>]) -> bool
    ensures { result ≡ spec.names_differ_from [] names.now }
{
    for (i, name) in names.iter().enumerate() {
        if has_name(&names[..i], name.bytes) {
            return false;
        }
    }
    true
}

/// Whether a name is among some.
fn has_name(names: &[BorrowedName<'_>], sought: &[u8]) -> bool
    ensures { result ≡ list_any (bytes_eq sought.now) names.now }
{
    names.iter().any(|name| sought == name.bytes)
}

/// Whether `__name__` is among some names.
pub fn has_metric_name(names: &[BorrowedName<'_>]) -> bool
    ensures { result ≡ list_any (λ (n : List ℕ). bytes_eq n metric_label) names.now }
{
    names
        .iter()
        .any(|name| name.bytes == b"__name__".as_slice())
}

fn many_differ(alloc: Global, names: &[BorrowedName<'_>]) -> Result<bool, NoMemory>
    ensures { IfOk result (λ b. b ≡ spec.names_differ_from [] names.now) }
{
    let mut seen = IndexSet::new(alloc);
    for name in names {
        let is_new = seen.insert(name.bytes)?;
        if !is_new {
            return Ok(false);
        }
    }
    Ok(true)
}
