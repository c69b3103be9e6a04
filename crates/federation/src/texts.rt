//! The text of rows.
ghost use Rattle.std.specs.Prelude.{◌≡◌, ◌++◌, All, OnOk, true};
ghost use Rattle.label_set.specs.Sets.{IsSet};
ghost use Rattle.value_text.specs.Numbers.{is_in_range};
ghost use Rattle.federation.specs.Readings.{IsLabelText, IsWellFormed, ReadsBack};
ghost use Rattle.federation.specs.Texts as spec;

use instant_view::ViewRow;
use itoa::Buffer;
use label_set::{LabelSet, NoMemory};

/// Goes over the labels of a set, for what a `&str` says of each of their texts. It changes nothing.
fn are_texts(set: &LabelSet)
    ensures set { IsSet set.now }
    ensures texts { All IsLabelText set.now }
{
    for label in set.labels() {
        let _ = label;
    }
}

/// Says of a number what each is. It changes nothing.
fn is_moment(moment: i64)
    ensures { is_in_range moment ≡ true }
{}

/// Says of a row what each is. It changes nothing.
fn is_well_formed(row: &ViewRow)
    ensures { IsWellFormed row.now }
{
    are_texts(&row.series);
    let _ = row.value.bytes();
    is_moment(row.moment);
}

/// Appends the line of a row.
#[tactic(auto, unfolding(crate::specs::Texts::row_line))]
fn push_row(text: &mut Vec<u8>, row: &ViewRow) -> Result<(), NoMemory>
    ensures { OnOk result (text.new.items ≡ text.old.items ++ spec.row_line row.now) }
{
    let mut digits = Buffer::new();
    row.series.append_text(text)?;
    text.extend_from_slice(b" ")?;
    text.extend_from_slice(row.value.bytes())?;
    text.extend_from_slice(b" ")?;
    text.extend_from_slice(digits.format(row.moment).as_bytes())?;
    text.extend_from_slice(b"\n")?;
    Ok(())
}

/// Appends the lines of rows, each of which is well formed.
///
/// # Errors
///
/// The only error is out of memory. A front of the lines may stand in the text then.
pub fn push_rows(text: &mut Vec<u8>, rows: &[ViewRow]) -> Result<(), NoMemory>
    ensures added { OnOk result (text.new.items ≡ text.old.items ++ spec.rows_text rows.now) }
    ensures well { OnOk result (All IsWellFormed rows.now) }
{
    for row in rows {
        is_well_formed(row);
        push_row(text, row)?;
    }
    Ok(())
}

/// The law that the text of rows whose series have a metric name reads, in the form with names in quotes, as just
/// these rows. It does nothing.
pub fn reads_back()
    ensures { ReadsBack }
{}
