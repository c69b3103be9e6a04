//! What a view keeps, and the rows that it gives.

use label_set::LabelSet;
use report_samples::Entry;
use std::marker::Model;
use value_text::ValueText;

/// An entry with its place in the book, counted from 0.
#[derive(Drop, Debug)]
pub struct Placed {
    pub place: u64,
    pub entry: Entry,
}

/// What is seen of one series at a moment.
#[derive(Drop, Debug)]
pub struct ViewRow {
    /// The place of the entry in the book, counted from 0.
    pub place: u64,
    /// The label set of the series.
    pub series: LabelSet,
    /// The moment of the entry, in milliseconds since the epoch.
    pub moment: i64,
    pub value: ValueText,
}

/// Rows in order. Contracts see the list of them.
#[derive(Drop, Debug)]
pub struct ViewRows {
    pub items: Vec<ViewRow>,
}

impl Model for ViewRows {
    ghost use Rattle.std.specs.Prelude.{List};
    ghost use Rattle.instant_view.specs.declared.rows.ViewRow.{ViewRow};

    ghost Value = { List ViewRow };

    ghost view = { λ r. r.items.items };
}
