//! How much room the parts of a line take at most, known without writing them.
ghost use Rattle.std.specs.Prelude.{◌≡◌, ◌+◌, ◌<◌, ◌≤◌, ◌^◌, length, sum_by, IfOk, IfSome};
ghost use Rattle.std.specs.Fmt.{decimal, signed_decimal};
ghost use Rattle.label_set.specs.Borrowed.{pair_of};
ghost use Rattle.book_text.specs.Rooms as spec;
ghost use Rattle.label_set.specs.SetText.{set_text};

use label_set::{Label, LabelSet, NoMemory};

/// Room for one label more; `None` where that is no number of this machine.
fn with_label(room: usize, label: Label<'_>) -> Option<usize>
    ensures { IfSome result (λ n. n ≡ room + spec.label_room (pair_of label.entry)) }
{
    let texts = label.name.len() + label.value.len();
    room.checked_add(texts)?.checked_add(texts)?.checked_add(6)
}

/// Room for the labels of a set.
fn set_room(set: &LabelSet) -> Option<usize>
    ensures { IfSome result (λ n. n ≡ sum_by spec.label_room set.now) }
{
    let mut room = 0;
    for label in set.labels() {
        room = with_label(room, label)?;
    }
    Some(room)
}

/// Room for the decimal digits and the sign of two numbers.
pub(crate) fn numbers_room(_moment: i64, _life: u64) -> usize
    ensures within { length (signed_decimal _moment) + length (decimal _life) ≤ result }
    ensures small { result ≤ 79 }
{
    79
}

/// Room for the text of a set: beside its labels it has braces and quotes. A text for which there is no such number fits into no memory.
pub(crate) fn text_room(set: &LabelSet) -> Result<usize, NoMemory>
    ensures { IfOk result (λ n. length (set_text set.now) ≤ n) }
{
    let Some(labels) = set_room(set) else {
        return Err(NoMemory);
    };
    if labels >= 1 << 62 {
        return Err(NoMemory);
    }
    Ok(labels + 4)
}
