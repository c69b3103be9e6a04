//! The printed text of labels.
ghost use Rattle.std.specs.Prelude.{◌≡◌, ◌++◌, codes};
ghost use Rattle.std.specs.List.{list_any};
ghost use Rattle.label_set.specs.Appends.{Appends};
ghost use Rattle.label_set.specs.SetText.{is_special, escaped_byte, escaped, name_text, label_text, labels_after, other_labels, in_braces, braces_if_any, text_with_name, set_text};
ghost use Rattle.label_set.specs.Sets.{value_of};
ghost use Rattle.label_set.specs.Borrowed.{pair_of};

use crate::labels::{Label, Labels};
use crate::names::{is_label_name, is_metric_name};
use crate::texts::NoMemory;

#[tactic(auto, unfolding(crate::specs::SetText::escaped_byte))]
fn push_escaped(text: &mut Vec<u8>, byte: u8) -> Result<(), NoMemory>
    ensures { Appends (escaped_byte byte) text.old text.new result }
{
    match byte {
        b'\\' => text.extend_from_slice(b"\\\\")?,
        b'"' => text.extend_from_slice(b"\\\"")?,
        b'\n' => text.extend_from_slice(b"\\n")?,
        _ => text.push(byte)?,
    }
    Ok(())
}

#[tactic(auto, unfolding(crate::specs::SetText::is_special))]
fn has_escape(byte: u8) -> bool
    ensures { result ≡ is_special byte }
{
    byte == b'\\' || byte == b'"' || byte == b'\n'
}

fn any_escape(bytes: &[u8]) -> bool
    ensures { result ≡ list_any is_special bytes.now }
{
    bytes.iter().any(|b| has_escape(*b))
}

/// Appends bytes with their escapes; bytes with none at once.
#[tactic(auto, using(crate::proofs::TextLemmas::escaped_plain))]
fn push_all_escaped(text: &mut Vec<u8>, bytes: &[u8]) -> Result<(), NoMemory>
    ensures { Appends (escaped bytes.now) text.old text.new result }
{
    if any_escape(bytes) {
        return push_each_escaped(text, bytes);
    }
    text.extend_from_slice(bytes)?;
    Ok(())
}

fn push_each_escaped(text: &mut Vec<u8>, bytes: &[u8]) -> Result<(), NoMemory>
    ensures { Appends (escaped bytes.now) text.old text.new result }
{
    for byte in bytes {
        push_escaped(text, *byte)?;
    }
    Ok(())
}

/// Appends a value between double quotes, behind an equals sign.
fn push_value(text: &mut Vec<u8>, value: &[u8]) -> Result<(), NoMemory>
    ensures { Appends (codes "=\"" ++ (escaped value.now ++ codes "\"")) text.old text.new result }
{
    text.extend_from_slice(b"=\"")?;
    push_all_escaped(text, value)?;
    text.extend_from_slice(b"\"")?;
    Ok(())
}

/// Appends a text between double quotes.
fn push_quoted(text: &mut Vec<u8>, bytes: &[u8]) -> Result<(), NoMemory>
    ensures { Appends (codes "\"" ++ (escaped bytes.now ++ codes "\"")) text.old text.new result }
{
    text.extend_from_slice(b"\"")?;
    push_all_escaped(text, bytes)?;
    text.extend_from_slice(b"\"")?;
    Ok(())
}

/// Appends the name of a label, in double quotes where it is no label name.
fn push_name(text: &mut Vec<u8>, name: &str) -> Result<(), NoMemory>
    ensures { Appends (name_text name.now) text.old text.new result }
{
    if is_label_name(name) {
        text.extend_from_slice(name.as_bytes())?;
        return Ok(());
    }
    push_quoted(text, name.as_bytes())
}

/// Appends a comma and `name="value"`.
fn push_label(text: &mut Vec<u8>, label: Label<'_>) -> Result<(), NoMemory>
    ensures { Appends (codes "," ++ label_text (pair_of label.entry)) text.old text.new result }
{
    text.extend_from_slice(b",")?;
    push_name(text, label.name)?;
    push_value(text, label.value.as_bytes())?;
    Ok(())
}

/// Appends the labels but `__name__`, a comma before each.
fn push_labels(text: &mut Vec<u8>, labels: Labels<'_>) -> Result<(), NoMemory>
    ensures { Appends (labels_after (other_labels labels.entry)) text.old text.new result }
{
    for label in labels {
        if label.name != "__name__" {
            push_label(text, label)?;
        }
    }
    Ok(())
}

/// Appends braces round the labels but `__name__`; nothing where there is none.
fn push_braces_if_any(text: &mut Vec<u8>, labels: Labels<'_>) -> Result<(), NoMemory>
    ensures { Appends (braces_if_any (labels_after (other_labels labels.entry))) text.old text.new result }
{
    let place = text.len();
    push_labels(text, labels)?;
    if place < text.len() {
        text[place] = b'{';
        text.extend_from_slice(b"}")?;
    }
    Ok(())
}

/// Appends braces round the labels but `__name__`.
fn push_braces(text: &mut Vec<u8>, labels: Labels<'_>) -> Result<(), NoMemory>
    ensures { Appends (in_braces (labels_after (other_labels labels.entry))) text.old text.new result }
{
    let place = text.len();
    push_braces_if_any(text, labels)?;
    if text.len() == place {
        text.extend_from_slice(b"{}")?;
    }
    Ok(())
}

/// Appends a name in double quotes behind an open brace.
fn push_quoted_name(text: &mut Vec<u8>, name: &[u8]) -> Result<(), NoMemory>
    ensures { Appends (codes "{\"" ++ (escaped name.now ++ codes "\"")) text.old text.new result }
{
    text.extend_from_slice(b"{\"")?;
    push_all_escaped(text, name)?;
    text.extend_from_slice(b"\"")?;
    Ok(())
}

/// Appends the text of a set with a name.
fn push_named(text: &mut Vec<u8>, name: &str, labels: Labels<'_>) -> Result<(), NoMemory>
    ensures { Appends (text_with_name name.now (labels_after (other_labels labels.entry))) text.old text.new result }
{
    if is_metric_name(name) {
        text.extend_from_slice(name.as_bytes())?;
        return push_braces_if_any(text, labels);
    }
    push_quoted_name(text, name.as_bytes())?;
    push_labels(text, labels)?;
    text.extend_from_slice(b"}")?;
    Ok(())
}

/// Appends the text of a set.
pub fn push_set(text: &mut Vec<u8>, labels: Labels<'_>) -> Result<(), NoMemory>
    ensures { Appends (set_text labels.entry) text.old text.new result }
{
    match labels.again().value_of("__name__") {
        None => push_braces(text, labels),
        Some(name) => push_named(text, name, labels),
    }
}
