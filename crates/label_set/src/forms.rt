//! The forms of a body of the text exposition format, and sets with names of any text.
ghost use Rattle.std.specs.Prelude.{◌≡◌, ◌≢◌, [], IfOk, IsErrOf};
ghost use Rattle.label_set.specs.Sets.{with_label};

use crate::labels::Label;
use crate::sets::{LabelError, LabelSet};
use std::alloc::Global;

/// How names may be written in a body ("Exposition formats" and "UTF-8 in Prometheus" of the Prometheus documentation).
#[derive(Clone, Copy, PartialEq, Eq, Debug)]
pub enum Form {
    /// A metric name stands in front of the labels, and each name is a metric name or a label name as it is.
    Plain,
    /// A name may also stand in double quotes, that of the metric within the braces, and is then any text of UTF-8.
    Quoted,
}

impl LabelSet {
    /// The set with a name set to a value, whatever the name is but the empty text; an empty value removes the name. `BadName` comes exactly where
    /// the name is empty, which is looked at first.
    pub fn with_any(&self, alloc: Global, name: &str, value: &str) -> Result<LabelSet, LabelError>
        ensures set { IfOk result (λ s. s ≡ with_label self.now name.now value.now) }
        ensures named { IfOk result (λ _. name.now ≢ []) }
        ensures bad_name { IsErrOf result LabelError.BadName → name.now ≡ [] }
        ensures looked_first { name.now ≡ [] → IsErrOf result LabelError.BadName }
    {
        if name.is_empty() {
            return Err(LabelError::BadName);
        }
        Ok(self.with_label(alloc, Label { name, value })?)
    }
}
