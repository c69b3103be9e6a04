//! Names as texts of their own.
ghost use Rattle.std.specs.Prelude.{◌≡◌, IfOk, IsTrue};
ghost use Rattle.label_set.specs.Bytes as spec;

use expo_reader::texts::utf8_text;
use label_set::{Name, NoMemory};
use std::alloc::Global;

/// A copy of a label name.
pub fn label_name(alloc: Global, bytes: &[u8]) -> Result<Name, NoMemory>
    requires { IsTrue (spec.is_label_name bytes.now) }
    ensures { IfOk result (λ n. n ≡ bytes.now) }
{
    Name::from_str(alloc, utf8_text(bytes))
}

/// A copy of a metric name.
pub fn metric_name(alloc: Global, bytes: &[u8]) -> Result<Name, NoMemory>
    requires { IsTrue (spec.is_metric_name bytes.now) }
    ensures { IfOk result (λ n. n ≡ bytes.now) }
{
    Name::from_str(alloc, utf8_text(bytes))
}
