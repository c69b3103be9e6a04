//! How a fault of a configuration is written.
ghost use Rattle.std.specs.Prelude.{◌≡◌, ◌++◌, OnOk, string_bytes};
ghost use Rattle.control_lines.specs.Faults as spec;

use config_fields::ConfFault;
use itoa::Buffer;
use label_set::NoMemory;

/// The word of a fault, with the blank before its place.
pub fn fault_word(fault: &ConfFault) -> &'static str
    ensures { result.now ≡ spec.fault_word fault.now }
{
    match fault {
        ConfFault::NotJson => "NotJson",
        ConfFault::Shape { .. } => "Shape ",
        ConfFault::Unknown { .. } => "Unknown ",
        ConfFault::Missing { .. } => "Missing ",
        ConfFault::Value { .. } => "Value ",
        ConfFault::TwiceNamed { .. } => "TwiceNamed ",
        ConfFault::TooMany { .. } => "TooMany ",
        ConfFault::Rule { .. } => "Rule ",
    }
}

/// The place of a fault, or the name of the job.
pub fn fault_place(fault: &ConfFault) -> &str
    ensures { result.now ≡ spec.fault_place fault.now }
{
    match fault {
        ConfFault::NotJson => "",
        ConfFault::Shape { place } => place.as_str(),
        ConfFault::Unknown { place } => place.as_str(),
        ConfFault::Missing { place } => place.as_str(),
        ConfFault::Value { place } => place.as_str(),
        ConfFault::TwiceNamed { job } => job.as_str(),
        ConfFault::TooMany { place, .. } => place.as_str(),
        ConfFault::Rule { place } => place.as_str(),
    }
}

/// Adds the limit of a fault, behind a blank, where it has one.
fn push_limit(text: &mut String, fault: &ConfFault) -> Result<(), NoMemory>
    ensures { OnOk result (string_bytes text.new ≡ string_bytes text.old ++ spec.fault_limit fault.now) }
{
    match fault {
        ConfFault::TooMany { limit, .. } => {
            let mut buffer = Buffer::new();
            text.push_str(" ")?;
            text.push_str(buffer.format(*limit))?;
            Ok(())
        }
        _ => Ok(()),
    }
}

/// Adds the text of a fault.
pub fn push_fault(text: &mut String, fault: &ConfFault) -> Result<(), NoMemory>
    ensures { OnOk result (string_bytes text.new ≡ string_bytes text.old ++ spec.fault_text fault.now) }
{
    text.push_str(fault_word(fault))?;
    text.push_str(fault_place(fault))?;
    push_limit(text, fault)
}
