//! The values of parameters, to be looked up by name.
ghost use Rattle.std.specs.Prelude.{◌≡◌, [], option_map, unwrap_or, IfOk};
ghost use Rattle.target_set.specs.Values.{found, HasSet, HasListed};

use crate::requests::param_name;
use label_set::{LabelSet, Name, NoMemory};
use scrape_config::Param;
use std::alloc::Global;
use std::collections::HashMap;

/// The values that labels set, by the names of their parameters.
pub fn set_values<'a>(
    alloc: Global,
    identity: &'a LabelSet,
) -> Result<HashMap<&'a str, &'a str>, NoMemory>
    ensures { IfOk result (λ m. HasSet m identity.now) }
{
    let mut values = HashMap::new(alloc);
    for label in identity.labels() {
        if let Some(name) = param_name(label.name) {
            if !values.contains_key(name) {
                let _ = values.insert(name, label.value)?;
            }
        }
    }
    Ok(values)
}

/// The values that parameters list, by name; of parameters of one name those of the first.
pub fn listed_values<'a>(
    alloc: Global,
    params: &'a [Param],
) -> Result<HashMap<&'a str, &'a [Name]>, NoMemory>
    ensures { IfOk result (λ m. HasListed m params.now) }
{
    let mut values = HashMap::new(alloc);
    for param in params {
        let name = param.name.as_str();
        if values.contains_key(name) {
            continue;
        }
        let _ = values.insert(name, param.values.as_slice())?;
    }
    Ok(values)
}

/// The value that is set for a name.
pub fn set_for<'a>(values: &HashMap<&'a str, &'a str>, name: &str) -> Option<&'a str>
    ensures { option_map (λ v. v.now) result ≡ found values.now name.now }
{
    values.get(name).copied()
}

/// The values that are listed for a name.
pub fn listed_for<'a>(values: &HashMap<&'a str, &'a [Name]>, name: &str) -> &'a [Name]
    ensures { result.now ≡ unwrap_or (found values.now name.now) [] }
{
    match values.get(name) {
        Some(listed) => *listed,
        None => &[],
    }
}
