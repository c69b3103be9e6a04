//! Why no configuration was read.

use config_fields::ConfFault;
use label_set::NoMemory;

/// Why no configuration was read, or no list of groups.
#[derive(Drop, Debug)]
pub enum ConfError {
    Bad(ConfFault),
    /// An allocation failed.
    NoMemory,
}

impl From<NoMemory> for ConfError {
    ghost use Rattle.std.specs.Prelude.{◌≡◌};
    ghost use Rattle.scrape_config.specs.declared.fault.ConfError.TheVariants as variants;

    ghost from_gives = { λ _ error. error ≡ variants.NoMemory };

    fn from(_: NoMemory) -> ConfError {
        ConfError::NoMemory
    }
}
