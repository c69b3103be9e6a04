//! Bytes that sets share.
ghost use Rattle.std.specs.Prelude.{◌≡◌, IfOk};

use crate::texts::NoMemory;
use std::alloc::Global;
use std::marker::Model;
use std::sync::Arc;

/// Bytes with one or more owners: a copy costs a count.
#[derive(Drop, Debug)]
pub(crate) struct Shared {
    bytes: Arc<Vec<u8>>,
}

impl Model for Shared {
    ghost use Rattle.std.specs.Prelude.{ℕ, List};
    ghost use Rattle.std.specs.Arc.{arc_value};

    ghost Value = { List ℕ };

    ghost view = { λ s. (arc_value s.bytes).items };
}

impl Shared {
    pub(crate) fn new(alloc: Global, bytes: Vec<u8>) -> Result<Shared, NoMemory>
        ensures { IfOk result (λ s. s ≡ bytes.items) }
    {
        Ok(Shared {
            bytes: Arc::new(alloc, bytes)?,
        })
    }

    pub(crate) fn copy(&self) -> Result<Shared, NoMemory>
        ensures { IfOk result (λ s. s ≡ self.now) }
    {
        Ok(Shared {
            bytes: Arc::try_clone(&self.bytes)?,
        })
    }

    pub(crate) fn as_slice(&self) -> &[u8]
        ensures { result.now ≡ self.now }
    {
        self.bytes.as_slice()
    }
}
