//! Groups that files list, which are held and walked without a copy.
ghost use Rattle.std.specs.Prelude.{◌≡◌, IfOk};

use label_set::{Name, NoMemory};
use scrape_config::{Group, GroupList};
use std::alloc::Global;
use std::marker::Model;
use std::sync::Arc;

/// Groups with one or more owners: a further owner costs a count. Contracts see the list of the groups.
#[derive(Drop)]
pub struct SharedGroups {
    groups: Arc<GroupList>,
}

impl Model for SharedGroups {
    ghost use Rattle.std.specs.Prelude.{List};
    ghost use Rattle.std.specs.Arc.{arc_value};
    ghost use Rattle.scrape_config.specs.declared.conf.Group.{Group};

    ghost Value = { List Group };

    ghost view = { λ s. arc_value s.groups };
}

impl SharedGroups {
    /// Groups, to be shared.
    pub fn new(alloc: Global, groups: GroupList) -> Result<SharedGroups, NoMemory>
        ensures { IfOk result (λ s. s ≡ groups) }
    {
        Ok(SharedGroups {
            groups: Arc::new(alloc, groups)?,
        })
    }

    /// The same groups once more, which costs a count.
    pub fn share(&self) -> Result<SharedGroups, NoMemory>
        ensures { IfOk result (λ s. s ≡ self.now) }
    {
        Ok(SharedGroups {
            groups: Arc::try_clone(&self.groups)?,
        })
    }

    /// The groups.
    pub fn as_slice(&self) -> &[Group]
        ensures { result.now ≡ self.now }
    {
        self.groups.as_slice()
    }
}

/// A file of a job and the groups that it lists.
#[derive(Drop)]
pub struct FileGroups {
    pub file: Name,
    pub groups: SharedGroups,
}
