// The directory copy of a new group.
ghost use Rattle.bay.specs.Moments.{NowOnly};
ghost use Rattle.change_directory.specs.Places.{IsCopy};
ghost use Rattle.change_directory.specs.Formatting.{AreShut};
ghost use Rattle.mounted_groups.specs.Gives.{GivesStage, directory_stage};
ghost use Rattle.mounted_groups.specs.Planned.{IsGroupPlan};
ghost use Rattle.mounted_groups.specs.Stages.{first_copy};

use crate::first_change::first_change;
use crate::new_group::NewGroup;
use bay::{Bay, BayError};
use change_directory::DirCopy;
use group_recovery::{Store, StoreError, kept_have_records};
use std::alloc::Global;

/// Makes the directory copy of a new group on its disk, where no log slot is open. At each moment
/// the copy has no content, or that of the new group.
pub fn give_directory<B: Bay>(
    alloc: Global,
    bay: &mut B,
    slot: u32,
    group: &NewGroup,
) -> Result<Store, BayError>
    requires plan { IsGroupPlan group.now }
    requires copy { IsCopy (B.state bay.old) (first_copy slot) }
    requires shut { NowOnly (B.state bay.old) (AreShut (first_copy slot)) }
    ensures { GivesStage slot group.now (directory_stage slot group.now) result (B.state bay.old)
        (B.state bay.new) }
{
    let Ok(first) = first_change(alloc, group) else {
        return Err(BayError::NoMemory);
    };
    let copies = [DirCopy {
        number: 0,
        slot,
        dir_blocks: 1024,
        sector: 512,
    }];
    match Store::create(alloc, bay, &copies, &first) {
        Ok(store) => {
            kept_have_records(bay);
            Ok(store)
        }
        Err(StoreError::Gone { .. }) => Err(BayError::Fault),
        // There is room for three records.
        Err(StoreError::Full { .. }) => unreachable!(),
        Err(StoreError::NoMemory) => Err(BayError::NoMemory),
    }
}
