// The disk of a new group gets its parts: header, directory copy, claim, status record.
ghost use Rattle.bay.specs.Moments.{NowOnly};
ghost use Rattle.mounted_groups.specs.Gives.{GivesAll, GivesStage, rest_stage};
ghost use Rattle.mounted_groups.specs.Planned.{IsGroupPlan};
ghost use Rattle.mounted_groups.specs.Ready.{AreBodies, HasRoom};
ghost use Rattle.mounted_groups.specs.Stages.{IsHeaded};

use crate::directory::give_directory;
use crate::new_group::{Bodies, NewGroup};
use bay::{Bay, BayError, Fault};
use disk_forming::{give_header, give_record};
use group_recovery::Store;
use std::alloc::Global;

/// Gives the disk of a new group all its parts. Memory is taken for the directory copy, after the
/// header is there.
pub fn give_parts<B: Bay>(
    alloc: Global,
    bay: &mut B,
    slot: u32,
    group: &NewGroup,
    bodies: &Bodies,
) -> Result<Store, BayError>
    requires plan { IsGroupPlan group.now }
    requires bodies { AreBodies bodies.now group.now }
    requires room { HasRoom slot group.now.units (B.state bay.old) }
    ensures { GivesAll slot group.now result (B.state bay.old) (B.state bay.new) }
{
    match give_header(bay, slot, 1024, &bodies.header.bytes) {
        Ok(()) => give_rest(alloc, bay, slot, group, bodies),
        Err(Fault) => Err(BayError::Fault),
    }
}

/// Gives a disk that has its header the directory copy, and then the claim and the record.
fn give_rest<B: Bay>(
    alloc: Global,
    bay: &mut B,
    slot: u32,
    group: &NewGroup,
    bodies: &Bodies,
) -> Result<Store, BayError>
    requires plan { IsGroupPlan group.now }
    requires bodies { AreBodies bodies.now group.now }
    requires room { HasRoom slot group.now.units (B.state bay.old) }
    requires headed { NowOnly (B.state bay.old) (IsHeaded slot group.now) }
    ensures { GivesStage slot group.now (rest_stage slot group.now) result (B.state bay.old)
        (B.state bay.new) }
{
    let store = give_directory(alloc, bay, slot, group)?;
    match give_record(bay, slot, 1024, &bodies.claim.bytes, &bodies.status.bytes) {
        Ok(()) => Ok(store),
        Err(Fault) => Err(BayError::Fault),
    }
}
