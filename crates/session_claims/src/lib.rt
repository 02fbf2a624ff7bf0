//! How commands keep what the disks stand for, from one to the next. Each function
//! does nothing; its contract is the law.
#![tactic(auto)]

ghost use Rattle.session_claims.specs.Laws.{CreationKeeps, EditKeeps, LooksKeep, MountKeeps, RefusalKeeps, RefusedMountKeeps, TearingKeeps, WriteKeeps, WriteTears};

pub use edit_laws::{GroupEdit, edit_group};
pub use mounted_groups::{create_disk, create_group, drop_group, mount_group};

mod found;

use bay::{Bay, Slots};
pub use found::mounts_find;

/// A command that wrote nothing, and after which no more groups are mounted, keeps what the disks
/// stand for.
pub fn looks_keep<B: Bay, T: Slots>(start: &B, end: &B)
    ensures { LooksKeep T.among (B.state start.now) (B.state end.now) }
{}

/// Over an edit of a mounted group each image stands for the group before or the world's group
/// after it, and all other ids for what they stood for. Once it is done the group after is mounted;
/// where its commit dismounted the group, each image stands for one of the two; where it was
/// refused otherwise, nothing was done.
pub fn edits_keep<B: Bay>(start: &B, end: &B)
    ensures done { EditKeeps (B.state start.now) (B.state end.now) }
    ensures torn { TearingKeeps (B.state start.now) (B.state end.now) }
    ensures refused { RefusalKeeps (B.state start.now) (B.state end.now) }
{}

/// Over a write of users' bytes of a mounted group each image stands for the group with the cells
/// of the span Free, and all other ids for what they stood for. Where the group takes calls
/// afterwards, it is mounted as the world has it then; where the write dismounted it, each image
/// stands for it with the span Free.
pub fn writes_keep<B: Bay>(start: &B, end: &B)
    ensures done { WriteKeeps (B.state start.now) (B.state end.now) }
    ensures torn { WriteTears (B.state start.now) (B.state end.now) }
{}

/// Over the creation of a group on one disk all other ids stand for what they stood for, and once
/// it is done the new group is mounted.
pub fn creations_keep<B: Bay>(start: &B, end: &B)
    ensures { CreationKeeps (B.state start.now) (B.state end.now) }
{}

/// While a group is mounted the disks stand for what they stood for, under its id and all others,
/// and each group that was mounted is so still. Once it is done the group is mounted too; refused,
/// wherever it came to, nothing else is known of its id than before.
pub fn mounts_keep<B: Bay>(start: &B, end: &B)
    ensures done { MountKeeps (B.state start.now) (B.state end.now) }
    ensures refused { RefusedMountKeeps (B.state start.now) (B.state end.now) }
{}
