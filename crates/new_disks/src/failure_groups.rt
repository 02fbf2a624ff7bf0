//! The failure groups of a statement's disks.

ghost use Rattle.std.specs.Prelude.{◌≡◌, ◌≤◌, ◌&&◌, ◌==◌, not, length};
ghost use Rattle.std.specs.List.{list_any};
ghost use Rattle.asm_group.specs.Names.{is_same_name};
ghost use Rattle.asm_world.specs.Causes.{is_of_kind, rows_of_failgroup};
ghost use Rattle.asm_world.specs.NewDisks.{needed_groups, regular_groups};
ghost use Rattle.group_sql.specs.Said.{maybe_kind_said};
ghost use Rattle.new_disks.specs.Kinds.{adds_group, is_row_in, regular_names};

use crate::rows::{DiskRow, PlannedDisk};
use group_sql::{FailgroupKind, GroupKind, Name};

/// How many regular failure groups new disks make, names that differ in case alone being one.
pub fn regular_groups(disks: &[PlannedDisk]) -> usize
    ensures count { result ≡ regular_groups disks.now }
    ensures few { result ≤ length disks.now }
{
    match disks {
        [] => 0,
        [first, later @ ..] => {
            let others = regular_groups(later);
            if adds_group(first, later) {
                others + 1
            } else {
                others
            }
        }
    }
}

/// Whether the disk is of a regular failure group, and none of the others is of that.
fn adds_group(disk: &PlannedDisk, others: &[PlannedDisk]) -> bool
    ensures { result ≡ adds_group disk.now others.now }
{
    !disk.quorum && !has_regular(&disk.failgroup, others)
}

/// Whether one of the disks is of the regular failure group of this name.
fn has_regular(failgroup: &Name, disks: &[PlannedDisk]) -> bool
    ensures { result ≡ list_any (is_same_name failgroup.now) (regular_names disks.now) }
{
    match disks {
        [] => false,
        [first, later @ ..] => is_regular(failgroup, first) || has_regular(failgroup, later),
    }
}

/// Whether the disk is of the regular failure group of this name.
fn is_regular(failgroup: &Name, disk: &PlannedDisk) -> bool
    ensures { result ≡ (not disk.now.quorum && is_same_name failgroup.now disk.now.failgroup) }
{
    !disk.quorum && failgroup.is_same(&disk.failgroup)
}

/// How many regular failure groups a group of a kind needs.
pub fn needed_groups(kind: GroupKind) -> usize
    ensures { result ≡ needed_groups kind }
{
    match kind {
        GroupKind::External => 1,
        GroupKind::Normal => 2,
        GroupKind::High => 3,
    }
}

/// Whether the disk is in the failure group of this name, and that is of the kind, where one is
/// said.
pub fn is_in_failgroup(row: &DiskRow, kind: Option<FailgroupKind>, name: &Name) -> bool
    ensures { result ≡ is_row_in (maybe_kind_said kind) name.now row.now }
{
    row.failgroup.is_same(name) && is_of_kind(kind, row.quorum)
}

fn is_of_kind(kind: Option<FailgroupKind>, quorum: bool) -> bool
    ensures { result ≡ is_of_kind (maybe_kind_said kind) quorum }
{
    match kind {
        None => true,
        Some(FailgroupKind::Quorum) => quorum,
        Some(FailgroupKind::Regular) => !quorum,
    }
}

/// Whether one of the disks is in it.
#[tactic(auto, using(crate::proofs::Counting::some_in))]
pub fn has_disks_in(rows: &[DiskRow], kind: Option<FailgroupKind>, name: &Name) -> bool
    ensures { result ≡ not (length (rows_of_failgroup rows.now (maybe_kind_said kind) name.now)
        == 0) }
{
    is_one_in(rows, kind, name)
}

fn is_one_in(rows: &[DiskRow], kind: Option<FailgroupKind>, name: &Name) -> bool
    ensures { result ≡ list_any (is_row_in (maybe_kind_said kind) name.now) rows.now }
{
    match rows {
        [] => false,
        [first, later @ ..] => is_in_failgroup(first, kind, name) || is_one_in(later, kind, name),
    }
}
