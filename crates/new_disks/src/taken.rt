//! Whether names, paths or failure groups of new disks clash.

ghost use Rattle.std.specs.Prelude.{◌≡◌};
ghost use Rattle.std.specs.List.{list_any};
ghost use Rattle.asm_world.specs.NewDisks.{clash, clashes_with, has_pair, is_name_taken, is_same_bool};

use crate::rows::{DiskRow, PlannedDisk};

/// Whether two of the new disks have one name or one path, or one has the name of a disk that is
/// there, or a failure group is said to be of two kinds.
pub fn is_name_taken(rows: &[DiskRow], disks: &[PlannedDisk]) -> bool
    ensures { result ≡ is_name_taken rows.now disks.now }
{
    has_pair(disks) || any_clashes(rows, disks)
}

/// Whether two of the disks clash.
fn has_pair(disks: &[PlannedDisk]) -> bool
    ensures { result ≡ has_pair clash disks.now }
{
    match disks {
        [] => false,
        [first, later @ ..] => has_clash(first, later) || has_pair(later),
    }
}

/// Whether one of the others clashes with the disk.
fn has_clash(disk: &PlannedDisk, others: &[PlannedDisk]) -> bool
    ensures { result ≡ list_any (clash disk.now) others.now }
{
    match others {
        [] => false,
        [first, later @ ..] => clash(disk, first) || has_clash(disk, later),
    }
}

/// One name, one path, or one failure group of two kinds.
fn clash(a: &PlannedDisk, b: &PlannedDisk) -> bool
    ensures { result ≡ clash a.now b.now }
{
    a.name.is_same(&b.name)
        || a.path.as_slice() == b.path.as_slice()
        || (a.failgroup.is_same(&b.failgroup) && !is_same_bool(a.quorum, b.quorum))
}

fn is_same_bool(a: bool, b: bool) -> bool
    ensures { result ≡ is_same_bool a b }
{
    if a { b } else { !b }
}

/// Whether one of the new disks clashes with one that is there.
fn any_clashes(rows: &[DiskRow], disks: &[PlannedDisk]) -> bool
    ensures { result ≡ list_any (λ disk. list_any (λ row. clashes_with disk row) rows.now)
        disks.now }
{
    match disks {
        [] => false,
        [first, later @ ..] => clashes(first, rows) || any_clashes(rows, later),
    }
}

fn clashes(disk: &PlannedDisk, rows: &[DiskRow]) -> bool
    ensures { result ≡ list_any (λ row. clashes_with disk.now row) rows.now }
{
    match rows {
        [] => false,
        [first, later @ ..] => clashes_with(disk, first) || clashes(disk, later),
    }
}

/// The name of a disk that is there, or its failure group with another kind.
fn clashes_with(disk: &PlannedDisk, row: &DiskRow) -> bool
    ensures { result ≡ clashes_with disk.now row.now }
{
    disk.name.is_same(&row.name)
        || (disk.failgroup.is_same(&row.failgroup) && !is_same_bool(disk.quorum, row.quorum))
}
