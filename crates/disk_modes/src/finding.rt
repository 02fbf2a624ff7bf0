//! The disks that a statement names.
ghost use Rattle.std.specs.Prelude.{◌≡◌, ◌≢◌, ◌<◌, ◌==◌, ◌&&◌, ◌||◌, ℕ, IfNone, IfSome, find};
ghost use Rattle.asm_formats.specs.Sets.{has_bit};
ghost use Rattle.asm_formats.specs.Status.{is_offline_entry};
ghost use Rattle.asm_placement.specs.Modes.{serves};
ghost use Rattle.group_reports.specs.Disks.{number_of_entry_if_any};
ghost use Rattle.disk_modes.specs.Finding.{HasAttachedDisks, IsSetOf, has_disk_name, is_attached, is_in_named_failgroup, is_serving, is_in_failgroup_of_sort, takes};

use asm_base::{DiskSet, Mode, Name};
use record_laws::Mounted;
use status_table::PstEntry;

/// Which failure groups a statement means.
#[derive(Clone, Copy, Debug, PartialEq, Eq)]
pub enum GroupSort {
    Any,
    Regular,
    Quorum,
}

impl GroupSort {
    /// Whether a disk of this sort may lie in such a failure group.
    fn takes(self, quorum: bool) -> bool
        ensures { result ≡ takes self quorum }
    {
        match self {
            GroupSort::Any => true,
            GroupSort::Regular => !quorum,
            GroupSort::Quorum => quorum,
        }
    }
}

/// The number of the disk of a name, in any case of letters.
pub fn disk_named(m: &Mounted, name: &Name) -> Option<u8>
    ensures { result ≡ number_of_entry_if_any
        (find (has_disk_name m.now.catalog name.now) m.now.register.value.entries) }
{
    first_named(m, m.status().entries(), name)
}

/// The number of the first of the disks that has the name.
fn first_named(m: &Mounted, entries: &[PstEntry], name: &Name) -> Option<u8>
    ensures { result ≡ number_of_entry_if_any
        (find (has_disk_name m.now.catalog name.now) entries.now) }
{
    for entry in entries {
        if has_name(m, entry, name) {
            return Some(entry.number);
        }
    }
    None
}

/// Whether the disk's record has the name.
fn has_name(m: &Mounted, entry: &PstEntry, name: &Name) -> bool
    ensures { result ≡ has_disk_name m.now.catalog name.now entry.now }
{
    match m.catalog().disk(entry.number) {
        Some(info) => info.name.is_same(name),
        None => false,
    }
}

/// The disks of the failure group of a name, in any case of letters. None where there is none of
/// that name and sort.
pub fn disks_in_group(m: &Mounted, sort: GroupSort, name: &Name) -> Option<DiskSet>
    ensures some { IfSome result (λ disks. (disks ≢ 0)
        × IsSetOf (is_in_failgroup_of_sort m.now.catalog sort name.now) m.now.register.value.entries
        disks) }
    ensures none { IfNone result (IsSetOf (is_in_failgroup_of_sort m.now.catalog sort name.now)
        m.now.register.value.entries 0) }
{
    let disks = all_in_group(m, m.status().entries(), sort, name);
    if disks.bits() == 0 {
        return None;
    }
    Some(disks)
}

fn all_in_group(m: &Mounted, entries: &[PstEntry], sort: GroupSort, name: &Name) -> DiskSet
    ensures { IsSetOf (is_in_failgroup_of_sort m.now.catalog sort name.now) entries.now result }
{
    let mut disks = DiskSet::empty();
    for entry in entries {
        disks = with_if(disks, entry.number, lies_in(m, sort, name, entry));
    }
    disks
}

/// Whether the disk lies in the failure group of a name and a sort.
fn lies_in(m: &Mounted, sort: GroupSort, name: &Name, entry: &PstEntry) -> bool
    ensures { result ≡ is_in_failgroup_of_sort m.now.catalog sort name.now entry.now }
{
    sort.takes(entry.quorum) && is_in_group(m, entry, name)
}

/// Whether the disk's record names the failure group.
fn is_in_group(m: &Mounted, entry: &PstEntry, name: &Name) -> bool
    ensures { result ≡ is_in_named_failgroup m.now.catalog name.now entry.now }
{
    match m.catalog().disk(entry.number) {
        Some(info) => info.failgroup.is_same(name),
        None => false,
    }
}

/// The attached disks that are Online, Syncing or being dropped.
pub fn serving_disks(m: &Mounted) -> DiskSet
    ensures { IsSetOf (is_serving m.now) m.now.register.value.entries result }
{
    all_serving(m, m.status().entries())
}

fn all_serving(m: &Mounted, entries: &[PstEntry]) -> DiskSet
    ensures { IsSetOf (is_serving m.now) entries.now result }
{
    let mut disks = DiskSet::empty();
    for entry in entries {
        disks = with_if(disks, entry.number, is_serving(m, entry));
    }
    disks
}

fn is_serving(m: &Mounted, entry: &PstEntry) -> bool
    ensures { result ≡ is_serving m.now entry.now }
{
    serves(entry.mode) && is_attached(m, entry.number)
}

fn serves(mode: Mode) -> bool
    ensures { result ≡ serves mode }
{
    matches!(mode, Mode::Online | Mode::Syncing | Mode::Dropping)
}

/// The disks that are Offline.
pub fn offline_set(m: &Mounted) -> DiskSet
    ensures { IsSetOf is_offline_entry m.now.register.value.entries result }
{
    all_offline(m.status().entries())
}

fn all_offline(entries: &[PstEntry]) -> DiskSet
    ensures { IsSetOf is_offline_entry entries.now result }
{
    let mut disks = DiskSet::empty();
    for entry in entries {
        disks = with_if(disks, entry.number, is_offline(entry));
    }
    disks
}

fn is_offline(entry: &PstEntry) -> bool
    ensures { result ≡ is_offline_entry entry.now }
{
    matches!(entry.mode, Mode::Offline)
}

/// The attached disks.
pub(crate) fn attached_disks(m: &Mounted) -> DiskSet
    ensures { HasAttachedDisks m.now result }
{
    let mut disks = DiskSet::empty();
    for disk in 0..64u8 {
        disks = with_if(disks, disk, is_attached(m, disk));
    }
    disks
}

fn is_attached(m: &Mounted, disk: u8) -> bool
    ensures { result ≡ is_attached m.now disk }
{
    disk < 64 && m.slot(disk).is_some()
}

/// The set with a disk more, or as it is.
fn with_if(disks: DiskSet, disk: u8, more: bool) -> DiskSet
    ensures { (k : ℕ) → k < 64 → has_bit result k ≡ (has_bit disks k || (k == disk && more)) }
{
    if more {
        with_number(disks, disk)
    } else {
        disks
    }
}

/// The set with a disk more. All numbers of disks are below 64.
pub(crate) fn with_number(disks: DiskSet, disk: u8) -> DiskSet
    ensures { (k : ℕ) → k < 64 → has_bit result k ≡ (k == disk || has_bit disks k) }
{
    if disk < 64 { disks.with(disk) } else { disks }
}
