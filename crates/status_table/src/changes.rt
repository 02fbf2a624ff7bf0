//! Status records of which a set, a number or the mark of a dropped group changed.

ghost use Rattle.std.specs.Prelude.{◌≡◌, ◌==◌, if◌then◌else◌, true, IsTrue};
ghost use Rattle.asm_formats.specs.Status.{have_entries, is_status};
ghost use Rattle.status_table.specs.Changes.{majority_of};

use crate::record::PstRecord;
use asm_base::DiskSet;

/// How many holders are more than half of them.
pub fn majority(status: &PstRecord) -> u8
    ensures { result ≡ majority_of status.now.holders }
{
    majority_of(status.holders)
}

/// How many next holders are more than half of them, and 0 where there are none.
pub fn next_majority(status: &PstRecord) -> u8
    ensures { result ≡ (if status.now.next_holders == 0 then 0
        else majority_of status.now.next_holders) }
{
    let next = status.next_holders;
    if next.bits() == 0 {
        return 0;
    }
    majority_of(next)
}

fn majority_of(set: DiskSet) -> u8
    ensures { result ≡ majority_of set }
{
    set.count() / 2 + 1
}

/// The record with other disks that hold copies of the directories.
pub fn with_dirs(status: &PstRecord, dirs: DiskSet) -> PstRecord
    ensures value { result ≡ record status.now { directories = dirs } }
    // A record of the format stays one where each of these disks has an entry.
    ensures kept { IsTrue (is_status status.now) → IsTrue (have_entries status.now.entries dirs)
        → IsTrue (is_status result) }
{
    let _bits = dirs.bits();
    with_dirs_only(status, dirs)
}

/// The record with disks that will hold status records, or none.
pub fn with_next_holders(status: &PstRecord, next: DiskSet) -> PstRecord
    ensures value { result ≡ record status.now { next_holders = next } }
    // A record of the format stays one where each of these disks has an entry.
    ensures kept { IsTrue (is_status status.now) → IsTrue (have_entries status.now.entries next)
        → IsTrue (is_status result) }
{
    let _bits = next.bits();
    with_next_holders_only(status, next)
}

/// The record with these disks as its only holders of status records.
pub fn with_holders(status: &PstRecord, holders: DiskSet) -> PstRecord
    ensures value { result ≡ record status.now { holders = holders; next_holders = 0 } }
    // A record of the format stays one where each of these disks has an entry.
    ensures kept { IsTrue (is_status status.now) → IsTrue (have_entries status.now.entries holders)
        → IsTrue (is_status result) }
{
    let _bits = holders.bits();
    with_holders_only(status, holders)
}

/// The record with another greatest birth that was given.
pub fn with_births(status: &PstRecord, births: u64) -> PstRecord
    ensures value { result ≡ record status.now { births = births } }
    // A record of the format stays one.
    ensures kept { IsTrue (is_status status.now) → IsTrue (is_status result) }
{
    with_births_only(status, births)
}

/// The record marked gone: that of a group that was dropped.
pub fn with_gone(status: &PstRecord) -> PstRecord
    ensures value { result ≡ record status.now { gone = true } }
    // A record of the format stays one.
    ensures kept { IsTrue (is_status status.now) → IsTrue (is_status result) }
{
    with_gone_only(status)
}

fn with_dirs_only(status: &PstRecord, dirs: DiskSet) -> PstRecord
    ensures { result ≡ record status.now { directories = dirs } }
{
    let mut next = status.copy();
    next.dirs = dirs;
    next
}

fn with_next_holders_only(status: &PstRecord, next_holders: DiskSet) -> PstRecord
    ensures { result ≡ record status.now { next_holders = next_holders } }
{
    let mut next = status.copy();
    next.next_holders = next_holders;
    next
}

fn with_holders_only(status: &PstRecord, holders: DiskSet) -> PstRecord
    ensures { result ≡ record status.now { holders = holders; next_holders = 0 } }
{
    let mut next = status.copy();
    next.holders = holders;
    next.next_holders = DiskSet::empty();
    next
}

fn with_births_only(status: &PstRecord, births: u64) -> PstRecord
    ensures { result ≡ record status.now { births = births } }
{
    let mut next = status.copy();
    next.births = births;
    next
}

fn with_gone_only(status: &PstRecord) -> PstRecord
    ensures { result ≡ record status.now { gone = true } }
{
    let mut next = status.copy();
    next.gone = true;
    next
}
