// Who failed where a record was written, and whether enough are left.
ghost use Rattle.std.specs.Prelude.{◌≡◌, ◌<◌, ◌∷◌, [], ◌&&◌, not, true, find, MatchOption, None, Some};
ghost use Rattle.asm_formats.specs.Among.{IsAmong};
ghost use Rattle.asm_formats.specs.Sets.{has_bit};
ghost use Rattle.asm_formats.specs.Following.{disks_of, sets, sets_of};
ghost use Rattle.status_register.specs.Holders.{AreHolders};
ghost use Rattle.status_register.specs.Surveys.{missing, shortfall};
ghost use Rattle.status_register.specs.Writes.{IsFailed, IsLostMember, IsLostOf, is_one_of};

use crate::Member;
use crate::majorities::lacking;
use status_table::{DiskSet, PstEntry, PstRecord};

/// Whether one of these is the member.
fn is_one_of(members: &[Member], member: Member) -> bool
    ensures { result ≡ is_one_of members.now member }
{
    members.iter().any(|other| {
        other.slot == member.slot && (other.number == member.number && other.birth == member.birth)
    })
}

/// The first of the members that isn't among those that took a record.
pub fn first_failed(members: &[Member], took: &[Member]) -> Option<Member>
    ensures { result ≡ find (λ m. not (is_one_of took.now m)) members.now }
{
    for member in members {
        if !is_one_of(took, *member) {
            return Some(*member);
        }
    }
    None
}

/// The first of the members in a set that isn't among those that took a record.
fn first_failed_of(members: &[Member], took: &[Member], set: DiskSet) -> Option<Member>
    ensures { result ≡ find (λ m. has_bit set m.number && not (is_one_of took.now m)) members.now }
{
    for member in members {
        if set.has(member.number) && !is_one_of(took, *member) {
            return Some(*member);
        }
    }
    None
}

/// The numbers of the members that aren't among those that took a record.
pub fn failed_set(members: &[Member], took: &[Member]) -> DiskSet
    requires { (m : Member) → IsAmong members.now m → m.number < 64 }
    ensures { IsFailed members.now took.now result }
{
    let mut failed = DiskSet::empty();
    for member in members {
        if !is_one_of(took, *member) {
            failed = failed.with(member.number);
        }
    }
    failed
}

/// A member of a set of a record that failed, where no majority of the set took the record.
fn lost_of(
    members: &[Member],
    took: &[Member],
    entries: &[PstEntry],
    set: DiskSet,
) -> Option<Member>
    requires holders { AreHolders entries.now members.now }
    requires majority { shortfall members.now (disks_of entries.now set ∷ []) ≡ None }
    ensures { MatchOption result (shortfall took.now (disks_of entries.now set ∷ []) ≡ None)
        (λ m. IsLostOf members.now took.now (disks_of entries.now set) m) }
{
    match lacking(took, entries, set) {
        Some(_) => first_failed_of(members, took, set),
        None => None,
    }
}

/// The same of a record's holders where these fall short, else of its next holders.
fn lost(
    members: &[Member],
    took: &[Member],
    entries: &[PstEntry],
    holders: DiskSet,
    next_holders: DiskSet,
) -> Option<Member>
    requires holders { AreHolders entries.now members.now }
    requires majority { shortfall members.now (sets_of entries.now holders next_holders) ≡ None }
    ensures { MatchOption result (shortfall took.now (sets_of entries.now holders next_holders)
        ≡ None) (λ m. IsLostMember members.now took.now (sets_of entries.now holders next_holders)
        m) }
{
    match lost_of(members, took, entries, holders) {
        Some(member) => Some(member),
        None => {
            if next_holders.bits() == 0 {
                None
            } else {
                lost_of(members, took, entries, next_holders)
            }
        }
    }
}

/// A disk that failed, of a set of the record of which no majority took it.
pub fn lost_disk(members: &[Member], took: &[Member], status: &PstRecord) -> Option<Member>
    requires holders { AreHolders status.now.entries members.now }
    requires majority { missing members.now (Some status.now) ≡ None }
    ensures { MatchOption result (missing took.now (Some status.now) ≡ None)
        (λ m. IsLostMember members.now took.now (sets status.now) m) }
{
    lost(
        members,
        took,
        status.entries(),
        status.holders,
        status.next_holders,
    )
}
