// Which of the attached disks a record is written to.
ghost use Rattle.std.specs.Prelude.{◌≡◌, ◌≤◌, ◌<◌, ◌++◌, None, get_or, length};
ghost use Rattle.std.specs.Option.{option_map};
ghost use Rattle.asm_formats.specs.Status.{entry_of, is_status};
ghost use Rattle.status_register.specs.Holders.{attached_to, holder_in, is_of};

use crate::Member;
use crate::majorities::birth_of;
use crate::members::MemberList;
use status_table::{PstEntry, PstRecord};

/// Whether the member is the disk of its number's entry.
pub fn is_of_entry(entries: &[PstEntry], member: Member) -> bool
    ensures { result ≡ is_of entries.now member }
{
    match birth_of(entries, member.number) {
        Some(birth) => birth == member.birth,
        None => false,
    }
}

/// The members with the one in a number's place behind them, if it is one of the disks of the
/// record's sets.
fn with_holder(list: MemberList, place: Option<Member>, status: &PstRecord, disk: u8) -> MemberList
    requires { length list < 64 }
    ensures { result ≡ list ++ holder_in status.now disk place }
{
    match place {
        Some(member) => {
            let is_held = status.holders.has(disk) || status.next_holders.has(disk);
            if is_held && (member.number == disk && is_of_entry(status.entries(), member)) {
                list.with(member)
            } else {
                list
            }
        }
        None => list,
    }
}

/// The attached disks of a record's sets, from the greatest number down.
pub fn attached_to(places: &[Option<Member>], status: &PstRecord) -> MemberList
    requires { length places.now ≡ 64 }
    ensures { result ≡ attached_to places.now status.now }
{
    let mut list = MemberList::empty();
    for disk in (0..64u8).rev() {
        list = with_holder(list, places[disk as usize], status, disk);
    }
    list
}
