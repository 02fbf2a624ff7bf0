//! Members in an order.

ghost use Rattle.std.specs.Prelude.{◌≡◌, ◌<◌, ◌≤◌, ◌++◌, ◌∷◌, [], length};

use crate::Member;
use std::marker::Model;

/// What stands in an array past the members.
const NO_MEMBER: Member = Member {
    slot: 0,
    number: 0,
    birth: 0,
    sector: 512,
};

/// At most 512 members, one for each slot of the bay: of a group more than 64 may have a header,
/// where disks left it and were not read then. Contracts see the list of them.
#[derive(Debug, Drop)]
pub struct MemberList {
    count: u16,
    items: [Member; 512],
}

impl Model for MemberList {
    ghost use Rattle.std.specs.Prelude.{◌≡◌, ◌≤◌, List, take, length};
    ghost use Rattle.status_register.specs.declared.member.Member.{Member};

    ghost Value = { List Member };

    ghost view = { λ l. take l.count l.items };

    ghost invariant = { λ l. (l.count ≤ 512) × (length l.items ≡ 512) };
}

impl MemberList {
    /// No members.
    pub fn empty() -> MemberList
        ensures { result ≡ [] }
    {
        MemberList {
            count: 0,
            items: [NO_MEMBER; 512],
        }
    }

    /// These members.
    pub fn of(members: &[Member]) -> MemberList
        requires { length members.now ≤ 512 }
        ensures { result ≡ members.now }
    {
        let mut list = MemberList::empty();
        for member in members {
            list = list.with(*member);
        }
        list
    }

    /// The members with one more behind them.
    pub fn with(self, member: Member) -> MemberList
        requires { length self < 512 }
        ensures { result ≡ self ++ member ∷ [] }
    {
        let mut items = self.items;
        items[self.count as usize] = member;
        MemberList {
            count: self.count + 1,
            items,
        }
    }

    /// The members in their order.
    pub fn members(&self) -> &[Member]
        ensures members { result.now ≡ self.now }
        ensures few { length self.now ≤ 512 }
    {
        &self.items[..self.count as usize]
    }
}
