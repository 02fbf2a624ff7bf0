//! A mounted group as one value.
ghost use Rattle.std.specs.Prelude.{◌≡◌, ◌<◌, ℕ, IfErr, IfNone, IfSome, None, OnOk, Some, get_or, length};
ghost use Rattle.std.specs.Bool.{OnFalse, OnTrue};
ghost use Rattle.std.specs.Option.{option_map};
ghost use Rattle.rebalance.specs.catalog_tables.Rules.{AreOnRegular};
ghost use Rattle.group_engine.specs.declared.attached.Attached.{Attached as AttachedDisk};
ghost use Rattle.group_engine.specs.Making.{IsShut, access_after_closing, dismounted_by, group_of_parts};
ghost use Rattle.group_engine.specs.Mounts.{IsMounted, IsWhole, slot_at};
ghost use Rattle.group_engine.specs.Searches.{IsNextMove};

use crate::access::Access;
use crate::attached::Attached;
use crate::flight::Flight;
use crate::search::Search;
use asm_base::Name;
use directory_store::Store;
use rebalance::{Catalog, Next};
use refusal_lines::{DiskRef, Refusal};
use status_register::{PstRecord, Register};
use std::marker::Model;

/// A mounted group: its tables, the records of its directories on their copies, and its status on
/// its disks. Contracts see it as one record of these.
#[derive(Drop)]
pub struct Mounted {
    pub(crate) name: Name,
    pub(crate) catalog: Catalog,
    pub(crate) store: Store,
    pub(crate) register: Register,
    /// The attached disk of number k at place k.
    pub(crate) disks: [Option<Attached>; 64],
    pub(crate) flight: Option<Flight>,
    pub(crate) access: Access,
    /// What is known of the search for the next move. No contract sees it.
    pub(crate) search: Search,
}

impl Model for Mounted {
    ghost use Rattle.group_engine.specs.Mounts.{MountedGroup};
    ghost use Rattle.group_engine.specs.Searches.{AreHiddenParts};

    ghost Value = { MountedGroup };

    ghost view = { λ m. record { name = m.name; catalog = m.catalog; store = m.store; register = m.register; disks = m.disks; flight = m.flight; access = m.access } };

    ghost invariant = { λ m. AreHiddenParts m.disks m.catalog m.register.value m.search };
}

impl Mounted {
    /// A group that takes calls, of its name, its tables, its directories, its status, and of each
    /// disk number the attached disk. These say the same: the tables are those of the records, and
    /// of each attached member there is the slot.
    pub fn new(
        name: Name,
        catalog: Catalog,
        store: Store,
        register: Register,
        disks: [Option<Attached>; 64],
    ) -> Mounted
        requires { IsWhole (group_of_parts name catalog store register disks) }
        ensures { result ≡ group_of_parts name catalog store register disks }
    {
        Mounted {
            name,
            catalog,
            store,
            register,
            disks,
            flight: None,
            access: Access::Mounted,
            search: Search::start(),
        }
    }

    /// The group's name as its headers have it.
    pub fn name(&self) -> &Name
        ensures { result.now ≡ self.now.name }
    {
        &self.name
    }

    /// The tables of the group.
    pub fn catalog(&self) -> &Catalog
        ensures { result.now ≡ self.now.catalog }
    {
        &self.catalog
    }

    /// The status record that holds.
    pub fn status(&self) -> &PstRecord
        ensures { result.now ≡ self.now.register.value }
    {
        self.register.value()
    }

    /// The slot of a disk's image, where it is attached.
    pub fn slot(&self, disk: u8) -> Option<u32>
        requires { disk < 64 }
        ensures { result ≡ slot_at self.now.disks disk }
    {
        match self.disks[disk as usize] {
            Some(attached) => Some(attached.slot),
            None => None,
        }
    }

    /// The attached disks by their numbers.
    pub fn disks(&self) -> &[Option<Attached>]
        ensures { result.now ≡ self.now.disks }
    {
        &self.disks
    }

    /// The size of a disk's image in bytes, where it is attached.
    pub fn size(&self, disk: u8) -> Option<u64>
        requires { disk < 64 }
        ensures { result ≡ option_map (λ (a : AttachedDisk). a.size)
            (get_or self.now.disks disk None) }
    {
        match self.disks[disk as usize] {
            Some(attached) => Some(attached.size),
            None => None,
        }
    }

    /// The move that is on its way.
    pub fn in_flight(&self) -> Option<Flight>
        ensures { result ≡ self.now.flight }
    {
        self.flight
    }

    /// Another move is on its way, or none.
    pub fn set_flight(&mut self, flight: Option<Flight>)
        ensures { self.new ≡ record self.old { flight = flight } }
    {
        self.flight = flight;
    }

    /// What the rebalance does next, or how it ends. None where a home lies on a disk of a quorum
    /// failure group. The search goes on where the one before came to, and whether homes lie on
    /// such disks is asked of all of them once: after commits by `commit_extent` no more. It takes
    /// no memory.
    pub fn next_move(&mut self) -> Option<Next>
        requires whole { IsWhole self.old }
        ensures same { self.new ≡ self.old }
        ensures next { IfSome result (IsNextMove self.old.catalog self.old.register.value) }
        ensures none { IfNone result (AreOnRegular self.old.register.value.entries
            self.old.catalog.tables → ⊥) }
    {
        self.search.next(&self.catalog, self.register.value())
    }

    /// Whether the group takes calls, and if not why.
    pub fn access(&self) -> Access
        ensures { result ≡ self.now.access }
    {
        self.access
    }

    /// Whether the group takes calls.
    pub fn is_mounted(&self) -> bool
        ensures yes { OnTrue result (IsMounted self.now) }
        ensures no { OnFalse result (IsMounted self.now → ⊥) }
    {
        match self.access {
            Access::Mounted => true,
            Access::Dismounted { .. } => false,
            Access::Closed => false,
        }
    }

    /// Refuses what a group refuses that takes no calls: Dismounted by its disk, or NoMemory once
    /// it is closed.
    pub fn takes_calls(&self) -> Result<(), Refusal>
        ensures ok { OnOk result (IsMounted self.now) }
        ensures cause { IfErr result (IsShut self.now.access) }
    {
        match self.access {
            Access::Mounted => Ok(()),
            Access::Dismounted { disk } => Err(Refusal::Dismounted {
                disk: DiskRef::Number(disk),
            }),
            Access::Closed => Err(Refusal::NoMemory),
        }
    }

    /// The disk by which the group is dismounted.
    pub fn dismounted(&self) -> Option<u8>
        ensures { result ≡ dismounted_by self.now.access }
    {
        match self.access {
            Access::Mounted => None,
            Access::Dismounted { disk } => Some(disk),
            Access::Closed => None,
        }
    }

    /// Each later call answers NoMemory, where the group isn't dismounted.
    pub fn close(&mut self)
        ensures { self.new ≡ record self.old { access = access_after_closing self.old.access } }
    {
        match self.access {
            Access::Mounted => self.access = Access::Closed,
            Access::Dismounted { .. } => {}
            Access::Closed => {}
        }
    }
}

/// The number of the disk whose image is in a slot, and 0 where there is none.
pub(crate) fn disk_in(disks: &[Option<Attached>], slot: u32) -> u8
    requires { length disks.now ≡ 64 }
    ensures small { result < 64 }
    ensures found { (k : ℕ) → k < 64 → slot_at disks.now k ≡ Some slot
        → slot_at disks.now result ≡ Some slot }
{
    for disk in 0..64u8 {
        if let Some(attached) = disks[disk as usize] {
            if attached.slot == slot {
                return disk;
            }
        }
    }
    0
}
