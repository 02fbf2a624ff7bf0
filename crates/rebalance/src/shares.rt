//! The shares of the disks.

ghost use Rattle.std.specs.Prelude.{◌≡◌, ◌≤◌, ◌+◌, ◌^◌, List, length, Some, nat_le, slice_get};
ghost use Rattle.std.specs.Option.{option_copied};
ghost use Rattle.asm_group.specs.Shape.{Shape};
ghost use Rattle.asm_formats.specs.Items.{Item};
ghost use Rattle.asm_formats.specs.Status.{Entry, entry_of};
ghost use Rattle.allocator.specs.UnitMaps.{total_of, used_of};
ghost use Rattle.asm_placement.specs.Modes.{is_target};
ghost use Rattle.asm_placement.specs.Space.{is_above, is_below, share};
ghost use Rattle.partnership.specs.UnitsOf.{AreUnitsOf};
ghost use Rattle.rebalance.specs.Sums.{below_set, is_above_at, is_below_at, is_below_of, share_at, share_of, sums_at, sums_of, with_target};

use allocator::Units;
use asm_base::{DiskSet, Mode};
use partnership::{PstEntry, PstRecord};
use std::marker::Model;

/// The used and the user units of the Online regular disks together. The share of a disk is the
/// part of the used ones that falls to it by its user units, rounded down.
#[derive(Clone, Copy)]
pub struct Shares {
    used: u64,
    units: u64,
}

impl Model for Shares {
    ghost use Rattle.std.specs.Prelude.{◌≤◌};
    ghost use Rattle.rebalance.specs.Sums.{Sums};

    ghost Value = { Sums };

    ghost view = { λ s. record { used = s.used; units = s.units } };

    ghost inverse = { λ s. record { used = s.used; units = s.units } };

    ghost invariant = { λ s. s.used ≤ s.units };
}

impl Shares {
    /// Those of a group. `units` has the map of disk k at place k.
    #[tactic(auto, using(crate::proofs::Sharing::sums_placed))]
    pub fn of(status: &PstRecord, units: &[Units]) -> Shares
        ensures value { result ≡ sums_at units.now status.now.entries }
        // Where the units are those of a group's records, the sums are those of its placement.
        ensures placement { (s : Shape) (items : List Item)
            → AreUnitsOf s items status.now.entries units.now
            → result ≡ sums_of s items status.now.entries }
    {
        sums(status.entries(), units)
    }

    fn none() -> Shares
        ensures { result ≡ record { used = 0; units = 0 } }
    {
        Shares { used: 0, units: 0 }
    }

    /// With the units of a disk, where it may take copies.
    fn with_disk(self, disk: &PstEntry, units: &[Units]) -> Shares
        requires { self.units + 2 ^ 32 ≤ 2 ^ 64 }
        ensures sums { result ≡ with_target self units.now disk.now }
        ensures small { result.units ≤ self.units + 2 ^ 32 }
    {
        if !is_target(disk) {
            return self;
        }
        match map_at(units, disk.number) {
            Some(map) => self.with_map(map),
            None => self,
        }
    }

    fn with_map(self, map: &Units) -> Shares
        requires { self.units + 2 ^ 32 ≤ 2 ^ 64 }
        ensures sums { result ≡ record {
          used = self.used + used_of map.now;
          units = self.units + total_of map.now;
        } }
        ensures small { result.units ≤ self.units + 2 ^ 32 }
    {
        Shares {
            used: self.used + map.used() as u64,
            units: self.units + map.total() as u64,
        }
    }

    /// The share of disk d, and 0 where there is no map at its place.
    #[tactic(auto, using(crate::proofs::Sharing::share_placed))]
    pub fn share(&self, units: &[Units], d: u8) -> u32
        ensures value { result ≡ share_at self.now (slice_get units.now d) }
        // Where the units and the sums are those of a group's records, it is the disk's share of
        // the placement.
        ensures placement { (s : Shape) (items : List Item) (es : List Entry) (e : Entry)
            → AreUnitsOf s items es units.now → self.now ≡ sums_of s items es
            → entry_of es d ≡ Some e → result ≡ share s items es e }
    {
        self.share_at(units, d)
    }

    fn share_at(&self, units: &[Units], d: u8) -> u32
        ensures { result ≡ share_at self.now (slice_get units.now d) }
    {
        match map_at(units, d) {
            Some(map) => self.share_of(map.total()),
            None => 0,
        }
    }

    /// The share of a disk with so many user units.
    #[tactic(auto, unfolding(crate::specs::Sums::share_of), using(crate::proofs::Sharing::share_few))]
    fn share_of(&self, total: u32) -> u32
        ensures { result ≡ share_of self.now total }
    {
        if self.units == 0 {
            return 0;
        }
        let product = self.used as u128 * total as u128;
        (product / self.units as u128) as u32
    }

    /// Whether disk d has n used units more than its share at least.
    #[tactic(auto, using(crate::proofs::Sharing::above_placed))]
    pub fn is_above(&self, units: &[Units], d: u8, n: u32) -> bool
        ensures value { result ≡ is_above_at self.now n (slice_get units.now d) }
        // Where the units and the sums are those of a group's records, so it is by the placement.
        ensures placement { (s : Shape) (items : List Item) (es : List Entry) (e : Entry)
            → AreUnitsOf s items es units.now → self.now ≡ sums_of s items es
            → entry_of es d ≡ Some e → result ≡ is_above s items es n e }
    {
        self.is_above_at(units, d, n)
    }

    fn is_above_at(&self, units: &[Units], d: u8, n: u32) -> bool
        ensures { result ≡ is_above_at self.now n (slice_get units.now d) }
    {
        match map_at(units, d) {
            Some(map) => self.share_of(map.total()) as u64 + n as u64 <= map.used() as u64,
            None => false,
        }
    }

    /// Whether disk d has n used units fewer than its share at least.
    #[tactic(auto, using(crate::proofs::Sharing::below_placed))]
    pub fn is_below(&self, units: &[Units], d: u8, n: u32) -> bool
        ensures value { result ≡ is_below_at self.now n (slice_get units.now d) }
        // Where the units and the sums are those of a group's records, so it is by the placement.
        ensures placement { (s : Shape) (items : List Item) (es : List Entry) (e : Entry)
            → AreUnitsOf s items es units.now → self.now ≡ sums_of s items es
            → entry_of es d ≡ Some e → result ≡ is_below s items es n e }
    {
        self.is_below_at(units, d, n)
    }

    fn is_below_at(&self, units: &[Units], d: u8, n: u32) -> bool
        ensures { result ≡ is_below_at self.now n (slice_get units.now d) }
    {
        match map_at(units, d) {
            Some(map) => map.used() as u64 + n as u64 <= self.share_of(map.total()) as u64,
            None => false,
        }
    }

    /// The disks with n used units fewer than their shares at least.
    #[tactic(auto, using(crate::proofs::Sharing::set_from, crate::proofs::Sharing::set_end, partnership::proofs::Tables::bit_is))]
    pub fn below(&self, units: &[Units], n: u32) -> DiskSet
        ensures { result ≡ below_set self.now n units.now }
    {
        let mut bits = 0u64;
        for k in (0..64u8).rev() {
            if self.is_below_at(units, k, n) {
                bits |= 1 << k;
            }
        }
        DiskSet::from_bits(bits)
    }
}

/// The map at the place of a disk's number.
fn map_at(units: &[Units], d: u8) -> Option<&Units>
    ensures { option_copied result ≡ slice_get units.now d }
{
    units.get(d as usize)
}

#[tactic(auto, using(crate::proofs::Sharing::sums_more, crate::proofs::Sharing::sums_start, crate::proofs::Sharing::sums_end))]
fn sums(disks: &[PstEntry], units: &[Units]) -> Shares
    requires { length disks.now ≤ 64 }
    ensures { result ≡ sums_at units.now disks.now }
{
    let mut shares = Shares::none();
    for disk in disks {
        shares = shares.with_disk(disk, units);
    }
    shares
}

/// Whether the disk may take copies: it is Online and regular.
fn is_target(disk: &PstEntry) -> bool
    ensures { result ≡ is_target disk.now }
{
    matches!(disk.mode, Mode::Online) && !disk.quorum
}
