//! The homes of an extent, as lists.

ghost use Rattle.std.specs.Prelude.{◌≡◌, ◌<◌, ◌≤◌, ◌+◌, [], ◌∷◌, ◌++◌, length, Some};
ghost use Rattle.std.specs.Option.{option_to_list};
ghost use Rattle.asm_placement.specs.Choices.{staying_disk};
ghost use Rattle.asm_placement.specs.Copies.{entry_at_home};
ghost use Rattle.partnership.specs.UnitsOf.{held, homes_kept};
ghost use Rattle.rebalance.specs.Extents.{kept_home};

use asm_base::{Home, Homes, Mode};
use partnership::{PstEntry, entry_of};
use std::marker::Model;

/// The entry of the disk on which a home lies.
pub fn entry_at(disks: &[PstEntry], home: Option<Home>) -> Option<PstEntry>
    ensures { result ≡ entry_at_home disks.now home }
{
    match home {
        Some(home) => entry_of(disks, home.disk),
        None => None,
    }
}

/// The same, where the disk stays in the group.
pub fn staying_disk(disks: &[PstEntry], home: Option<Home>) -> Option<PstEntry>
    ensures { result ≡ staying_disk disks.now home }
{
    match home {
        Some(home) => staying_at(disks, home),
        None => None,
    }
}

fn staying_at(disks: &[PstEntry], home: Home) -> Option<PstEntry>
    ensures { result ≡ staying_disk disks.now (Some home) }
{
    match entry_of(disks, home.disk) {
        Some(disk) => match disk.mode {
            Mode::Online | Mode::Offline | Mode::Syncing => Some(disk),
            Mode::Dropping | Mode::Forced => None,
        },
        None => None,
    }
}

/// Homes of at most three copies, in their order. Contracts see a list.
#[derive(Drop)]
pub struct HomeList {
    homes: [Home; 3],
    count: usize,
}

impl Model for HomeList {
    ghost use Rattle.std.specs.Prelude.{◌≤◌, List, take};
    ghost use Rattle.asm_formats.specs.Items.{Home as FormatHome};

    ghost Value = { List FormatHome };

    ghost view = { λ h. take h.count h.homes };

    ghost invariant = { λ h. h.count ≤ 3 };
}

impl HomeList {
    /// The homes that are there.
    #[tactic(auto, using(crate::proofs::HomeLists::held_is))]
    pub fn held(homes: &Homes) -> HomeList
        ensures { result ≡ held homes.now }
    {
        HomeList::of(homes.first, homes.second, homes.third)
    }

    /// Those on disks that stay, but for one copy.
    #[tactic(auto, using(crate::proofs::HomeLists::kept_is))]
    pub fn kept(disks: &[PstEntry], homes: &Homes, replaced: u8) -> HomeList
        ensures { result ≡ homes_kept disks.now replaced homes.now }
    {
        let first = kept_home(disks, replaced, 0, homes.first);
        let second = kept_home(disks, replaced, 1, homes.second);
        let third = kept_home(disks, replaced, 2, homes.third);
        HomeList::of(first, second, third)
    }

    fn of(first: Option<Home>, second: Option<Home>, third: Option<Home>) -> HomeList
        ensures { result ≡ option_to_list first ++ option_to_list second ++ option_to_list third }
    {
        let mut list = HomeList::none();
        list.add(first);
        list.add(second);
        list.add(third);
        list
    }

    fn none() -> HomeList
        ensures { result ≡ [] }
    {
        HomeList {
            homes: [Home { disk: 0, unit: 0 }; 3],
            count: 0,
        }
    }

    fn add(&mut self, home: Option<Home>)
        requires { length self.old < 3 }
        ensures list { self.new ≡ self.old ++ option_to_list home }
        ensures few { length self.new ≤ length self.old + 1 }
    {
        match home {
            Some(home) => self.push(home),
            None => {}
        }
    }

    fn push(&mut self, home: Home)
        requires { length self.old < 3 }
        ensures { self.new ≡ self.old ++ home ∷ [] }
    {
        self.homes[self.count] = home;
        self.count += 1;
    }

    pub fn as_slice(&self) -> &[Home]
        ensures { result.now ≡ self.now }
    {
        &self.homes[..self.count]
    }
}

/// The home, where it is that of another copy than the one to be replaced, on a disk that stays.
fn kept_home(disks: &[PstEntry], replaced: u8, copy: u8, home: Option<Home>) -> Option<Home>
    ensures { result ≡ kept_home disks.now replaced copy home }
{
    match home {
        Some(home) => kept_at(disks, replaced, copy, home),
        None => None,
    }
}

fn kept_at(disks: &[PstEntry], replaced: u8, copy: u8, home: Home) -> Option<Home>
    ensures { result ≡ kept_home disks.now replaced copy (Some home) }
{
    if copy != replaced && staying_at(disks, home).is_some() {
        Some(home)
    } else {
        None
    }
}
