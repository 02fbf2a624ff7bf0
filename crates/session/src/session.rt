// The groups of the session, and its place.
ghost use Rattle.std.specs.Prelude.{◌≡◌, ◌⊎◌, max, min, ◌≤◌, ◌+◌, ◌++◌, [], ◌∷◌, false, is_some, length, map, nat_le, IfSome, OnOk, OnErr};
ghost use Rattle.indexmap.specs.IndexMap.{insert_entry};
ghost use Rattle.bay.specs.Counts.{last_count};
ghost use Rattle.asm_world.specs.Causes.{mounted_count, is_mounted_as};
ghost use Rattle.asm_world.specs.World.{World, entry_among, mounted_entry, without_entry};
ghost use Rattle.group_contents.specs.group_engine.Mounts.{IsMounted};
ghost use Rattle.session.specs.Entries.{AreAlike, entry_view, group_view};
ghost use Rattle.session.specs.Naming.{AreNamesApart};
ghost use Rattle.session.specs.Sessions.{AreGiven, given_after, entries_of, new_group_if_any, without_groups};

use crate::entry::Entry;
use crate::group_name::{GroupName, SoughtName};
use asm_base::{List, Name, NoMemory};
use group_contents::Mounted;
use indexmap::IndexMap;
use std::alloc::Global;
use std::hash::Hash;
use std::marker::Model;

/// The most groups that are mounted.
pub const MAX_GROUPS: usize = 8;

/// The groups of the session by their names, in the order of mounting, the parts of its place from
/// the top, the least id that was not given yet, and the greatest time seen, in seconds.
#[derive(Drop)]
pub struct Session {
    pub(crate) groups: IndexMap<GroupName, Entry>,
    place: List<Name>,
    given: u64,
    time: u64,
}

impl Model for Session {
    ghost use Rattle.std.specs.Prelude.{map};
    ghost use Rattle.session.specs.Sessions.{SessionView, AreGiven};
    ghost use Rattle.session.specs.Entries.{entry_view, group_view};

    ghost Value = { SessionView };

    ghost view = { λ s. record { entries = map entry_view s.groups.entries; groups = map group_view s.groups.entries; place = s.place; given = s.given; time = s.time } };

    ghost invariant = { λ s. AreGiven (map entry_view s.groups.entries) s.given };
}

/// Puts a value under a key. A value that was there goes.
fn put<K: Eq + Hash + Drop, V: Drop>(
    map: &mut IndexMap<K, V>,
    key: K,
    value: V,
) -> Result<(), NoMemory>
    ensures entries { OnOk result (map.new.entries ≡ insert_entry K.eq map.old.entries key value) }
    ensures same { OnErr result (map.new.entries ≡ map.old.entries) }
{
    match map.insert(key, value) {
        Ok(_) => Ok(()),
        Err(_) => Err(NoMemory),
    }
}

impl Session {
    pub fn new(alloc: Global) -> Session
        ensures entries { result.entries ≡ [] }
        ensures groups { result.groups ≡ [] }
        ensures place { result.place ≡ [] }
        ensures given { result.given ≡ 0 }
        ensures time { result.time ≡ 0 }
    {
        Session {
            groups: IndexMap::new(alloc),
            place: List::new(alloc),
            given: 0,
            time: 0,
        }
    }

    /// Sees a time in seconds. The session goes by the greatest.
    pub fn see(&mut self, time: u64)
        ensures { self.new ≡ record self.old { time = max self.old.time time } }
    {
        self.time = self.time.max(time);
    }

    /// The place: a group's name and the directories below it. At `+` it has no parts.
    pub fn place(&self) -> &[Name]
        ensures { result.now ≡ self.now.place }
    {
        self.place.as_slice()
    }

    /// The session goes to a place.
    pub fn go(&mut self, place: List<Name>)
        ensures { self.new ≡ record self.old { place = place } }
    {
        self.place = place;
    }

    /// The groups by their names, in the order of mounting.
    pub fn groups(&self) -> &IndexMap<GroupName, Entry>
        ensures entries { map entry_view result.now.entries ≡ self.now.entries }
        ensures groups { map group_view result.now.entries ≡ self.now.groups }
    {
        &self.groups
    }

    /// Whether a group of the name is in the session.
    pub fn has(&self, name: &Name) -> bool
        ensures { result ≡ is_some (entry_among self.now.entries name.now) }
    {
        self.groups.contains_key(SoughtName { name })
    }

    /// Whether as many groups are mounted as there may be.
    pub fn is_full(&self) -> bool
        ensures { (w : World) → w.session ≡ self.now.entries → result ≡ nat_le 8 (mounted_count w) }
    {
        let mut mounted = 0;
        for (_, entry) in self.groups.iter() {
            if entry.is_mounted() {
                mounted += 1;
            }
            if mounted == MAX_GROUPS {
                return true;
            }
        }
        false
    }

    /// Whether a group of the name is mounted. No two groups have one name, and each entry has its
    /// group and says whether it is mounted.
    pub fn has_mounted(&self, name: &Name) -> bool
        ensures mounted { result ≡ is_mounted_as (entry_among self.now.entries name.now) }
        ensures apart { AreNamesApart self.now.entries }
        ensures paired { length self.now.groups ≡ length self.now.entries }
        ensures alike { AreAlike self.now.entries self.now.groups }
    {
        self.shows_names();
        match self.groups.get(SoughtName { name }) {
            Some(entry) => entry.is_mounted(),
            None => false,
        }
    }

    /// The greatest time seen, in seconds.
    pub fn time(&self) -> u64
        ensures { result ≡ self.now.time }
    {
        self.time
    }

    /// Makes room for one more group.
    pub fn make_room(&mut self) -> Result<(), NoMemory>
        ensures { self.new ≡ self.old }
    {
        self.groups.reserve(1).map_err(|_| NoMemory)
    }

    /// The least id that a new group may have: above all that were given, and the time seen in its
    /// upper part.
    pub fn next_id(&self) -> u64
        ensures floor { self.now.given ≤ result }
        ensures given { AreGiven self.now.entries self.now.given }
    {
        self.time.saturating_mul(65_536).max(self.given)
    }

    /// Notes an id that was given.
    #[tactic(auto, using(crate::proofs::Giving::still_given))]
    pub fn gave(&mut self, made: Option<u64>)
        requires { IfSome made (λ id. self.old.given ≤ id) }
        ensures { self.new ≡ record self.old { given = given_after self.old.given made } }
    {
        if let Some(id) = made {
            self.given = id.saturating_add(1);
        }
    }

    /// Enters the new group last. None of its name is there. There is room for it, where its place
    /// was made before.
    pub fn enter(&mut self, name: Name, made: Option<u64>, group: Mounted) -> Result<(), NoMemory>
        requires fresh { IfSome made (λ id. self.old.given ≤ id) }
        requires absent { is_some (entry_among self.old.entries name) ≡ false }
        requires mounted { IsMounted group }
        ensures given { self.new.given ≡ given_after self.old.given made }
        ensures place { self.new.place ≡ self.old.place }
        ensures entered { OnOk result (self.new.entries
            ≡ self.old.entries ++ entries_of name made) }
        ensures groups { OnOk result (self.new.groups
            ≡ self.old.groups ++ new_group_if_any made group) }
        ensures refused { OnErr result ((self.new.entries ≡ self.old.entries)
            × (self.new.groups ≡ self.old.groups)) }
    {
        self.gave(made);
        match made {
            Some(id) => self.add(name, id, group),
            None => {
                drop(group);
                Ok(())
            }
        }
    }

    /// Enters a group that was mounted, last, in place of one of its name that was dismounted. Its
    /// id counts as given. There is room for it, where its place was made before.
    pub fn enter_mounted(&mut self, group: Mounted) -> Result<(), NoMemory>
        requires mounted { IsMounted group }
        ensures place { self.new.place ≡ self.old.place }
        ensures given { OnOk result (self.old.given ≤ self.new.given) }
        ensures entered { OnOk result (self.new.entries
            ≡ without_entry self.old.entries group.name
            ++ mounted_entry group.name group.register.value.id ∷ []) }
        ensures groups { OnOk result (self.new.groups
            ≡ without_groups self.old.entries self.old.groups group.name ++ group ∷ []) }
        ensures refused { OnErr result ((self.new.groups ≡ self.old.groups)
            ⊎ (self.new.groups ≡ without_groups self.old.entries self.old.groups group.name)) }
    {
        match group.name().copy() {
            Ok(name) => {
                let id = group.status().id;
                self.leave(&name);
                self.gave_up_to(id);
                self.add(name, id, group)
            }
            Err(NoMemory) => {
                drop(group);
                Err(NoMemory)
            }
        }
    }

    /// Notes that an id and all below it are given.
    fn gave_up_to(&mut self, id: u64)
        ensures later { self.old.given ≤ self.new.given }
        ensures given { min (id + 1) last_count ≤ self.new.given }
        ensures same { self.new ≡ record self.old { given = self.new.given } }
    {
        self.given = self.given.max(id.saturating_add(1));
    }

    /// Adds a group whose id was given.
    fn add(&mut self, name: Name, id: u64, group: Mounted) -> Result<(), NoMemory>
        requires given { min (id + 1) last_count ≤ self.old.given }
        requires absent { is_some (entry_among self.old.entries name) ≡ false }
        requires mounted { IsMounted group }
        ensures given { self.new.given ≡ self.old.given }
        ensures place { self.new.place ≡ self.old.place }
        ensures entered { OnOk result (self.new.entries
            ≡ self.old.entries ++ mounted_entry name id ∷ []) }
        ensures groups { OnOk result (self.new.groups ≡ self.old.groups ++ group ∷ []) }
        ensures refused { OnErr result ((self.new.entries ≡ self.old.entries)
            × (self.new.groups ≡ self.old.groups)) }
    {
        let key = GroupName { name };
        match put(&mut self.groups, key, Entry { id, group }) {
            Ok(()) => Ok(()),
            Err(NoMemory) => Err(NoMemory),
        }
    }

    /// Takes the group of a name out of the session, and says whether it was there. The place
    /// stays.
    pub fn leave(&mut self, name: &Name) -> bool
        ensures found { result ≡ is_some (entry_among self.old.entries name.now) }
        ensures left { self.new.entries ≡ without_entry self.old.entries name.now }
        ensures groups { self.new.groups ≡ without_groups self.old.entries self.old.groups
            name.now }
        ensures paired { length self.old.groups ≡ length self.old.entries }
        ensures place { self.new.place ≡ self.old.place }
        ensures given { self.new.given ≡ self.old.given }
    {
        let left = self.groups.shift_remove(SoughtName { name });
        let found = left.is_some();
        drop(left);
        found
    }
}
