//! The disks of the group that a name is looked for.

ghost use Rattle.std.specs.Prelude.{◌≡◌, ◌≤◌, ◌<◌, ◌+◌, ◌*◌, length, IfOk, MatchResult};
ghost use Rattle.bay.specs.Image.{Same};
ghost use Rattle.bay.specs.Moments.{Runs};
ghost use Rattle.group_recovery.specs.Finding.{AreThere, AttachedStays};
ghost use Rattle.group_recovery.specs.Founds.{FindCause, IsFound, is_held, not_held, short_refusal, id_of_choice, id_unless_damaged};
ghost use Rattle.group_recovery.specs.Recovering.{is_named, name_in};

use crate::choosing::{Choice, ShortId, WholeId, choose, ids_named};
use crate::error::MountError;
use crate::finding::{Headed, find_headed};
use asm_base::Name;
use bay::Bay;
use std::alloc::Global;
use std::marker::Model;

/// The images with an open header, and the id among theirs that is mounted. Contracts see both.
#[derive(Debug, Drop)]
pub struct Found {
    id: u64,
    /// The images, of which those in the first so many slots are looked at.
    slots: u32,
    headed: Vec<Headed>,
}

impl Model for Found {
    ghost use Rattle.std.specs.Prelude.{◌≤◌, length};
    ghost use Rattle.group_recovery.specs.Founds.{FoundDisks};

    ghost Value = { FoundDisks };

    ghost view = { λ f. record { id = f.id; slots = f.slots; headed = f.headed.items } };

    ghost invariant = { λ f. length f.headed.items ≤ 512 };
}

/// Whether the first image of an id has a name.
fn has_name(headed: &[Headed], id: u64, name: &Name) -> bool
    ensures { result ≡ is_named (name_in id headed.now) name.now }
{
    let [first, rest @ ..] = headed else {
        return false;
    };
    if first.header.id == id {
        return first.header.group.is_same(name);
    }
    has_name(rest, id, name)
}

/// Whether a slot is one of these.
pub fn is_held(held: &[u32], slot: u32) -> bool
    ensures { result ≡ is_held held.now slot }
{
    held.iter().any(|other| *other == slot)
}

/// The images that aren't in these slots are left.
fn leave_out(headed: &mut Vec<Headed>, held: &[u32])
    ensures { headed.new.items ≡ not_held held.now headed.old.items }
{
    headed.retain(|disk| !is_held(held, disk.slot));
}

/// The refusal of a name of which no id is whole.
fn short_refusal(short: Option<ShortId>) -> MountError
    ensures { result ≡ short_refusal short }
{
    match short {
        Some(short) => MountError::NoMajority {
            seen: short.seen,
            need: short.need,
        },
        None => MountError::NoGroup,
    }
}

/// The id that is whole, where all bodies that were read decode.
fn undamaged(whole: WholeId) -> Result<u64, MountError>
    ensures { result ≡ id_unless_damaged whole }
{
    match whole.damage {
        Some((slot, block)) => Err(MountError::Damaged { slot, block }),
        None => Ok(whole.id),
    }
}

/// The id that is mounted.
fn taken(choice: &Choice) -> Result<u64, MountError>
    ensures { result ≡ id_of_choice choice.now }
{
    if choice.are_two {
        return Err(MountError::TwoGroups);
    }
    match choice.whole {
        Some(whole) => undamaged(whole),
        None => Err(short_refusal(choice.short)),
    }
}

/// What was found of an id, without the images in these slots.
fn found_of(id: u64, slots: u32, headed: Vec<Headed>, unread: &[u32]) -> Found
    requires few { length headed.items ≤ 512 }
    ensures { result ≡ record {
      id = id;
      slots = slots;
      headed = not_held unread.now headed.items;
    } }
{
    let mut headed = headed;
    leave_out(&mut headed, unread);
    Found { id, slots, headed }
}

impl Found {
    /// Attaches and syncs every image, reads the headers and surveys each id of the name, all its
    /// members. The one id with a majority of each set of its record is taken; an id that is gone
    /// is passed over. Disks that failed are left out, those in the surveys too. The refusals are
    /// tried in this order: NoGroup, TwoGroups, NoMajority of the greatest id, Damaged in a claim
    /// or status body. Nothing is written.
    pub fn find<B: Bay>(
        alloc: Global,
        bay: &mut B,
        paths: &[String],
        name: &Name,
    ) -> Result<Found, MountError>
        requires few { length paths.now ≤ 512 }
        ensures answer { MatchResult result
            (λ found. IsFound name.now (length paths.now) found (B.state bay.old) (B.state bay.new))
            (λ error. FindCause name.now (length paths.now) error (B.state bay.old) (B.state bay.new)) }
        ensures there { IfOk result (λ found. AreThere (length paths.now) found.headed
            (B.state bay.new)) }
        // What is attached stays so, with its size.
        ensures stays { AttachedStays (B.state bay.old) (B.state bay.new) }
        ensures slots { IfOk result (λ found. found.slots ≡ length paths.now) }
        ensures calls { (B.state bay.new).calls ≤ (B.state bay.old).calls + 12 * length paths.now }
        ensures runs { Runs (λ slot. slot < length paths.now) Same (B.state bay.old)
            (B.state bay.new) }
    {
        let headed = find_headed(alloc, bay, paths)?;
        let ids = ids_named(alloc, &headed, name)?;
        let mut unread = Vec::new(alloc);
        let choice = choose(alloc, bay, &headed, &ids, &mut unread)?;
        match taken(&choice) {
            Ok(id) => Ok(found_of(id, paths.len() as u32, headed, &unread)),
            Err(error) => Err(error),
        }
    }

    /// The group's id.
    pub fn id(&self) -> u64
        ensures { result ≡ self.now.id }
    {
        self.id
    }

    /// Whether the first image of the id has a name, without regard to case.
    pub fn is_named(&self, name: &Name) -> bool
        ensures { result ≡ is_named (name_in self.now.id self.now.headed) name.now }
    {
        has_name(&self.headed, self.id, name)
    }

    /// Without the images in these slots, which are attached to other groups.
    pub fn without(self, held: &[u32]) -> Found
        ensures { result ≡ record self { headed = not_held held.now self.headed } }
    {
        let Found { id, slots, headed } = self;
        found_of(id, slots, headed, held)
    }

    /// The group's id, how many images there are, and those with an open header.
    pub(crate) fn into_parts(self) -> (u64, u32, Vec<Headed>)
        ensures id { result.0 ≡ self.id }
        ensures slots { result.1 ≡ self.slots }
        ensures headed { result.2.items ≡ self.headed }
        ensures few { length result.2.items ≤ 512 }
    {
        (self.id, self.slots, self.headed)
    }

    /// The images with an open header.
    pub fn headed(&self) -> &[Headed]
        ensures headed { result.now ≡ self.now.headed }
        ensures few { length result.now ≤ 512 }
    {
        &self.headed
    }
}
