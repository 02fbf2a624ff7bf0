//! What a mount has read: the group's record, its directories and its disks.

ghost use Rattle.std.specs.Prelude.{◌≡◌, ◌≤◌, ◌<◌, ◌+◌, ◌^◌, None, Some, length, IfErr, IfOk, IsTrue, MatchResult, OnOk};
ghost use Rattle.std.specs.List.{list_all};
ghost use Rattle.asm_formats.specs.Status.{is_entry};
ghost use Rattle.asm_group.specs.Shape.{is_shape};
ghost use Rattle.bay.specs.Image.{Same};
ghost use Rattle.bay.specs.State.{KeepsAttached};
ghost use Rattle.bay.specs.Moments.{Runs};
ghost use Rattle.group_recovery.specs.Alike.{first_stranger, shape_in};
ghost use Rattle.group_recovery.specs.Finding.{AreThere};
ghost use Rattle.group_recovery.specs.Missing.{first_missing};
ghost use Rattle.group_recovery.specs.Quorum.{CatalogRefusal, CataloguedCause, IsCatalogIn, IsCatalogued, IsFaultAt, IsLastEpochRefusal, IsMissingRefusal, IsQuorate, IsReadOf, IsStrangerRefusal, MissingCause, QuorumCause, RefusesCatalog};
ghost use Rattle.group_recovery.specs.Verdicts.{IsSlotIn};
ghost use Rattle.group_recovery.specs.declared.quorum.MountOption.{MountOption as Forcing};
ghost use Rattle.group_recovery.specs.declared.quorum.MountOption.TheVariants.{NoForce};

use crate::alike::{first_stranger, shape_in};
use crate::error::MountError;
use crate::finding::Headed;
use crate::found::Found;
use crate::loading::load_copies;
use crate::missing::first_missing;
use crate::surveying::survey_named;
use asm_base::{Key, Shape};
use bay::Bay;
use catalog::{Catalog, CatalogError};
use directory_store::Store;
use status_register::Survey;
use status_table::{PstEntry, PstRecord, majority};
use std::alloc::Global;

/// Whether a mount is refused where a disk is missing.
#[derive(Clone, Copy, Debug, PartialEq, Eq)]
pub enum MountOption {
    /// Missing disks are taken Offline.
    Force,
    /// Each disk that would serve must be there.
    NoForce,
}

/// A group of which a majority was read, with its directories: its id, how many images there are
/// and those with an open header, what was surveyed, the shape, and the records of the directories
/// as a store and as tables.
#[derive(Drop)]
pub struct Quorate {
    pub id: u64,
    pub slots: u32,
    pub headed: Vec<Headed>,
    pub survey: Survey,
    pub shape: Shape,
    pub store: Store,
    pub catalog: Catalog,
}

/// What was read of a group: its record, what its creation fixed, and its directories.
#[derive(Drop)]
struct GroupRead {
    survey: Survey,
    shape: Shape,
    store: Store,
}

/// Refuses a group whose last epoch, 2^64 - 1, is used up: no disk can take a claim above it, and a
/// majority of the record's holders is needed.
fn check_epoch(survey: &Survey) -> Result<(), MountError>
    ensures left { OnOk result (survey.now.epoch + 1 < 2 ^ 64) }
    ensures cause { IfErr result (IsLastEpochRefusal survey.now) }
{
    if survey.epoch() == u64::MAX {
        return Err(MountError::NoMajority {
            seen: 0,
            need: majority(survey.value()),
        });
    }
    Ok(())
}

/// The shape of the group, where all members of the id are disks of one.
fn shape_of_group(headed: &[Headed], id: u64) -> Result<Shape, MountError>
    ensures alike { OnOk result (first_stranger id headed.now ≡ None) }
    ensures shape { IfOk result (λ shape. shape_in id headed.now ≡ Some shape) }
    ensures cause { IfErr result (IsStrangerRefusal id headed.now) }
{
    if let Some(slot) = first_stranger(headed, id) {
        return Err(MountError::Damaged { slot, block: 1 });
    }
    match shape_in(headed, id) {
        Some(shape) => Ok(shape),
        None => Err(MountError::NoGroup),
    }
}

/// The place of the record of a key, which is at fault.
fn fault_at(store: &Store, key: Key) -> MountError
    ensures { IsFaultAt store.now key result }
{
    let (slot, block) = store.place_of(key);
    MountError::Damaged { slot, block }
}

/// The refusal of a catalog as that of a mount.
fn refusal_of_catalog(store: &Store, error: CatalogError) -> MountError
    ensures { RefusesCatalog store.now error result }
{
    match error {
        CatalogError::Damaged { key } => fault_at(store, key),
        CatalogError::NoMemory => MountError::NoMemory,
    }
}

/// The catalog of the records. Damaged names the place of the record at fault.
fn catalog_of(
    alloc: Global,
    store: &Store,
    status: &PstRecord,
    shape: Shape,
) -> Result<Catalog, MountError>
    requires shape { IsTrue (is_shape shape) }
    requires entries { IsTrue (list_all is_entry status.now.entries) }
    ensures catalog { IfOk result (IsCatalogIn store.now status.now shape) }
    ensures cause { IfErr result (CatalogRefusal store.now status.now shape) }
{
    match Catalog::from_store(alloc, store.content(), status, shape) {
        Ok(catalog) => Ok(catalog),
        Err(error) => Err(refusal_of_catalog(store, error)),
    }
}

/// The refusal of a mount that isn't forced, by the least disk that is missing.
fn missing_disk(catalog: &Catalog, entry: PstEntry) -> MountError
    ensures { MissingCause catalog.now.tables entry result }
{
    let Some(info) = catalog.disk(entry.number) else {
        return MountError::NoMemory;
    };
    match info.name.copy() {
        Ok(name) => MountError::MissingDisk {
            number: entry.number,
            name,
        },
        Err(_) => MountError::NoMemory,
    }
}

/// Refuses a mount where a disk is missing, if it isn't forced.
fn check_missing(
    catalog: &Catalog,
    id: u64,
    headed: &[Headed],
    status: &PstRecord,
    option: MountOption,
) -> Result<(), MountError>
    ensures none { OnOk result (option ≡ NoForce
        → first_missing id headed.now status.now.entries ≡ None) }
    ensures cause { IfErr result (IsMissingRefusal option catalog.now.tables
        (first_missing id headed.now status.now.entries)) }
{
    match option {
        MountOption::Force => Ok(()),
        MountOption::NoForce => match first_missing(id, headed, status.entries()) {
            Some(entry) => Err(missing_disk(catalog, entry)),
            None => Ok(()),
        },
    }
}

/// Surveys the members of an id among these images, and loads their directories. An epoch must be
/// left for the claim.
fn read_group<B: Bay>(
    alloc: Global,
    bay: &mut B,
    id: u64,
    slots: u32,
    images: &[Headed],
) -> Result<GroupRead, MountError>
    requires there { AreThere slots images.now (B.state bay.old) }
    requires few { length images.now ≤ 512 }
    ensures read { IfOk result (λ read. IsReadOf
        (record { id = id; slots = slots; headed = images.now }) read (B.state bay.new)) }
    ensures cause { IfErr result (λ error. (option : Forcing)
        → QuorumCause option (record { id = id; slots = slots; headed = images.now }) error
        (B.state bay.old) (B.state bay.new)) }
    ensures attached { KeepsAttached (B.state bay.old) (B.state bay.new) }
    ensures runs { Runs (IsSlotIn images.now) Same (B.state bay.old) (B.state bay.new) }
{
    let survey = survey_named(alloc, bay, images, id, slots)?;
    check_epoch(&survey)?;
    let shape = shape_of_group(images, id)?;
    let store = load_copies(alloc, bay, images, id, &survey, slots)?;
    Ok(GroupRead {
        survey,
        shape,
        store,
    })
}

/// The catalog of what was read, where the mount isn't refused for a missing disk.
fn complete_catalog(
    alloc: Global,
    id: u64,
    headed: &[Headed],
    read: &GroupRead,
    option: MountOption,
) -> Result<Catalog, MountError>
    requires shape { IsTrue (is_shape read.now.shape) }
    requires entries { IsTrue (list_all is_entry read.now.survey.value.entries) }
    ensures catalog { IfOk result (IsCatalogIn read.now.store read.now.survey.value
        read.now.shape) }
    ensures complete { OnOk result (option ≡ NoForce
        → first_missing id headed.now read.now.survey.value.entries ≡ None) }
    ensures cause { IfErr result (CataloguedCause option id headed.now read.now) }
{
    let status = read.survey.value();
    let catalog = catalog_of(alloc, &read.store, status, read.shape)?;
    match check_missing(&catalog, id, headed, status, option) {
        Ok(()) => Ok(catalog),
        Err(error) => {
            drop(catalog);
            Err(error)
        }
    }
}

/// What was read, with its catalog.
fn quorate_with(
    id: u64,
    slots: u32,
    headed: Vec<Headed>,
    read: GroupRead,
    catalog: Catalog,
) -> Quorate
    ensures { result ≡ record {
      id = id;
      slots = slots;
      headed = headed;
      survey = read.survey;
      shape = read.shape;
      store = read.store;
      catalog = catalog;
    } }
{
    let GroupRead {
        survey,
        shape,
        store,
    } = read;
    Quorate {
        id,
        slots,
        headed,
        survey,
        shape,
        store,
        catalog,
    }
}

/// Makes the catalog of what was read. Nothing is read any more.
fn catalogued(
    alloc: Global,
    id: u64,
    slots: u32,
    headed: Vec<Headed>,
    read: GroupRead,
    option: MountOption,
) -> Result<Quorate, MountError>
    requires shape { IsTrue (is_shape read.shape) }
    requires entries { IsTrue (list_all is_entry read.survey.value.entries) }
    ensures made { IfOk result (IsCatalogued option id slots headed.items read) }
    ensures cause { IfErr result (CataloguedCause option id headed.items read) }
{
    match complete_catalog(alloc, id, headed.as_slice(), &read, option) {
        Ok(catalog) => Ok(quorate_with(id, slots, headed, read, catalog)),
        Err(error) => Err(error),
    }
}

/// Surveys the members of an id among these images, loads their directories and makes the catalog.
fn quorate_of<B: Bay>(
    alloc: Global,
    bay: &mut B,
    id: u64,
    slots: u32,
    headed: Vec<Headed>,
    option: MountOption,
) -> Result<Quorate, MountError>
    requires there { AreThere slots headed.items (B.state bay.old) }
    requires few { length headed.items ≤ 512 }
    ensures answer { MatchResult result
        (λ quorate. IsQuorate option (record { id = id; slots = slots; headed = headed.items }) quorate (B.state bay.new))
        (λ error. QuorumCause option (record { id = id; slots = slots; headed = headed.items }) error (B.state bay.old) (B.state bay.new)) }
    ensures attached { KeepsAttached (B.state bay.old) (B.state bay.new) }
    ensures runs { Runs (IsSlotIn headed.items) Same (B.state bay.old) (B.state bay.new) }
{
    let read = read_group(alloc, bay, id, slots, headed.as_slice())?;
    catalogued(alloc, id, slots, headed, read, option)
}

impl Found {
    /// Syncs the group's disks, reads its record and loads its directories. The refusals are tried
    /// in this order: NoMajority, Damaged in a claim or status body, NoMajority where the last
    /// epoch is used up (no disk can take a claim above it, and a majority of the record's holders
    /// is needed), Damaged in the header of a member that isn't a disk of the group,
    /// DirectoriesLost, Damaged in the directories, MissingDisk where the mount isn't forced.
    /// NoGroup comes where the group is found gone. Nothing is written.
    pub fn quorate<B: Bay>(
        self,
        alloc: Global,
        bay: &mut B,
        option: MountOption,
    ) -> Result<Quorate, MountError>
        requires there { AreThere self.slots self.headed (B.state bay.old) }
        ensures answer { MatchResult result
            (λ quorate. IsQuorate option self quorate (B.state bay.new))
            (λ error. QuorumCause option self error (B.state bay.old) (B.state bay.new)) }
        ensures attached { KeepsAttached (B.state bay.old) (B.state bay.new) }
        ensures runs { Runs (IsSlotIn self.headed) Same (B.state bay.old) (B.state bay.new) }
    {
        let (id, slots, headed) = self.into_parts();
        quorate_of(alloc, bay, id, slots, headed, option)
    }
}
