//! A group that was formed is mounted as it is.
ghost use Rattle.std.specs.Prelude.{◌≡◌, IfOk};
ghost use Rattle.mounted_groups.specs.catalog_tables.Faults.{IsCatalogOf};
ghost use Rattle.mounted_groups.specs.Mounting.{by_number};
ghost use Rattle.mounted_groups.specs.group_engine.Making.{group_of_parts};
ghost use Rattle.mounted_groups.specs.group_engine.Mounts.{IsWhole};
ghost use Rattle.status_register.specs.Reaching.{Reaches};
ghost use Rattle.new_groups.specs.Drafts.{HasAgreeingParts, disk_list};
ghost use Rattle.new_groups.specs.Forming.{AreDisks, AreParts, IsMountedOf};

use crate::draft::Draft;
use crate::forming::Formed;
use crate::lists::by_number;
use asm_base::NoMemory;
use bay::Bay;
use directory_store::Store;
use mounted_groups::{Catalog, CatalogError, Mounted};
use std::alloc::Global;

/// The catalog of a new group's records. Want of memory is answered, too, where one were at fault.
fn first_catalog(alloc: Global, store: &Store, draft: &Draft) -> Result<Catalog, NoMemory>
    requires { HasAgreeingParts draft.now }
    ensures catalog { IfOk result (IsCatalogOf store.now.table.records draft.now.status.entries) }
    ensures shape { IfOk result (λ c. c.shape ≡ draft.now.shape) }
{
    match Catalog::from_store(alloc, store.content(), &draft.status, draft.shape) {
        Ok(catalog) => Ok(catalog),
        Err(CatalogError::Damaged { .. }) => Err(NoMemory),
        Err(CatalogError::NoMemory) => Err(NoMemory),
    }
}

/// The group of a draft that was formed.
fn mounted_of<B: Bay>(bay: &B, draft: Draft, formed: Formed, catalog: Catalog) -> Mounted
    requires agrees { HasAgreeingParts draft }
    requires disks { AreDisks draft.disks.items (B.state bay.now) }
    requires parts { AreParts draft formed }
    requires reached { Reaches formed.register.members formed.register.value }
    requires catalog { IsCatalogOf formed.store.table.records draft.status.entries catalog }
    requires shape { catalog.shape ≡ draft.shape }
    ensures made { result ≡ group_of_parts draft.name catalog formed.store formed.register
        (by_number (disk_list draft.disks.items)) }
    ensures whole { IsWhole result }
{
    let _bay = bay;
    let disks = by_number(&draft.disks);
    let Formed { store, register } = formed;
    let Draft { name, .. } = draft;
    Mounted::new(name, catalog, store, register, disks)
}

/// Mounts a group that was formed. Nothing is written.
pub fn mount_formed<B: Bay>(
    alloc: Global,
    bay: &B,
    draft: Draft,
    formed: Formed,
) -> Result<Mounted, NoMemory>
    requires agrees { HasAgreeingParts draft }
    requires disks { AreDisks draft.disks.items (B.state bay.now) }
    requires parts { AreParts draft formed }
    ensures made { IfOk result (IsMountedOf draft formed) }
    ensures whole { IfOk result IsWhole }
{
    if !formed.register.reaches(formed.register.value()) {
        drop(formed);
        return Err(NoMemory);
    }
    match first_catalog(alloc, &formed.store, &draft) {
        Ok(catalog) => Ok(mounted_of(bay, draft, formed, catalog)),
        Err(NoMemory) => {
            drop(formed);
            Err(NoMemory)
        }
    }
}
