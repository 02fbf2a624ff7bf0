//! Extents of file 256, and which of their copies count.

ghost use Rattle.std.specs.Prelude.{◌≤◌, IfSome};

use super::fact::{Copies, Fact};
use crate::spelt::read_name;
use crate::steps::Unit;
use asm_base::{DiskSet, ExtentId, Name};
use catalog::Catalog;
use disk_modes::first_lost;
use extent_copies::{Extent, template_for};
use file_extents::is_lost;
use group_engine::Mounted;
use status_table::PstEntry;
use std::alloc::Global;

fn extent(index: u32) -> ExtentId {
    ExtentId { file: 256, index }
}

/// The extent as the tables have it.
fn extent_of(catalog: &Catalog, index: u32) -> Option<Extent>
    ensures { IfSome result (λ extent. extent.copies ≤ 3) }
{
    let id = extent(index);
    let copies = catalog.copies_of(id.file)?;
    let homes = catalog.homes(id)?;
    Some(Extent {
        id,
        homes,
        marks: catalog.marks(id),
        copies: copies.min(3),
        units: catalog.units_of(index),
    })
}

fn bit(is: bool, copy: u8) -> u8
    requires { copy ≤ 2 }
{
    if is { 1 << copy } else { 0 }
}

/// Which of the copies of an extent count, where these disks are attached.
fn copies_of(entries: &[PstEntry], attached: DiskSet, extent: &Extent) -> Copies
    requires { extent.now.copies ≤ 3 }
{
    let mut copies = Copies {
        online: 0,
        read: 0,
        fresh: 0,
        current: 0,
        usable: 0,
        first: extent.first_usable(entries, attached, 0),
        is_full: extent.is_full(entries),
    };
    for copy in 0..3u8 {
        copies.online |= bit(extent.is_on_online(entries, copy), copy);
        copies.read |= bit(extent.can_be_read(entries, copy), copy);
        copies.fresh |= bit(extent.is_fresh(copy), copy);
        copies.current |= bit(extent.is_current(entries, copy), copy);
        copies.usable |= bit(extent.is_usable(entries, attached, copy), copy);
    }
    copies
}

/// The attached disks.
fn attached(m: &Mounted) -> DiskSet {
    let mut disks = DiskSet::empty();
    for disk in 0..64u8 {
        if m.slot(disk).is_some() {
            disks = disks.with(disk);
        }
    }
    disks
}

/// Whether the copies of an extent count so.
fn have_copies(m: &Mounted, index: u32, copies: Copies) -> bool {
    match extent_of(m.catalog(), index) {
        Some(extent) => copies_of(m.status().entries(), attached(m), &extent) == copies,
        None => false,
    }
}

/// The copies of the template for a type and a name.
fn copies_by(alloc: Global, catalog: &Catalog, kind: &[u8], name: Option<&[u8]>) -> Option<u8> {
    let kind = read_name(alloc, kind)?;
    let copies = match name {
        Some(name) => copies_by_name(alloc, catalog, &kind, name),
        None => copies_in(catalog, &kind, None),
    };
    drop(kind);
    copies
}

fn copies_by_name(alloc: Global, catalog: &Catalog, kind: &Name, name: &[u8]) -> Option<u8> {
    let name = read_name(alloc, name)?;
    let copies = copies_in(catalog, kind, Some(&name));
    drop(name);
    copies
}

fn copies_in(catalog: &Catalog, kind: &Name, name: Option<&Name>) -> Option<u8> {
    match template_for(catalog.templates(), kind, name) {
        Some(template) => Some(template.copies),
        None => None,
    }
}

/// The first extent of file 256 with all its current copies on a disk.
fn lost_with(m: &Mounted, disk: u8) -> Option<u32> {
    match first_lost(m.catalog(), m.status(), disk) {
        Some(extent) => Some(extent.id.index),
        None => None,
    }
}

/// The disk and the unit of a copy, where it is there.
fn home_of(catalog: &Catalog, index: u32, copy: u8) -> Option<Unit> {
    let home = extent_of(catalog, index)?.home(copy)?;
    Some((home.disk, home.unit))
}

/// Whether it is so that no copy of an extent is usable.
fn is_lost_in(m: &Mounted, index: u32, wanted: bool) -> bool {
    if !m.catalog().shape().is_allowed() {
        return false;
    }
    is_lost(m, extent(index)) == wanted
}

/// Whether the group tells this of extents.
pub fn is_of_extents(alloc: Global, m: &Mounted, fact: Fact) -> bool {
    let catalog = m.catalog();
    match fact {
        Fact::Home(index, copy, home) => home_of(catalog, index, copy) == home,
        Fact::Marks(index, marks) => catalog.marks(extent(index)) == marks,
        Fact::IsLost(index, is) => is_lost_in(m, index, is),
        Fact::Copies(index, copies) => have_copies(m, index, copies),
        Fact::FirstLost(disk, index) => lost_with(m, disk) == index,
        Fact::Template(kind, name, copies) => copies_by(alloc, catalog, kind, name) == copies,
        _ => false,
    }
}
