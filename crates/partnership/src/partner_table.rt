//! The partner table: which disks hold each other's copies.

ghost use Rattle.std.specs.Prelude.{◌≡◌, ◌∷◌, IfOk, OnOk, fold, map};
ghost use Rattle.asm_formats.specs.Status.{Entry};
ghost use Rattle.asm_placement.specs.Partners.{both_have_room, pairs, partner_set, partners, table_disks, with_partners};
ghost use Rattle.status_table.specs.Changes.{entries_with_partners};
ghost use Rattle.partnership.specs.Tables.{is_table_disk, is_wanted, met, partners_from, step};

use crate::pairs::Table;
use allocator::{DiskSet, List, Mode, NoMemory};
use status_table::PstEntry;
use std::alloc::Global;

/// Which pairs are added to the table.
#[derive(Clone, Copy)]
pub enum Pass {
    /// Those of which one disk has no partner in the other's failure group.
    First,
    /// All others.
    Second,
}

/// The most partners of a disk.
const MOST_PARTNERS: usize = 8;

/// The partners of each disk, in the order of the disks, which ascend by number. All pairs of
/// regular disks that stay and lie in different failure groups are taken in ascending order, in two
/// passes, as long as both disks have fewer than eight partners.
pub fn partners(alloc: Global, disks: &[PstEntry]) -> Result<Vec<DiskSet>, NoMemory>
    ensures sets { IfOk result (λ sets. sets.items
        ≡ map (λ (e : Entry). partner_set disks.now e.number) disks.now) }
    // Given to the entries by place, the sets are their partners.
    ensures entries { IfOk result (λ sets. entries_with_partners disks.now sets.items
        ≡ with_partners disks.now) }
{
    let table = partner_table(alloc, disks)?;
    partner_sets(alloc, &table, disks)
}

#[tactic(auto, unfolding(asm_placement::specs::Partners::partners))]
fn partner_table(alloc: Global, disks: &[PstEntry]) -> Result<Table, NoMemory>
    ensures { IfOk result (λ table. table ≡ partners disks.now) }
{
    let mut table = Table::new(alloc);
    add_pairs(&mut table, disks, Pass::First)?;
    add_pairs(&mut table, disks, Pass::Second)?;
    Ok(table)
}

/// Adds the pairs of a pass to the table.
#[tactic(auto, using(crate::proofs::Tables::rest_is, crate::proofs::Tables::pairs_end))]
fn add_pairs(table: &mut Table, disks: &[PstEntry], pass: Pass) -> Result<(), NoMemory>
    ensures { OnOk result (table.new ≡ fold (step pass) table.old (pairs (table_disks disks.now))) }
{
    for i in 0..disks.len() {
        add_pairs_from(table, &disks[i], &disks[i + 1..], pass)?;
    }
    Ok(())
}

/// Adds those of a disk and the later ones, if it is a disk of the table.
#[tactic(auto, using(crate::proofs::Tables::pairs_first, crate::proofs::Tables::pairs_past))]
fn add_pairs_from(
    table: &mut Table,
    disk: &PstEntry,
    later: &[PstEntry],
    pass: Pass,
) -> Result<(), NoMemory>
    ensures { OnOk result (fold (step pass) table.new (pairs (table_disks later.now))
        ≡ fold (step pass) table.old (pairs (table_disks (disk.now ∷ later.now)))) }
{
    if is_table_disk(disk) {
        add_pairs_of(table, disk, later, pass)
    } else {
        Ok(())
    }
}

/// Adds those of a disk and a later one.
#[tactic(auto, using(crate::proofs::Tables::fold_from, crate::proofs::Tables::fold_end))]
fn add_pairs_of(
    table: &mut Table,
    disk: &PstEntry,
    later: &[PstEntry],
    pass: Pass,
) -> Result<(), NoMemory>
    ensures { OnOk result (table.new ≡ fold (met pass disk.now) table.old later.now) }
{
    for other in later {
        add_pair(table, disk, other, pass)?;
    }
    Ok(())
}

#[tactic(auto, using(crate::proofs::Tables::met_is))]
fn add_pair(table: &mut Table, a: &PstEntry, b: &PstEntry, pass: Pass) -> Result<(), NoMemory>
    ensures { OnOk result (table.new ≡ met pass a.now table.old b.now) }
{
    if is_table_disk(b)
        && a.failgroup != b.failgroup
        && have_room(table, a, b)
        && is_wanted(table, a, b, pass)
    {
        table.add(*a, *b)?;
    }
    Ok(())
}

/// Whether the disk is regular and stays.
fn is_table_disk(disk: &PstEntry) -> bool
    ensures { result ≡ is_table_disk disk.now }
{
    !disk.quorum && matches!(disk.mode, Mode::Online | Mode::Offline | Mode::Syncing)
}

fn have_room(table: &Table, a: &PstEntry, b: &PstEntry) -> bool
    ensures { result ≡ both_have_room table.now (a.now, b.now) }
{
    table.count(a.number) < MOST_PARTNERS && table.count(b.number) < MOST_PARTNERS
}

/// Whether a pass adds the pair, where both have room.
fn is_wanted(table: &Table, a: &PstEntry, b: &PstEntry, pass: Pass) -> bool
    ensures { result ≡ is_wanted pass table.now (a.now, b.now) }
{
    match pass {
        Pass::First => !table.has_partner_in(a.number, b.failgroup)
            || !table.has_partner_in(b.number, a.failgroup),
        Pass::Second => !table.are_partners(a.number, b.number),
    }
}

#[tactic(auto, using(crate::proofs::Tables::set_is, crate::proofs::Tables::sets_more, crate::proofs::Tables::given))]
fn partner_sets(alloc: Global, table: &Table, disks: &[PstEntry]) -> Result<Vec<DiskSet>, NoMemory>
    requires { table.now ≡ partners disks.now }
    ensures sets { IfOk result (λ sets. sets.items
        ≡ map (λ (e : Entry). partner_set disks.now e.number) disks.now) }
    ensures entries { IfOk result (λ sets. entries_with_partners disks.now sets.items
        ≡ with_partners disks.now) }
{
    let mut sets = List::new(alloc);
    for disk in disks {
        sets.push(partner_set(table, disk.number))?;
    }
    Ok(sets.into_vec())
}

/// The partners of a disk, as a set.
#[tactic(auto, using(crate::proofs::Tables::set_from, crate::proofs::Tables::set_end, crate::proofs::Tables::bit_is))]
fn partner_set(table: &Table, d: u8) -> DiskSet
    ensures { result ≡ partners_from table.now d 0 }
{
    let mut bits = 0u64;
    for k in (0..64u8).rev() {
        if table.are_partners(d, k) {
            bits |= 1 << k;
        }
    }
    DiskSet::from_bits(bits)
}
