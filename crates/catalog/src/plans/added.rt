//! The plan of the records of new disks.

ghost use Rattle.std.specs.Prelude.{◌≡◌, ◌≤◌, ◌+◌, ◌++◌, IfErr, IfOk, OnOk, length, map, true};
ghost use Rattle.std.specs.List.{All};
ghost use Rattle.asm_formats.specs.Items.{disk_item, is_item};
ghost use Rattle.plan_records.specs.disk_directory.Disks.{Disk, record_of_disk};
ghost use Rattle.catalog.specs.Plans.{IsAddRefusal, IsPlan, MayAdd, with_records};
ghost use Rattle.plan_records.specs.catalog_tables.Rules.{blocks_used};

use crate::catalog::Catalog;
use crate::plans::refusals::no_memory;
use asm_base::{Change, Key, List, NoMemory, Value};
use plan_records::{DiskInfo, disk_record};
use refusal_lines::Refusal;
use std::alloc::Global;

impl Catalog {
    /// The change by which new disks have these records, all in one. Where fewer blocks are free
    /// than there are disks it is refused as DirectoryFull. The numbers are below 64, each of
    /// another disk, and of one that has no record yet; the names are those of the grammar.
    #[tactic(auto, using(crate::proofs::AddedDisks::lacks_one_each, crate::proofs::AddedDisks::has_one_each))]
    pub fn plan_disks(&self, alloc: Global, added: &[(u8, DiskInfo)]) -> Result<Change, Refusal>
        requires added { MayAdd self.now.tables added.now }
        ensures planned { IfOk result (λ change. IsPlan self.now change.put change.gone
            (record self.now.tables { disks = with_records self.now.tables.disks added.now })) }
        ensures refused { IfErr result (IsAddRefusal self.now added.now) }
    {
        let need = added.len() as u64;
        let free = self.free_blocks();
        if free < need {
            return Err(Refusal::DirectoryFull { need, free });
        }
        self.add_disks(alloc, added).map_err(no_memory)
    }

    fn add_disks(&self, alloc: Global, added: &[(u8, DiskInfo)]) -> Result<Change, NoMemory>
        requires added { MayAdd self.now.tables added.now }
        requires room { length added.now + blocks_used self.now.tables + 2
            ≤ self.now.shape.dir_blocks }
        ensures { IfOk result (λ change. IsPlan self.now change.put change.gone
            (record self.now.tables { disks = with_records self.now.tables.disks added.now })) }
    {
        self.keeps_rules();
        let mut put = List::new(alloc);
        put_disks(alloc, &mut put, added)?;
        Ok(Change {
            put,
            gone: List::new(alloc),
        })
    }
}

/// Puts the records of disks behind others.
fn put_disks(
    alloc: Global,
    put: &mut List<(Key, Value)>,
    added: &[(u8, DiskInfo)],
) -> Result<(), NoMemory>
    requires { All (λ (x : Disk). is_item (disk_item x.0 x.1) ≡ true) added.now }
    ensures { OnOk result (put.new ≡ put.old ++ map record_of_disk added.now) }
{
    for (number, info) in added {
        put.push(disk_record(alloc, *number, info)?)?;
    }
    Ok(())
}
