//! Plans of disks' records.

ghost use Rattle.std.specs.Prelude.{◌≡◌, ◌<◌, ◌+◌, IfErr, IfOk, None, Some, true};
ghost use Rattle.std.specs.Bool.{OnFalse, OnTrue};
ghost use Rattle.std.specs.Option.{option_copied};
ghost use Rattle.asm_formats.specs.Items.{DiskInfo as FormatInfo, disk_item, is_item};
ghost use Rattle.plan_records.specs.disk_directory.Disks.{info_at, with_info, without_disk};
ghost use Rattle.catalog.specs.Plans.{IsDiskRefusal, IsPlan, LacksBlock, may_be_record, with_disk_record};
ghost use Rattle.plan_records.specs.catalog_tables.Rules.{blocks_used};

use crate::catalog::Catalog;
use crate::plans::refusals::no_memory;
use asm_base::{Change, NoMemory};
use plan_records::{DiskInfo, disk_key, disk_record, one_gone, one_put};
use refusal_lines::Refusal;
use std::alloc::Global;

impl Catalog {
    /// The change by which a disk has this record, or none. Where the record is new and no block is
    /// free it is refused as DirectoryFull. The number is below 64, and the names are those of the
    /// grammar.
    pub fn plan_disk(
        &self,
        alloc: Global,
        number: u8,
        info: Option<&DiskInfo>,
    ) -> Result<Change, Refusal>
        requires record { may_be_record number (option_copied info) ≡ true }
        ensures planned { IfOk result (λ change. IsPlan self.now change.put change.gone
            (record self.now.tables {
              disks = with_disk_record self.now.tables.disks number (option_copied info.entry);
            })) }
        ensures refused { IfErr result (IsDiskRefusal self.now number (option_copied info.entry)) }
    {
        match info {
            Some(info) => self.put_disk(alloc, number, info),
            None => self.drop_disk(alloc, number).map_err(no_memory),
        }
    }

    fn put_disk(&self, alloc: Global, number: u8, info: &DiskInfo) -> Result<Change, Refusal>
        requires record { is_item (disk_item number info.now) ≡ true }
        ensures planned { IfOk result (λ change. IsPlan self.now change.put change.gone
            (record self.now.tables { disks = with_info self.now.tables.disks number info.now })) }
        ensures refused { IfErr result (IsDiskRefusal self.now number (Some info.now)) }
    {
        if self.lacks_block(number) {
            return Err(Refusal::DirectoryFull { need: 1, free: 0 });
        }
        self.set_disk(alloc, number, info).map_err(no_memory)
    }

    /// Whether the disk has no record, and no block is free.
    #[tactic(auto, using(crate::proofs::DiskPlans::lacks, crate::proofs::DiskPlans::has_one, crate::proofs::DiskPlans::has_room))]
    fn lacks_block(&self, number: u8) -> bool
        ensures lacks { OnTrue result ((i : FormatInfo) → LacksBlock self.now number (Some i)) }
        ensures has { OnFalse result (info_at self.now.tables.disks number ≡ None
            → blocks_used self.now.tables + 2 < self.now.shape.dir_blocks) }
    {
        match self.disk(number) {
            Some(_) => false,
            None => self.free_blocks() == 0,
        }
    }

    fn set_disk(&self, alloc: Global, number: u8, info: &DiskInfo) -> Result<Change, NoMemory>
        requires record { is_item (disk_item number info.now) ≡ true }
        requires room { info_at self.now.tables.disks number ≡ None
            → blocks_used self.now.tables + 2 < self.now.shape.dir_blocks }
        ensures { IfOk result (λ change. IsPlan self.now change.put change.gone
            (record self.now.tables { disks = with_info self.now.tables.disks number info.now })) }
    {
        self.keeps_rules();
        let entry = disk_record(alloc, number, info)?;
        let change = one_put(alloc, entry)?;
        Ok(change)
    }

    fn drop_disk(&self, alloc: Global, number: u8) -> Result<Change, NoMemory>
        ensures { IfOk result (λ change. IsPlan self.now change.put change.gone
            (record self.now.tables { disks = without_disk self.now.tables.disks number })) }
    {
        self.keeps_rules();
        let change = one_gone(alloc, disk_key(number))?;
        Ok(change)
    }
}
