//! The directories are stored on a disk more, and then the status record names it.
ghost use Rattle.std.specs.Prelude.{◌≡◌, ◌<◌, false, true, IfSome, IsTrue};
ghost use Rattle.asm_formats.specs.Status.{has_entry, is_status};
ghost use Rattle.refusal_lines.specs.declared.refusal.DiskRef.TheVariants as refused;
ghost use Rattle.refusal_lines.specs.declared.refusal.Refusal.TheVariants as cause;
ghost use Rattle.group_engine.specs.Copying.{CopiesTo, IsOneMore, MayStoreOn, WritesMore};
ghost use Rattle.group_engine.specs.Mounts.{IsMounted, Takes};
ghost use Rattle.status_register.specs.Keeping.{IsRegisterReady as IsWritable};
ghost use Rattle.status_register.specs.Reaching.{Reaches};

use crate::mounted::Mounted;
use crate::search::Search;
use asm_base::DiskSet;
use bay::Bay;
use directory_store::{CopyError, DirCopy};
use disk_sizes::region_bytes;
use refusal_lines::{DiskRef, Refusal};
use status_register::{Dead, Register, is_of_entry, with_dirs};
use std::alloc::Global;

/// Writes the record that holds with the directory copy of a disk more.
fn name_copy<B: Bay>(bay: &mut B, register: &mut Register, disk: u8) -> Result<DiskSet, Dead>
    requires small { disk < 64 }
    requires status { IsTrue (is_status register.old.value) }
    requires entry { has_entry register.old.value.entries disk ≡ true }
    requires written { register.old.is_fresh ≡ false }
    requires ready { IsWritable register.old (B.state bay.old) }
    requires majority { Reaches register.old.members register.old.value }
    ensures { WritesMore register.old disk result register.new (B.state bay.old) (B.state bay.new) }
{
    let value = register.value();
    let more = value.dirs.with(disk);
    let next = with_dirs(value, more);
    register.write(bay, &next)
}

impl Mounted {
    /// Stores the directories on a disk, and then names it in the record as one that has a copy. A
    /// disk that is named has one already. Refusals: WriteFault, where the disk isn't attached or
    /// its slot failed; Dismounted, where the group is, or where in this call a majority of a set
    /// of the record failed; NoMemory, also where the disk can't have a copy: it has no entry, or
    /// its image is too short. WriteFault and NoMemory leave the value as before.
    pub fn copy_directory<B: Bay>(
        &mut self,
        alloc: Global,
        bay: &mut B,
        to: u8,
    ) -> Result<(), Refusal>
        requires takes { Takes self.old (B.state bay.old) }
        ensures { CopiesTo self.old to result self.new (B.state bay.old) (B.state bay.new) }
    {
        match self.takes_calls() {
            Ok(()) => self.copy_mounted(alloc, bay, to),
            Err(refusal) => Err(refusal),
        }
    }

    /// The same of a group that takes calls.
    fn copy_mounted<B: Bay>(&mut self, alloc: Global, bay: &mut B, to: u8) -> Result<(), Refusal>
        requires mounted { IsMounted self.old }
        requires takes { Takes self.old (B.state bay.old) }
        ensures { CopiesTo self.old to result self.new (B.state bay.old) (B.state bay.new) }
    {
        if self.status().dirs.has(to) {
            return Ok(());
        }
        if to >= 64 || self.disks[to as usize].is_none() {
            return Err(write_fault(to));
        }
        match self.copy_on(to) {
            Some(copy) => self.store_copy(alloc, bay, to, copy),
            None => Err(Refusal::NoMemory),
        }
    }

    /// The copy that a disk may have: like one that the store has.
    fn copy_on(&self, to: u8) -> Option<DirCopy>
        requires small { to < 64 }
        ensures { IfSome result (IsOneMore self.now to) }
    {
        let first = self.store.copies().first()?;
        let member = self.register.member(to)?;
        let attached = self.disks[to as usize]?;
        let end = region_bytes(first.dir_blocks);
        if attached.size < end || !is_of_entry(self.register.value().entries(), member) {
            return None;
        }
        Some(DirCopy {
            number: to,
            slot: member.slot,
            dir_blocks: first.dir_blocks,
            sector: first.sector,
        })
    }

    /// Stores the directories on a copy that isn't named, and names it.
    fn store_copy<B: Bay>(
        &mut self,
        alloc: Global,
        bay: &mut B,
        to: u8,
        copy: DirCopy,
    ) -> Result<(), Refusal>
        requires { MayStoreOn self.old to copy (B.state bay.old) }
        ensures { CopiesTo self.old to result self.new (B.state bay.old) (B.state bay.new) }
    {
        self.search = Search::start();
        match self.store.copy_to(alloc, bay, copy) {
            Ok(()) => match name_copy(bay, &mut self.register, to) {
                Ok(_) => Ok(()),
                Err(dead) => Err(self.dismount(dead.slot)),
            },
            Err(CopyError::Fault) => Err(write_fault(to)),
            Err(CopyError::NoMemory) => Err(Refusal::NoMemory),
        }
    }
}

/// A write to a disk was refused.
fn write_fault(disk: u8) -> Refusal
    ensures { result ≡ cause.WriteFault (refused.Number disk) }
{
    Refusal::WriteFault {
        disk: DiskRef::Number(disk),
    }
}
