//! Plans of another size of a file and of its removal.

ghost use Rattle.std.specs.Prelude.{◌≡◌, ◌<◌, IfErr, IfOk, IsTrue, Some};
ghost use Rattle.plan_records.specs.file_directory.Files.{head_at, is_file_number};
ghost use Rattle.refusal_lines.specs.declared.refusal.Refusal.TheVariants.{NoMemory as WithoutMemory};
ghost use Rattle.catalog.specs.FilePlans.{IsRemovalPlan, IsSizePlan, MayGrow};

use crate::catalog::Catalog;
use crate::plans::operations::fits;
use crate::plans::refusals::no_memory;
use asm_base::{Change, List, NoMemory, PENDING_KEY};
use plan_records::{
    FileHead, keys_of_file, one_put, pending_record, put_and_gone, record_of, removal_of,
    shrinking, two_put, with_size,
};
use refusal_lines::Refusal;
use std::alloc::Global;

impl Catalog {
    /// The change by which a file has another size, in bytes. To a greater size it ends the pending
    /// operation, and to a smaller one it begins the file's shrinking. The file has a head, and
    /// where it grows, all extents that it has then are there.
    pub fn plan_size(&self, alloc: Global, file: u32, size: u64) -> Result<Change, Refusal>
        requires file { IsTrue (is_file_number self.now.tables.files file) }
        requires extents { MayGrow self.now.shape self.now.tables file size }
        ensures planned { IfOk result (λ change. IsSizePlan self.now file size change.put
            change.gone) }
        ensures refused { IfErr result (λ e. e ≡ WithoutMemory) }
    {
        let Some(head) = self.file(file) else {
            unreachable!()
        };
        self.set_size(alloc, file, head, size).map_err(no_memory)
    }

    #[tactic(auto, using(crate::proofs::SizePlans::grown, crate::proofs::SizePlans::as_long))]
    fn set_size(
        &self,
        alloc: Global,
        file: u32,
        head: &FileHead,
        size: u64,
    ) -> Result<Change, NoMemory>
        requires file { head_at self.now.tables.files file ≡ Some head.now }
        requires extents { MayGrow self.now.shape self.now.tables file size }
        ensures { IfOk result (λ change. IsSizePlan self.now file size change.put change.gone) }
    {
        self.keeps_rules();
        self.has_shape();
        let sized = with_size(head, size)?;
        let entry = record_of(alloc, file, &sized)?;
        if head.size < size {
            return put_and_gone(alloc, entry, PENDING_KEY);
        }
        if size < head.size {
            let op = shrinking(&self.shape(), file, &sized);
            fits(&op);
            let begun = pending_record(alloc, &op)?;
            let change = two_put(alloc, entry, begun)?;
            return Ok(change);
        }
        one_put(alloc, entry)
    }

    /// The change by which a file and its names go, and its removal is the pending operation. The
    /// file has a head. It is a plan where each chunk is then one of a file or of the removal.
    pub fn plan_unname(&self, alloc: Global, file: u32) -> Result<Change, Refusal>
        requires file { IsTrue (is_file_number self.now.tables.files file) }
        ensures planned { IfOk result (λ change. IsRemovalPlan self.now file change.put
            change.gone) }
        ensures refused { IfErr result (λ e. e ≡ WithoutMemory) }
    {
        let Some(head) = self.file(file) else {
            unreachable!()
        };
        self.remove(alloc, file, head).map_err(no_memory)
    }

    #[tactic(auto, using(crate::proofs::RemovalPlans::removal_planned))]
    fn remove(&self, alloc: Global, file: u32, head: &FileHead) -> Result<Change, NoMemory>
        requires { head_at self.now.tables.files file ≡ Some head.now }
        ensures { IfOk result (λ change. IsRemovalPlan self.now file change.put change.gone) }
    {
        self.keeps_rules();
        let removal = removal_of(file);
        fits(&removal);
        let begun = pending_record(alloc, &removal)?;
        let mut put = List::new(alloc);
        put.push(begun)?;
        let gone = keys_of_file(alloc, file, head)?;
        Ok(Change { put, gone })
    }
}
