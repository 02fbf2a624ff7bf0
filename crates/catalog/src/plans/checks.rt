//! Whether a new file may have its name and its size.

ghost use Rattle.std.specs.Prelude.{◌≡◌, ◌%◌, ◌==◌, ◌<◌, IfErr, IfOk};
ghost use Rattle.catalog.specs.NameChecks.{IsCheckRefusal, IsNameCheck, IsPathCheck, IsPathRefusal};
ghost use Rattle.plan_records.specs.NewNames.{HasParts, name_meant};

use crate::catalog::Catalog;
use crate::new_file::NewFile;
use crate::plans::refusals::no_memory;
use asm_base::Name;
use plan_records::{NameParts, new_name, refusal_of, system_path};
use refusal_lines::Refusal;
use std::alloc::Global;

impl Catalog {
    /// How many nodes the name of this file would make, were it the next one that is made: at least
    /// one, that of its system name. It is asked by the number that `next_file` gives and the next
    /// incarnation. What `new.by` says is for the caller.
    ///
    /// NoTemplate: no file may have the path. NotSectors: the size isn't whole sectors.
    /// NotDirectory: a directory of the path is there as a file. NameTaken: the system name is
    /// there.
    #[tactic(auto, using(crate::proofs::NameChecks::no_path, crate::proofs::NameChecks::no_sectors, crate::proofs::NameChecks::name_checked, crate::proofs::NameChecks::name_refused, plan_records::proofs::NewNames::name_parts))]
    pub fn check_name(&self, alloc: Global, new: &NewFile) -> Result<u64, Refusal>
        ensures made { IfOk result (IsNameCheck self.now new.now.path.parts new.now.size) }
        ensures refused { IfErr result (IsCheckRefusal self.now new.now.path.parts new.now.size) }
    {
        let file = self.next_file();
        let Some(name) = new_name(&new.path) else {
            return Err(Refusal::NoTemplate);
        };
        if !self.is_sectors(new.size) {
            return Err(Refusal::NotSectors);
        }
        match self.check_path(alloc, &new.path.group, name, file) {
            Ok(nodes) => Ok(nodes),
            Err(refusal) => Err(refusal),
        }
    }

    /// Whether a size is whole sectors.
    #[tactic(auto, using(crate::proofs::NameChecks::some_sector))]
    fn is_sectors(&self, size: u64) -> bool
        ensures { result ≡ (size % self.now.shape.sector == 0) }
    {
        self.has_shape();
        size % self.shape.sector as u64 == 0
    }

    /// How many nodes the name makes for a file of this number.
    #[tactic(auto, using(crate::proofs::NamePlans::want_of_memory, plan_records::proofs::NewNames::path_parts, crate::proofs::NameChecks::path_checked, crate::proofs::NameChecks::path_refused))]
    fn check_path(
        &self,
        alloc: Global,
        group: &Name,
        name: NameParts<'_>,
        file: u32,
    ) -> Result<u64, Refusal>
        requires parts { HasParts (name_meant name) }
        ensures made { IfOk result (IsPathCheck self.now.tables (name_meant name.entry) file) }
        ensures refused { IfErr result (IsPathRefusal self.now.tables (name_meant name.entry)
            file) }
    {
        let incarnation = self.settings().incarnation;
        let path = match system_path(alloc, group, name, file, incarnation) {
            Ok(path) => path,
            Err(error) => return Err(no_memory(error)),
        };
        match self.file_nodes(alloc, &path, file) {
            Ok(made) => Ok(made.len() as u64),
            Err(error) => Err(refusal_of(error)),
        }
    }
}
