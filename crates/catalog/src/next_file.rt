//! The number of the next file.

ghost use Rattle.std.specs.Prelude.{◌≡◌, ◌≤◌, ◌<◌, ◌^◌, ℕ, IfNone, IfSome, true};
ghost use Rattle.catalog.specs.Numbers.{IsNextFile, IsUntaken, is_taken};

use crate::catalog::Catalog;
use plan_records::is_pending;

/// Files are numbered from this one.
const FIRST_FILE: u32 = 256;

impl Catalog {
    /// The least file number from 256 that neither a file nor the pending operation has, or the
    /// greatest number where all are taken. It looks at the files in the order of their numbers.
    #[tactic(auto, using(crate::proofs::NextFile::untaken_is_next, crate::proofs::NextFile::none_is_last))]
    pub fn next_file(&self) -> u32
        ensures next { IsNextFile self.now.tables result }
    {
        match self.untaken() {
            Some(file) => file,
            None => u32::MAX,
        }
    }

    #[tactic(auto, using(crate::proofs::NextFile::first_is, crate::proofs::NextFile::second_is, crate::proofs::NextFile::none_behind, crate::proofs::NextFile::at_end, crate::proofs::NextFile::none_at_all))]
    fn untaken(&self) -> Option<u32>
        ensures found { IfSome result (IsUntaken self.now.tables) }
        ensures none { IfNone result ((k : ℕ) → 256 ≤ k → k < 2 ^ 32
            → is_taken self.now.tables k ≡ true) }
    {
        let first = self.parts.files.free_from(FIRST_FILE)?;
        if !is_pending(first, self.parts.operations.pending()) {
            return Some(first);
        }
        let next = first.checked_add(1)?;
        self.parts.files.free_from(next)
    }
}
