//! The files of a group, one after the other.

ghost use Rattle.std.specs.Prelude.{◌≡◌, ◌≤◌, ◌+◌, [], ◌∷◌, IfSome, MatchOption};
ghost use Rattle.catalog_laws.specs.catalog_tables.Faults.{IsCatalog};
ghost use Rattle.group_reports.specs.Files.{files_from};

use catalog_laws::Catalog;
use file_directory::FileHead;

/// The file with the least number from one on, with its head. None where no file has such a number.
/// It takes the logarithm of the number of files.
#[tactic(auto, using(crate::proofs::FileWalk::next_file, crate::proofs::FileWalk::no_head, crate::proofs::FileWalk::past_all, crate::proofs::FileWalk::none_in))]
pub(crate) fn next_file(catalog: &Catalog, least: u64) -> Option<(u32, &FileHead)>
    // The files from there on are this one and those behind it.
    ensures next { MatchOption result (files_from catalog.now.tables.files least ≡ [])
        (λ f. files_from catalog.now.tables.files least
        ≡ (f.0, f.1.now) ∷ files_from catalog.now.tables.files (f.0 + 1)) }
    ensures above { IfSome result (λ f. least ≤ f.0) }
    ensures catalog { IsCatalog catalog.now }
{
    // Its clause shows that the files are in order.
    let _group = catalog.shape();
    if least > u32::MAX as u64 {
        return None;
    }
    let Some(number) = catalog.file_from(least as u32) else {
        return None;
    };
    let Some(head) = catalog.file(number) else {
        return None;
    };
    Some((number, head))
}
