//! What the files below a directory take: du.

ghost use Rattle.std.specs.Prelude.{◌≡◌, ◌≤◌, ◌<◌, ◌+◌, ◌^◌, IfOk};
ghost use Rattle.group_reports.specs.Files.{if_file_below, mirrored_of, file_size, directory_usage};

use crate::files::next_file;
use crate::places::path_below;
use crate::usage::file_units;
use asm_base::{Name, NoMemory};
use catalog_laws::Catalog;
use file_directory::FileHead;
use std::alloc::Global;

/// Bytes of files, and of all copies of their extents.
#[derive(Clone, Copy, Debug, PartialEq, Eq)]
pub struct Taken {
    pub used: u128,
    pub mirrored: u128,
}

impl Taken {
    fn none() -> Taken
        ensures { result ≡ record { used = 0; mirrored = 0 } }
    {
        Taken {
            used: 0,
            mirrored: 0,
        }
    }

    fn plus(self, others: Taken) -> Taken
        requires used { self.used + others.used < 2 ^ 128 }
        requires mirrored { self.mirrored + others.mirrored < 2 ^ 128 }
        ensures { result ≡ record {
          used = self.used + others.used;
          mirrored = self.mirrored + others.mirrored;
        } }
    {
        Taken {
            used: self.used + others.used,
            mirrored: self.mirrored + others.mirrored,
        }
    }
}

/// What the files below a directory take whose system names lie there. The group has this name.
/// Work goes by the number of the group's files.
#[tactic(auto, using(crate::proofs::Sums::taken_start, crate::proofs::Sums::taken_more, crate::proofs::Sums::taken_end))]
pub fn usage_below(
    alloc: Global,
    group: &Name,
    catalog: &Catalog,
    dir: &[Name],
) -> Result<Taken, NoMemory>
    ensures { IfOk result (λ usage. usage
        ≡ directory_usage catalog.now group.now dir.now catalog.now.tables.files) }
{
    let mut usage = Taken::none();
    let mut least = 0;
    while let Some((number, head)) = next_file(catalog, least) {
        usage = usage.plus(usage_of_file(alloc, group, catalog, dir, number, head)?);
        least = number as u64 + 1;
    }
    Ok(usage)
}

/// What a file takes, where its system name lies below the directory.
fn usage_of_file(
    alloc: Global,
    group: &Name,
    catalog: &Catalog,
    dir: &[Name],
    number: u32,
    head: &FileHead,
) -> Result<Taken, NoMemory>
    ensures used { IfOk result (λ usage. usage.used
        ≡ if_file_below catalog.now.tables group.now dir.now file_size (number, head.now)) }
    ensures mirrored { IfOk result (λ usage. usage.mirrored
        ≡ if_file_below catalog.now.tables group.now dir.now (mirrored_of catalog.now)
        (number, head.now)) }
    ensures small { IfOk result (λ usage. usage.used ≤ 2 ^ 64) }
    ensures few { IfOk result (λ usage. usage.mirrored ≤ 2 ^ 78) }
{
    if path_below(alloc, group, catalog, dir, head.system)?.is_none() {
        return Ok(Taken::none());
    }
    let shape = catalog.shape();
    Ok(Taken {
        used: head.size as u128,
        mirrored: file_units(catalog, number) as u128 * shape.au as u128,
    })
}
