//! The plans that steps name.

ghost use Rattle.std.specs.Prelude.{IfOk};
ghost use Rattle.table_tests.specs.Planned.{IsPlanned};

use crate::catalogs::disks::{disk, no_disk, two_disks};
use crate::catalogs::extents::{append, cut, marks};
use crate::catalogs::files::{remove, size};
use crate::catalogs::names::name;
use crate::catalogs::operations::{attribute, begin, end, power, template};
use crate::catalogs::steps::{Answer, Plan};
use crate::catalogs::tree::tree;
use asm_base::{Change, ExtentId};
use catalog::Catalog;
use std::alloc::Global;

/// The change of a plan, or why there is none.
pub fn planned(alloc: Global, group: &Catalog, plan: Plan<'_>) -> Result<Change, Answer>
    ensures { IfOk result (λ change. IsPlanned group.now change.put change.gone) }
{
    match plan {
        Plan::Attribute(name, value) => attribute(alloc, group, name, value),
        Plan::Marks(file, index, set, clear) => {
            marks(alloc, group, ExtentId { file, index }, set, clear)
        }
        Plan::Append(file, marks) => append(alloc, group, file, marks),
        Plan::Cut(file, kept) => cut(alloc, group, file, kept),
        Plan::Size(bytes) => size(alloc, group, bytes),
        Plan::Remove => remove(alloc, group),
        Plan::Power(value) => power(alloc, group, value),
        Plan::Begin => begin(alloc, group),
        Plan::End => end(alloc, group),
        Plan::Disk(number, birth) => disk(alloc, group, number, birth),
        Plan::Disks(first, second) => two_disks(alloc, group, first, second),
        Plan::NoDisk(number) => no_disk(alloc, group, number),
        Plan::Template(name) => template(alloc, group, name),
        Plan::Tree(verb, at, to) => tree(alloc, group, verb, at, to),
        Plan::Name(at) => name(alloc, group, at),
    }
}
