//! How many copies a new file has, and how it is striped.

ghost use Rattle.std.specs.Prelude.{◌≡◌, ◌≤◌, ◌&&◌, not, length};
ghost use Rattle.std.specs.List.{list_any};
ghost use Rattle.std.specs.Option.{option_copied};
ghost use Rattle.asm_group.specs.Group.{Group};
ghost use Rattle.asm_group.specs.Names.{Bytes};
ghost use Rattle.asm_group.specs.NewGroup.{templates_by_name};
ghost use Rattle.asm_placement.specs.DiskSets.{distinct_failgroups};
ghost use Rattle.asm_placement.specs.Partners.{table_disks};
ghost use Rattle.asm_world.specs.Files.{copies_for, if_system, template_for};
ghost use Rattle.template_directory.specs.Tables.{template_named};
ghost use Rattle.extent_copies.specs.NewFiles.{is_of_group, serving_groups, template_by};
ghost use Rattle.partnership.specs.Tables.{is_table_disk};

use partnership::{PstEntry, PstRecord};
use template_directory::{GroupKind, Mode, Name, Template};

/// How many copies of each extent a new file has: one in an EXTERNAL group, three in a HIGH one,
/// and in a NORMAL one as many as its template says, but no more than there are regular failure
/// groups that serve.
pub fn copies_for(kind: GroupKind, copies: u8, failgroups: usize) -> u8
    ensures { result ≡ copies_for kind copies failgroups }
{
    match kind {
        GroupKind::External => 1,
        GroupKind::Normal => (copies as usize).min(failgroups).max(1) as u8,
        GroupKind::High => 3,
    }
}

/// How many regular failure groups have a disk that is Online, Offline or Syncing.
pub fn serving_groups(status: &PstRecord) -> usize
    ensures { result ≡ serving_groups status.now.entries }
{
    groups_in(status.entries())
}

fn groups_in(disks: &[PstEntry]) -> usize
    ensures count { result ≡ length (distinct_failgroups (table_disks disks.now)) }
    ensures few { result ≤ length disks.now }
{
    match disks {
        [] => 0,
        [first, later @ ..] => {
            let others = groups_in(later);
            if adds_group(first, later) {
                others + 1
            } else {
                others
            }
        }
    }
}

/// Whether the disk is regular and stays, and none of the others that is so lies in its failure
/// group.
fn adds_group(disk: &PstEntry, others: &[PstEntry]) -> bool
    ensures { result ≡ (is_table_disk disk.now
        && not (list_any (is_of_group disk.now.failgroup) (table_disks others.now))) }
{
    is_table_disk(disk) && !has_group(others, disk.failgroup)
}

/// Whether one of the regular disks that stay lies in the failure group.
fn has_group(disks: &[PstEntry], failgroup: u8) -> bool
    ensures { result ≡ list_any (is_of_group failgroup) (table_disks disks.now) }
{
    match disks {
        [] => false,
        [first, later @ ..] => {
            is_table_disk(first) && first.failgroup == failgroup || has_group(later, failgroup)
        }
    }
}

/// Whether the disk is regular and stays in the group.
fn is_table_disk(disk: &PstEntry) -> bool
    ensures { result ≡ is_table_disk disk.now }
{
    !disk.quorum && matches!(disk.mode, Mode::Online | Mode::Offline | Mode::Syncing)
}

/// The template of a new file among a group's: that of this name, or else the system template of
/// the file's type.
#[tactic(auto, using(crate::proofs::Templates::template_is))]
pub fn template_for<'a>(
    templates: &'a [Template],
    type_name: &Name,
    template: Option<&Name>,
) -> Option<&'a Template>
    ensures value { option_copied result ≡ template_by templates.now type_name.now
        (option_copied template.entry) }
    // It is the world's, in a group with these templates.
    ensures world { (g : Group) (db tag : Bytes) → g.templates ≡ templates_by_name templates.now
        → option_copied result ≡ template_for g
        (record { db = db; type_name = type_name.now; tag = tag }) (option_copied template.entry) }
{
    template_in(templates, type_name, template)
}

fn template_in<'a>(
    templates: &'a [Template],
    type_name: &Name,
    template: Option<&Name>,
) -> Option<&'a Template>
    ensures { option_copied result ≡ template_by templates.now type_name.now
        (option_copied template.entry) }
{
    match template {
        Some(name) => named(templates, name),
        None => if_system(named(templates, type_name)),
    }
}

/// The template of a name, in any case.
fn named<'a>(templates: &'a [Template], name: &Name) -> Option<&'a Template>
    ensures { option_copied result ≡ template_named name.now templates.now }
{
    match templates {
        [] => None,
        [first, later @ ..] => {
            if name.is_same(first.name()) {
                Some(first)
            } else {
                named(later, name)
            }
        }
    }
}

fn if_system(template: Option<&Template>) -> Option<&Template>
    ensures { option_copied result ≡ if_system (option_copied template.entry) }
{
    let template = template?;
    if template.is_system() {
        Some(template)
    } else {
        None
    }
}
