//! The tree of names is edited by one commit.
ghost use Rattle.std.specs.Prelude.{◌≡◌, IsTrue, true};
ghost use Rattle.group_engine.specs.alias_edits.Edits.{edit_meant, is_tree_edit};
ghost use Rattle.group_engine.specs.catalog.TreePlans.{IsTreePlan, IsTreeRefusal, keeps_files};
ghost use Rattle.group_engine.specs.Mounts.{Takes};
ghost use Rattle.group_engine.specs.Own.{KeepsGroup};
ghost use Rattle.group_files.specs.Edits.{Edits};

use bay::Bay;
use group_engine::{Mounted, TreeEdit};
use refusal_lines::Refusal;
use std::alloc::Global;

/// Edits the tree of a group's names. The refusals are tried in this order: those of the edit,
/// DirectoryFull where it makes a name and no block is free, Dismounted. NoMemory comes at any
/// point. After Dismounted the images stand for the group before or the one after, after another
/// refusal for the one before. Files come and go by other calls.
#[tactic(auto, using(crate::proofs::Edits::nothing_done))]
pub fn edit_tree<B: Bay>(
    m: &mut Mounted,
    alloc: Global,
    bay: &mut B,
    edit: &TreeEdit,
) -> Result<(), Refusal>
    requires takes { Takes m.old (B.state bay.old) }
    requires edit { IsTrue (is_tree_edit (edit_meant edit.now)) }
    requires files { keeps_files (edit_meant edit.now) ≡ true }
    // The group's parts agree, it takes the next call, and the disks of others stay.
    ensures keeps { KeepsGroup m.old m.new (B.state bay.old) (B.state bay.new) }
    // A change that the edit is was committed, or the edit is refused.
    ensures edits { Edits (IsTreePlan m.old.catalog (edit_meant edit.now))
        (IsTreeRefusal m.old.catalog (edit_meant edit.now)) m.old result m.new (B.state bay.old)
        (B.state bay.new) }
{
    let change = match m.catalog().plan_tree(alloc, edit) {
        Ok(change) => change,
        Err(refusal) => return Err(refusal),
    };
    m.commit_plan(alloc, bay, &change)
}
