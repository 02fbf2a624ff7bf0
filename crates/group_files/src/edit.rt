//! What is edited of a group by one commit.
ghost use Rattle.std.specs.Prelude.{◌≡◌};
ghost use Rattle.group_engine.specs.alias_edits.Edits.{edit_meant};
ghost use Rattle.group_engine.specs.catalog.TreePlans.{keeps_files};
ghost use Rattle.group_engine.specs.Mounts.{Takes};
ghost use Rattle.group_engine.specs.Own.{KeepsGroup};
ghost use Rattle.group_files.specs.Edits.{Edits};
ghost use Rattle.group_files.specs.GroupEdits.{IsEditPlan, IsEditRefusal, is_group_edit};

use crate::attributes::edit_attribute;
use crate::names::edit_tree;
use crate::templates::edit_template;
use asm_base::{Name, Text};
use bay::Bay;
use group_engine::{Mounted, TreeEdit};
use refusal_lines::Refusal;
use std::alloc::Global;
use template_directory::TemplateEdit;

/// An edit of a mounted group that is one commit.
#[derive(Debug, Drop)]
pub enum GroupEdit {
    /// Of its directories and aliases. Files come and go by other calls.
    Tree(TreeEdit),
    /// Of its templates.
    Templates(TemplateEdit),
    /// An attribute that may be set at any time gets another value, as it is written in the
    /// statement.
    SetAttribute { name: Name, value: Text },
}

impl GroupEdit {
    /// Whether a new name in it is one of the grammar, and it leaves the system names of files.
    pub fn is_allowed(&self) -> bool
        ensures { result ≡ is_group_edit self.now }
    {
        match self {
            GroupEdit::Tree(edit) => edit.is_allowed() && keeps_files(edit),
            GroupEdit::Templates(edit) => edit.is_allowed(),
            GroupEdit::SetAttribute { .. } => true,
        }
    }
}

/// Whether the edit gives no file its system name, and takes no file's names.
fn keeps_files(edit: &TreeEdit) -> bool
    ensures { result ≡ keeps_files (edit_meant edit.now) }
{
    !matches!(edit, TreeEdit::AddFile { .. } | TreeEdit::DropFile { .. })
}

/// Edits a group. NoName where the edit isn't allowed; then the refusals of `edit_tree`,
/// `edit_template` or `edit_attribute`.
#[tactic(auto, using(crate::proofs::Edits::nothing_done, crate::proofs::Edits::none_run))]
pub fn edit_group<B: Bay>(
    m: &mut Mounted,
    alloc: Global,
    bay: &mut B,
    edit: &GroupEdit,
) -> Result<(), Refusal>
    requires takes { Takes m.old (B.state bay.old) }
    // The group's parts agree, it takes the next call, and the disks of others stay.
    ensures keeps { KeepsGroup m.old m.new (B.state bay.old) (B.state bay.new) }
    // A change that the edit is was committed, or the edit is refused.
    ensures edits { Edits (IsEditPlan m.old.catalog edit.now) (IsEditRefusal m.old.catalog edit.now)
        m.old result m.new (B.state bay.old) (B.state bay.new) }
{
    if !edit.is_allowed() {
        return Err(Refusal::NoName);
    }
    match edit {
        GroupEdit::Tree(edit) => edit_tree(m, alloc, bay, edit),
        GroupEdit::Templates(edit) => edit_template(m, alloc, bay, edit),
        GroupEdit::SetAttribute { name, value } => {
            edit_attribute(m, alloc, bay, name, value.as_slice())
        }
    }
}
