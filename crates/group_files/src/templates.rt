//! The templates are edited by one commit.
ghost use Rattle.std.specs.Prelude.{IsTrue};
ghost use Rattle.asm_group.specs.NewGroup.{templates_by_name};
ghost use Rattle.asm_group.specs.TemplateEdits.{templates_edited};
ghost use Rattle.group_engine.specs.catalog.Plans.{IsTemplatePlan};
ghost use Rattle.group_engine.specs.Mounts.{Takes};
ghost use Rattle.group_engine.specs.Own.{KeepsGroup};
ghost use Rattle.group_files.specs.Edits.{Edits, IsTemplateRefusal};
ghost use Rattle.template_directory.specs.Meant.{template_edit_meant, is_template_edit};

use bay::Bay;
use group_engine::Mounted;
use refusal_lines::Refusal;
use std::alloc::Global;
use template_directory::TemplateEdit;

/// Edits a group's templates. The refusals are tried in this order: those of the edit (of Add
/// NameTaken, BadRedundancy and TooMany, of Modify NoTemplate and BadRedundancy, of Drop NoTemplate
/// and SystemTemplate), Dismounted. NoMemory comes at any point. After Dismounted the images stand
/// for the group before or the one after, after another refusal for the one before. Files that are
/// there stay as they are.
#[tactic(auto, using(crate::proofs::Edits::nothing_done))]
pub fn edit_template<B: Bay>(
    m: &mut Mounted,
    alloc: Global,
    bay: &mut B,
    edit: &TemplateEdit,
) -> Result<(), Refusal>
    requires takes { Takes m.old (B.state bay.old) }
    requires edit { IsTrue (is_template_edit (template_edit_meant edit.now)) }
    // The group's parts agree, it takes the next call, and the disks of others stay.
    ensures keeps { KeepsGroup m.old m.new (B.state bay.old) (B.state bay.new) }
    // A change that the edit is was committed, or the edit is refused.
    ensures edits { Edits (IsTemplatePlan m.old.catalog (template_edit_meant edit.now))
        (IsTemplateRefusal m.old.catalog (template_edit_meant edit.now)) m.old result m.new
        (B.state bay.old) (B.state bay.new) }
{
    let change = match m.catalog().plan_template(alloc, edit) {
        Ok(change) => change,
        Err(refusal) => return Err(refusal),
    };
    m.commit_plan(alloc, bay, &change)
}
