//! The plan of an edit of the templates.

ghost use Rattle.std.specs.Prelude.{◌≡◌, IfErr, IfOk, IsTrue, true};
ghost use Rattle.asm_group.specs.NewGroup.{templates_by_name};
ghost use Rattle.asm_group.specs.TemplateEdits.{templates_edited};
ghost use Rattle.asm_formats.specs.Items.{is_item, templates_item};
ghost use Rattle.plan_records.specs.template_directory.Meant.{IsTemplateEditRefusal, template_edit_meant, is_template_edit};
ghost use Rattle.catalog.specs.Plans.{IsPlan, IsTemplatePlan};

use crate::catalog::Catalog;
use crate::plans::refusals::no_memory;
use asm_base::{Change, NoMemory};
use plan_records::{Template, TemplateEdit, one_put, templates_record};
use refusal_lines::Refusal;
use std::alloc::Global;

impl Catalog {
    /// The change that an edit of the templates is. It is refused as TemplateTable::edit refuses
    /// it. The name is one of the grammar, and copies that are said are one, two or three.
    #[tactic(auto, using(crate::proofs::TemplatePlans::edit_planned), unfolding(refusal_lines::specs::Refusals::meaning_of))]
    pub fn plan_template(&self, alloc: Global, edit: &TemplateEdit) -> Result<Change, Refusal>
        requires edit { IsTrue (is_template_edit (template_edit_meant edit.now)) }
        ensures planned { IfOk result (λ change. IsTemplatePlan self.now
            (template_edit_meant edit.now) change.put change.gone) }
        ensures refused { IfErr result (IsTemplateEditRefusal
            (templates_edited self.now.shape.kind
            (templates_by_name self.now.tables.templates.templates)
            (template_edit_meant edit.now))) }
    {
        let mut table = match self.parts.templates.copy(alloc) {
            Ok(table) => table,
            Err(error) => return Err(no_memory(error)),
        };
        if let Err(refusal) = table.edit(self.shape.kind, edit) {
            return Err(refusal);
        }
        match self.set_templates(alloc, table.list()) {
            Ok(change) => Ok(change),
            Err(error) => Err(no_memory(error)),
        }
    }

    fn set_templates(&self, alloc: Global, templates: &[Template]) -> Result<Change, NoMemory>
        requires { is_item (templates_item templates.now) ≡ true }
        ensures { IfOk result (λ change. IsPlan self.now change.put change.gone
            (record self.now.tables {
              templates = record {
                templates = templates.now;
                settings = self.now.tables.templates.settings;
              };
            })) }
    {
        self.keeps_rules();
        let entry = templates_record(alloc, templates)?;
        let change = one_put(alloc, entry)?;
        Ok(change)
    }
}
