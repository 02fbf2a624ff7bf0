//! The plan of another value of an attribute.

ghost use Rattle.std.specs.Prelude.{◌≡◌, IfErr, IfOk, IfNone, IfSome, None, true};
ghost use Rattle.asm_formats.specs.Items.{is_item, settings_item};
ghost use Rattle.plan_records.specs.attribute_values.Edits.{settings_with};
ghost use Rattle.refusal_lines.specs.declared.refusal.Refusal.TheVariants.{BadAttribute};
ghost use Rattle.catalog.specs.FilePlans.{IsAttributePlan, IsAttributeRefusal};
ghost use Rattle.catalog.specs.Plans.{IsPlan};

use crate::catalog::Catalog;
use crate::plans::refusals::no_memory;
use asm_base::{Change, Name, NoMemory};
use plan_records::{Settings, bad_attribute, one_put, settings_record, with_attribute};
use refusal_lines::Refusal;
use std::alloc::Global;

impl Catalog {
    /// The change by which an attribute that may be set at any time has another value. It is
    /// refused as BadAttribute where no such attribute has the name, or it can't have the value.
    pub fn plan_attribute(
        &self,
        alloc: Global,
        name: &Name,
        value: &[u8],
    ) -> Result<Change, Refusal>
        ensures planned { IfOk result (λ change. IsAttributePlan self.now name.now value.now
            change.put change.gone) }
        ensures refused { IfErr result (IsAttributeRefusal self.now name.now value.now) }
    {
        match self.attribute_change(alloc, name.as_bytes(), value) {
            Ok(Some(change)) => Ok(change),
            Ok(None) => Err(bad_attribute(alloc, name.as_bytes())),
            Err(error) => Err(no_memory(error)),
        }
    }

    /// The same change, or None where there is no such attribute or value.
    #[tactic(auto, using(crate::proofs::AttributePlans::edit_planned))]
    fn attribute_change(
        &self,
        alloc: Global,
        name: &[u8],
        value: &[u8],
    ) -> Result<Option<Change>, NoMemory>
        ensures planned { IfOk result (λ change. IfSome change
            (λ change. IsAttributePlan self.now name.now value.now change.put change.gone)) }
        ensures none { IfOk result (λ change. IfNone change
            (settings_with self.now.tables.templates.settings name.now value.now ≡ None)) }
    {
        self.keeps_rules();
        let edited = with_attribute(alloc, self.settings(), name, value)?;
        let Some(settings) = edited else {
            return Ok(None);
        };
        let change = self.set_settings(alloc, &settings)?;
        Ok(Some(change))
    }

    fn set_settings(&self, alloc: Global, settings: &Settings) -> Result<Change, NoMemory>
        requires { is_item (settings_item settings.now) ≡ true }
        ensures { IfOk result (λ change. IsPlan self.now change.put change.gone
            (record self.now.tables {
              templates = record self.now.tables.templates { settings = settings.now };
            })) }
    {
        self.keeps_rules();
        let entry = settings_record(alloc, settings)?;
        let change = one_put(alloc, entry)?;
        Ok(change)
    }
}
