//! Plans of the rebalance, the pending operation, templates and attributes.

ghost use Rattle.std.specs.Prelude.{◌≡◌, ◌||◌, IfOk};
ghost use Rattle.std.specs.Bool.{OnTrue};
ghost use Rattle.file_directory.specs.Files.{is_file_number};
ghost use Rattle.catalog.specs.Plans.{AreOwned};
ghost use Rattle.asm_placement.specs.Naming.{is_pending};
ghost use Rattle.table_tests.specs.Planned.{IsPlanned};

use crate::catalogs::steps::{Answer, answer_of};
use asm_base::{Change, Name, PendingKind, Stripe};
use catalog::Catalog;
use operations_directory::Pending;
use refusal_lines::Refusal;
use std::alloc::Global;
use template_directory::TemplateEdit;

/// The change by which the rebalance has a power, or none.
#[tactic(auto, using(crate::proofs::Planned::planned))]
pub fn power(alloc: Global, group: &Catalog, value: Option<u16>) -> Result<Change, Answer>
    ensures { IfOk result (λ change. IsPlanned group.now change.put change.gone) }
{
    match group.plan_rebalance(alloc, value) {
        Ok(change) => Ok(change),
        Err(refusal) => Err(answer_of(refusal)),
    }
}

/// Whether a file has a head, or the operation is on it.
pub fn is_owner(group: &Catalog, file: u32, op: &Option<Pending>) -> bool
    ensures { result ≡ (is_file_number group.now.tables.files file || is_pending file op.now) }
{
    let of_operation = match op {
        Some(op) => op.file == file,
        None => false,
    };
    group.file(file).is_some() || of_operation
}

/// Whether each chunk is one of a file or of the operation.
fn are_owned(group: &Catalog, op: &Option<Pending>) -> bool
    ensures { OnTrue result (AreOwned (record group.now.tables
        { operations = record group.now.tables.operations { pending = op.now } })) }
{
    for (at, _) in group.chunks() {
        if !is_owner(group, at.0, op) {
            return false;
        }
    }
    true
}

/// The change by which the operation that makes file 257 is pending.
#[tactic(auto, using(crate::proofs::Planned::owned))]
pub fn begin(alloc: Global, group: &Catalog) -> Result<Change, Answer>
    ensures { IfOk result (λ change. IsPlanned group.now change.put change.gone) }
{
    let op = Pending {
        kind: PendingKind::Create,
        file: 257,
        kept: 0,
    };
    if !are_owned(group, &Some(op)) {
        return Err(Answer::Another);
    }
    match group.plan_begin(alloc, op) {
        Ok(change) => Ok(change),
        Err(refusal) => Err(answer_of(refusal)),
    }
}

/// The change by which no operation is pending.
#[tactic(auto, using(crate::proofs::Planned::owned))]
pub fn end(alloc: Global, group: &Catalog) -> Result<Change, Answer>
    ensures { IfOk result (λ change. IsPlanned group.now change.put change.gone) }
{
    if !are_owned(group, &None) {
        return Err(Answer::Another);
    }
    match group.plan_end(alloc) {
        Ok(change) => Ok(change),
        Err(refusal) => Err(answer_of(refusal)),
    }
}

/// A name of at most so many bytes.
pub fn name(alloc: Global, bytes: &[u8], longest: u8) -> Result<Name, Answer> {
    match Name::read(alloc, bytes, longest) {
        Ok(Some(name)) => Ok(name),
        _ => Err(Answer::Another),
    }
}

/// The change by which there is a template of a name: three copies, striped finely.
#[tactic(auto, using(crate::proofs::Planned::template_planned))]
pub fn template(alloc: Global, group: &Catalog, text: &[u8]) -> Result<Change, Answer>
    ensures { IfOk result (λ change. IsPlanned group.now change.put change.gone) }
{
    let edit = TemplateEdit::Add {
        name: name(alloc, text, 30)?,
        copies: Some(3),
        stripe: Stripe::Fine,
    };
    if !edit.is_allowed() {
        drop(edit);
        return Err(Answer::Another);
    }
    let planned = group.plan_template(alloc, &edit);
    drop(edit);
    match planned {
        Ok(change) => Ok(change),
        Err(refusal) => Err(answer_of(refusal)),
    }
}

/// Whether the refusal names the attribute.
fn is_named(refusal: &Refusal, attribute: &Name) -> bool {
    match refusal {
        Refusal::BadAttribute { name } => name.as_slice() == attribute.as_bytes(),
        _ => false,
    }
}

/// Why an attribute hasn't a value.
fn answer_for(refusal: Refusal, attribute: &Name) -> Answer {
    let is_named = is_named(&refusal, attribute);
    drop(refusal);
    if is_named {
        Answer::BadAttribute
    } else {
        Answer::Another
    }
}

/// The change by which this attribute has a value.
#[tactic(auto, using(crate::proofs::FilesMade::set))]
fn attribute_by(
    alloc: Global,
    group: &Catalog,
    attribute: &Name,
    value: &[u8],
) -> Result<Change, Answer>
    ensures { IfOk result (λ change. IsPlanned group.now change.put change.gone) }
{
    match group.plan_attribute(alloc, attribute, value) {
        Ok(change) => Ok(change),
        Err(refusal) => Err(answer_for(refusal, attribute)),
    }
}

/// The change by which an attribute has a value.
pub fn attribute(
    alloc: Global,
    group: &Catalog,
    text: &[u8],
    value: &[u8],
) -> Result<Change, Answer>
    ensures { IfOk result (λ change. IsPlanned group.now change.put change.gone) }
{
    match name(alloc, text, 255) {
        Ok(attribute) => {
            let change = attribute_by(alloc, group, &attribute, value);
            drop(attribute);
            change
        }
        Err(answer) => Err(answer),
    }
}
