//! An attribute gets another value by one commit.
ghost use Rattle.group_engine.specs.catalog.FilePlans.{IsAttributePlan, IsAttributeRefusal};
ghost use Rattle.group_engine.specs.Mounts.{Takes};
ghost use Rattle.group_engine.specs.Own.{KeepsGroup};
ghost use Rattle.group_files.specs.Edits.{Edits};

use asm_base::Name;
use bay::Bay;
use group_engine::Mounted;
use refusal_lines::Refusal;
use std::alloc::Global;

/// Gives an attribute that may be set at any time another value, as it is written in the statement.
/// The refusals are tried in this order: BadAttribute, where there is no such attribute or it can't
/// have the value, Dismounted. NoMemory comes at any point. After Dismounted the images stand for
/// the group before or the one after, after another refusal for the one before.
#[tactic(auto, using(crate::proofs::Edits::nothing_done))]
pub fn edit_attribute<B: Bay>(
    m: &mut Mounted,
    alloc: Global,
    bay: &mut B,
    name: &Name,
    value: &[u8],
) -> Result<(), Refusal>
    requires takes { Takes m.old (B.state bay.old) }
    // The group's parts agree, it takes the next call, and the disks of others stay.
    ensures keeps { KeepsGroup m.old m.new (B.state bay.old) (B.state bay.new) }
    // A change that gives it the value was committed, or it is refused.
    ensures edits { Edits (IsAttributePlan m.old.catalog name.now value.now)
        (IsAttributeRefusal m.old.catalog name.now value.now) m.old result m.new (B.state bay.old)
        (B.state bay.new) }
{
    let change = match m.catalog().plan_attribute(alloc, name, value) {
        Ok(change) => change,
        Err(refusal) => return Err(refusal),
    };
    m.commit_plan(alloc, bay, &change)
}
