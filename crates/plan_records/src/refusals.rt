//! Why a plan is refused, as a refusal of a command.

ghost use Rattle.std.specs.Prelude.{◌≡◌, ◌⊎◌, []};
ghost use Rattle.refusal_lines.specs.Refusals.{meaning_of};
ghost use Rattle.refusal_lines.specs.declared.refusal.Refusal.TheVariants.{BadAttribute, NoMemory as WithoutMemory};
ghost use Rattle.alias_edits.specs.Edits.{cause_said};

use alias_edits::TreeError;
use asm_base::{NoMemory, Text};
use refusal_lines::Refusal;
use std::alloc::Global;

/// Why an edit of the tree of names is refused.
#[tactic(auto, unfolding(refusal_lines::specs::Refusals::meaning_of))]
pub fn refusal_of(error: TreeError) -> Refusal
    ensures { meaning_of (λ n. []) result ≡ cause_said error }
{
    match error {
        TreeError::NoName => Refusal::NoName,
        TreeError::NameTaken => Refusal::NameTaken,
        TreeError::NotDirectory => Refusal::NotDirectory,
        TreeError::NotEmpty => Refusal::NotEmpty,
        TreeError::HasAlias => Refusal::HasAlias,
        TreeError::SystemName => Refusal::SystemName,
        TreeError::NoMemory => Refusal::NoMemory,
    }
}

/// The refusal that names the attribute, or want of memory.
pub fn bad_attribute(alloc: Global, name: &[u8]) -> Refusal
    ensures { (result ≡ WithoutMemory) ⊎ (result ≡ BadAttribute name.now) }
{
    match Text::from_slice(alloc, name) {
        Ok(name) => Refusal::BadAttribute { name },
        Err(NoMemory) => Refusal::NoMemory,
    }
}
