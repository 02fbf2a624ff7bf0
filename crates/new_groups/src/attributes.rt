//! The attributes of a creation.
ghost use Rattle.std.specs.Prelude.{◌≡◌, [], IfErr, IfOk, IsTrue, Ok, Some};
ghost use Rattle.refusal_lines.specs.Refusals.{meaning_of};
ghost use Rattle.asm_group.specs.Shape.{is_shape};
ghost use Rattle.asm_world.specs.Settings.{created_with, creation, with_creation_attribute};
ghost use Rattle.mounted_groups.specs.attribute_values.Creations.{IsNewCreation, creation_meant};
ghost use Rattle.new_groups.specs.Refusing.{IsNotTaken, IsRefusedAs};

use crate::refusals::bad_attribute;
use asm_base::{GroupKind, NoMemory};
use mounted_groups::Creation;
use new_disks::Attribute;
use refusal_lines::Refusal;
use std::alloc::Global;

/// The creation with all its attributes, whose unit must have eight sectors at least. NoMemory is
/// answered, too, where the shape isn't one of the formats, which no attribute leaves so.
fn finished(alloc: Global, creation: Creation) -> Result<Creation, Refusal>
    requires { IsNewCreation creation }
    ensures given { IfOk result (λ c. created_with (creation_meant creation) []
        ≡ Ok (creation_meant c)) }
    ensures new { IfOk result IsNewCreation }
    ensures shape { IfOk result (λ c. IsTrue (is_shape c.shape)) }
    ensures refused { IfErr result (λ refusal. IsRefusedAs
        (created_with (creation_meant creation) []) (meaning_of (λ _. []) refusal)) }
{
    if creation.has_sectors() {
        if !creation.shape.is_allowed() {
            return Err(Refusal::NoMemory);
        }
        Ok(creation)
    } else {
        Err(bad_attribute(alloc, b"au_size"))
    }
}

/// The creation with the value of one attribute more.
fn with_one(alloc: Global, creation: &Creation, attribute: &Attribute) -> Result<Creation, Refusal>
    requires { IsNewCreation creation.now }
    ensures given { IfOk result (λ next. with_creation_attribute (creation_meant creation.now)
        attribute.now ≡ Some (creation_meant next)) }
    ensures new { IfOk result IsNewCreation }
    ensures refused { IfErr result (λ refusal. IsNotTaken (creation_meant creation.now)
        attribute.now (meaning_of (λ _. []) refusal)) }
{
    let name = attribute.name.as_slice();
    match creation.with_attribute(alloc, name, attribute.value.as_slice()) {
        Ok(Some(next)) => Ok(next),
        Ok(None) => Err(bad_attribute(alloc, name)),
        Err(NoMemory) => Err(Refusal::NoMemory),
    }
}

/// The creation with the values of these attributes, in their order.
fn with_attributes(
    alloc: Global,
    creation: Creation,
    attributes: &[Attribute],
) -> Result<Creation, Refusal>
    requires { IsNewCreation creation }
    ensures given { IfOk result (λ c. created_with (creation_meant creation) attributes.now
        ≡ Ok (creation_meant c)) }
    ensures new { IfOk result IsNewCreation }
    ensures shape { IfOk result (λ c. IsTrue (is_shape c.shape)) }
    ensures refused { IfErr result (λ refusal. IsRefusedAs
        (created_with (creation_meant creation) attributes.now) (meaning_of (λ _. []) refusal)) }
{
    let mut made = creation;
    for attribute in attributes {
        made = with_one(alloc, &made, attribute)?;
    }
    finished(alloc, made)
}

/// The shape and the settings that the attributes of a creation make. They are tried in the order
/// given, each value, also one that a later one replaces; that a unit has eight sectors is tried
/// last. Refused as BadAttribute with the name.
pub fn creation_of(
    alloc: Global,
    kind: GroupKind,
    attributes: &[Attribute],
) -> Result<Creation, Refusal>
    ensures given { IfOk result (λ c. creation (Some kind) attributes.now ≡ Ok (creation_meant c)) }
    ensures new { IfOk result IsNewCreation }
    ensures shape { IfOk result (λ c. IsTrue (is_shape c.shape)) }
    ensures refused { IfErr result (λ refusal. IsRefusedAs (creation (Some kind) attributes.now)
        (meaning_of (λ _. []) refusal)) }
{
    with_attributes(alloc, Creation::usual(alloc, kind), attributes)
}
