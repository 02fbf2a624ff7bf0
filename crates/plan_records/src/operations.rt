//! The operations by which files lose extents: a file's shrinking and its removal.

ghost use Rattle.std.specs.Prelude.{◌≡◌, IsTrue};
ghost use Rattle.asm_group.specs.declared.PendingKind.TheVariants.{Shrink};
ghost use Rattle.asm_group.specs.Shape.{is_shape};
ghost use Rattle.plan_records.specs.Operations.{HasSoMany, removal_of};

use asm_base::Shape;
use catalog_units::{FileHead, Layout, Pending, PendingKind, extents_for};

/// The shrinking of a file to what a head of it says.
pub fn shrinking(shape: &Shape, file: u32, head: &FileHead) -> Pending
    requires { IsTrue (is_shape shape.now) }
    ensures kind { result.kind ≡ Shrink }
    ensures file { result.file ≡ file }
    ensures kept { HasSoMany shape.now head.now result.kept }
{
    let layout = Layout {
        au: shape.au as u64,
        step: shape.step,
        stripe: head.stripe,
    };
    Pending {
        kind: PendingKind::Shrink,
        file,
        kept: extents_for(layout, head.size),
    }
}

/// The removal of a file, which keeps no extent.
pub fn removal_of(file: u32) -> Pending
    ensures { result ≡ removal_of file }
{
    Pending {
        kind: PendingKind::Remove,
        file,
        kept: 0,
    }
}
