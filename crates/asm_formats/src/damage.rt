//! Which block is named where a disk's bodies don't decode. Each law is the contract of a function
//! that does nothing.

ghost use Rattle.asm_formats.specs.Damage.{DamageIsSeen, IsBodyDamage, WholeCopyDecodes};

/// Claims and status records decode exactly where no block of them is named.
pub fn body_damage_is_exact()
    ensures { IsBodyDamage }
{}

/// Where a block of the directory copy is named, the copy doesn't decode.
pub fn damage_is_seen()
    ensures { DamageIsSeen }
{}

/// Where none is, and no two pages hold one key, it does.
pub fn whole_copy_decodes()
    ensures { WholeCopyDecodes }
{}
