//! The units of a disk, by the shape of its group.

ghost use Rattle.std.specs.Prelude.{◌≡◌, ◌*◌, ◌<◌, ◌^◌};
ghost use Rattle.asm_formats.specs.Bytes.{block_size};
ghost use Rattle.asm_formats.specs.Regions.{region_end, reserved_units, units_in};
ghost use Rattle.disk_sizes.specs.Sizes.{least_units};

use asm_base::{LEAST_USER_UNITS, MOST_UNITS, Shape};
use disk_blocks::BLOCK;

/// The bytes up to the end of a directory region with so many pages.
pub fn region_bytes(dir_blocks: u32) -> u64
    ensures { result ≡ region_end dir_blocks * block_size }
{
    (14 + 2 * dir_blocks as u64) * BLOCK
}

/// Units of a disk that hold no user bytes: those that the blocks below the region's end reach
/// into. None where a unit has no bytes.
pub fn reserved_units(shape: &Shape) -> u64
    ensures units { result ≡ reserved_units shape.now }
    ensures few { result < 2 ^ 46 }
{
    let au = shape.au as u64;
    if au == 0 {
        return 0;
    }
    (region_bytes(shape.dir_blocks) + (au - 1)) / au
}

/// The units that a disk must have: those of its directory region, and 16 for users.
pub fn least_units(shape: &Shape) -> u64
    ensures { result ≡ least_units shape.now }
{
    reserved_units(shape) + LEAST_USER_UNITS
}

/// The units of a disk of so many bytes, and none where a unit has no bytes.
pub fn units_in(shape: &Shape, bytes: u64) -> u64
    ensures { result ≡ units_in shape.now bytes }
{
    let au = shape.au as u64;
    if au == 0 {
        return 0;
    }
    (bytes / au).min(MOST_UNITS)
}
