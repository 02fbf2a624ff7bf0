// Fields that records of several kinds have.
ghost use Rattle.std.specs.Prelude.{◌≡◌, IfOk};
ghost use Rattle.asm_base.specs.Cursors.{Reads};
ghost use Rattle.asm_base.specs.Parts.{home_reading};
ghost use Rattle.record_values.specs.Values.{copies_reading, named_reading, system_reading};

use asm_base::{Home, Name, NoMemory, Reader, take_name, take_u8, take_u32};
use std::alloc::Global;

/// Takes a number of copies: 1 to 3.
pub fn take_copies(from: &mut Reader) -> Option<u8>
    ensures { Reads from.new result (copies_reading from.old) }
{
    let copies = take_u8(from)?;
    if 1 <= copies && copies <= 3 {
        Some(copies)
    } else {
        None
    }
}

/// Takes the node of a system name, which isn't 0.
pub fn take_system(from: &mut Reader) -> Option<u32>
    ensures { Reads from.new result (system_reading from.old) }
{
    let node = take_u32(from)?;
    if 0 < node { Some(node) } else { None }
}

/// Takes a home, or that one is absent, which is 255 and 0.
#[tactic(auto, unfolding(asm_base::specs::Parts::home_reading))]
pub fn take_home(from: &mut Reader) -> Option<Option<Home>>
    ensures { Reads from.new result (home_reading from.old) }
{
    let disk = take_u8(from)?;
    let unit = take_u32(from)?;
    if disk != 255 {
        return Some(Some(Home { disk, unit }));
    }
    if unit == 0 { Some(None) } else { None }
}

/// Takes the name of a disk, a failure group or a template.
#[tactic(auto, using(crate::proofs::FieldLaws::no_part, crate::proofs::FieldLaws::no_name, crate::proofs::FieldLaws::named))]
pub fn take_named(alloc: Global, from: &mut Reader) -> Result<Option<Name>, NoMemory>
    ensures { IfOk result (λ read. Reads from.new read (named_reading from.old)) }
{
    let Some(name) = take_name(alloc, from, 30)? else {
        return Ok(None);
    };
    if name.is_name() {
        Ok(Some(name))
    } else {
        Ok(None)
    }
}
