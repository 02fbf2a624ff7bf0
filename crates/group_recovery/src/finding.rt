// The images with an open header.
ghost use Rattle.std.specs.Prelude.{◌≡◌, ◌≤◌, ◌<◌, ◌*◌, ◌++◌, [], length, IfOk, OnOk};
ghost use Rattle.disk_images.specs.Looks.{Looks};
ghost use Rattle.group_recovery.specs.Finding.{AreAllHeaded, AreThere, headed_in};

use asm_base::NoMemory;
use bay::Bay;
use disk_images::{Header, Looked, look_at};
use std::alloc::Global;

/// An image whose open header was read, with its size in bytes.
#[derive(Debug, Drop)]
pub struct Headed {
    pub slot: u32,
    pub size: u64,
    pub header: Header,
}

/// Looks at every image, and gives those with an open header. Each is attached and synced before
/// its header is read.
pub fn find_headed<B: Bay>(
    alloc: Global,
    bay: &mut B,
    paths: &[String],
) -> Result<Vec<Headed>, NoMemory>
    requires few { length paths.now ≤ 512 }
    ensures looks { Looks (λ slot. slot < length paths.now) (4 * length paths.now) (B.state bay.old)
        (B.state bay.new) }
    ensures few { IfOk result (λ found. length found.items ≤ length paths.now) }
    ensures there { IfOk result (λ found. AreThere (length paths.now) found.items
        (B.state bay.new)) }
    ensures all { IfOk result (λ found. AreAllHeaded (length paths.now) found.items
        (B.state bay.old) (B.state bay.new)) }
{
    let mut found = Vec::new(alloc);
    for (slot, path) in paths.iter().enumerate() {
        let looked = look_at(alloc, bay, slot as u32, path.as_str())?;
        put_headed(&mut found, slot as u32, looked)?;
    }
    Ok(found)
}

/// Puts the image of a slot behind others, where it has an open header.
fn put_headed(found: &mut Vec<Headed>, slot: u32, looked: Looked) -> Result<(), NoMemory>
    ensures { OnOk result (found.new.items ≡ found.old.items ++ headed_in slot looked) }
{
    match looked {
        Looked::Absent => Ok(()),
        Looked::Unread { size: _ } => Ok(()),
        Looked::Read { size, header } => match header {
            Some(header) => found
                .push(Headed { slot, size, header })
                .map_err(|_| NoMemory),
            None => Ok(()),
        },
    }
}
