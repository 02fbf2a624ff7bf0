//! What a disk's record says.

use asm_base::{Name, NoMemory};
use std::marker::Model;

/// What a group keeps of a disk beside its entry in the status record. Contracts see it as the one
/// of the formats.
#[derive(Debug, Drop)]
pub struct DiskInfo {
    /// The disk's birth number, never used again in the group.
    pub birth: u64,
    pub name: Name,
    /// The name of its failure group.
    pub failgroup: Name,
}

impl Model for DiskInfo {
    ghost use Rattle.asm_formats.specs.Items.{DiskInfo as FormatInfo};

    ghost Value = { FormatInfo };

    ghost view = { λ d. record { birth = d.birth; name = d.name; failgroup = d.failgroup } };
}

impl DiskInfo {
    ghost use Rattle.std.specs.Prelude.{◌≡◌, IfOk};
    ghost use Rattle.asm_formats.specs.Items.{disk_item, is_item};

    /// Whether a directory may hold it as the record of this disk: a number below 64, and names of
    /// the grammar.
    pub fn is_allowed(&self, disk: u8) -> bool
        ensures { result ≡ is_item (disk_item disk self.now) }
    {
        is_allowed(disk, self.birth, &self.name, &self.failgroup)
    }

    pub fn copy(&self) -> Result<DiskInfo, NoMemory>
        ensures { IfOk result (λ d. d ≡ self.now) }
    {
        Ok(DiskInfo {
            birth: self.birth,
            name: self.name.copy()?,
            failgroup: self.failgroup.copy()?,
        })
    }
}

ghost use Rattle.std.specs.Prelude.{◌≡◌, ◌&&◌, nat_lt};
ghost use Rattle.asm_formats.specs.asm_group.Names.{is_name};
ghost use Rattle.asm_formats.specs.Items.{disk_item, is_item};

fn is_allowed(disk: u8, birth: u64, name: &Name, failgroup: &Name) -> bool
    ensures { result ≡ is_item (disk_item disk
        (record { birth = birth; name = name.now; failgroup = failgroup.now })) }
{
    // Reading a number shows that it is one of its type.
    let _birth = birth;
    are_right(disk, name, failgroup)
}

fn are_right(disk: u8, name: &Name, failgroup: &Name) -> bool
    ensures { result ≡ (nat_lt disk 64 && (is_name name.now && is_name failgroup.now)) }
{
    disk < 64 && name.is_name() && failgroup.is_name()
}
