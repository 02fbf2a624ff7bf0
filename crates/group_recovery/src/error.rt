//! Why a group isn't mounted.

ghost use Rattle.std.specs.Prelude.{◌≡◌};
ghost use Rattle.group_recovery.specs.declared.error.MountError.TheVariants.{NoMemory as WithoutMemory};

use asm_base::{Name, NoMemory};

/// Why a group isn't mounted. In the order of the tests, but that want of memory comes at any
/// point.
#[derive(Debug, Drop)]
pub enum MountError {
    /// No open header of the name was read, but those of ids that are gone.
    NoGroup,
    /// Two ids of the name have a majority each.
    TwoGroups,
    /// Of a set fewer disks were read, or took the claim, than are needed. One is needed where no
    /// record was read.
    NoMajority { seen: u8, need: u8 },
    /// The first block that must decode and doesn't, or the record at fault.
    Damaged { slot: u32, block: u64 },
    /// No directory copy was read with a content.
    DirectoriesLost,
    /// The least disk that is missing, where a mount isn't forced.
    MissingDisk { number: u8, name: Name },
    /// Too few disks took the record anew: this is one of those that failed.
    Dead { slot: u32, name: Name },
    /// There is no memory.
    NoMemory,
}

impl From<NoMemory> for MountError {
    ghost from_gives = { λ _ e. e ≡ WithoutMemory };

    fn from(_want: NoMemory) -> MountError {
        MountError::NoMemory
    }
}
