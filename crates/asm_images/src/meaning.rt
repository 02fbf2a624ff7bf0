//! What a sound image gives.

ghost use Rattle.asm_images.specs.Laws.{NothingStands, StandingStands, ZerosAreSound};

/// On disks of zeros, of any lengths, there is no group.
pub fn zeros_are_sound()
    ensures { ZerosAreSound }
{}

/// Whichever disks are left with Status and directories, what they stand for is one of the groups.
pub fn standing_stands()
    ensures { StandingStands }
{}

/// Where there is no group, no set of disks has Status and directories.
pub fn nothing_stands()
    ensures { NothingStands }
{}
