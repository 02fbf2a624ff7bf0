//! The definitions are not empty: a group that was just created on one disk.

ghost use Rattle.asm_images.specs.Created.{CreatedBytesAre, CreatedIsSound, CreatedIsStanding};

/// An image that says so is sound: it is that of the empty group.
pub fn created_is_sound()
    ensures { CreatedIsSound }
{}

/// With the disk, Status and Directories are there.
pub fn created_is_standing()
    ensures { CreatedIsStanding }
{}

/// The bytes of such an image.
pub fn created_bytes_are()
    ensures { CreatedBytesAre }
{}
