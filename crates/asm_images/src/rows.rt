//! Worked values of the definitions.

ghost use Rattle.asm_images.specs.Mirrored.{MirroredBytesAre, MirroredCopies, MirroredIsDescribed, MirroredIsOneOfTwo, MirroredRules};
ghost use Rattle.asm_images.specs.Rows.{DirectoryRows, EnoughRows, StatusRows};

/// Which members are enough for a record.
pub fn enough_rows()
    ensures { EnoughRows }
{}

/// What members take for Status.
pub fn status_rows()
    ensures { StatusRows }
{}

/// Which directory copy counts.
pub fn directory_rows()
    ensures { DirectoryRows }
{}

/// The bytes of a file that is mirrored on two disks.
pub fn mirrored_bytes_are()
    ensures { MirroredBytesAre }
{}

/// What the directory records of that file may not say.
pub fn mirrored_rules()
    ensures { MirroredRules }
{}

/// Which of its two directory copies counts.
pub fn mirrored_copies()
    ensures { MirroredCopies }
{}

/// The directory records of that file's group describe it.
pub fn mirrored_is_described()
    ensures { MirroredIsDescribed }
{}

/// While a commit stands on one of two copies, the disks hold the group before it or the one after
/// it.
pub fn mirrored_is_one_of_two()
    ensures { MirroredIsOneOfTwo }
{}
