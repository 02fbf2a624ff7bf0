// Laws of edits and writes. Each function has an empty body: its contract is the law.
ghost use Rattle.asm_world.specs.EditLaws.{NamesAreEdited, FilesAreWritten, KnownBytesAreRead};
ghost use Rattle.asm_world.specs.WorldLaws.{DoneKeepsWhole};

/// Each edit of names does what it says, and leaves other names and all files.
pub fn names_are_edited()
    ensures { NamesAreEdited }
{}

/// A write leaves all names, other files and other bytes, and what was written is read.
pub fn files_are_written()
    ensures { FilesAreWritten }
{}

/// Where bytes are known, they alone are read.
pub fn known_bytes_are_read()
    ensures { KnownBytesAreRead }
{}

/// A command that is answered ok keeps that each mounted group has one state alone, of its name.
pub fn done_keeps_whole()
    ensures { DoneKeepsWhole }
{}
