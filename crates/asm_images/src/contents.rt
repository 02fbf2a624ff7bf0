//! Where all named directory copies have one content.

ghost use Rattle.asm_images.specs.ContentLaws.{FoundIsHeld, OneContentIsCovered, OneContentIsFound, OneContentNarrows};

/// What is found stands on a named copy.
pub fn found_is_held()
    ensures { FoundIsHeld }
{}

/// Where all named copies have one content, it is found whichever disks are left.
pub fn one_content_is_found()
    ensures { OneContentIsFound }
{}

/// A record whose copies have one content, which describes a listed group, may be taken for Status.
pub fn one_content_is_covered()
    ensures { OneContentIsCovered }
{}

/// Where it is so of each record that counts, with one group, that group is left.
pub fn one_content_narrows()
    ensures { OneContentNarrows }
{}
