//! What a disk says at each moment while a claim, a status record or a header is put. Each law is
//! the contract of a function that does nothing.

ghost use Rattle.asm_formats.specs.Puts.{ClaimPut, HeaderPut, StatusPut};

/// One claim slot says what it said, nothing, or the new claim, and all else stays.
pub fn claim_put()
    ensures { ClaimPut }
{}

/// One status slot says what it said, nothing, or the new record, and all else stays.
pub fn status_put()
    ensures { StatusPut }
{}

/// The disk says what it said, has no header, or has the new one.
pub fn header_put()
    ensures { HeaderPut }
{}
