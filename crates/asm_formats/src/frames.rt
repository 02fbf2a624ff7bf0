//! What the metadata of a disk rests on: which writes leave it, however they are torn. Each law is
//! the contract of a function that does nothing.

ghost use Rattle.asm_formats.specs.Frames.{ClaimWriteKeepsOthers, ClaimsBySlot, ClosedCopyWriteKeepsMetadata, DirectoryWriteKeepsOthers, HeaderWriteKeepsOthers, ShortImageHasNoHeader, SpareWriteKeepsMetadata, StatusWriteKeepsOthers, StatusesBySlot, UserBytesAreSpare, UserWriteKeepsMetadata};

/// A write to bytes on which the metadata doesn't rest leaves it.
pub fn spare_write_keeps_metadata()
    ensures { SpareWriteKeepsMetadata }
{}

/// The metadata rests on no byte behind the directory region.
pub fn user_bytes_are_spare()
    ensures { UserBytesAreSpare }
{}

/// A write behind the directory region leaves all metadata.
pub fn user_write_keeps_metadata()
    ensures { UserWriteKeepsMetadata }
{}

/// A write to the header slot leaves claims and status records.
pub fn header_write_keeps_others()
    ensures { HeaderWriteKeepsOthers }
{}

/// A write to the claim slots changes claims alone.
pub fn claim_write_keeps_others()
    ensures { ClaimWriteKeepsOthers }
{}

/// A write to the status slots changes status records alone.
pub fn status_write_keeps_others()
    ensures { StatusWriteKeepsOthers }
{}

/// A write behind the status slots changes the directory copy alone.
pub fn directory_write_keeps_others()
    ensures { DirectoryWriteKeepsOthers }
{}

/// While both log slots are closed, the pages count for nothing.
pub fn closed_copy_write_keeps_metadata()
    ensures { ClosedCopyWriteKeepsMetadata }
{}

/// Claims are those of the two slots in turn.
pub fn claims_by_slot()
    ensures { ClaimsBySlot }
{}

/// Status records are those of the two slots in turn.
pub fn statuses_by_slot()
    ensures { StatusesBySlot }
{}

/// An image under 40,960 bytes is no disk of a group.
pub fn short_image_has_no_header()
    ensures { ShortImageHasNoHeader }
{}
