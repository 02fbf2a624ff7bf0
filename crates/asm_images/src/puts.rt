//! From torn bytes up: at each moment while a slot of a disk is put, the image is sound.

ghost use Rattle.asm_images.specs.PutLaws.{CheckpointKeeps, ClaimPutKeeps, ClosedCopyWriteKeeps, HeaderCloseKeeps, HeaderPutKeeps, LastLogCloseKeeps, LogCloseKeeps, LogPutKeeps, MetadataWriteKeepsCopies, RecordPutKeeps, UserWriteKeepsImageMetadata};
ghost use Rattle.asm_images.specs.ContentLaws.{ReadyPutKeeps};

/// A write before the end of the directory region changes no byte of a current copy.
pub fn metadata_write_keeps_copies()
    ensures { MetadataWriteKeepsCopies }
{}

/// A write behind the directory region leaves all metadata.
pub fn user_write_keeps_metadata()
    ensures { UserWriteKeepsImageMetadata }
{}

/// A claim is put into the slot that doesn't hold.
pub fn claim_put_keeps()
    ensures { ClaimPutKeeps }
{}

/// The last record is put into the slot that doesn't hold.
pub fn record_put_keeps()
    ensures { RecordPutKeeps }
{}

/// A log is put whose content is known.
pub fn log_put_keeps()
    ensures { LogPutKeeps }
{}

/// The pages of the open log slots are written home.
pub fn checkpoint_keeps()
    ensures { CheckpointKeeps }
{}

/// A log slot is closed that doesn't hold the content.
pub fn log_close_keeps()
    ensures { LogCloseKeeps }
{}

/// The last open log slot is closed, with which the content goes.
pub fn last_log_close_keeps()
    ensures { LastLogCloseKeeps }
{}

/// Pages are written while both log slots are closed.
pub fn closed_copy_write_keeps()
    ensures { ClosedCopyWriteKeeps }
{}

/// A header gate is closed, or a header is spoiled: the disk leaves.
pub fn header_close_keeps()
    ensures { HeaderCloseKeeps }
{}

/// The header of a joining disk is put, whose other gates are closed.
pub fn header_put_keeps()
    ensures { HeaderPutKeeps }
{}

/// A log is put whose content is ready: a condition on the image before.
pub fn ready_put_keeps()
    ensures { ReadyPutKeeps }
{}
