//! What a directory copy holds at each moment of a commit, a checkpoint and a format. Each law is
//! the contract of a function that does nothing.

ghost use Rattle.asm_formats.specs.Commits.{CheckpointIsDone, CheckpointKeepsMetadata, CloseKeepsMetadata, ClosedCopyHasNone, ClosedMayClose, CommitIsCheckpointed, LastCloseLosesContent, LogIsReadBack, LogPutCommits, LogPutIsCommitted, OpenLogsDecode};

/// While a log is put, the copy keeps its content or has the new one.
pub fn log_put_commits()
    ensures { LogPutCommits }
{}

/// Once a log is put, the copy has the new content.
pub fn log_put_is_committed()
    ensures { LogPutIsCommitted }
{}

/// A log is read as it was put.
pub fn log_is_read()
    ensures { LogIsReadBack }
{}

/// Where a copy is whole and decodes, so do its open log slots.
pub fn open_logs_decode()
    ensures { OpenLogsDecode }
{}

/// Where both log slots are closed, either may be put.
pub fn closed_may_close()
    ensures { ClosedMayClose }
{}

/// While a checkpoint is written, the copy keeps its content.
pub fn checkpoint_keeps_metadata()
    ensures { CheckpointKeepsMetadata }
{}

/// Once each page has its image at home, the checkpoint is done.
pub fn checkpoint_is_done()
    ensures { CheckpointIsDone }
{}

/// The log slot that doesn't hold the content may be closed.
pub fn close_keeps_metadata()
    ensures { CloseKeepsMetadata }
{}

/// With the last open log slot the content goes, and not before.
pub fn last_close_loses_content()
    ensures { LastCloseLosesContent }
{}

/// Without an open log slot a copy has no content.
pub fn closed_copy_has_none()
    ensures { ClosedCopyHasNone }
{}

/// A commit and its checkpoint leave the checkpoint done, as the next commit demands.
pub fn commit_is_checkpointed()
    ensures { CommitIsCheckpointed }
{}
