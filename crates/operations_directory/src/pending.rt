//! An operation on a file that takes more than one commit.

use asm_base::PendingKind;
use std::marker::Model;

/// What was begun on a file and isn't ended. Contracts see it as the pending operation of the
/// formats.
#[derive(Clone, Copy, Debug)]
pub struct Pending {
    pub kind: PendingKind,
    pub file: u32,
    /// The extents that the file keeps.
    pub kept: u64,
}

impl Model for Pending {
    ghost use Rattle.asm_formats.specs.Items.{Pending as FormatPending};

    ghost Value = { FormatPending };

    ghost view = { λ p. record { kind = p.kind; file = p.file; kept = p.kept } };

    ghost inverse = { λ p. record { kind = p.kind; file = p.file; kept = p.kept } };
}
