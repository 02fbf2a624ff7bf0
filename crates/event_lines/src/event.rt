//! Events and their lines.

ghost use Rattle.std.specs.Prelude.{◌≡◌, ◌≤◌, ◌+◌, ◌++◌, ◌∷◌, [], length};
ghost use Rattle.std.specs.Fmt.{decimal};
ghost use Rattle.asm_group.specs.Refusal.{spaced};
ghost use Rattle.asm_world.specs.Text.{event_line, event_text, rebalanced_words, resynced_words};
ghost use Rattle.event_lines.specs.Said.{event_said, rebalanced_said, resynced_said};

use asm_base::{ExtentId, Name};
use line_buffer::LineBuffer;

/// How a slice of a rebalance, or a whole rebalance under WAIT, ended. `steps` is the number of its
/// steps.
#[derive(Clone, Copy, Debug)]
pub enum Rebalanced<'a> {
    /// There are moves left.
    MovesLeft { steps: u64 },
    /// There are none.
    Finished { steps: u64 },
    /// There is no choice of homes for this extent.
    OutOfSpace { steps: u64, extent: ExtentId },
    /// The extent has no usable copy.
    LostExtent { steps: u64, extent: ExtentId },
    /// This disk failed.
    MoveFault { steps: u64, disk: &'a Name },
    /// The group is dismounted by the failure of this disk.
    MoveEnds { disk: &'a Name },
}

/// How a slice of a resync, or a whole resync under WAIT, ended.
#[derive(Clone, Copy, Debug)]
pub enum Resynced<'a> {
    /// There are marks left.
    MarksLeft { steps: u64 },
    /// The disk is online.
    Back { steps: u64 },
    /// The disk is online, and this extent is still marked.
    LeftMarked { extent: ExtentId },
    /// This disk failed.
    SyncFault { steps: u64, disk: &'a Name },
    /// The group is dismounted by the failure of this disk.
    SyncEnds { disk: &'a Name },
}

/// What happened in a group.
#[derive(Clone, Copy, Debug)]
pub enum Event<'a> {
    /// The time of an offline disk was up, and it was dropped by force.
    Expired {
        group: &'a Name,
        disk: &'a Name,
    },
    /// The group was dismounted by the failure of this disk when one was to be dropped.
    ExpiryEnds {
        group: &'a Name,
        disk: &'a Name,
    },
    /// Extents were moved.
    Moved {
        group: &'a Name,
        how: Rebalanced<'a>,
    },
    /// The marked extents of a disk were written again.
    Synced {
        group: &'a Name,
        disk: &'a Name,
        how: Resynced<'a>,
    },
}

/// Puts a space and a name at the end: at most 256 bytes.
#[tactic(auto, using(crate::proofs::Lines::short_part))]
fn put_name(buffer: &mut LineBuffer, name: &Name)
    requires { length buffer.old + 256 ≤ 800 }
    ensures text { buffer.new ≡ buffer.old ++ 32 ∷ name.now }
    ensures len { length buffer.new ≤ length buffer.old + 256 }
{
    buffer.put_word(name.as_bytes());
}

/// Puts the file and the index of an extent, each behind a space: at most 42 bytes.
fn put_extent(buffer: &mut LineBuffer, extent: ExtentId)
    requires { length buffer.old + 42 ≤ 800 }
    ensures text { buffer.new ≡ buffer.old ++ 32 ∷ decimal extent.file
        ++ 32 ∷ decimal extent.index }
    ensures len { length buffer.new ≤ length buffer.old + 42 }
{
    buffer.put_count(extent.file as u64);
    buffer.put_count(extent.index as u64);
}

impl Rebalanced<'_> {
    /// Puts its words, each behind a space: at most 283 bytes, which `fault`, a number and a name
    /// have.
    fn put(&self, buffer: &mut LineBuffer)
        requires { length buffer.old + 283 ≤ 800 }
        ensures text { buffer.new ≡ buffer.old ++ 32
            ∷ spaced (rebalanced_words (rebalanced_said self.now)) }
        ensures len { length buffer.new ≤ length buffer.old + 283 }
    {
        match self {
            Rebalanced::MovesLeft { steps } => {
                buffer.put_word(b"more");
                buffer.put_count(*steps);
            }
            Rebalanced::Finished { steps } => {
                buffer.put_word(b"done");
                buffer.put_count(*steps);
            }
            Rebalanced::OutOfSpace { steps, extent } => {
                buffer.put_word(b"nospace");
                buffer.put_count(*steps);
                put_extent(buffer, *extent);
            }
            Rebalanced::LostExtent { steps, extent } => {
                buffer.put_word(b"lost");
                buffer.put_count(*steps);
                put_extent(buffer, *extent);
            }
            Rebalanced::MoveFault { steps, disk } => {
                buffer.put_word(b"fault");
                buffer.put_count(*steps);
                put_name(buffer, disk);
            }
            Rebalanced::MoveEnds { disk } => {
                buffer.put_word(b"dismounted");
                put_name(buffer, disk);
            }
        }
    }
}

impl Resynced<'_> {
    /// Puts its words, each behind a space: at most 283 bytes, which `fault`, a number and a name
    /// have.
    fn put(&self, buffer: &mut LineBuffer)
        requires { length buffer.old + 283 ≤ 800 }
        ensures text { buffer.new ≡ buffer.old ++ 32
            ∷ spaced (resynced_words (resynced_said self.now)) }
        ensures len { length buffer.new ≤ length buffer.old + 283 }
    {
        match self {
            Resynced::MarksLeft { steps } => {
                buffer.put_word(b"more");
                buffer.put_count(*steps);
            }
            Resynced::Back { steps } => {
                buffer.put_word(b"online");
                buffer.put_count(*steps);
            }
            Resynced::LeftMarked { extent } => {
                buffer.put_word(b"left");
                put_extent(buffer, *extent);
            }
            Resynced::SyncFault { steps, disk } => {
                buffer.put_word(b"fault");
                buffer.put_count(*steps);
                put_name(buffer, disk);
            }
            Resynced::SyncEnds { disk } => {
                buffer.put_word(b"dismounted");
                put_name(buffer, disk);
            }
        }
    }
}

impl Event<'_> {
    /// Puts the line without its line feed: at most 799 bytes, which `sync` with two names and the
    /// words of a fault has.
    #[tactic(auto, using(crate::proofs::Lines::moved_line, crate::proofs::Lines::synced_line))]
    fn put(&self, buffer: &mut LineBuffer)
        requires { buffer.old ≡ [] }
        ensures text { buffer.new ≡ event_line (event_said self.now) }
        ensures len { length buffer.new ≤ 799 }
    {
        match self {
            Event::Expired { group, disk } => {
                buffer.put(b"expired");
                put_name(buffer, group);
                put_name(buffer, disk);
            }
            Event::ExpiryEnds { group, disk } => {
                buffer.put(b"expired");
                put_name(buffer, group);
                buffer.put_word(b"dismounted");
                put_name(buffer, disk);
            }
            Event::Moved { group, how } => {
                buffer.put(b"rebal");
                put_name(buffer, group);
                how.put(buffer);
            }
            Event::Synced { group, disk, how } => {
                buffer.put(b"sync");
                put_name(buffer, group);
                put_name(buffer, disk);
                how.put(buffer);
            }
        }
    }

    /// Writes the line and its line feed in place of what the buffer has. A name has at most 255
    /// bytes, so the longest line fits: `sync`, three names, `fault`, a number of 20 digits, a
    /// space before each, and the line feed. Names of groups and disks have at most 30, and then it
    /// is 125.
    pub fn write(&self, buffer: &mut LineBuffer)
        ensures { buffer.new ≡ event_text (event_said self.now) }
    {
        buffer.clear();
        self.put(buffer);
        buffer.put(b"\n");
    }
}
