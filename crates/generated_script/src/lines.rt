//! The commands behind the creations, one a line.

ghost use Rattle.std.specs.Prelude.{◌≡◌, ◌≤◌, ◌<◌, ◌+◌, ◌++◌, ◌∷◌, [], ℕ, false, length};
ghost use Rattle.asm_world.specs.Text.{ended};
ghost use Rattle.generated_script.specs.Lines.{all_fills, early_fills, files_from, is_over, late_fills, line_now, lines_left, lines_of, made_for};

use crate::choice::{next_choice, put_file, put_fill};
use line_buffer::LineBuffer;

/// The next command. Of a row of like ones `more` follow it.
#[derive(Clone, Copy)]
pub enum Next {
    /// The file of this number is made: 15 less the number of those that follow.
    File { more: u8 },
    /// A sector is filled, before the disk is dropped.
    EarlyFill { more: u16 },
    DropDisk,
    /// A sector is filled, after the disk was dropped.
    LateFill { more: u16 },
    ListGroups,
    Nothing,
}

/// The commands that are left.
#[derive(Clone, Copy)]
pub struct Lines {
    next: Next,
    /// By which the next fill is chosen.
    choice: u64,
}

/// So many late fills, and what follows them.
fn late_fills(count: u16) -> Next
    ensures { (x : ℕ) → lines_of result x ≡ late_fills count x }
{
    if count == 0 {
        Next::ListGroups
    } else {
        Next::LateFill { more: count - 1 }
    }
}

/// So many early fills, and what follows them.
fn early_fills(count: u16) -> Next
    ensures { (x : ℕ) → lines_of result x ≡ early_fills count x }
{
    if count == 0 {
        Next::DropDisk
    } else {
        Next::EarlyFill { more: count - 1 }
    }
}

/// The last so many files, and what follows them.
fn files(count: u8) -> Next
    ensures { (x : ℕ) → lines_of result x ≡ files_from count x }
{
    if count == 0 {
        early_fills(500)
    } else {
        Next::File { more: count - 1 }
    }
}

impl Lines {
    /// All commands behind the creations, for this number.
    pub fn new(number: u64) -> Lines
        ensures { lines_left result ≡ made_for number }
    {
        Lines {
            next: files(16),
            choice: next_choice(number),
        }
    }

    fn is_over(&self) -> bool
        ensures { result ≡ is_over self.now.next }
    {
        matches!(self.next, Next::Nothing)
    }

    /// Puts the next command.
    fn put(&self, line: &mut LineBuffer)
        requires { line.old ≡ [] }
        ensures text { line.new ≡ line_now self.now.next self.now.choice }
        ensures len { length line.new ≤ 799 }
    {
        match self.next {
            Next::File { more } => put_file(line, 15u8.saturating_sub(more) as u64),
            Next::EarlyFill { .. } | Next::LateFill { .. } => put_fill(line, self.choice),
            Next::DropDisk => {
                line.put(b"ALTER DISKGROUP DATA DROP DISK DATA_0003 REBALANCE POWER 4;")
            }
            Next::ListGroups => line.put(b"lsdg"),
            Next::Nothing => {}
        }
    }

    /// The commands behind the next.
    fn others(self) -> Lines
        requires { is_over self.next ≡ false }
        ensures { lines_left self ≡ line_now self.next self.choice ∷ lines_left result }
    {
        let Lines { next, choice } = self;
        match next {
            Next::File { more } => Lines {
                next: files(more),
                choice,
            },
            Next::EarlyFill { more } => Lines {
                next: early_fills(more),
                choice: next_choice(choice),
            },
            Next::DropDisk => Lines {
                next: late_fills(500),
                choice,
            },
            Next::LateFill { more } => Lines {
                next: late_fills(more),
                choice: next_choice(choice),
            },
            Next::ListGroups | Next::Nothing => Lines {
                next: Next::Nothing,
                choice,
            },
        }
    }

    /// Writes the next command and its line feed in place of what the buffer has. Where none is
    /// left the buffer is empty then.
    pub fn next(&mut self, line: &mut LineBuffer)
        ensures text { ended (lines_left self.old) ≡ line.new ++ ended (lines_left self.new) }
        ensures over { length line.new ≡ 0 → lines_left self.new ≡ [] }
    {
        line.clear();
        if self.is_over() {
            return;
        }
        self.put(line);
        line.put(b"\n");
        *self = self.others();
    }
}
