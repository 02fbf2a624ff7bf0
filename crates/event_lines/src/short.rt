//! The short form of replies.

ghost use Rattle.std.specs.Prelude.{◌≡◌, List, [], ◌∷◌};
ghost use Rattle.asm_group.specs.Names.{Bytes};
ghost use Rattle.asm_group.specs.Refusal.{Refusal};
ghost use Rattle.asm_world.specs.Text.{short_text};
ghost use Rattle.event_lines.specs.Said.{reply_said};

/// How a command ended.
#[derive(Clone, Copy, Debug, PartialEq, Eq)]
pub enum Outcome {
    Done,
    Refused,
}

impl Outcome {
    /// The form under `--generate` of each reply but the last: `.` for ok, `!` for a refusal.
    pub fn mark(self) -> u8
        ensures { (lines : List Bytes) (cause : Refusal)
            → short_text (reply_said lines cause self) ≡ result ∷ [] }
    {
        match self {
            Outcome::Done => b'.',
            Outcome::Refused => b'!',
        }
    }
}
