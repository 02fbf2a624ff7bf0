//! The line that says why a command is refused: `error`, the cause's number, its name and its
//! arguments, with one space between them.

ghost use Rattle.std.specs.Prelude.{◌≡◌, ◌++◌, ◌∷◌, [], ℕ, take, drop, IfOk};
ghost use Rattle.std.specs.List.{flat_map};
ghost use Rattle.asm_group.specs.Names.{Bytes};
ghost use Rattle.asm_group.specs.Refusal.{limited_text, mode_text, refused, refusal_line, refusal_words, NoMemory as NoMemoryCause};
ghost use Rattle.refusal_lines.specs.Refusals.{referred_disk_name, limited_said, meaning_of};
ghost use Rattle.refusal_lines.specs.RefusalText.{argument_words};

use crate::refusal::{DiskRef, Limited, Refusal};
use asm_base::{Mode, NoMemory};
use itoa::Buffer;
use std::alloc::Global;

/// An argument of a cause, as it is printed: none, a text, or a number in decimal digits.
#[derive(Clone, Copy)]
enum Argument<'a> {
    Nothing,
    Text(&'a [u8]),
    Number(u64),
}

impl Refusal {
    /// The last line of the refused reply, without its line feed. A disk that is named by its
    /// number has the name `disk`.
    pub fn line(&self, alloc: Global, disk: &[u8]) -> Result<Vec<u8>, NoMemory>
        ensures { IfOk result (λ text. text.items
            ≡ refusal_line (meaning_of (λ _. disk.now) self.now)) }
    {
        let (number, name) = self.number_and_name();
        let (first, second) = self.arguments(disk);
        let line = Vec::from_slice(alloc, b"error").map_err(|_| NoMemory)?;
        let line = with(line, Argument::Number(number as u64))?;
        let line = with(line, Argument::Text(name))?;
        with(with(line, first)?, second)
    }

    /// The cause's number and its name.
    #[tactic(auto, unfolding(crate::specs::Refusals::meaning_of))]
    fn number_and_name(&self) -> (u8, &'static [u8])
        ensures { (names : ℕ → Bytes) → refused result.0 result.1.now []
            ≡ take 3 (refusal_words (meaning_of names self.now)) }
    {
        match self {
            Refusal::Syntax { .. } => (1, b"Syntax"),
            Refusal::NoGroup => (2, b"NoGroup"),
            Refusal::GroupExists => (3, b"GroupExists"),
            Refusal::AlreadyMounted => (4, b"AlreadyMounted"),
            Refusal::NoDisk { .. } => (5, b"NoDisk"),
            Refusal::DiskTaken { .. } => (6, b"DiskTaken"),
            Refusal::TooFewGroups { .. } => (7, b"TooFewGroups"),
            Refusal::TooSmall { .. } => (8, b"TooSmall"),
            Refusal::NoMajority { .. } => (9, b"NoMajority"),
            Refusal::DirectoriesLost => (10, b"DirectoriesLost"),
            Refusal::MissingDisks { .. } => (11, b"MissingDisks"),
            Refusal::TwoGroups => (12, b"TwoGroups"),
            Refusal::Damaged { .. } => (13, b"Damaged"),
            Refusal::NoName => (14, b"NoName"),
            Refusal::NameTaken => (15, b"NameTaken"),
            Refusal::NotDirectory => (16, b"NotDirectory"),
            Refusal::NotEmpty => (17, b"NotEmpty"),
            Refusal::HasAlias => (18, b"HasAlias"),
            Refusal::SystemName => (19, b"SystemName"),
            Refusal::NoTemplate => (20, b"NoTemplate"),
            Refusal::SystemTemplate => (21, b"SystemTemplate"),
            Refusal::BadAttribute { .. } => (22, b"BadAttribute"),
            Refusal::BadPower { .. } => (23, b"BadPower"),
            Refusal::BadRedundancy => (24, b"BadRedundancy"),
            Refusal::NoSpace { .. } => (25, b"NoSpace"),
            Refusal::DirectoryFull { .. } => (26, b"DirectoryFull"),
            Refusal::OutOfFile => (27, b"OutOfFile"),
            Refusal::NotSectors => (28, b"NotSectors"),
            Refusal::Lost { .. } => (29, b"Lost"),
            Refusal::ReadFault { .. } => (30, b"ReadFault"),
            Refusal::WriteFault { .. } => (31, b"WriteFault"),
            Refusal::Dismounted { .. } => (32, b"Dismounted"),
            Refusal::WouldLose { .. } => (33, b"WouldLose"),
            Refusal::DiskState { .. } => (34, b"DiskState"),
            Refusal::HoldsStatus { .. } => (35, b"HoldsStatus"),
            Refusal::TooMany { .. } => (36, b"TooMany"),
            Refusal::HostFault { .. } => (37, b"HostFault"),
            Refusal::GroupNotEmpty => (38, b"GroupNotEmpty"),
            Refusal::NoMemory => (39, b"NoMemory"),
            Refusal::HoldsDirectories { .. } => (40, b"HoldsDirectories"),
        }
    }

    /// The cause's arguments, where there are two, one or none.
    #[tactic(auto, unfolding(crate::specs::Refusals::meaning_of))]
    fn arguments<'a>(&'a self, disk: &'a [u8]) -> (Argument<'a>, Argument<'a>)
        ensures { argument_words result.0 ++ argument_words result.1
            ≡ drop 3 (refusal_words (meaning_of (λ _. disk.now) self.now)) }
    {
        match self {
            Refusal::Syntax { at: n } | Refusal::BadPower { n } => {
                (Argument::Number(*n), Argument::Nothing)
            }
            Refusal::NoDisk { text: d }
            | Refusal::MissingDisks { disk: d }
            | Refusal::ReadFault { disk: d }
            | Refusal::WriteFault { disk: d }
            | Refusal::Dismounted { disk: d }
            | Refusal::HoldsStatus { disk: d }
            | Refusal::HoldsDirectories { disk: d } => {
                (Argument::Text(d.name(disk)), Argument::Nothing)
            }
            Refusal::DiskTaken { path: text }
            | Refusal::BadAttribute { name: text }
            | Refusal::HostFault { path: text } => {
                (Argument::Text(text.as_slice()), Argument::Nothing)
            }
            Refusal::TooFewGroups { need: a, have: b }
            | Refusal::DirectoryFull { need: a, free: b } => {
                (Argument::Number(*a), Argument::Number(*b))
            }
            Refusal::NoMajority { seen, need } => {
                (
                    Argument::Number(*seen as u64),
                    Argument::Number(*need as u64),
                )
            }
            Refusal::NoSpace { extent: x }
            | Refusal::Lost { extent: x }
            | Refusal::WouldLose { extent: x } => {
                (
                    Argument::Number(x.file as u64),
                    Argument::Number(x.index as u64),
                )
            }
            Refusal::TooSmall { disk: d, need } => {
                (Argument::Text(d.name(disk)), Argument::Number(*need))
            }
            Refusal::Damaged { path, block } => {
                (Argument::Text(path.as_slice()), Argument::Number(*block))
            }
            Refusal::TooMany { kind, limit } => {
                (Argument::Text(kind.text()), Argument::Number(*limit))
            }
            Refusal::DiskState { disk: d, mode } => {
                (
                    Argument::Text(d.name(disk)),
                    Argument::Text(mode_text(*mode)),
                )
            }
            _ => (Argument::Nothing, Argument::Nothing),
        }
    }
}

/// The line of a refusal for want of memory, which takes none.
pub fn no_memory_line() -> &'static [u8]
    ensures { result.now ≡ refusal_line NoMemoryCause }
{
    b"error 39 NoMemory"
}

impl DiskRef {
    /// The name of the disk, where its number stands for the name that is given.
    fn name<'a>(&'a self, numbered: &'a [u8]) -> &'a [u8]
        ensures { result.now ≡ referred_disk_name (λ _. numbered.now) self.now }
    {
        match self {
            DiskRef::Number(_) => numbered,
            DiskRef::Spelt(text) => text.as_slice(),
        }
    }
}

impl Limited {
    fn text(self) -> &'static [u8]
        ensures { result.now ≡ limited_text (limited_said self) }
    {
        match self {
            Limited::Disks => b"disks",
            Limited::Groups => b"groups",
            Limited::Templates => b"templates",
        }
    }
}

/// The word for the mode of a disk.
pub fn mode_text(mode: Mode) -> &'static [u8]
    ensures { result.now ≡ mode_text mode }
{
    match mode {
        Mode::Online => b"Online",
        Mode::Offline => b"Offline",
        Mode::Syncing => b"Syncing",
        Mode::Dropping => b"Dropping",
        Mode::Forced => b"Forced",
    }
}

/// The line with the argument after a space at its end, or as it is where there is none.
fn with(line: Vec<u8>, argument: Argument<'_>) -> Result<Vec<u8>, NoMemory>
    ensures { IfOk result (λ longer. longer.items
        ≡ line.items ++ flat_map (λ word. 32 ∷ word) (argument_words argument.entry)) }
{
    match argument {
        Argument::Nothing => Ok(line),
        Argument::Text(text) => with_word(line, text),
        Argument::Number(n) => with_word(line, Buffer::new().format(n).as_bytes()),
    }
}

fn with_word(mut line: Vec<u8>, word: &[u8]) -> Result<Vec<u8>, NoMemory>
    ensures { IfOk result (λ longer. longer.items ≡ line.items ++ 32 ∷ word.now) }
{
    line.push(b' ').map_err(|_| NoMemory)?;
    line.extend_from_slice(word).map_err(|_| NoMemory)?;
    Ok(line)
}
