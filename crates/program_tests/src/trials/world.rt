// What a later run may find of the group.
use crate::trials::deeds::{Effect, File, Fill};

/// The sectors of a file.
pub const SECTORS: usize = 80;

/// A sector of a file: all its bytes are known, or none.
#[derive(Clone, Copy, Debug, PartialEq, Eq)]
pub enum Cell {
    Known(u8),
    Free,
}

/// The group after some commands, with the sectors free that a write reached which wasn't
/// acknowledged.
#[derive(Clone, Copy)]
pub struct World<'a> {
    pub done: &'a [Effect],
    pub free: Option<Fill>,
}

fn covers(fill: Fill, file: File, sector: usize) -> bool {
    fill.file == file && fill.first <= sector && sector - fill.first < fill.count
}

impl<'a> World<'a> {
    /// After these commands.
    pub fn after(done: &'a [Effect]) -> World<'a> {
        World { done, free: None }
    }

    /// Whether there is the group.
    pub fn has_group(&self) -> bool {
        self.done.iter().any(|effect| *effect == Effect::Group)
    }

    /// How many files were made.
    pub fn made(&self) -> u64 {
        let made = self
            .done
            .iter()
            .filter(|effect| matches!(**effect, Effect::Made(_)))
            .count();
        made as u64
    }

    /// Whether the file is there.
    pub fn has(&self, file: File) -> bool {
        let made = self.done.iter().any(|effect| *effect == Effect::Made(file));
        let gone = self.done.iter().any(|effect| *effect == Effect::Gone(file));
        made && !gone
    }

    /// Whether the file U has its alias.
    pub fn has_alias(&self) -> bool {
        self.done.iter().any(|effect| *effect == Effect::Alias)
    }

    /// What a sector of a file holds.
    pub fn cell(&self, file: File, sector: usize) -> Cell {
        if let Some(fill) = self.free {
            if covers(fill, file, sector) {
                return Cell::Free;
            }
        }
        let mut cell = Cell::Known(0);
        for effect in self.done {
            match *effect {
                Effect::Filled(fill) if covers(fill, file, sector) => cell = Cell::Known(fill.byte),
                Effect::Freed(fill) if covers(fill, file, sector) => cell = Cell::Free,
                _ => {}
            }
        }
        cell
    }

    /// Whether a sector may hold a byte.
    pub fn allows(&self, file: File, sector: usize, byte: u8) -> bool {
        match self.cell(file, sector) {
            Cell::Known(known) => known == byte,
            Cell::Free => true,
        }
    }
}
