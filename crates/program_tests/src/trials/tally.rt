// What was tried, and the trials that went wrong.
use crate::trials::mounts::Wrong;
use crate::trials::stops::Torn;
use std::alloc::{AllocError, Global};

/// How many trials there were, and a line for each that went wrong.
#[derive(Drop)]
pub struct Tally {
    pub failing: usize,
    pub stops: usize,
    pub mounts: usize,
    pub again: usize,
    pub wrong: Vec<String>,
}

/// Where a trial is, for a line that tells of it.
#[derive(Clone, Copy, Debug)]
pub enum Place {
    /// The script is stopped after so many calls.
    Stop {
        calls: usize,
        torn: Torn,
    },
    /// The same, and a second run's mount of these disks is stopped after so many of its calls.
    Again {
        calls: usize,
        mounted: usize,
        after: usize,
        torn: Torn,
    },
    /// The call of this number fails.
    Fault {
        call: usize,
    },
    /// A run left these images behind so many acknowledged commands.
    Left {
        commands: usize,
    },
}

/// A run that isn't right: of a set of disks, by their bits.
pub struct Shown<'a> {
    pub alloc: Global,
    pub place: Place,
    pub set: usize,
    pub wrong: Wrong,
    pub text: &'a [u8],
}

impl Tally {
    pub fn new(alloc: Global) -> Tally {
        Tally {
            failing: 0,
            stops: 0,
            mounts: 0,
            again: 0,
            wrong: Vec::new(alloc),
        }
    }

    /// Puts a line on record.
    pub fn tell(&mut self, shown: Shown<'_>) -> Result<(), AllocError> {
        let Shown {
            alloc,
            place,
            set,
            wrong,
            text,
        } = shown;
        let text = String::from_utf8_lossy(alloc, text)?;
        let line = format!(in alloc; "{place:?}, disks {set:04b}: {wrong:?}\n{text}")?;
        self.wrong.push(line)?;
        Ok(())
    }
}
