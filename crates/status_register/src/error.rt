//! Why a survey, a claim or a write is refused.

/// Why a survey or a claim is refused.
#[derive(Clone, Copy, Debug, PartialEq, Eq)]
pub enum SurveyError {
    /// Of a set of the greatest record fewer disks were read, or took the claim, than are needed:
    /// of the holders where these fall short, else of the next holders. One is needed where no
    /// record was read.
    NoMajority { seen: u8, need: u8 },
    /// The first block, by member and then by block, where a claim or a record must stand and
    /// doesn't, and whether the greatest record that was read is marked gone: a group that was
    /// dropped is no group, whatever its disks still hold.
    Damaged { slot: u32, block: u64, gone: bool },
}

/// The slot of a disk that failed, where too few took a record.
#[derive(Clone, Copy, Debug, PartialEq, Eq)]
pub struct Dead {
    pub slot: u32,
}
