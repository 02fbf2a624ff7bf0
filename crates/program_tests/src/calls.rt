// Calls on the disks.

/// What a call on the disks does.
#[derive(Clone, Copy, PartialEq, Eq)]
pub enum Kind {
    Attach,
    Make,
    Read,
    Write,
    Sync,
}

impl Kind {
    pub fn named(word: &str) -> Option<Kind> {
        match word {
            "attach" => Some(Kind::Attach),
            "make" => Some(Kind::Make),
            "read" => Some(Kind::Read),
            "write" => Some(Kind::Write),
            "sync" => Some(Kind::Sync),
            _ => None,
        }
    }

    pub fn word(self) -> &'static str {
        match self {
            Kind::Attach => "attach",
            Kind::Make => "make",
            Kind::Read => "read",
            Kind::Write => "write",
            Kind::Sync => "sync",
        }
    }
}

/// A call on the disks: how many lines of the script were read when it came, its slot, what it
/// does, and where a write how many bytes it has.
#[derive(Clone, Copy)]
pub struct Call {
    pub line: u64,
    pub slot: u32,
    pub kind: Kind,
    pub bytes: u64,
}
