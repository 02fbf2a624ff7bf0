// A group of the session.
ghost use Rattle.std.specs.Prelude.{◌≡◌, is_none};
ghost use Rattle.group_contents.specs.group_engine.Making.{dismounted_by};

use group_contents::Mounted;

/// A group by its id, mounted or as it was dismounted by the failure of a disk.
#[derive(Drop)]
pub struct Entry {
    pub id: u64,
    pub group: Mounted,
}

impl Entry {
    /// Whether no disk dismounted it.
    pub fn is_mounted(&self) -> bool
        ensures { result ≡ is_none (dismounted_by self.now.group.access) }
    {
        self.group.dismounted().is_none()
    }
}
