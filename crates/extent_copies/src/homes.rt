//! The disks of homes.

ghost use Rattle.std.specs.Prelude.{◌≡◌};
ghost use Rattle.asm_placement.specs.Copies.{entry_at_home};

use partnership::{PstEntry, entry_of};
use template_directory::Home;

/// The entry of the disk on which a home lies.
pub fn entry_at(disks: &[PstEntry], home: Option<Home>) -> Option<PstEntry>
    ensures { result ≡ entry_at_home disks.now home }
{
    match home {
        Some(home) => entry_of(disks, home.disk),
        None => None,
    }
}
