// The directory copies are loaded.
ghost use Rattle.std.specs.Prelude.{◌≡◌, ◌<◌, None, length, IfErr, IfOk};
ghost use Rattle.bay.specs.Image.{Same};
ghost use Rattle.bay.specs.State.{KeepsAttached};
ghost use Rattle.bay.specs.Moments.{Runs};
ghost use Rattle.directory_store.specs.Loading.{AreDurable as AreSettled};
ghost use Rattle.directory_store.specs.Reading.{ArePartOf};
ghost use Rattle.directory_store.specs.Stores.{Keeps};
ghost use Rattle.group_recovery.specs.Alike.{first_stranger};
ghost use Rattle.group_recovery.specs.Finding.{AreThere};
ghost use Rattle.group_recovery.specs.Loads.{LoadRefusal, copies_read, refusal_of_load};
ghost use Rattle.group_recovery.specs.Verdicts.{IsSlotIn};

use crate::copies::named_copies;
use crate::error::MountError;
use crate::finding::Headed;
use bay::Bay;
use directory_store::{LoadError, Store};
use status_register::Survey;
use std::alloc::Global;

/// The refusal of a load as that of a mount.
fn refusal_of_load(error: LoadError) -> MountError
    ensures { result ≡ refusal_of_load error }
{
    match error {
        LoadError::DirectoriesLost => MountError::DirectoriesLost,
        LoadError::Damaged { slot, block } => MountError::Damaged { slot, block },
        LoadError::NoMemory => MountError::NoMemory,
    }
}

/// Loads the directory copies that the surveyed record names on disks that were read.
pub fn load_copies<B: Bay>(
    alloc: Global,
    bay: &mut B,
    headed: &[Headed],
    id: u64,
    survey: &Survey,
    slots: u32,
) -> Result<Store, MountError>
    requires there { AreThere slots headed.now (B.state bay.old) }
    requires alike { first_stranger id headed.now ≡ None }
    ensures copies { IfOk result (λ store. ArePartOf store.copies
        (copies_read id headed.now survey.now)) }
    ensures some { IfOk result (λ store. 0 < length store.copies) }
    ensures kept { IfOk result (λ store. AreSettled (copies_read id headed.now survey.now)
        (B.state bay.old) → Keeps store (B.state bay.new)) }
    ensures cause { IfErr result (LoadRefusal (copies_read id headed.now survey.now)
        (B.state bay.old) (B.state bay.new)) }
    ensures attached { KeepsAttached (B.state bay.old) (B.state bay.new) }
    ensures runs { Runs (IsSlotIn headed.now) Same (B.state bay.old) (B.state bay.new) }
{
    let copies = named_copies(alloc, id, headed, survey.seen(), survey.value())?;
    match Store::load(alloc, bay, &copies) {
        Ok(store) => Ok(store),
        Err(error) => Err(refusal_of_load(error)),
    }
}
