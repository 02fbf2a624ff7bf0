//! What holds in each state, whatever happens. Each law is the contract of a function that does
//! nothing.

ghost use Rattle.register_machine.specs.Laws.{Always, BegunFollow, CompletedIsFound, CompletedIsHeld, EpochsAreSeen, LastIsGreatest, NumbersRise, NeverUndone, StatusIsCurrent, SurveyIsCurrent};
ghost use Rattle.register_machine.specs.Mounts.{CanBeMounted};

/// Whichever disks are left, Status is the record that was completed last, or one begun after it,
/// and these have greater numbers and follow it.
pub fn status_is_current()
    ensures survey { Always SurveyIsCurrent }
    ensures status { Always StatusIsCurrent }
    ensures follow { Always BegunFollow }
{}

/// A record that was completed is never undone, and found by disks that are enough for it.
pub fn completed_stays()
    ensures never_undone { NeverUndone }
    ensures greatest { Always LastIsGreatest }
    ensures held { Always CompletedIsHeld }
    ensures found { Always CompletedIsFound }
{}

/// No two records bear one number, and no epoch is claimed again in which a record was begun.
pub fn numbers_are_new()
    ensures numbers { Always NumbersRise }
    ensures epochs { Always EpochsAreSeen }
{}

/// Wherever the last program stopped, disks that are enough for their greatest record can be
/// mounted, while there are epochs.
pub fn enough_disks_mount()
    ensures { Always CanBeMounted }
{}
