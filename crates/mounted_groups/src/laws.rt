//! That a creation is a step of the world at every moment, that a mount finds no group where there
//! is none, and why it is refused. Each function does nothing; its contract is the law.
ghost use Rattle.mounted_groups.specs.CreateLaws.{FormingCreates, FormedIsHeld};
ghost use Rattle.mounted_groups.specs.Leaving.{NothingIsMounted, ReadsNamed};
ghost use Rattle.mounted_groups.specs.MountCauses.{RefusalsHaveCauses};

use bay::Bay;

/// While a disk is given the parts of a new group, every other id stands by its history for what it
/// stood for and gets no member, and the new id stands for the empty group or for none.
pub fn forming_creates()
    ensures { FormingCreates }
{}

/// Once the disk has all parts, the new group is there, and all that is kept of a mounted group is
/// known of it.
pub fn formed_is_held()
    ensures { FormedIsHeld }
{}

/// Where the images that a stop may leave stand for no group under an id, none is mounted from
/// them.
pub fn nothing_is_mounted<B: Bay>(start: &B, end: &B)
    ensures { NothingIsMounted B.state (B.state start.now) (B.state end.now) }
{}

/// A mount that is refused has its cause in what the disks held before it and in the slots that
/// failed, where other groups hold no disk of an id of the name.
pub fn refusals_have_causes<B: Bay>(start: &B, end: &B)
    ensures { RefusalsHaveCauses B.state (B.state start.now) (B.state end.now) }
{}

/// Of the groups for which the images stand under the id that a mount read one has the name that
/// was asked for.
pub fn reads_named<B: Bay>(start: &B)
    ensures { ReadsNamed B.state (B.state start.now) }
{}
