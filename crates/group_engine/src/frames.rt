//! Groups that are mounted side by side. Each function does nothing; its contract is the law.
ghost use Rattle.std.specs.Prelude.{ℕ, None};
ghost use Rattle.bay.specs.Image.{Image};
ghost use Rattle.bay.specs.State.{BayState, KeepsAttached};
ghost use Rattle.bay.specs.Moments.{Runs};
ghost use Rattle.asm_group.specs.Group.{Group};
ghost use Rattle.refusal_lines.specs.declared.refusal.DiskRef.{DiskRef};
ghost use Rattle.asm_images.specs.Kept.{Kept};
ghost use Rattle.group_engine.specs.Commits.{DismountCause};
ghost use Rattle.group_engine.specs.Frames.{KeepsOwn, KeptSparesOthers, SparedIsHeld, SparesDisks, SparesGroup, StaysAttached};
ghost use Rattle.group_engine.specs.Mounts.{IsMounted, IsReady, IsWhole, MountedGroup, Mounts, Takes};
ghost use Rattle.group_engine.specs.Own.{KeepsGroup};

use bay::{Bay, Slots, Step};

/// A group is held where the disks of its members stay, whatever happens to any number of others.
pub fn spared_is_held()
    ensures { SparedIsHeld }
{}

/// A group takes the next call also after calls that leave its attached disks; more disks may be
/// attached by them.
pub fn ready_elsewhere<B: Bay, T: Slots, S: Step>(start: &B, end: &B)
    ensures { (m : MountedGroup) → IsWhole m → IsReady m (B.state start.now) → StaysAttached (B.state start.now) (B.state end.now)
        → Runs T.among S.leads (B.state start.now) (B.state end.now) → ((x y : Image) → S.leads x y → SparesDisks m x y)
        → IsReady m (B.state end.now) }
{}

/// The same where disks of others are made anew or are attached no more: what is attached to the
/// group stays so.
pub fn ready_with_own<B: Bay, T: Slots, S: Step>(start: &B, end: &B)
    ensures { (m : MountedGroup) → IsWhole m → IsReady m (B.state start.now) → KeepsOwn m (B.state start.now) (B.state end.now)
        → Runs T.among S.leads (B.state start.now) (B.state end.now) → ((x y : Image) → S.leads x y → SparesDisks m x y)
        → IsReady m (B.state end.now) }
{}

/// A mounted group stays mounted over calls that leave the disks of its members, and make no other
/// disk one.
pub fn mounted_elsewhere<B: Bay, T: Slots, S: Step>(start: &B, end: &B)
    ensures { (n : ℕ) (m : MountedGroup) (g : Group) (kept : Kept) → Mounts n m (B.state start.now) g kept → StaysAttached (B.state start.now) (B.state end.now)
        → Runs T.among S.leads (B.state start.now) (B.state end.now) → ((x y : Image) → S.leads x y → SparesGroup m.register.id x y)
        → Mounts n m (B.state end.now) g kept }
{}

/// Where each image of each moment of a call is held for a mounted group, the disks of every other
/// id's members stay.
pub fn others_are_spared<B: Bay>(start: &B, end: &B)
    ensures { KeptSparesOthers (B.state start.now) (B.state end.now) }
{}

/// Where the same disks are attached, they stay so, and those of each group do.
pub fn stays_attached<B: Bay>(start: &B, end: &B)
    ensures stays { KeepsAttached (B.state start.now) (B.state end.now)
        → StaysAttached (B.state start.now) (B.state end.now) }
    ensures own { (m : MountedGroup) → StaysAttached (B.state start.now) (B.state end.now)
        → KeepsOwn m (B.state start.now) (B.state end.now) }
{}

/// What two calls one after the other keep, both do.
pub fn calls_keep<B: Bay>(start: &B, between: &B, end: &B)
    ensures { (a b c : MountedGroup) → KeepsGroup a b (B.state start.now) (B.state between.now) → KeepsGroup b c (B.state between.now) (B.state end.now)
        → KeepsGroup a c (B.state start.now) (B.state end.now) }
{}

/// Where a call left the group mounted, the cause by which the next one found it dismounted is one
/// over both.
pub fn causes_join<B: Bay>(start: &B, between: &B, end: &B)
    ensures { (a b c : MountedGroup) → KeepsGroup a b (B.state start.now) (B.state between.now) → IsMounted b → (by : DiskRef)
        → DismountCause b c (B.state between.now) (B.state end.now) by → DismountCause a c (B.state start.now) (B.state end.now) by }
{}

/// To give up the move that is on its way keeps a group.
pub fn giving_up_keeps<B: Bay>(bay: &B)
    ensures { (m : MountedGroup) → Takes m (B.state bay.now)
        → KeepsGroup m (record m { flight = None }) (B.state bay.now) (B.state bay.now) }
{}
