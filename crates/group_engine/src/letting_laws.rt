//! Calls that may let disks of a mounted group go. Each function does nothing; its contract is the
//! law.
ghost use Rattle.refusal_lines.specs.declared.refusal.Refusal.{Refusal};
ghost use Rattle.group_engine.specs.Commits.{StatusCause};
ghost use Rattle.group_engine.specs.Members.{LetsGo, LettingCause};
ghost use Rattle.group_engine.specs.Mounts.{IsMounted, IsWhole, MountedGroup};
ghost use Rattle.group_engine.specs.Own.{KeepsGroup};

use bay::Bay;

/// A call that keeps the disks of a group lets none go but may.
pub fn keeping_lets_go<B: Bay>(start: &B, end: &B)
    ensures lets { (a b : MountedGroup) → KeepsGroup a b (B.state start.now) (B.state end.now)
        → LetsGo a b (B.state start.now) (B.state end.now) }
    // The cause by which it found the group dismounted is one of calls that may let disks go.
    ensures cause { (a b : MountedGroup) → IsWhole a → KeepsGroup a b (B.state start.now) (B.state end.now) → (refusal : Refusal)
        → StatusCause a b (B.state start.now) (B.state end.now) refusal → LettingCause a b (B.state start.now) (B.state end.now) refusal }
{}

/// Two calls that may let disks go, one after the other, are calls that may.
pub fn lettings_join<B: Bay>(start: &B, between: &B, end: &B)
    ensures lets { (a b c : MountedGroup) → LetsGo a b (B.state start.now) (B.state between.now) → LetsGo b c (B.state between.now) (B.state end.now)
        → LetsGo a c (B.state start.now) (B.state end.now) }
    // Where the first one left the group mounted, the cause by which the second one was refused is
    // one over both.
    ensures cause { (a b c : MountedGroup) → LetsGo a b (B.state start.now) (B.state between.now) → LetsGo b c (B.state between.now) (B.state end.now)
        → IsMounted b → (refusal : Refusal) → LettingCause b c (B.state between.now) (B.state end.now) refusal
        → LettingCause a c (B.state start.now) (B.state end.now) refusal }
{}
