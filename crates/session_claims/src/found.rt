//! What a mount found. The function does nothing; its contract is the law.
ghost use Rattle.session_claims.specs.Found.{FoundIsKnown, FoundIsMember, FoundIsUnmounted};

use bay::Bay;

/// The id that a mount finds has a member on the disks as they were before, with the name that was
/// asked for. So it was given or known, and where no mounted group has the name, none has the id.
pub fn mounts_find<B: Bay>(start: &B)
    ensures member { FoundIsMember B.state (B.state start.now) }
    ensures known { FoundIsKnown B.state (B.state start.now) }
    ensures unmounted { FoundIsUnmounted B.state (B.state start.now) }
{}
