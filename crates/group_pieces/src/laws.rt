// What writes of users' bytes leave mounted. Each function does nothing; its contract is the law.
ghost use Rattle.group_pieces.specs.Held.{BytesMount};

use bay::Bay;

/// Over calls on users' bytes a group stays mounted, with other bytes in a file where each image is
/// held for it.
pub fn bytes_mount<B: Bay>(start: &B, end: &B)
    ensures { BytesMount (B.state start.now) (B.state end.now) }
{}
