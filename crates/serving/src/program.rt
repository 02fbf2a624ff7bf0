// The program and all that it works on.
ghost use Rattle.std.specs.Prelude.{◌≤◌, length};

use crate::manner::Manner;
use bay::{Bay, Clock, Host, Sink};
use disk_commands::Desk;

/// What commands work on, where replies go and how they are told, the time, the marks of the
/// replies, and whether one was a refusal.
#[derive(Drop)]
pub struct Program<B: Bay, H: Host, K: Sink, C: Clock> {
    pub desk: Desk<B, H>,
    pub sink: K,
    pub clock: C,
    pub marks: Vec<u64>,
    pub refused: bool,
    pub manner: Manner,
    ghost few: { length desk.paths.items ≤ 512 },
}
