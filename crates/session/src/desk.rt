// What commands work on.
ghost use Rattle.std.specs.Prelude.{◌≤◌, length};

use crate::session::Session;
use bay::{Bay, Host};
use std::alloc::Global;

/// The session, the disks, the folder of files outside, and the paths of the disks' images.
#[derive(Drop)]
pub struct Desk<B: Bay, H: Host> {
    pub alloc: Global,
    pub session: Session,
    pub bay: B,
    pub host: H,
    pub paths: Vec<String>,
    ghost few: { length paths.items ≤ 512 },
}
