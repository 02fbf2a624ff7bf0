// The system's clock.
ghost use Rattle.std.specs.Prelude.{⊤};

use bay::Clock;
use std::time::SystemTime;

/// The system's clock, in seconds since the beginning of 1970. Where it can't be read the time is
/// 0.
#[derive(Drop)]
pub struct SystemClock {
    runtime: HostRuntime,
}

impl SystemClock {
    /// The clock of this system.
    pub fn new(runtime: HostRuntime) -> Self {
        SystemClock { runtime }
    }
}

impl Clock for SystemClock {
    ghost gives = { λ _ _ _. ⊤ };

    fn now(&mut self) -> u64 {
        match SystemTime::now(&self.runtime) {
            Ok(time) => seconds_of(time),
            Err(_) => 0,
        }
    }
}

fn seconds_of(time: SystemTime) -> u64 {
    match time.duration_since(SystemTime::UNIX_EPOCH) {
        Ok(since) => since.as_secs(),
        Err(_) => 0,
    }
}
