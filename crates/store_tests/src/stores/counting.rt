// Disks in memory that count their syncs.
ghost use Rattle.std.specs.Prelude.{◌≡◌};

use bay::{Bay, BayError, Fault};
use bay_mem::MemBay;

/// Disks in memory, and how often the disk of slot 0 and that of another slot were synced.
#[derive(Drop)]
pub struct CountingBay {
    pub disks: MemBay,
    pub first: u64,
    pub second: u64,
}

impl CountingBay {
    /// Counts a sync.
    fn count(&mut self, slot: u32)
        ensures { self.new.disks ≡ self.old.disks }
    {
        if slot == 0 {
            self.first = self.first.saturating_add(1);
        } else {
            self.second = self.second.saturating_add(1);
        }
    }
}

impl Bay for CountingBay {
    ghost use Rattle.bay_mem.specs.MemState.{state_of};
    ghost use Rattle.bay_mem.specs.Told.{sound};

    ghost state = { λ bay. state_of bay.disks };

    fn attach(&mut self, slot: u32, path: &str) -> Result<u64, BayError> {
        self.disks.attach(slot, path)
    }

    fn make(&mut self, slot: u32, path: &str, size: u64) -> Result<(), BayError> {
        self.disks.make(slot, path, size)
    }

    fn read(&mut self, slot: u32, at: u64, buf: &mut [u8]) -> Result<(), Fault> {
        self.disks.read(slot, at, buf)
    }

    fn write(&mut self, slot: u32, at: u64, bytes: &[u8]) -> Result<(), Fault> {
        self.disks.write(slot, at, bytes)
    }

    fn sync(&mut self, slot: u32) -> Result<(), Fault> {
        self.count(slot);
        self.disks.sync(slot)
    }

    fn calls(&self) -> u64 {
        self.disks.calls()
    }

    fn written(&self, slot: u32) -> u64 {
        self.disks.written(slot)
    }

    ghost sound = { λ bay. sound bay.disks };
}
