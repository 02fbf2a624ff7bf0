// The disks as images in files.
ghost use Rattle.std.specs.Prelude.{◌≡◌, ℕ, None};

use crate::opener::Opener;
use crate::slots::{SlotMap, attach_in, make_in, read_in, sync_in, write_in};
use bay::{Bay, BayError, Fault};
use std::collections::BTreeMap;

/// The disks as images, in regular files or on block devices, by slot; what is neither is a fault,
/// as what isn't there. An attached image stays open and locked as long as the bay lasts: a second
/// program, or a second slot whose path leads to the same file, gets a fault. `make` makes files
/// alone. Why an image that is there can't be used is told on standard error, once for each reason.
/// `calls`, `written` and the counts of faults are kept; what the images hold isn't told.
#[derive(Drop)]
pub struct FileBay {
    opener: Opener,
    slots: SlotMap,
    calls: u64,
}

impl FileBay {
    ghost use Rattle.bay_file.specs.FileBays.{file_bay_state};

    /// A bay with no image attached.
    pub fn new(runtime: HostRuntime) -> Self
        ensures calls { (file_bay_state result).calls ≡ 0 }
        ensures detached { (s : ℕ) → (file_bay_state result).attached s ≡ None }
        ensures faults { (s : ℕ) → (file_bay_state result).faults s ≡ 0 }
        ensures written { (s : ℕ) → (file_bay_state result).written s ≡ 0 }
    {
        FileBay {
            opener: Opener::new(runtime),
            slots: BTreeMap::new(runtime.alloc()),
            calls: 0,
        }
    }
}

impl Bay for FileBay {
    ghost use Rattle.bay_file.specs.FileBays.{file_bay_state};
    ghost use Rattle.bay_file.specs.FileSound.{file_bay_is_sound};

    ghost state = { file_bay_state };

    ghost sound = { file_bay_is_sound };

    fn attach(&mut self, slot: u32, path: &str) -> Result<u64, BayError> {
        self.calls = self.calls.saturating_add(1);
        attach_in(&mut self.slots, slot, &mut self.opener, path)
    }

    fn make(&mut self, slot: u32, path: &str, size: u64) -> Result<(), BayError> {
        self.calls = self.calls.saturating_add(1);
        make_in(&mut self.slots, slot, &mut self.opener, path, size)
    }

    fn read(&mut self, slot: u32, at: u64, buf: &mut [u8]) -> Result<(), Fault> {
        self.calls = self.calls.saturating_add(1);
        read_in(&mut self.slots, slot, at, buf)
    }

    fn write(&mut self, slot: u32, at: u64, bytes: &[u8]) -> Result<(), Fault> {
        self.calls = self.calls.saturating_add(1);
        write_in(&mut self.slots, slot, at, bytes)
    }

    fn sync(&mut self, slot: u32) -> Result<(), Fault> {
        self.calls = self.calls.saturating_add(1);
        sync_in(&mut self.slots, slot)
    }

    fn calls(&self) -> u64 {
        self.calls
    }

    fn written(&self, slot: u32) -> u64 {
        match self.slots.get(&slot) {
            Some(kept) => kept.written,
            None => 0,
        }
    }
}
