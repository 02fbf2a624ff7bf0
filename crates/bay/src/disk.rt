// The disks. Each is an image with a path, and is attached to a slot before it is used.
ghost use Rattle.std.specs.Prelude.{◌≡◌, ◌+◌, ◌≤◌, None, length, IsSome};
ghost use Rattle.bay.specs.Image.{window, Same, ChangesOnly, Range, Puts, MayMake};
ghost use Rattle.bay.specs.Calls.{AttachCall, Attaches, AttachesZeros, DeviceCall, Held, Settles, Tells, sends, sends_none};
ghost use Rattle.bay.specs.State.{BayState, IsSound, IsOnSectors, size_of};

use crate::{BayError, Fault};

/// The disks by slot, and what a stop may leave of them. `read`, `write` and `sync` are asked of
/// attached disks alone, inside their size and on multiples of 512 bytes.
pub trait Bay {
    /// All that is known of the bay.
    ghost state: { Self → BayState };

    /// Attaches the image at a path to a slot, and gives its size in bytes. An attached slot gives
    /// the size that it has. Where it fails the slot is as it was.
    fn attach(&mut self, slot: u32, path: &str) -> Result<u64, BayError>
        ensures { AttachCall result slot Same (Attaches slot) ((state self.old).attached slot)
            (state self.old) (state self.new) };

    /// Makes an image of zeros of a size in bytes at a path, and attaches it. Where it fails or is
    /// stopped the slot isn't attached, and has the old image, none, or zeros of any length.
    fn make(&mut self, slot: u32, path: &str, size: u64) -> Result<(), BayError>
        ensures { AttachCall result slot (MayMake slot) (λ value. AttachesZeros slot size) None
            (state self.old) (state self.new) };

    /// Fills a buffer with the bytes that begin at a place.
    fn read(&mut self, slot: u32, at: u64, buf: &mut [u8]) -> Result<(), Fault>
        requires attached { IsSome ((state self.old).attached slot) }
        requires inside { at + length buf.old ≤ size_of (state self.old) slot }
        requires sectors { IsOnSectors at (length buf.old) }
        ensures { DeviceCall result slot Same
            (λ value. Tells (λ image. buf.new ≡ window (image.byte slot) at (length buf.old)))
            sends_none (state self.old) (state self.new) };

    /// Writes bytes at a place. Until a sync a stop may leave any bytes in their range, and so does
    /// a failed write.
    fn write(&mut self, slot: u32, at: u64, bytes: &[u8]) -> Result<(), Fault>
        requires attached { IsSome ((state self.old).attached slot) }
        requires inside { at + length bytes.now ≤ size_of (state self.old) slot }
        requires sectors { IsOnSectors at (length bytes.now) }
        ensures { DeviceCall result slot (ChangesOnly (Range slot at (length bytes.now)))
            (Held (Puts slot at bytes.now)) (sends (length bytes.now))
            (state self.old) (state self.new) };

    /// Settles what was written: from then on a stop leaves what a read gives.
    fn sync(&mut self, slot: u32) -> Result<(), Fault>
        requires attached { IsSome ((state self.old).attached slot) }
        ensures { DeviceCall result slot Same (Settles slot) sends_none (state self.old) (state self.new) };

    /// How many calls there were. The count stays at its last value.
    fn calls(&self) -> u64
        ensures { result ≡ (state self.now).calls };

    /// How many bytes were handed to `write` for a slot. The count stays at its last value.
    fn written(&self, slot: u32) -> u64
        ensures { result ≡ (state self.now).written slot };

    /// What is known is sound.
    ghost sound: { (bay : Self) → IsSound (state bay) };
}
