// One slot: the image that is attached to it, and its counts.
ghost use Rattle.std.specs.Prelude.{◌≡◌, None, length, IsSome};
ghost use Rattle.bay.specs.Calls.{sends, sends_none};

use crate::image::Image;
use crate::opener::Opener;
use crate::whole::{opened, passed};
use bay::{BayError, Fault};

#[derive(Drop)]
pub struct Slot {
    image: Option<Image>,
    pub faults: u64,
    pub written: u64,
}

impl Slot {
    ghost use Rattle.bay_file.specs.Slots.{size_in, slot_state, IsAttached, IsMade, IsServed};

    pub fn new() -> Slot
        ensures detached { size_in result ≡ None }
        ensures counts { (result.faults ≡ 0) × (result.written ≡ 0) }
    {
        Slot {
            image: None,
            faults: 0,
            written: 0,
        }
    }

    // Attaches an image that exists, where none is attached.
    pub fn attach(&mut self, opener: &mut Opener, path: &str) -> Result<u64, BayError>
        ensures call { IsAttached result (slot_state self.old) (slot_state self.new) }
    {
        if let Some(image) = &self.image {
            return Ok(image.size);
        }
        let image = opened(opener.open(path), &mut self.faults)?;
        let size = image.size;
        self.image = Some(image);
        Ok(size)
    }

    // Makes an image of zeros and attaches it. What was attached is let go first, and with it its
    // lock.
    pub fn make(&mut self, opener: &mut Opener, path: &str, size: u64) -> Result<(), BayError>
        ensures call { IsMade result size (slot_state self.old) (slot_state self.new) }
    {
        self.image = None;
        let image = opened(opener.make(path, size), &mut self.faults)?;
        self.image = Some(image);
        Ok(())
    }

    pub fn read(&mut self, at: u64, buf: &mut [u8]) -> Result<(), Fault>
        requires { IsSome (size_in self.old) }
        ensures call { IsServed result sends_none (slot_state self.old) (slot_state self.new) }
    {
        let answer = self.image.as_mut().unwrap().read(at, buf);
        passed(answer, &mut self.faults)
    }

    pub fn write(&mut self, at: u64, bytes: &[u8]) -> Result<(), Fault>
        requires { IsSome (size_in self.old) }
        ensures call { IsServed result (sends (length bytes.now)) (slot_state self.old)
            (slot_state self.new) }
    {
        self.written = self.written.saturating_add(bytes.len() as u64);
        let answer = self.image.as_mut().unwrap().write(at, bytes);
        passed(answer, &mut self.faults)
    }

    pub fn sync(&mut self) -> Result<(), Fault>
        requires { IsSome (size_in self.old) }
        ensures call { IsServed result sends_none (slot_state self.old) (slot_state self.new) }
    {
        let answer = self.image.as_ref().unwrap().sync();
        passed(answer, &mut self.faults)
    }
}
