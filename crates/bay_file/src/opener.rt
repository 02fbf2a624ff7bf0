// Images as they are opened and made, with what is told of those that can't be.
ghost use Rattle.std.specs.Prelude.{◌≡◌, IfOk};

use crate::image::Image;
use crate::limit::SizeLimit;
use crate::notes::Notes;
use std::io;

#[derive(Drop)]
pub struct Opener {
    runtime: HostRuntime,
    limit: SizeLimit,
    notes: Notes,
}

impl Opener {
    pub fn new(runtime: HostRuntime) -> Opener {
        Opener {
            runtime,
            limit: SizeLimit::now(&runtime),
            notes: Notes::new(runtime),
        }
    }

    // Opens an image that exists.
    pub fn open(&mut self, path: &str) -> io::Result<Image> {
        let answer = Image::open(&self.runtime, path, self.limit);
        self.passed(answer, path)
    }

    // Makes an image of zeros.
    pub fn make(&mut self, path: &str, size: u64) -> io::Result<Image>
        ensures { IfOk result (λ image. image.size ≡ size) }
    {
        let answer = Image::make(&self.runtime, path, size, self.limit);
        self.passed(answer, path)
    }

    // Passes an answer on, and tells of its error.
    fn passed(&mut self, answer: io::Result<Image>, path: &str) -> io::Result<Image>
        ensures { result ≡ answer }
    {
        if let Err(error) = &answer {
            self.notes.tell(path, error);
        }
        answer
    }
}
