// What is told on standard error: why an image can't be used.
use crate::errors::StdErrors;
use crate::one_line::on_one_line;
use crate::whole::{is_absent, lacks_descriptors};
use std::alloc::{AllocError, Global};
use std::collections::BTreeSet;
use std::io;
use std::io::ErrorKind;

// The lines that were told in this run, one for each image and reason. No answer depends on them: a
// line that finds no memory is left out.
#[derive(Drop)]
pub struct Notes {
    runtime: HostRuntime,
    errors: StdErrors,
    told: BTreeSet<Vec<u8>>,
}

impl Notes {
    // Nothing was told so far.
    pub fn new(runtime: HostRuntime) -> Notes {
        Notes {
            runtime,
            errors: StdErrors::new(runtime),
            told: BTreeSet::new(runtime.alloc()),
        }
    }

    // Tells why the image at a path can't be used, unless it isn't there.
    pub fn tell(&mut self, path: &str, error: &io::Error) {
        if is_absent(error) {
            return;
        }
        if let Ok(line) = line_of(self.runtime.alloc(), path, error) {
            self.tell_once(line);
        }
    }

    fn tell_once(&mut self, line: Vec<u8>) {
        if self.told.contains(&line) {
            return;
        }
        let Ok(kept) = line.clone() else {
            return;
        };
        if self.told.insert(kept).is_ok() {
            self.errors.write(&line);
        }
    }
}

fn line_of(alloc: Global, path: &str, error: &io::Error) -> Result<Vec<u8>, AllocError> {
    let text = match reason_of(error) {
        Some(reason) => format!(in alloc; "asm: image {path}: {reason}")?,
        None => format!(in alloc; "asm: image {path}: {error}")?,
    };
    on_one_line(alloc, &text)
}

// The reason in words for people, where the system's own words are none.
fn reason_of(error: &io::Error) -> Option<&'static str> {
    if lacks_descriptors(error) {
        return Some("no descriptors left");
    }
    match error.kind() {
        ErrorKind::WouldBlock => {
            Some("another program holds its lock, or this one under another path")
        }
        ErrorKind::PermissionDenied => Some("no permission"),
        ErrorKind::ReadOnlyFilesystem => Some("a read-only file system"),
        ErrorKind::OutOfMemory => Some("no memory left"),
        _ => None,
    }
}
