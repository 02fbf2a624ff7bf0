// How large the system lets the files of this program grow. A write past that ends the program by a
// signal, which std can't hold back, so it is refused before.
use std::fs::Metadata;
use std::io::ErrorKind;
use std::os::unix::fs::FileTypeExt;
use std::{fs, io};

// Where the system tells a program its limits, as a text.
const LIMITS: &str = "/proc/self/limits";

const LIMIT_OF_SIZES: &str = "Max file size";

// A number of bytes that no file of this program may pass, where there is one.
#[derive(Clone, Copy)]
pub struct SizeLimit {
    most: Option<u64>,
}

impl SizeLimit {
    // The limit as it is now. Where the system doesn't tell it there is none.
    pub fn now(runtime: &HostRuntime) -> SizeLimit {
        match fs::read_to_string(runtime, LIMITS) {
            Ok(text) => SizeLimit {
                most: most_in(&text),
            },
            Err(_) => SizeLimit { most: None },
        }
    }

    // The limit of one file: a device has none.
    pub fn of_file(self, metadata: &Metadata) -> SizeLimit {
        if metadata.file_type().is_block_device() {
            return SizeLimit { most: None };
        }
        self
    }

    // Refuses what ends behind the limit.
    pub fn check(self, at: u64, count: u64) -> io::Result<()> {
        match self.most {
            Some(most) if at.saturating_add(count) > most => {
                Err(io::Error::from(ErrorKind::FileTooLarge))
            }
            _ => Ok(()),
        }
    }
}

// The limit of what is written to a standard stream, which may be a file.
#[derive(Drop)]
pub struct StreamLimit {
    runtime: HostRuntime,
    limit: SizeLimit,
    stream: &'static str,
}

impl StreamLimit {
    pub fn of_output(runtime: HostRuntime) -> StreamLimit {
        StreamLimit {
            runtime,
            limit: SizeLimit::now(&runtime),
            stream: "/proc/self/fd/1",
        }
    }

    pub fn of_errors(runtime: HostRuntime) -> StreamLimit {
        StreamLimit {
            runtime,
            limit: SizeLimit::now(&runtime),
            stream: "/proc/self/fd/2",
        }
    }

    // Whether a file behind the stream would end behind the limit.
    pub fn refuses(&self, count: usize) -> bool {
        if self.limit.most.is_none() {
            return false;
        }
        match fs::metadata(&self.runtime, self.stream) {
            Ok(metadata) if metadata.is_file() => {
                self.limit.check(metadata.len(), count as u64).is_err()
            }
            _ => false,
        }
    }
}

// The limit in force is the first number behind the words, or a word.
fn most_in(text: &str) -> Option<u64> {
    for line in text.lines() {
        if let Some(values) = line.strip_prefix(LIMIT_OF_SIZES) {
            return first_number(values);
        }
    }
    None
}

fn first_number(values: &str) -> Option<u64> {
    values.split_whitespace().next()?.parse().ok()
}
