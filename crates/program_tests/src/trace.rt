// A record of calls on the disks, with their bytes.
use crate::calls::Kind;
use std::alloc::{AllocError, Global};

/// A call on a disk: what it asked, of which slot, from which byte on, the bytes that it was to
/// write, and whether it was done.
#[derive(Drop)]
pub struct TracedCall {
    pub kind: Kind,
    pub slot: usize,
    pub at: u64,
    pub bytes: Vec<u8>,
    pub done: bool,
}

/// The calls so far, where they are kept. It isn't complete once there was no memory for one.
#[derive(Drop)]
pub struct Trace {
    alloc: Global,
    is_kept: bool,
    calls: Vec<TracedCall>,
    is_complete: bool,
}

// A copy of bytes.
fn copy_of(alloc: Global, bytes: &[u8]) -> Result<Vec<u8>, AllocError> {
    bytes.to_vec(alloc)
}

impl Trace {
    /// A record that keeps no call.
    pub fn none(alloc: Global) -> Trace {
        Trace {
            alloc,
            is_kept: false,
            calls: Vec::new(alloc),
            is_complete: true,
        }
    }

    /// A record that keeps each call, with none so far.
    pub fn whole(alloc: Global) -> Trace {
        Trace {
            alloc,
            is_kept: true,
            calls: Vec::new(alloc),
            is_complete: true,
        }
    }

    /// Puts a call on record, where calls are kept.
    pub fn note(&mut self, kind: Kind, slot: u32, at: u64, bytes: &[u8], done: bool) {
        if self.is_kept {
            self.keep(kind, slot, at, bytes, done);
        }
    }

    // Puts a call on record.
    fn keep(&mut self, kind: Kind, slot: u32, at: u64, bytes: &[u8], done: bool) {
        let kept = match copy_of(self.alloc, bytes) {
            Ok(bytes) => self
                .calls
                .push(TracedCall {
                    kind,
                    slot: slot as usize,
                    at,
                    bytes,
                    done,
                })
                .is_ok(),
            Err(_) => false,
        };
        if !kept {
            self.is_complete = false;
        }
    }

    /// The calls on record. None where some aren't.
    pub fn into_calls(self) -> Option<Vec<TracedCall>> {
        let Trace {
            calls,
            is_complete,
            ..
        } = self;
        if !is_complete {
            return None;
        }
        Some(calls)
    }
}
