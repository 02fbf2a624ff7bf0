// The front of four disks, as far as the script reaches, and changes of it that are taken back.
use crate::calls::Kind;
use crate::trace::TracedCall;
use disk_blocks::BLOCK_SIZE;
use std::alloc::{AllocError, Global};

/// The bytes of a page, which are those of a block and of a unit.
pub const PAGE: usize = BLOCK_SIZE;

/// The pages that are kept of each disk.
pub const PAGES: usize = 320;

/// Four disks by their pages. An empty page is one of zeros.
#[derive(Drop)]
pub struct Disks {
    pub alloc: Global,
    pages: Vec<Vec<u8>>,
}

/// Bytes for a place on a disk.
#[derive(Drop)]
pub struct Patch {
    pub slot: usize,
    pub at: u64,
    pub bytes: Vec<u8>,
}

// The place of a page among those of all disks.
fn place(slot: usize, page: usize) -> Option<usize> {
    if slot < 4 && page < PAGES {
        Some(slot * PAGES + page)
    } else {
        None
    }
}

// Puts bytes into a page from a place on, as far as it reaches.
fn put_into(page: &mut Vec<u8>, offset: usize, bytes: &[u8]) {
    if offset <= page.len() && bytes.len() <= page.len() - offset {
        page[offset..offset + bytes.len()].copy_from_slice(bytes);
    }
}

impl Disks {
    /// Disks of zeros.
    pub fn zeros(alloc: Global) -> Result<Disks, AllocError> {
        let mut pages = Vec::new(alloc);
        for _ in 0..4 * PAGES {
            pages.push(Vec::new(alloc))?;
        }
        Ok(Disks { alloc, pages })
    }

    /// The same disks once more.
    pub fn copied(&self) -> Result<Disks, AllocError> {
        let mut pages = Vec::new(self.alloc);
        for page in self.pages.iter() {
            pages.push(page.to_vec(self.alloc)?)?;
        }
        Ok(Disks {
            alloc: self.alloc,
            pages,
        })
    }

    /// A page of a disk that isn't empty.
    pub fn page(&self, slot: usize, page: usize) -> Option<&[u8]> {
        let bytes = self.pages.get(place(slot, page)?)?.as_slice();
        if bytes.is_empty() { None } else { Some(bytes) }
    }

    // Writes within a page.
    fn write_page(
        &mut self,
        slot: usize,
        page: usize,
        offset: usize,
        bytes: &[u8],
    ) -> Result<(), AllocError> {
        let Some(place) = place(slot, page) else {
            return Err(AllocError);
        };
        if let Some(kept) = self.pages.get_mut(place) {
            if kept.is_empty() {
                *kept = vec![in self.alloc; 0; PAGE]?;
            }
            put_into(kept, offset, bytes);
        }
        Ok(())
    }

    /// Writes bytes at a place of a disk. It fails where they go past what is kept.
    pub fn write(&mut self, slot: usize, at: u64, bytes: &[u8]) -> Result<(), AllocError> {
        let mut rest = bytes;
        let mut place = at as usize;
        for _ in 0..PAGES {
            if rest.is_empty() {
                break;
            }
            let offset = place % PAGE;
            let count = (PAGE - offset).min(rest.len());
            self.write_page(slot, place / PAGE, offset, &rest[..count])?;
            rest = &rest[count..];
            place = place.saturating_add(count);
        }
        Ok(())
    }

    // The bytes of a page from a place on.
    fn add_page(
        &self,
        slot: usize,
        page: usize,
        offset: usize,
        count: usize,
        to: &mut Vec<u8>,
    ) -> Result<(), AllocError> {
        match self.page(slot, page) {
            Some(bytes) if offset <= bytes.len() && count <= bytes.len() - offset => {
                to.extend_from_slice(&bytes[offset..offset + count])
            }
            _ => {
                for _ in 0..count {
                    to.push(0)?;
                }
                Ok(())
            }
        }
    }

    /// The bytes of a disk at a place.
    pub fn bytes(&self, slot: usize, at: u64, len: usize) -> Result<Vec<u8>, AllocError> {
        let mut found = Vec::with_capacity(self.alloc, len)?;
        let mut place = at as usize;
        let mut rest = len;
        for _ in 0..PAGES {
            if rest == 0 {
                break;
            }
            let offset = place % PAGE;
            let count = (PAGE - offset).min(rest);
            self.add_page(slot, place / PAGE, offset, count, &mut found)?;
            rest -= count;
            place = place.saturating_add(count);
        }
        Ok(found)
    }

    /// Does what a call did.
    pub fn follow(&mut self, call: &TracedCall) -> Result<(), AllocError> {
        if call.kind == Kind::Write && call.done {
            self.write(call.slot, call.at, &call.bytes)
        } else {
            Ok(())
        }
    }

    /// Writes a patch, and gives what takes it back.
    fn put(&mut self, patch: &Patch) -> Result<Patch, AllocError> {
        let bytes = self.bytes(patch.slot, patch.at, patch.bytes.len())?;
        self.write(patch.slot, patch.at, &patch.bytes)?;
        Ok(Patch {
            slot: patch.slot,
            at: patch.at,
            bytes,
        })
    }

    /// Writes patches one after the other, and gives those that take them back, the last first.
    pub fn change(&mut self, patches: &[Patch]) -> Result<Vec<Patch>, AllocError> {
        let mut back = Vec::new(self.alloc);
        for patch in patches {
            back.push(self.put(patch)?)?;
        }
        back.reverse();
        Ok(back)
    }
}
