// Opened images. An image is a regular file or a block device, locked against other programs while
// it is open.
ghost use Rattle.std.specs.Prelude.{◌≡◌, ◌<◌, ◌^◌, IfOk};

use crate::kinds::{open_kept, open_or_make};
use crate::limit::SizeLimit;
use crate::whole::{read_whole, write_whole};
use std::fs::{File, OpenOptions};
use std::io::{Seek, SeekFrom};
use std::{fs, io};

#[derive(Drop)]
pub struct Image {
    file: File,
    limit: SizeLimit,
    pub size: u64,
    ghost fits: { size < 2 ^ 64 },
}

impl Image {
    // Opens an image that exists, and finds its size. It is neither made nor grown.
    pub fn open(runtime: &HostRuntime, path: &str, limit: SizeLimit) -> io::Result<Image> {
        let mut file = open_kept(runtime, OpenOptions::new().read(true).write(true), path)?;
        file.try_lock()?;
        let limit = limit.of_file(&file.metadata()?);
        let size = file.seek(SeekFrom::End(0))?;
        Ok(Image { file, limit, size })
    }

    // Makes an image of zeros. Nothing of an old image is cut off before the lock is held. Once it
    // is made, a stop leaves it: the file and its entry in the folder are synced.
    pub fn make(runtime: &HostRuntime, path: &str, size: u64, limit: SizeLimit) -> io::Result<Image>
        ensures { IfOk result (λ image. image.size ≡ size) }
    {
        limit.check(0, size)?;
        let mut options = OpenOptions::new();
        options.read(true).write(true).create(true);
        let file = open_or_make(runtime, &options, path)?;
        file.try_lock()?;
        file.set_len(0)?;
        file.set_len(size)?;
        file.sync_all()?;
        sync_folder(runtime, path)?;
        Ok(Image { file, limit, size })
    }

    pub fn read(&mut self, at: u64, buf: &mut [u8]) -> io::Result<()>
        ensures { self.new.size ≡ self.old.size }
    {
        read_whole(&mut self.file, at, buf)
    }

    pub fn write(&mut self, at: u64, bytes: &[u8]) -> io::Result<()>
        ensures { self.new.size ≡ self.old.size }
    {
        self.limit.check(at, bytes.len() as u64)?;
        write_whole(&mut self.file, at, bytes)
    }

    // The length of an open image is fixed, so its data is all that has to be synced.
    pub fn sync(&self) -> io::Result<()> {
        self.file.sync_data()
    }
}

// Syncs the folder in which a file stands. Its path may lead there by links.
fn sync_folder(runtime: &HostRuntime, path: &str) -> io::Result<()> {
    let place = fs::canonicalize(runtime, path)?;
    match place.parent() {
        Some(folder) => File::open(runtime, folder)?.sync_all(),
        None => Ok(()),
    }
}
