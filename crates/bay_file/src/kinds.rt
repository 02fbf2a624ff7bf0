// Files that keep bytes at places: regular files and block devices. Nothing else is opened, since
// the opening of a FIFO waits for another program, and that of a device may do something.
ghost use Rattle.std.specs.Prelude.{IsOk, IsErr};
ghost use Rattle.std.specs.Fs.{file_type, IsFile};

use std::fs::{File, Metadata, OpenOptions};
use std::io::ErrorKind;
use std::os::unix::fs::FileTypeExt;
use std::{fs, io};

// Opens such a file that is there. The kind is asked of the path first, by its metadata, which waits
// for nobody and needs no descriptor.
pub fn open_kept(runtime: &HostRuntime, options: &OpenOptions, path: &str) -> io::Result<File> {
    check_kind(&fs::metadata(runtime, path)?)?;
    open_checked(runtime, options, path)
}

// Opens such a file, and makes one where nothing is, as the options say.
pub fn open_or_make(runtime: &HostRuntime, options: &OpenOptions, path: &str) -> io::Result<File> {
    match fs::metadata(runtime, path) {
        Ok(metadata) => check_kind(&metadata)?,
        Err(error) if error.kind() == ErrorKind::NotFound => {}
        Err(error) => return Err(error),
    }
    open_checked(runtime, options, path)
}

// The kind is asked again of what was opened, since another file may have taken the path in between.
// A FIFO that came there is opened without waiting where the options ask for reading and writing.
fn open_checked(runtime: &HostRuntime, options: &OpenOptions, path: &str) -> io::Result<File> {
    let file = options.open(runtime, path)?;
    check_kind(&file.metadata()?)?;
    Ok(file)
}

fn check_kind(metadata: &Metadata) -> io::Result<()>
    ensures { IsFile (file_type metadata.now) → IsOk result }
{
    if metadata.is_file() || metadata.file_type().is_block_device() {
        return Ok(());
    }
    let words = "neither a regular file nor a block device";
    Err(io::Error::new(ErrorKind::Unsupported, words))
}
