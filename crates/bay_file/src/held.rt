// The numbers of the standard streams.
use std::fs::File;
use std::io;
use std::os::fd::{AsRawFd, IntoRawFd};

/// Standard input, output and error output have the numbers 0, 1 and 2.
const STREAMS: i32 = 3;

/// Takes those numbers of the three standard streams that the program was started without, for as
/// long as it runs. The system gives a file that is opened the least free number, so an image that
/// is opened later would else be read as the script, or written over with replies. What takes the
/// number is the root folder, opened for reading: neither can it be read as a file nor be written
/// to, so each read and write of such a stream fails. An error is that of the folder's opening.
pub fn hold_streams(runtime: &HostRuntime) -> io::Result<()> {
    for _ in 0..STREAMS {
        let folder = File::open(runtime, "/")?;
        if folder.as_raw_fd() >= STREAMS {
            return Ok(());
        }
        // Let go by its number, it stays open.
        folder.into_raw_fd();
    }
    Ok(())
}
