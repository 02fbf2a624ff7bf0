// Whole reads and writes at a place, and answers of the system with their faults counted.
ghost use Rattle.std.specs.Prelude.{◌≡◌, ◌≤◌, ◌↔◌, Ok, IfOk, IfErr, OnOk, OnErr, IsErr, IsTrue};
ghost use Rattle.std.specs.Io.KnownBytes.{Appends, Consumes};
ghost use Rattle.bay.specs.Counts.{count_after};
ghost use Rattle.bay_file.specs.Opening.{IsAbsent, IsTold, LacksDescriptors, LacksResources};
ghost use Rattle.bay_file.specs.Places.{IsPlacedAt};

use bay::{BayError, Fault};
use std::io;
use std::io::{ErrorKind, Read, Seek, SeekFrom, Write};

// Passes on what the system answered, and counts an error.
pub fn passed<T: Drop>(answer: io::Result<T>, faults: &mut u64) -> Result<T, Fault>
    ensures ok { IfOk answer (λ value. (result ≡ Ok value) × (faults.new ≡ faults.old)) }
    ensures err { OnErr answer (IsErr result × (faults.new ≡ count_after faults.old 1)) }
    ensures later { faults.old ≤ faults.new }
{
    match answer {
        Ok(value) => Ok(value),
        Err(_) => {
            *faults = faults.saturating_add(1);
            Err(Fault)
        }
    }
}

// Passes on what the system answered where an image was opened or made. Want of memory or
// descriptors is told apart, and isn't counted.
pub fn opened<T: Drop>(answer: io::Result<T>, faults: &mut u64) -> Result<T, BayError>
    ensures ok { IfOk answer (λ value. (result ≡ Ok value) × (faults.new ≡ faults.old)) }
    ensures err { IfErr answer (λ error. IsTold error result faults.old faults.new) }
    ensures later { faults.old ≤ faults.new }
{
    match answer {
        Ok(value) => Ok(value),
        Err(error) => {
            if lacks_resources(&error) {
                return Err(BayError::NoMemory);
            }
            *faults = faults.saturating_add(1);
            Err(BayError::Fault)
        }
    }
}

// The system's numbers for "no more files in all" and "no more files of this program".
const NO_FILES: i32 = 23;

const NO_FILES_HERE: i32 = 24;

// Whether no descriptor was left.
pub fn lacks_descriptors(error: &io::Error) -> bool
    ensures { IsTrue result ↔ LacksDescriptors error.now }
{
    matches!(error.raw_os_error(), Some(NO_FILES | NO_FILES_HERE))
}

// Whether no memory was found, by the system or for the words of the call, or no descriptor.
pub fn lacks_resources(error: &io::Error) -> bool
    ensures { IsTrue result ↔ LacksResources error.now }
{
    error.kind() == ErrorKind::OutOfMemory || lacks_descriptors(error)
}

// Whether there is nothing at the path.
pub fn is_absent(error: &io::Error) -> bool
    ensures { IsTrue result ↔ IsAbsent error.now }
{
    matches!(error.kind(), ErrorKind::NotFound | ErrorKind::NotADirectory)
}

// Goes to a place.
fn go_to<F: Seek>(file: &mut F, at: u64) -> io::Result<()>
    ensures { OnOk result (IsPlacedAt F.stream_position at file.old file.new) }
{
    file.seek(SeekFrom::Start(at))?;
    Ok(())
}

// Fills the whole buffer with the bytes that begin at a place.
pub fn read_whole<F: Read + Seek>(file: &mut F, at: u64, buf: &mut [u8]) -> io::Result<()>
    ensures { OnOk result ((placed : F) × IsPlacedAt F.stream_position at file.old placed
        × Consumes (F.remaining placed) (F.remaining file.new) buf.new) }
{
    go_to(file, at)?;
    file.read_exact(buf)
}

// Writes all bytes from a place on.
pub fn write_whole<F: Write + Seek>(file: &mut F, at: u64, bytes: &[u8]) -> io::Result<()>
    ensures { OnOk result ((placed : F) × IsPlacedAt F.stream_position at file.old placed
        × Appends (F.contents placed) (F.contents file.new) bytes.now) }
{
    go_to(file, at)?;
    file.write_all(bytes)
}
