// The folder outside as std's files.
ghost use Rattle.std.specs.Prelude.{◌≡◌, ◌≤◌, ℕ, List, Ok, Err, IfErr, IfOk, OnOk, OnErr, IsErrOf};
ghost use Rattle.bay.specs.Counts.{Rose};
ghost use Rattle.bay.specs.declared.fault.HostError.TheVariants.{Fault};
ghost use Rattle.bay.specs.Hosts.{CountsAt, untold};
ghost use Rattle.bay_file.specs.Outside.{IsFaultTold};
ghost use Rattle.bay_file.specs.PathFaults.{faults_of_path};

use crate::kinds::{open_kept, open_or_make};
use crate::limit::SizeLimit;
use crate::path_faults::{PathFaults, count_fault};
use crate::whole::{lacks_resources, read_whole};
use bay::{Host, HostError};
use std::collections::BTreeMap;
use std::fs::{File, OpenOptions};
use std::io;
use std::io::{ErrorKind, Seek, SeekFrom, Write};

/// The files of the system by their paths: regular files and block devices, so that no call waits
/// for another program. A file is opened at each call and closed after it. A file that is locked,
/// as each attached image is, can be read, and can be neither emptied nor added to. What the files
/// hold isn't told.
#[derive(Drop)]
pub struct FileHost {
    runtime: HostRuntime,
    limit: SizeLimit,
    faults: PathFaults,
}

impl FileHost {
    /// The files of this system. No call failed so far.
    pub fn new(runtime: HostRuntime) -> Self
        ensures { (path : List ℕ) → faults_of_path result.faults path ≡ 0 }
    {
        FileHost {
            runtime,
            limit: SizeLimit::now(&runtime),
            faults: BTreeMap::new(runtime.alloc()),
        }
    }

    // Passes on what the system answered for a path, and counts an error. Want of memory or
    // descriptors isn't counted, and where there is no memory for the count it is NoMemory too.
    fn passed<T: Drop>(&mut self, answer: io::Result<T>, path: &str) -> Result<T, HostError>
        ensures ok { IfOk answer (λ value. result ≡ Ok value) }
        ensures counts { CountsAt path.now (faults_of_path self.old.faults)
            (faults_of_path self.new.faults) }
        ensures err { IfErr answer (λ error. IsFaultTold error path.now result
            (faults_of_path self.old.faults) (faults_of_path self.new.faults)) }
        ensures cause { IsErrOf result HostError.Fault
            → Rose (faults_of_path self.old.faults path.now)
            (faults_of_path self.new.faults path.now) }
    {
        match answer {
            Ok(value) => Ok(value),
            Err(error) => {
                if lacks_resources(&error) {
                    return Err(HostError::NoMemory);
                }
                match count_fault(self.runtime.alloc(), &mut self.faults, path) {
                    Ok(()) => Err(HostError::Fault),
                    Err(_) => Err(HostError::NoMemory),
                }
            }
        }
    }
}

impl Host for FileHost {
    ghost use Rattle.bay.specs.Hosts.{untold};
    ghost use Rattle.bay_file.specs.PathFaults.{faults_of_path};

    ghost file = { λ _ _. untold };

    ghost faults = { λ s. faults_of_path s.faults };

    fn size(&mut self, path: &str) -> Result<u64, HostError> {
        let answer = size_of(&self.runtime, path);
        self.passed(answer, path)
    }

    fn read(&mut self, path: &str, at: u64, buf: &mut [u8]) -> Result<(), HostError> {
        let answer = read_file(&self.runtime, path, at, buf);
        self.passed(answer, path)
    }

    fn create(&mut self, path: &str) -> Result<(), HostError> {
        let answer = create_file(&self.runtime, path);
        self.passed(answer, path)
    }

    fn append(&mut self, path: &str, bytes: &[u8]) -> Result<(), HostError> {
        let answer = append_file(&self.runtime, path, bytes, self.limit);
        self.passed(answer, path)
    }
}

fn size_of(runtime: &HostRuntime, path: &str) -> io::Result<u64> {
    open_kept(runtime, OpenOptions::new().read(true), path)?.seek(SeekFrom::End(0))
}

fn read_file(runtime: &HostRuntime, path: &str, at: u64, buf: &mut [u8]) -> io::Result<()> {
    let mut file = open_kept(runtime, OpenOptions::new().read(true), path)?;
    read_whole(&mut file, at, buf)
}

// The lock refuses a file that is an attached image, of this program or of another. A block device
// can't be emptied, so it is refused too.
fn create_file(runtime: &HostRuntime, path: &str) -> io::Result<()> {
    let file = open_to_write(runtime, OpenOptions::new().write(true).create(true), path)?;
    file.try_lock()?;
    file.set_len(0)
}

fn append_file(
    runtime: &HostRuntime,
    path: &str,
    bytes: &[u8],
    limit: SizeLimit,
) -> io::Result<()> {
    let mut file = open_to_write(runtime, OpenOptions::new().append(true), path)?;
    file.try_lock()?;
    limit.check(file.seek(SeekFrom::End(0))?, bytes.len() as u64)?;
    file.write_all(bytes)
}

// Opens a file that is written to, for reading too where that is allowed, so that it doesn't wait
// for a FIFO that comes there in between.
fn open_to_write(runtime: &HostRuntime, options: &mut OpenOptions, path: &str) -> io::Result<File> {
    match open_or_make(runtime, options.read(true), path) {
        Err(error) if error.kind() == ErrorKind::PermissionDenied => {
            open_or_make(runtime, options.read(false), path)
        }
        answer => answer,
    }
}
