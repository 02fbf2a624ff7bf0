//! What commands ask of the files of one group.
ghost use Rattle.std.specs.Prelude.{IfErr, OnOk};
ghost use Rattle.file_extents.specs.group_engine.Mounts.{IsMounted, Takes};
ghost use Rattle.file_extents.specs.group_engine.Own.{KeepsGroup};
ghost use Rattle.group_contents.specs.Works.{WorkCause, WorkDoes, WorkDone};

use crate::removing::{remove, remove_file};
use crate::resizing::resize;
use crate::writing::{fill, write};
use asm_base::{Path, Text};
use bay::Bay;
use file_extents::Mounted;
use refusal_lines::Refusal;
use std::alloc::Global;

/// What is asked of a group's files.
#[derive(Debug, Drop)]
pub enum FileWork {
    /// Another size in bytes.
    Resize {
        path: Path,
        size: u64,
    },
    /// A file, or an empty directory, goes.
    Remove {
        path: Path,
    },
    /// A file goes.
    RemoveFile {
        path: Path,
    },
    /// Bytes are written from one on.
    Write {
        path: Path,
        at: u64,
        bytes: Text,
    },
    /// So many bytes from one on are this byte.
    Fill {
        path: Path,
        at: u64,
        len: u64,
        byte: u8,
    },
}

/// Does what is asked. The refusals are those of the call that does it.
pub fn work_on_file<B: Bay>(
    m: &mut Mounted,
    alloc: Global,
    bay: &mut B,
    work: &FileWork,
    now: u64,
) -> Result<(), Refusal>
    requires takes { Takes m.old (B.state bay.old) }
    // The group's parts agree, it takes the next call, and the disks of others stay.
    ensures keeps { KeepsGroup m.old m.new (B.state bay.old) (B.state bay.new) }
    ensures cause { IfErr result (WorkCause m.old work.now m.new (B.state bay.old)
        (B.state bay.new)) }
    ensures done { OnOk result (WorkDone m.old work.now m.new) }
    // Of bytes that are written on a group that takes calls: what the disks hold at each moment.
    ensures does { IsMounted m.old → WorkDoes m.old work.now result m.new (B.state bay.old)
        (B.state bay.new) }
{
    match work {
        FileWork::Resize { path, size } => resize(m, alloc, bay, path, *size, now),
        FileWork::Remove { path } => remove(m, alloc, bay, path),
        FileWork::RemoveFile { path } => remove_file(m, alloc, bay, path),
        FileWork::Write { path, at, bytes } => {
            write(m, alloc, bay, path, *at, bytes.as_slice(), now)
        }
        FileWork::Fill {
            path,
            at,
            len,
            byte,
        } => fill(m, alloc, bay, path, *at, *len, *byte, now),
    }
}
