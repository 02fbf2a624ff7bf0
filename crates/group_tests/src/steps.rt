//! Steps of a row: calls on the group and on its disks, and what the group tells.

use crate::answers::Answer;
use crate::facts::Fact;
use asm_base::{Home, Mode};
use disk_modes::DropDisk;

/// The name of a row that isn't right, and the place of its first step that isn't.
pub type Wrong = (&'static str, usize);

/// A step of a row.
#[derive(Clone, Copy)]
pub enum Step {
    /// A directory of a path is made by one edit.
    MakeDir(&'static [u8], Answer),
    /// The file of a path gets an alias, by one edit.
    MakeAlias(&'static [u8], &'static [u8], Answer),
    /// The change that makes a directory of a path is planned and committed.
    CommitDir(&'static [u8], Answer),
    /// So many directories are made by a commit each. Whether all are.
    CommitDirs(u8),
    /// Heads of so many files that the group hasn't are put, and taken away again, by one commit.
    PutHeads(u8, Answer),
    /// The operation that makes file 256 begins by one commit.
    Begin(Answer),
    /// What is pending is ended.
    EndPending(Answer),
    /// A status record is written, where it may come next.
    Record(Next, Answer),
    /// The directories are stored on a disk, which the record names then.
    Copy(u8, Answer),
    /// A disk leaves.
    Leave(u8, Answer),
    /// The image of a slot is attached as a disk of a number and a birth, where there is a place
    /// for it.
    Attach(u32, u8, u64, Answer),
    /// The group is closed.
    Close,
    /// The group is dropped.
    End(Answer),
    /// Each call on a slot fails from now on, or none.
    Fails(u32, bool),
    /// The call of this number from now on fails, and none else.
    FailsAt(u64),
    /// A file `+D/o/DATAFILE/t` of so many units is made.
    MakeFile(u64, Answer),
    /// So many units of the file at a path are filled with a byte at second 7.
    FillFile(&'static [u8], u64, u8, Answer),
    /// The file at a path goes.
    RemoveFile(&'static [u8], Answer),
    /// The move of a copy of file 256 is on its way: the extent, the copy, the home and the bytes
    /// that are copied.
    FlyTo(u32, u8, Unit, u64),
    /// A piece is read.
    Read(Piece, Answer),
    /// A piece is written with this byte at second 7, and what failed is recorded.
    Write(Piece, u8, Answer),
    /// A piece is written with this byte, and nothing is recorded.
    WriteUsable(Piece, u8, Answer),
    /// Bytes of a unit from an inner one on are this byte.
    WriteSpare(Unit, u64, usize, u8, Answer),
    /// A piece is copied to a home.
    CopyPiece(Piece, Unit, Answer),
    /// The sector of a slot's unit at an inner byte is read, by no call of the group.
    Sector(u32, u64, u64, Answer),
    /// A statement on disks.
    State(Statement, Answer),
    /// Up to 64 steps of a disk's resync are done: how many, and how it ends.
    Sync(u8, u64, Answer),
    /// A slice of a rebalance of a power is done: in how many steps, and how it ends.
    Slice(u16, u64, Answer),
    /// Slices of a power are done to the end.
    ToEnd(u16, u64, Answer),
    /// The group tells this.
    Tells(Fact),
}

/// A disk, and a unit of it.
pub type Unit = (u8, u32);

/// The home that a copy has there.
pub fn home_at(unit: Unit) -> Home {
    Home {
        disk: unit.0,
        unit: unit.1,
    }
}

/// Bytes of an extent: the file and the index, the inner byte and how many.
#[derive(Clone, Copy)]
pub struct Piece(pub u32, pub u32, pub u64, pub usize);

/// A statement on disks, whose sets are bits.
#[derive(Clone, Copy)]
pub enum Statement {
    /// OFFLINE at second 5, with the seconds until the disks expire where these are said.
    Offline(u64, Option<u64>),
    /// DROP, with the power of the rebalance.
    Drop(&'static [DropDisk], u16),
    Undrop,
    /// RESIZE to so many bytes, or to those of the images, with the power of the rebalance.
    Resize(u64, Option<u64>, u16),
    Rebalance(Option<u16>),
    /// Expiry at a second.
    Expire(u64),
}

/// A status record that may come next: the one that holds, changed in this.
#[derive(Clone, Copy)]
pub enum Next {
    /// The mode of a disk, since second 5.
    Mode(u8, Mode),
    /// The units of a disk.
    Units(u8, u32),
    /// It is without a disk's entry.
    Without(u8),
    /// The set of disks that have directory copies.
    Dirs(u64),
    /// The set of disks that hold it.
    Holders(u64),
    /// The set that holds it beside the one that does.
    NextHolders(u64),
    /// It is marked gone.
    Gone,
    /// It is one of another group.
    OfAnother,
}
