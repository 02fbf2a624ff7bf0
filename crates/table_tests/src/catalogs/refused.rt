//! Records that are refused, and the key that is named.

use crate::catalogs::disk_units::with_second;
use crate::helpers::judged;
use asm_base::{NodeKind, Records};
use catalog::Catalog;
use catalog_tables::CatalogError;
use sample_group::{Edit, NO, disks, edited, read};
use status_table::PstRecord;
use std::alloc::Global;
use std::test::Fail;

/// The kind and the numbers of a key.
type Key = (u16, u32, u32);

/// The key that a reading names.
fn key_of(read: Result<Catalog, CatalogError>) -> Option<Key> {
    let key = match &read {
        Err(CatalogError::Damaged { key }) => Some((key.kind, key.a, key.b)),
        _ => None,
    };
    drop(read);
    key
}

/// The key that is named where records are read by a status record.
fn named_in(alloc: Global, records: &Records, status: &PstRecord) -> Result<Option<Key>, Fail> {
    match read(alloc, records, status) {
        Ok(read) => Ok(key_of(read)),
        Err(fail) => Err(fail),
    }
}

/// The same of the usual records after edits, with so many directories more in the root.
fn named(
    alloc: Global,
    edits: &[Edit<'_>],
    directories: u8,
    status: &PstRecord,
) -> Result<Option<Key>, Fail> {
    match edited(alloc, edits, directories) {
        Ok(records) => {
            let named = named_in(alloc, &records, status);
            drop(records);
            named
        }
        Err(fail) => Err(fail),
    }
}

/// The place of the first row after which another key is named, or none.
fn wrong_fault(alloc: Global, rows: &[(Edit<'_>, Key)]) -> Result<Option<usize>, Fail> {
    for (place, (edit, key)) in rows.iter().enumerate() {
        if named(alloc, &[*edit], 0, &disks(2))? != Some(*key) {
            return Ok(Some(place));
        }
    }
    Ok(None)
}

/// Fails by the name of a row where another key is named.
fn is_named(name: &'static str, named: Option<Key>, key: Key) -> Result<(), Fail> {
    if named == Some(key) {
        Ok(())
    } else {
        Err(Fail::from(name))
    }
}

/// Edits of the usual records, after each of which a key is named.
const FAULTS: [(Edit<'static>, Key); 32] = [
    // records that aren't of the formats, and those that must be there
    // a second operation, a kind that there isn't, a head and a disk that are no spelling of one
    (Edit::Byte(4, 2, 0), (4, 2, 0)),
    (Edit::Byte(3, 0, 0), (3, 0, 0)),
    (Edit::Byte(1, 256, 0), (1, 256, 0)),
    (Edit::Byte(2, 64, 0), (2, 64, 0)),
    (Edit::Gone(5, 0, 0), (5, 0, 0)),
    (Edit::Gone(9, 0, 0), (9, 0, 0)),
    // extents behind a gap, and nodes without a place of their own
    (
        Edit::Chunk(256, 0, &[[0, 2, 1, 2], [NO, 0, NO, 0], [0, 4, 1, 4]]),
        (1, 256, 1),
    ),
    (Edit::Chunk(256, 1, &[[0, 5, 1, 5]]), (1, 256, 2)),
    (Edit::Chunk(257, 1, &[[0, 5, 1, 5]]), (1, 257, 2)),
    // a parent that isn't there, one that is no directory, and a name that differs in case alone
    (Edit::Node(4, 9, NodeKind::Directory, 0, b"y"), (6, 4, 0)),
    (Edit::Node(4, 2, NodeKind::Directory, 0, b"y"), (6, 4, 0)),
    (Edit::Node(4, 0, NodeKind::Directory, 0, b"DB"), (6, 4, 0)),
    // chunks that break a rule
    // without marks, without an owner, with a home too many, and twice on a disk
    (Edit::Gone(12, 256, 0), (1, 256, 1)),
    (Edit::Gone(1, 256, 0), (1, 256, 1)),
    (Edit::Head(1, 3_145_728), (1, 256, 1)),
    (
        Edit::Chunk(256, 0, &[[0, 2, 1, 2], [1, 3, 1, 4], [0, 4, 1, 5]]),
        (1, 256, 1),
    ),
    // homes whose units aren't free: they meet, are reserved, lie behind the disk's end, or on no
    // disk
    (
        Edit::Chunk(256, 0, &[[0, 2, 1, 2], [1, 3, 0, 3], [0, 2, 1, 4]]),
        (1, 256, 1),
    ),
    (
        Edit::Chunk(256, 0, &[[0, 2, 1, 2], [1, 3, 0, 3], [0, 1, 1, 4]]),
        (1, 256, 1),
    ),
    (
        Edit::Chunk(256, 0, &[[0, 2, 1, 2], [1, 3, 0, 3], [0, 64, 1, 4]]),
        (1, 256, 1),
    ),
    (
        Edit::Chunk(256, 0, &[[0, 2, 1, 2], [1, 3, 0, 3], [2, 4, 1, 4]]),
        (1, 256, 1),
    ),
    // marks, names, sizes and disks that nothing stands behind
    (Edit::Gone(1, 256, 1), (12, 256, 0)),
    (Edit::Marks(256, 1, &[]), (12, 256, 1)),
    // a mark of a third copy, and one of an extent that isn't there
    (Edit::Marks(256, 0, &[4]), (12, 256, 0)),
    (Edit::Marks(256, 0, &[0, 0, 0, 1]), (12, 256, 0)),
    // a second alias, and a system name of a file that isn't there
    (Edit::Node(4, 1, NodeKind::Alias, 256, b"y"), (6, 4, 0)),
    (
        Edit::Node(2, 1, NodeKind::System, 257, b"u.256.1"),
        (6, 2, 0),
    ),
    // the alias of the file isn't there, or is a directory
    (Edit::Gone(6, 3, 0), (1, 256, 0)),
    (Edit::Node(3, 0, NodeKind::Directory, 0, b"x"), (1, 256, 0)),
    // a copy less, and a byte more
    (
        Edit::Chunk(256, 0, &[[0, 2, 1, 2], [1, 3, 0, 3], [0, 4, NO, 0]]),
        (1, 256, 0),
    ),
    (Edit::Head(2, 3_145_729), (1, 256, 0)),
    (Edit::Gone(2, 1, 0), (2, 1, 0)),
    (Edit::Disk(1, 3), (2, 1, 0)),
];

/// The key that is named of records at fault.
pub fn faults(alloc: Global) -> Result<(), Fail> {
    judged("faults", wrong_fault(alloc, &FAULTS)?)?;
    // homes on a disk that the status record doesn't have, and on one of a quorum failure group
    let key = named(alloc, &[], 0, &disks(1))?;
    is_named("homes on no disk", key, (1, 256, 1))?;
    let key = named(alloc, &[], 0, &with_second(64, true))?;
    is_named("homes on a quorum disk", key, (1, 256, 1))?;
    // a record more than there is room for
    let key = named(alloc, &[], 117, &disks(2))?;
    is_named("a record too many", key, (9, 0, 0))
}
