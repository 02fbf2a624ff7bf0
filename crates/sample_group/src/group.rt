//! The records of a small group, and changes of one of them.

use asm_base::{
    Block, DiskSet, GroupKind, Key, Mode, Name, NodeKind, PendingKind, Records, Shape, Stripe,
    Value, Writer, put_text, put_u32, put_u64, record_kind,
};
use byte_codes::{put_node_kind, put_pending_kind};
use catalog_laws::Catalog;
use catalog_tables::CatalogError;
use file_directory::{FileHead, record_of};
use staleness_directory::{Marks, marks_record};
use status_table::{PstEntry, PstRecord, is_status};
use std::alloc::Global;
use std::test::Fail;
use template_directory::{Settings, are_allowed, settings_value, system, templates_value};

/// Units of 1 MiB, of which the first two of a disk hold no user bytes: 270 blocks of 4,096 bytes.
pub const SHAPE: Shape = Shape {
    kind: GroupKind::Normal,
    au: 1_048_576,
    sector: 512,
    step: 20_000,
    dir_blocks: 128,
};

/// The disk of a copy that is absent.
pub const NO: u8 = 255;

/// A record that is put, or that goes.
#[derive(Clone, Copy)]
pub enum Edit<'a> {
    /// The head of file 256: its copies and bytes.
    Head(u8, u64),
    /// The head of file 257, and its system name in the same directory: its copies and bytes.
    Second(u8, u64),
    /// A chunk of extents, by file and number: of each of its first extents the disk and the unit
    /// of two copies.
    Chunk(u32, u32, &'a [[u8; 4]]),
    /// The stale marks of a chunk, by file and number: those of its first extents, bit k for copy
    /// k.
    Marks(u32, u32, &'a [u8]),
    /// A node: its number, parent, kind, file and name.
    Node(u32, u32, NodeKind, u32, &'a [u8]),
    /// A disk's number and birth.
    Disk(u32, u64),
    /// The operation that makes a file has begun.
    Begun(u32),
    /// One byte under a key.
    Byte(u16, u32, u32),
    /// The record of a key goes.
    Gone(u16, u32, u32),
}

/// Two disks of 64 units, and file 256 of 3 MiB, with its system name in a directory and its alias:
/// each extent has a unit on each disk, and copy 1 of extent 1 is stale.
const USUAL: [Edit<'static>; 8] = [
    Edit::Disk(0, 1),
    Edit::Disk(1, 2),
    Edit::Head(2, 3_145_728),
    Edit::Chunk(256, 0, &[[0, 2, 1, 2], [1, 3, 0, 3], [0, 4, 1, 4]]),
    Edit::Marks(256, 0, &[0, 2]),
    Edit::Node(1, 0, NodeKind::Directory, 0, b"db"),
    Edit::Node(2, 1, NodeKind::System, 256, b"u.256.1"),
    Edit::Node(3, 0, NodeKind::Alias, 256, b"x"),
];

/// The records of the group.
pub fn usual(alloc: Global) -> Result<Records, Fail> {
    let mut records = Records::new(alloc);
    put_templates(alloc, &mut records, GroupKind::Normal)?;
    put_settings(alloc, &mut records)?;
    for edit in USUAL {
        apply(alloc, &mut records, edit)?;
    }
    Ok(records)
}

/// The records of the group after edits, with so many directories more in the root.
pub fn edited(alloc: Global, edits: &[Edit<'_>], directories: u8) -> Result<Records, Fail> {
    let mut records = usual(alloc)?;
    for edit in edits {
        apply(alloc, &mut records, *edit)?;
    }
    put_directories(alloc, &mut records, directories)?;
    Ok(records)
}

/// The status record with the first disks of the group.
pub fn disks(count: u8) -> PstRecord {
    let mut entries = [PstEntry::blank(); 64];
    entries[0] = entry(0, 1);
    entries[1] = entry(1, 2);
    PstRecord {
        id: 7,
        epoch: 1,
        turn: 1,
        gone: false,
        births: 2,
        holders: DiskSet::empty(),
        next_holders: DiskSet::empty(),
        dirs: DiskSet::empty(),
        count: if count < 64 { count } else { 64 },
        entries,
    }
}

fn entry(number: u8, birth: u64) -> PstEntry {
    PstEntry {
        number,
        birth,
        mode: Mode::Online,
        failgroup: number,
        quorum: false,
        units: 64,
        since: 0,
        repair: 0,
        partners: DiskSet::empty(),
    }
}

/// What comes of the records and the status record.
#[tactic(auto, unfolding(asm_formats::specs::Status::is_status))]
pub fn read(
    alloc: Global,
    records: &Records,
    status: &PstRecord,
) -> Result<Result<Catalog, CatalogError>, Fail> {
    if !SHAPE.is_allowed() || !is_status(status) {
        return Err(Fail::from("a shape and a status record"));
    }
    Ok(Catalog::from_store(alloc, records, status, SHAPE))
}

/// Puts a record, or takes one away.
pub fn apply(alloc: Global, records: &mut Records, edit: Edit) -> Result<(), Fail> {
    match edit {
        Edit::Head(copies, size) => put_head(alloc, records, 256, copies, size, (2, 3)),
        Edit::Second(copies, size) => put_second(alloc, records, copies, size),
        Edit::Chunk(file, chunk, homes) => put_chunk(alloc, records, (file, chunk), homes),
        Edit::Marks(file, chunk, marks) => put_marks(alloc, records, (file, chunk), marks),
        Edit::Node(number, parent, kind, file, name) => {
            put_node(alloc, records, number, (parent, kind, file), name)
        }
        Edit::Disk(number, birth) => put_disk(alloc, records, number, birth, b"fg"),
        Edit::Begun(file) => put_begun(alloc, records, file),
        Edit::Byte(kind, a, b) => put(alloc, records, Key { kind, a, b }, &[0]),
        Edit::Gone(kind, a, b) => {
            records.remove(Key { kind, a, b });
            Ok(())
        }
    }
}

/// Puts a value under a key.
fn insert(records: &mut Records, key: Key, value: Value) -> Result<(), Fail> {
    match records.insert(key, value) {
        Ok(()) => Ok(()),
        Err(_) => Err(Fail::from("memory")),
    }
}

/// Puts bytes under a key.
fn put(alloc: Global, records: &mut Records, key: Key, bytes: &[u8]) -> Result<(), Fail> {
    if bytes.len() > 4064 {
        return Err(Fail::from("more than a record"));
    }
    match Value::from_slice(alloc, bytes) {
        Ok(value) => insert(records, key, value),
        Err(_) => Err(Fail::from("memory")),
    }
}

/// Puts the templates of a new group of a kind.
fn put_templates(alloc: Global, records: &mut Records, kind: GroupKind) -> Result<(), Fail> {
    let Ok(templates) = system(alloc, kind) else {
        return Err(Fail::from("memory"));
    };
    if !are_allowed(templates.as_slice()) {
        return Err(Fail::from("templates"));
    }
    let Ok(value) = templates_value(alloc, templates.as_slice()) else {
        return Err(Fail::from("memory"));
    };
    let key = Key {
        kind: record_kind::TEMPLATES,
        a: 0,
        b: 0,
    };
    insert(records, key, value)
}

/// Puts the settings of a new group.
fn put_settings(alloc: Global, records: &mut Records) -> Result<(), Fail> {
    let settings = Settings::usual(alloc);
    if !settings.is_allowed() {
        return Err(Fail::from("settings"));
    }
    let Ok(value) = settings_value(alloc, &settings) else {
        return Err(Fail::from("memory"));
    };
    let key = Key {
        kind: record_kind::SETTINGS,
        a: 0,
        b: 0,
    };
    insert(records, key, value)
}

/// Puts the head of a file with this system node and alias node.
fn put_head(
    alloc: Global,
    records: &mut Records,
    file: u32,
    copies: u8,
    size: u64,
    names: (u32, u32),
) -> Result<(), Fail> {
    let Ok(Some(kind)) = Name::read(alloc, b"DATAFILE", 30) else {
        return Err(Fail::from("a type"));
    };
    let head = FileHead {
        copies,
        stripe: Stripe::Coarse,
        kind,
        size,
        incarnation: 1,
        system: names.0,
        alias: names.1,
    };
    if !head.is_allowed(file) {
        return Err(Fail::from("a head"));
    }
    let Ok((key, value)) = record_of(alloc, file, &head) else {
        return Err(Fail::from("memory"));
    };
    insert(records, key, value)
}

/// Puts file 257 without extents.
fn put_second(alloc: Global, records: &mut Records, copies: u8, size: u64) -> Result<(), Fail> {
    put_head(alloc, records, 257, copies, size, (4, 0))?;
    put_node(alloc, records, 4, (1, NodeKind::System, 257), b"u.257.2")
}

fn put_chunk(
    alloc: Global,
    records: &mut Records,
    at: (u32, u32),
    homes: &[[u8; 4]],
) -> Result<(), Fail> {
    let mut bytes = Vec::new(alloc);
    for place in 0..256usize {
        let [first, unit, second, other] = homes.get(place).copied().unwrap_or([NO, 0, NO, 0]);
        bytes.extend_from_slice(&[first, 0, 0, 0, unit, second, 0, 0, 0, other])?;
        bytes.extend_from_slice(&[NO, 0, 0, 0, 0])?;
    }
    let key = Key {
        kind: record_kind::FILES,
        a: at.0,
        b: at.1.saturating_add(1),
    };
    put(alloc, records, key, &bytes)
}

fn put_marks(
    alloc: Global,
    records: &mut Records,
    at: (u32, u32),
    first: &[u8],
) -> Result<(), Fail> {
    let mut bits = [0; 256];
    for place in 0..256usize {
        bits[place] = first.get(place).copied().unwrap_or(0);
    }
    let marks = Marks { bits };
    let Ok((key, value)) = marks_record(alloc, at, &marks) else {
        return Err(Fail::from("memory"));
    };
    insert(records, key, value)
}

fn put_node(
    alloc: Global,
    records: &mut Records,
    number: u32,
    says: (u32, NodeKind, u32),
    name: &[u8],
) -> Result<(), Fail> {
    if name.len() > 80 {
        return Err(Fail::from("a name of at most 80 bytes"));
    }
    let mut block = Block::zeros();
    let mut to = Writer {
        block: &mut block,
        at: 0,
    };
    put_u32(&mut to, says.0);
    put_node_kind(&mut to, says.1);
    put_u32(&mut to, says.2);
    put_text(&mut to, name, 80);
    let Ok(value) = Value::from_writer(alloc, &to) else {
        return Err(Fail::from("memory"));
    };
    let key = Key {
        kind: record_kind::NODES,
        a: number,
        b: 0,
    };
    insert(records, key, value)
}

/// Puts the record of a disk whose failure group has its name.
fn put_disk(
    alloc: Global,
    records: &mut Records,
    number: u32,
    birth: u64,
    name: &[u8],
) -> Result<(), Fail> {
    if name.len() > 30 {
        return Err(Fail::from("a name of at most 30 bytes"));
    }
    let mut block = Block::zeros();
    let mut to = Writer {
        block: &mut block,
        at: 0,
    };
    put_u64(&mut to, birth);
    put_text(&mut to, name, 30);
    put_text(&mut to, name, 30);
    let Ok(value) = Value::from_writer(alloc, &to) else {
        return Err(Fail::from("memory"));
    };
    let key = Key {
        kind: record_kind::DISKS,
        a: number,
        b: 0,
    };
    insert(records, key, value)
}

/// Puts the record of the operation that makes a file.
fn put_begun(alloc: Global, records: &mut Records, file: u32) -> Result<(), Fail> {
    let mut block = Block::zeros();
    let mut to = Writer {
        block: &mut block,
        at: 0,
    };
    put_pending_kind(&mut to, PendingKind::Create);
    put_u32(&mut to, file);
    put_u64(&mut to, 0);
    let Ok(value) = Value::from_writer(alloc, &to) else {
        return Err(Fail::from("memory"));
    };
    let key = Key {
        kind: record_kind::OPERATIONS,
        a: 1,
        b: 0,
    };
    insert(records, key, value)
}

/// Puts directories into the root, as many as are said.
pub fn put_directories(alloc: Global, records: &mut Records, count: u8) -> Result<(), Fail> {
    for n in 0..count {
        let name = [b'd', b'0' + n / 100, b'0' + n / 10 % 10, b'0' + n % 10];
        let node = Edit::Node(n as u32 + 4, 0, NodeKind::Directory, 0, &name);
        apply(alloc, records, node)?;
    }
    Ok(())
}
