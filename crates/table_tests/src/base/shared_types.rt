// Names, paths, lists and records.
use crate::base::blocks::{has_at, with_last};
use asm_base::{
    Block, Key, List, Name, Path, Reader, Records, Value, Writer, decode_record, encode_record,
    put_text, take_name, take_text,
};
use std::alloc::Global;
use std::cmp::Ordering;
use std::test::*;

/// A part of a path. The inner None where the bytes aren't one.
fn name(alloc: Global, bytes: &[u8]) -> Option<Option<Name>> {
    Name::read(alloc, bytes, 80).ok()
}

/// Whether a part of a path, if the bytes are one, may be the name of a group, a disk or a
/// template.
fn may_be_name(alloc: Global, bytes: &[u8]) -> Option<Option<bool>> {
    match name(alloc, bytes)? {
        Some(name) => Some(Some(name.is_name())),
        None => Some(None),
    }
}

const NAMES: [(&[u8], Option<bool>); 3] = [
    (b"Data_1", Some(true)),
    (b"u.256.1", Some(false)),
    (b".", None),
];

#[test]
fn names(rt: HostRuntime) {
    for (bytes, wanted) in NAMES {
        assert_eq!(rt; may_be_name(rt.alloc(), bytes), Some(wanted));
    }
}

/// How Data_1 stands to a name, and whether it is the same, without regard to case.
fn order(alloc: Global, other: &[u8]) -> Option<(Ordering, bool)> {
    let data = name(alloc, b"Data_1")??;
    let other = name(alloc, other)??;
    Some((data.folded_cmp(&other), data.is_same(&other)))
}

#[test]
fn order_of_names(rt: HostRuntime) {
    assert_eq!(rt; order(rt.alloc(), b"DATA_1"), Some((Ordering::Equal, true)));
    assert_eq!(rt; order(rt.alloc(), b"datb_1"), Some((Ordering::Less, false)));
}

/// Whether a copy of a name is spelt as the name is.
fn is_copied(alloc: Global, bytes: &[u8]) -> Option<bool> {
    let copy = name(alloc, bytes)??.copy().ok()?;
    Some(copy.as_bytes() == bytes)
}

#[test]
fn copy_of_a_name(rt: HostRuntime) {
    assert_eq!(rt; is_copied(rt.alloc(), b"Data_1"), Some(true));
}

/// A block with the fields of a name and of a text.
fn fields() -> Block {
    let mut block = Block::zeros();
    let mut to = Writer {
        block: &mut block,
        at: 0,
    };
    put_text(&mut to, b"fg1", 30);
    put_text(&mut to, b"11.2", 30);
    block
}

/// Whether the fields are taken as this name and this text, and how many bytes are taken.
fn taken(alloc: Global, name: &[u8], text: &[u8]) -> Option<(bool, u32)> {
    let block = fields();
    let mut from = Reader {
        bytes: &block.bytes,
        at: 0,
    };
    let is_name = take_name(alloc, &mut from, 30).ok()??.as_bytes() == name;
    let is_text = take_text(alloc, &mut from, 30).ok()??.as_slice() == text;
    Some((is_name && is_text, from.at))
}

#[test]
fn fields_of_names(rt: HostRuntime) {
    assert_eq!(rt; taken(rt.alloc(), b"fg1", b"11.2"), Some((true, 62)));
}

/// The list of two bytes, to which a third is pushed, and then copied.
fn list(alloc: Global) -> Option<List<u8>> {
    let mut list = List::from_slice(alloc, b"ab").ok()?;
    list.push(b'c').ok()?;
    list.copy().ok()
}

const NODE: Key = Key {
    kind: 6,
    a: 1,
    b: 0,
};

fn value(alloc: Global) -> Option<Value> {
    Value::from_slice(alloc, b"abc").ok()
}

/// Whether the record of a key is there once a copy of a value is put.
fn is_put(alloc: Global) -> Option<bool> {
    let mut records = Records::new(alloc);
    records.insert(NODE, value(alloc)?.copy().ok()?).ok()?;
    Some(records.get(NODE).is_some())
}

fn is_list(alloc: Global, bytes: &[u8]) -> Option<bool> {
    Some(list(alloc)?.as_slice() == bytes)
}

#[test]
fn lists_and_records(rt: HostRuntime) {
    assert_eq!(rt; is_list(rt.alloc(), b"abc"), Some(true));
    assert_eq!(rt; is_put(rt.alloc()), Some(true));
}

/// The block of a record, written over other bytes.
fn record(alloc: Global) -> Option<Block> {
    let mut block = Block { bytes: [9; 4096] };
    encode_record(&NODE, &value(alloc)?, &mut block);
    Some(block)
}

/// Whether the block is that of the record of a key and these bytes. The inner None where it is no
/// record's.
fn is_of(alloc: Global, block: &Block, bytes: &[u8]) -> Option<Option<bool>> {
    match decode_record(alloc, block).ok()? {
        Some((key, value)) => Some(Some(key == NODE && value.as_bytes() == bytes)),
        None => Some(None),
    }
}

fn has_places(block: &Block) -> bool {
    has_at(
        block,
        0,
        &[65, 83, 77, 82, 0, 6, 0, 0, 0, 1, 0, 0, 0, 0, 0, 3],
    ) && has_at(block, 32, b"abc")
}

/// The places of a record's fields in its block, which is read again.
#[test]
fn record_block(rt: HostRuntime) -> Result<(), Fail> {
    let block = record(rt.alloc()).ok_or("memory")?;
    assert!(rt; has_places(&block));
    assert_eq!(rt; is_of(rt.alloc(), &block, b"abc"), Some(Some(true)));
    assert_eq!(rt;
        is_of(rt.alloc(), &with_last(&block, 1), b"abc"),
        Some(None)
    );
    Ok(())
}

/// How many parts a path has, and whether its group is DATA and the last part this. The inner None
/// where the bytes aren't a path.
fn parts(alloc: Global, bytes: &[u8], last: &[u8]) -> Option<Option<(usize, bool)>> {
    let Some(path) = Path::read(alloc, bytes).ok()? else {
        return Some(None);
    };
    let path = path.copy().ok()?;
    let is_group = path.group.as_bytes() == b"DATA".as_slice();
    let is_last = match path.parts.as_slice().last() {
        Some(part) => part.as_bytes() == last,
        None => last.is_empty(),
    };
    Some(Some((path.parts.len(), is_group && is_last)))
}

const PATHS: [(&[u8], &[u8], Option<(usize, bool)>); 8] = [
    (b"+DATA/db/DATAFILE/u.256.1", b"u.256.1", Some((3, true))),
    (b"+DATA", b"", Some((0, true))),
    (b"DATA/a", b"a", None),
    (b"+", b"", None),
    (b"+1/a", b"a", None),
    (b"+DATA/", b"", None),
    (b"+DATA/a//b", b"b", None),
    (b"+DATA/a/.", b".", None),
];

#[test]
fn paths(rt: HostRuntime) {
    for (bytes, last, wanted) in PATHS {
        assert_eq!(rt; parts(rt.alloc(), bytes, last), Some(wanted));
    }
}
