// Headers of disks in blocks.
use crate::base::blocks::has_at;
use crate::helpers::name;
use asm_base::{Block, GroupKind};
use disk_header::{Header, decode, encode, is_header};
use std::alloc::Global;
use std::test::*;

fn header(alloc: Global) -> Option<Header> {
    Some(Header {
        group: name(alloc, b"DATA")?,
        id: 0x0102030405060708,
        number: 3,
        birth: 4,
        kind: GroupKind::Normal,
        disk: name(alloc, b"DATA_0003")?,
        failgroup: name(alloc, b"fg1")?,
        quorum: false,
        au_size: 1_048_576,
        sector: 512,
        step: 20_000,
        dir_blocks: 1_024,
    })
}

/// The block of the header.
fn block(alloc: Global) -> Option<Block> {
    let header = header(alloc)?;
    if !is_header(&header) {
        return None;
    }
    let mut block = Block::zeros();
    encode(&header, &mut block);
    Some(block)
}

/// Whether a block is that of a header of this group, and its identity and record blocks.
fn told(alloc: Global, block: &Block, group: &[u8]) -> Option<Option<(bool, u64, u32)>> {
    match decode(alloc, block).ok()? {
        Some(read) => {
            let is_of = read.group.as_bytes() == group;
            Some(Some((is_of, read.id, read.dir_blocks)))
        }
        None => Some(None),
    }
}

/// Whether the first fields stand at their places: the tag, the version, the group's name, and its
/// identity.
fn has_places(block: &Block) -> bool {
    has_at(block, 0, &[65, 83, 77, 72, 2, 4, 68, 65, 84, 65])
        && has_at(block, 36, &[1, 2, 3, 4, 5, 6, 7, 8])
}

/// A header is read as it was written, and its first fields stand at their places.
#[test]
fn written_and_read(rt: HostRuntime) -> Result<(), Fail> {
    let mut block = block(rt.alloc()).ok_or("a header")?;
    assert!(rt; has_places(&block));
    let read = Some((true, 0x0102030405060708, 1_024));
    assert_eq!(rt; told(rt.alloc(), &block, b"DATA"), Some(read));
    block.bytes[4] = 1;
    assert_eq!(rt; told(rt.alloc(), &block, b"DATA"), Some(None));
    Ok(())
}
