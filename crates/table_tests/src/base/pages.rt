// Blocks that are pages and blocks that aren't, by the table of the format.
use crate::base::blocks::put_at;
use asm_base::Block;
use directory_page::is_page;
use std::test::*;

/// Bytes of a value, and where they begin.
type Field = (usize, &'static [u8]);

/// A record: the kind and the two numbers of its key, the length of its value, the five bytes that
/// the value repeats, and the fields that it has besides.
type Record = (u16, u32, u32, usize, [u8; 5], &'static [Field]);

const ZEROS: [u8; 5] = [0; 5];

/// A home that is absent.
const ABSENT: [u8; 5] = [255, 0, 0, 0, 0];

const SEVENS: [u8; 5] = [7; 5];

/// Repeats five bytes in the first bytes of a value.
fn fill(value: &mut [u8], len: usize, filled: [u8; 5]) {
    for (place, byte) in value.iter_mut().enumerate() {
        if place < len {
            *byte = filled[place % 5];
        }
    }
}

fn put_fields(value: &mut [u8], fields: &[Field]) {
    for (at, field) in fields {
        put_at(value, *at, field);
    }
}

/// The block of a record.
fn block(record: Record) -> Block {
    let (kind, a, b, len, filled, fields) = record;
    let mut block = Block::zeros();
    let (frame, value) = block.bytes[..].split_at_mut(32);
    put_at(frame, 0, b"ASMR");
    put_at(frame, 4, &kind.to_be_bytes());
    put_at(frame, 6, &a.to_be_bytes());
    put_at(frame, 10, &b.to_be_bytes());
    put_at(frame, 14, &((len % 65_536) as u16).to_be_bytes());
    fill(value, len, filled);
    put_fields(value, fields);
    block
}

/// Whether the block of a record is a page.
fn makes_page(record: Record) -> bool {
    is_page(&block(record))
}

const OPERATIONS: [(Record, bool); 7] = [
    ((4, 0, 0, 2, ZEROS, &[(1, b"\x04")]), true),
    ((4, 0, 0, 3, ZEROS, &[(1, b"\x04")]), false),
    ((4, 0, 1, 2, ZEROS, &[(1, b"\x04")]), false),
    ((3, 0, 0, 2, ZEROS, &[(1, b"\x04")]), false),
    (
        (4, 1, 0, 13, ZEROS, &[(0, b"\x04\0\0\x01"), (12, b"\x09")]),
        true,
    ),
    (
        (4, 1, 0, 13, ZEROS, &[(0, b"\x05\0\0\x01"), (12, b"\x09")]),
        false,
    ),
    (
        (4, 2, 0, 13, ZEROS, &[(0, b"\x04\0\0\x01"), (12, b"\x09")]),
        false,
    ),
];

const FILES: [(Record, bool); 10] = [
    (
        (
            1,
            256,
            0,
            57,
            ZEROS,
            &[(0, b"\x02\x01\x08DATAFILE"), (52, b"\x07")],
        ),
        true,
    ),
    (
        (
            1,
            256,
            0,
            57,
            ZEROS,
            &[(0, b"\x04\x01\x08DATAFILE"), (52, b"\x07")],
        ),
        false,
    ),
    (
        (1, 256, 0, 57, ZEROS, &[(0, b"\x03\x01\x08DATAFILE")]),
        false,
    ),
    // Chunks, and marks.
    ((1, 256, 1, 3840, ABSENT, &[]), true),
    ((1, 256, 1, 3840, ABSENT, &[(4, b"\x01")]), false),
    (
        (
            1,
            256,
            4_294_967_295,
            3840,
            ABSENT,
            &[(0, b"\x03\0\0\0\x01")],
        ),
        true,
    ),
    ((12, 256, 4_294_967_294, 256, SEVENS, &[]), true),
    ((12, 256, 4_294_967_295, 256, SEVENS, &[]), false),
    ((12, 256, 0, 256, SEVENS, &[(255, b"\x08")]), false),
    ((12, 256, 0, 255, SEVENS, &[]), false),
];

const DISKS: [(Record, bool); 3] = [
    (
        (
            2,
            63,
            0,
            70,
            ZEROS,
            &[(8, b"\x09DATA_0001"), (39, b"\x03FG1")],
        ),
        true,
    ),
    (
        (
            2,
            64,
            0,
            70,
            ZEROS,
            &[(8, b"\x09DATA_0001"), (39, b"\x03FG1")],
        ),
        false,
    ),
    (
        (
            2,
            63,
            0,
            70,
            ZEROS,
            &[(8, b"\x09DATA_0001"), (39, b"\x031FG")],
        ),
        false,
    ),
];

const TEMPLATES: [(Record, bool); 4] = [
    (
        (
            5,
            0,
            0,
            69,
            ZEROS,
            &[
                (0, b"\x02\x02aB"),
                (32, b"\x01\x01"),
                (35, b"\x02AC"),
                (66, b"\x03\x02\x01"),
            ],
        ),
        true,
    ),
    (
        (
            5,
            0,
            0,
            69,
            ZEROS,
            &[
                (0, b"\x02\x02aB"),
                (32, b"\x01\x01"),
                (35, b"\x02Ab"),
                (66, b"\x03\x02\x01"),
            ],
        ),
        false,
    ),
    (
        (
            5,
            0,
            0,
            69,
            ZEROS,
            &[
                (0, b"\x02\x02aB"),
                (32, b"\x01\x01"),
                (35, b"\x02AA"),
                (66, b"\x03\x02\x01"),
            ],
        ),
        false,
    ),
    ((5, 0, 0, 1, ZEROS, &[]), true),
];

const NODES: [(Record, bool); 5] = [
    ((6, 1, 0, 90, ZEROS, &[(4, b"\x01"), (9, b"\x02a.")]), true),
    ((6, 0, 0, 90, ZEROS, &[(4, b"\x01"), (9, b"\x02a.")]), false),
    ((6, 1, 0, 90, ZEROS, &[(4, b"\x01"), (9, b"\0a.")]), false),
    // Settings.
    ((9, 0, 0, 109, ZEROS, &[]), true),
    ((9, 0, 0, 109, ZEROS, &[(16, b"\x1f")]), false),
];

/// The place of a row that isn't so.
fn other_row(rows: &[(Record, bool)]) -> Option<usize> {
    for (place, (record, wanted)) in rows.iter().enumerate() {
        if makes_page(*record) != *wanted {
            return Some(place);
        }
    }
    None
}

#[test]
fn operations(rt: HostRuntime) {
    assert_eq!(rt; other_row(&OPERATIONS), None);
}

#[test]
fn files(rt: HostRuntime) {
    assert_eq!(rt; other_row(&FILES), None);
}

#[test]
fn disks_and_templates(rt: HostRuntime) {
    assert_eq!(rt; other_row(&DISKS), None);
    assert_eq!(rt; other_row(&TEMPLATES), None);
}

#[test]
fn nodes_and_settings(rt: HostRuntime) {
    assert_eq!(rt; other_row(&NODES), None);
}

/// Whether a block with another byte is a page.
fn is_page_with(block: &Block, at: usize, byte: u8) -> bool {
    let mut bytes = block.bytes;
    put_at(&mut bytes, at, &[byte]);
    is_page(&Block { bytes })
}

/// Zeros are a page, and zeros but for one byte aren't.
#[test]
fn zeros_and_other_bytes(rt: HostRuntime) {
    let zeros = Block::zeros();
    assert!(rt; is_page_with(&zeros, 4095, 0));
    assert!(rt; !is_page_with(&zeros, 4095, 1));
}

/// Bytes that a record's block doesn't have: behind the value, in the frame, and in the tag.
const OTHER: [(usize, u8); 3] = [(4000, 1), (16, 1), (3, b'H')];

#[test]
fn bytes_behind_the_value(rt: HostRuntime) {
    let rebalance = block((4, 0, 0, 2, ZEROS, &[(1, b"\x04")]));
    for (at, byte) in OTHER {
        assert!(rt; !is_page_with(&rebalance, at, byte));
    }
}
