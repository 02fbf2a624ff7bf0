// The table of where extents begin.
ghost use Rattle.std.specs.Prelude.{IfSome};
ghost use Rattle.extent_map.specs.Changing.{AreChunks};
ghost use Rattle.extent_map.specs.Extents.{IsExtentTable};

use crate::helpers::{Wrong, extent, row};
use crate::tables::given::{no_change, put, value};
use asm_base::{ExtentId, Home, Homes, Key, Records};
use extent_map::{ExtentMap, may_stand};
use std::alloc::Global;

/// The bytes of a chunk without extents.
fn no_extents() -> [u8; 3840] {
    let mut bytes = [0; 3840];
    for home in 0..768 {
        bytes[5 * home] = 255;
    }
    bytes
}

/// The bytes of a chunk whose first extents are there, but for one. Each has its first copy on disk
/// 1, at the unit of its place.
fn first_extents(count: usize, absent: usize) -> [u8; 3840] {
    let mut bytes = no_extents();
    for place in 0..256 {
        if place < count && place != absent {
            bytes[15 * place] = 1;
            bytes[15 * place + 4] = place as u8;
        }
    }
    bytes
}

fn key(chunk: u32) -> Key {
    Key {
        kind: 1,
        a: 256,
        b: chunk.saturating_add(1),
    }
}

/// The extent of an index of file 256.
/// The homes of an extent with one copy.
fn homes(disk: u8, unit: u32) -> Homes {
    Homes {
        first: Some(Home { disk, unit }),
        second: None,
        third: None,
    }
}

/// Puts the records of a file of so many extents in each of its first two chunks.
fn put_chunks(alloc: Global, records: &mut Records, counts: [usize; 2]) -> Option<()> {
    let [first, second] = counts;
    put(alloc, records, key(0), &first_extents(first, 256))?;
    put(alloc, records, key(1), &first_extents(second, 256))
}

/// The map that is read from these records. None where they are no map's.
fn read(alloc: Global, records: &Records) -> Option<ExtentMap>
    ensures { IfSome result IsExtentTable }
{
    match ExtentMap::from_records(alloc, records) {
        Ok(map) => map,
        Err(_) => None,
    }
}

/// The map of a file of 258 extents.
fn two_chunks(alloc: Global) -> Option<ExtentMap>
    ensures { IfSome result IsExtentTable }
{
    let mut records = Records::new(alloc);
    let map = match put_chunks(alloc, &mut records, [256, 2]) {
        Some(()) => read(alloc, &records),
        None => None,
    };
    drop(records);
    map
}

/// The homes of its last extent, and of the one behind it.
fn last_homes(map: &ExtentMap) -> [Option<Homes>; 2] {
    [map.get(extent(257)).copied(), map.get(extent(258)).copied()]
}

fn count_records(alloc: Global, map: &ExtentMap) -> Option<usize>
    requires { IsExtentTable map.now }
{
    let mut change = no_change(alloc);
    let count = match map.to_records(alloc, &mut change) {
        Ok(()) => Some(change.put.len()),
        Err(_) => None,
    };
    drop(change);
    count
}

/// Whether the record of the second chunk is the one that it was read from.
fn has_record(alloc: Global, map: &ExtentMap) -> bool {
    match map.to_record(alloc, 256, 1) {
        Ok(Some((at, value))) => {
            let is_same = at == key(1) && value.as_bytes() == first_extents(2, 256).as_slice();
            drop(value);
            is_same
        }
        _ => false,
    }
}

fn play_two_chunks(alloc: Global) -> Result<(), Wrong> {
    match two_chunks(alloc) {
        Some(map) => {
            let last = last_homes(&map);
            let records = count_records(alloc, &map);
            let is_same = has_record(alloc, &map);
            drop(map);
            row("extents of two chunks", last == [Some(homes(1, 1)), None])?;
            row(
                "records of extents are written again",
                records == Some(2) && is_same,
            )
        }
        None => Err(("two chunks", 0)),
    }
}

/// The map of three extents, but for one of them, where the records are a map's.
fn map_without(alloc: Global, absent: usize) -> Option<Option<ExtentMap>> {
    let mut records = Records::new(alloc);
    let map = match put(alloc, &mut records, key(0), &first_extents(3, absent)) {
        Some(()) => ExtentMap::from_records(alloc, &records).ok(),
        None => None,
    };
    drop(records);
    map
}

fn is_map_without(alloc: Global, absent: usize) -> Option<bool> {
    match map_without(alloc, absent) {
        Some(map) => {
            let is_map = map.is_some();
            drop(map);
            Some(is_map)
        }
        None => None,
    }
}

/// Puts the extent of an index, which must be the file's next one.
fn append(map: &mut ExtentMap, index: u32, homes: Homes) -> Option<()>
    requires { IsExtentTable map.old }
    ensures { IsExtentTable map.new }
{
    if map.count(256) == index as u64 && may_stand(index, &homes) {
        map.put(ExtentId { file: 256, index }, homes).ok()
    } else {
        None
    }
}

/// Takes the extent of an index away, which must be the file's last one.
fn take_last(map: &mut ExtentMap, index: u32) -> bool
    requires { IsExtentTable map.old }
    ensures { IsExtentTable map.new }
{
    map.count(256) == index as u64 + 1 && map.remove(ExtentId { file: 256, index })
}

/// The map of a file of 255 extents.
fn one_chunk(alloc: Global) -> Option<ExtentMap>
    ensures { IfSome result IsExtentTable }
{
    let mut records = Records::new(alloc);
    let map = match put(alloc, &mut records, key(0), &first_extents(255, 256)) {
        Some(()) => read(alloc, &records),
        None => None,
    };
    drop(records);
    map
}

/// The homes of an extent that is put in a new chunk, whether it is then taken away, and the
/// extents of files 256 and 257.
fn grow(map: &mut ExtentMap) -> Option<(Option<Homes>, bool, [u64; 2])>
    requires { IsExtentTable map.old }
{
    append(map, 255, homes(3, 70))?;
    append(map, 256, homes(4, 71))?;
    let put = map.get(extent(256)).copied();
    let is_taken = take_last(map, 256);
    Some((put, is_taken, [map.count(256), map.count(257)]))
}

/// Extents are put behind the last one, at need in a new chunk, and the last one is taken away.
fn grown(alloc: Global) -> Option<(Option<Homes>, bool, [u64; 2])> {
    match one_chunk(alloc) {
        Some(mut map) => {
            let grown = grow(&mut map);
            drop(map);
            grown
        }
        None => None,
    }
}

/// Puts a record as that of the first chunk, and tells whether it is one of the format.
fn put_chunk(alloc: Global, map: &mut ExtentMap, bytes: &[u8]) -> Option<bool>
    requires { AreChunks map.old }
    ensures { AreChunks map.new }
{
    match value(alloc, bytes) {
        Some(value) => {
            let is_put = map.put_record(alloc, 256, 0, &value).ok();
            drop(value);
            is_put
        }
        None => None,
    }
}

/// Whether an equal map has the first chunk.
fn is_copied(alloc: Global, map: &ExtentMap) -> bool
    requires { AreChunks map.now }
{
    match map.copy(alloc) {
        Ok(copy) => {
            let is_there = copy.chunk(256, 0).is_some();
            drop(copy);
            is_there
        }
        Err(_) => false,
    }
}

/// Whether zeros are put as a chunk, whether a chunk is, whether an equal map has it, and whether
/// it is there once it has been taken away twice.
fn put_chunks_of(alloc: Global, map: &mut ExtentMap) -> Option<[bool; 4]>
    requires { AreChunks map.old }
{
    let zeros = put_chunk(alloc, map, &[0; 57])?;
    let put = put_chunk(alloc, map, &first_extents(1, 256))?;
    let is_copied = is_copied(alloc, map);
    map.remove_record(256, 0);
    map.remove_record(256, 0);
    Some([zeros, put, is_copied, map.chunk(256, 0).is_some()])
}

fn chunks(alloc: Global) -> Option<[bool; 4]> {
    let mut map = ExtentMap::new(alloc);
    let chunks = put_chunks_of(alloc, &mut map);
    drop(map);
    chunks
}

pub fn play_rows(alloc: Global) -> Result<(), Wrong> {
    play_two_chunks(alloc)?;
    // Without an extent before the last the records are no map's.
    row("three extents", is_map_without(alloc, 2) == Some(true))?;
    row(
        "a gap before an extent",
        is_map_without(alloc, 1) == Some(false),
    )?;
    let grown = grown(alloc);
    row(
        "put at the end",
        grown == Some((Some(homes(4, 71)), true, [256, 0])),
    )?;
    row(
        "a chunk is put by its record",
        chunks(alloc) == Some([false, true, true, false]),
    )
}
