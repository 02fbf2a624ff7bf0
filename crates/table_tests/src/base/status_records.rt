// Status records and claims in blocks, and what changes of a record.
use crate::base::blocks::{has_at, with_last};
use asm_base::{Block, DiskSet, Mode};
use status_table::{
    Claim, PstEntry, PstRecord, decode, decode_claim, encode, encode_claim, is_status,
    least_free_failgroup, majority, next_majority, with_births, with_entry, with_gone,
    with_offline, with_repair, with_units, without_entry,
};
use std::test::*;

/// The entry of an Online disk in a failure group.
fn entry(number: u8, failgroup: u8) -> PstEntry {
    PstEntry {
        number,
        birth: number as u64 + 1,
        mode: Mode::Online,
        failgroup,
        quorum: false,
        units: 64,
        since: 0,
        repair: 0,
        partners: DiskSet::empty(),
    }
}

fn one_disk() -> PstRecord {
    let mut entries = [PstEntry::blank(); 64];
    entries[0] = entry(0, 0);
    PstRecord {
        id: 7,
        epoch: 1,
        turn: 1,
        gone: false,
        births: 1,
        holders: DiskSet::empty().with(0),
        next_holders: DiskSet::empty(),
        dirs: DiskSet::empty().with(0),
        count: 1,
        entries,
    }
}

/// The block of a record of the format, written over other bytes.
fn block_of(status: &PstRecord) -> Option<Block> {
    if !is_status(status) {
        return None;
    }
    let mut block = Block { bytes: [9; 4096] };
    encode(status, &mut block);
    Some(block)
}

fn block() -> Option<Block> {
    block_of(&one_disk())
}

/// Whether the tag, the version and the id, the count, the first entry's birth, and zeros behind it
/// stand at their places.
fn has_places(block: &Block) -> bool {
    has_at(block, 0, &[65, 83, 77, 80, 0, 2, 0, 0, 0, 0, 0, 0, 0, 7])
        // Behind tag and version there are four numbers, a flag and three sets.
        && has_at(block, 63, &[1])
        && has_at(block, 73, &[1])
        && has_at(block, 104, &[0])
}

/// How many disks a record in a block has, the majority of its holders, and that of its next
/// holders.
fn majorities(block: &Block) -> Option<(u8, u8, u8)> {
    let read = decode(block)?;
    Some((read.count, majority(&read), next_majority(&read)))
}

/// The places of the fields in a block of version 2.
#[test]
fn bytes_of_a_record(rt: HostRuntime) -> Result<(), Fail> {
    let block = block().ok_or("a record")?;
    assert!(rt; has_places(&block));
    assert_eq!(rt; majorities(&block), Some((1, 1, 0)));
    assert_eq!(rt; majorities(&with_last(&block, 1)), None);
    Ok(())
}

/// A block without the set of next holders, as version 1 has it, with a version.
fn without_next(block: &Block, version: u8) -> Block {
    let mut bytes = [0; 4096];
    bytes[..47].copy_from_slice(&block.bytes[..47]);
    bytes[47..4088].copy_from_slice(&block.bytes[55..]);
    bytes[5] = version;
    Block { bytes }
}

/// A record of version 1, without next holders, is read too.
#[test]
fn version_1(rt: HostRuntime) -> Result<(), Fail> {
    let block = block().ok_or("a record")?;
    assert_eq!(rt; majorities(&without_next(&block, 2)), None);
    assert_eq!(rt; majorities(&without_next(&block, 1)), Some((1, 1, 0)));
    Ok(())
}

fn claim_block() -> Block {
    let mut block = Block { bytes: [9; 4096] };
    encode_claim(&Claim { id: 7, epoch: 2 }, &mut block);
    block
}

fn epoch_of(block: &Block) -> Option<u64> {
    Some(decode_claim(block)?.epoch)
}

/// The tag, the id, the epoch, and zeros.
const CLAIM: &[u8] = b"ASMC\0\0\0\0\0\0\0\x07\0\0\0\0\0\0\0\x02\0";

#[test]
fn bytes_of_a_claim(rt: HostRuntime) {
    let block = claim_block();
    assert!(rt; has_at(&block, 0, CLAIM));
    assert_eq!(rt; epoch_of(&block), Some(2));
}

/// The record with a disk more, in the least free failure group.
fn joined(status: &PstRecord, number: u8) -> Option<PstRecord> {
    if status.entries().len() < 64 {
        let failgroup = least_free_failgroup(status);
        Some(with_entry(status, entry(number, failgroup)))
    } else {
        None
    }
}

/// Disks 3 and then 1 join a group of disk 0.
fn three_disks() -> Option<PstRecord> {
    let two = joined(&one_disk(), 3)?;
    joined(&two, 1)
}

/// The number and the failure group of the disk at a place.
fn place(status: &PstRecord, at: usize) -> Option<(u8, u8)> {
    let entry = status.entries().get(at)?;
    Some((entry.number, entry.failgroup))
}

type Places = [Option<(u8, u8)>; 4];

fn places(status: &PstRecord) -> Places {
    [
        place(status, 0),
        place(status, 1),
        place(status, 2),
        place(status, 3),
    ]
}

/// The disks once two have joined, whether the record is one of the format, and whether that with a
/// second entry of one number is.
fn joined_told() -> Option<(Places, bool, bool)> {
    let status = three_disks()?;
    let twice = joined(&status, 1)?;
    Some((places(&status), is_status(&status), is_status(&twice)))
}

/// A disk that joins gets the least free failure group, and stands in the place of its number.
#[test]
fn disks_join(rt: HostRuntime) -> Result<(), Fail> {
    let told = joined_told().ok_or("room")?;
    let places = [Some((0, 0)), Some((1, 2)), Some((3, 1)), None];
    assert_eq!(rt; told, (places, true, false));
    Ok(())
}

/// The disks without disk 3, the failure group that is free then, and whether the record is one of
/// the format.
fn left_told() -> Option<(Places, u8, bool)> {
    let status = without_entry(&three_disks()?, 3);
    let free = least_free_failgroup(&status);
    Some((places(&status), free, is_status(&status)))
}

#[test]
fn a_disk_leaves(rt: HostRuntime) -> Result<(), Fail> {
    let told = left_told().ok_or("room")?;
    let places = [Some((0, 0)), Some((1, 2)), None, None];
    assert_eq!(rt; told, (places, 1, true));
    Ok(())
}

/// The disks without one that has no entry, and whether the record without a holder of status
/// records is one of the format.
fn kept_told() -> Option<(Places, bool)> {
    let status = three_disks()?;
    let others = without_entry(&status, 9);
    let without_holder = without_entry(&status, 0);
    Some((places(&others), is_status(&without_holder)))
}

#[test]
fn strangers_and_holders(rt: HostRuntime) -> Result<(), Fail> {
    let told = kept_told().ok_or("room")?;
    let places = [Some((0, 0)), Some((1, 2)), Some((3, 1)), None];
    assert_eq!(rt; told, (places, false));
    Ok(())
}

/// A disk's mode, its units, the second since which it is offline, and after how many it is
/// dropped.
type State = (Mode, u32, u64, u64);

fn state(status: &PstRecord, at: usize) -> Option<State> {
    let entry = status.entries().get(at)?;
    Some((entry.mode, entry.units, entry.since, entry.repair))
}

/// The states of three disks once each got another change, and a disk without an entry two.
fn changed_told() -> Option<[Option<State>; 3]> {
    let status = with_offline(&three_disks()?, 1, 100, 60);
    let status = with_units(&status, 3, 32);
    let status = with_repair(&status, 0, 7);
    let status = with_repair(&with_offline(&status, 9, 100, 60), 9, 7);
    Some([state(&status, 0), state(&status, 1), state(&status, 2)])
}

#[test]
fn one_entry_changes(rt: HostRuntime) -> Result<(), Fail> {
    let told = changed_told().ok_or("room")?;
    let repair = Some((Mode::Online, 64, 0, 7));
    let offline = Some((Mode::Offline, 64, 100, 60));
    let smaller = Some((Mode::Online, 32, 0, 0));
    assert_eq!(rt; told, [repair, offline, smaller]);
    Ok(())
}

/// Whether a disk may have so many units in a record of the format.
fn may_have(units: u32) -> bool {
    is_status(&with_units(&one_disk(), 0, units))
}

#[test]
fn most_units(rt: HostRuntime) {
    assert!(rt; may_have(16_777_216));
    assert!(rt; !may_have(16_777_217));
}

/// Whether a record is marked gone, its greatest birth, and whether it is one of the format.
fn gone_told() -> (bool, u64, bool) {
    let status = with_gone(&with_births(&one_disk(), 9));
    (status.gone, status.births, is_status(&status))
}

#[test]
fn a_group_is_gone(rt: HostRuntime) {
    assert_eq!(rt; gone_told(), (true, 9, true));
}
