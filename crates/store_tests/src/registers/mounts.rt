// What no clause says: that calls succeed where no disk fails, and which record wins after a stop.
use crate::registers::trials::{Outcome, claim_and_create, create, mount, spoil, survey};
use asm_base::{DiskSet, Mode};
use bay::Bay;
use bay_mem::MemBay;
use status_register::{Dead, Member, SurveyError};
use status_table::{PstEntry, PstRecord};
use std::alloc::Global;
use std::test::*;

/// The disk of a number below 4, in the slot of that number.
fn disk(number: u8) -> Member {
    Member {
        slot: number as u32,
        number,
        birth: number as u64 / 2 + 1,
        sector: 512,
    }
}

fn entry(number: u8) -> PstEntry {
    PstEntry {
        number,
        birth: number as u64 / 2 + 1,
        mode: Mode::Online,
        failgroup: number,
        quorum: false,
        units: 64,
        since: 0,
        repair: 0,
        partners: DiskSet::empty(),
    }
}

/// A first record of four disks with these holders and next holders.
fn record(holders: u64, next_holders: u64) -> PstRecord {
    let mut entries = [PstEntry::blank(); 64];
    entries[0] = entry(0);
    entries[1] = entry(1);
    entries[2] = entry(2);
    entries[3] = entry(3);
    PstRecord {
        id: 7,
        epoch: 1,
        turn: 1,
        gone: false,
        births: 4,
        holders: DiskSet::from_bits(holders),
        next_holders: DiskSet::from_bits(next_holders),
        dirs: DiskSet::from_bits(1),
        count: 4,
        entries,
    }
}

/// Four disks with a first record of these sets, closed otherwise.
fn created(alloc: Global, holders: u64, next_holders: u64) -> Result<MemBay, Fail> {
    let size = Some(40960);
    let mut bay = MemBay::new(alloc, &[size, size, size, size]).map_err(|_| "memory")?;
    let members = [disk(0), disk(1), disk(2), disk(3)];
    match create(&mut bay, &record(holders, next_holders), &members) {
        Some(Ok(_)) => Ok(bay),
        Some(Err(_)) => Err(Fail::from("dead")),
        None => Err(Fail::from("no creation")),
    }
}

/// The births of the record that a survey of the members gives.
fn births(bay: &mut MemBay, members: &[Member]) -> Result<u64, Fail> {
    match survey(bay, members) {
        Some(Ok(survey)) => Ok(survey.value().births),
        Some(Err(_)) => Err(Fail::from("refused")),
        None => Err(Fail::from("no survey")),
    }
}

/// Those of the four disks that are in a set.
fn chosen(alloc: Global, set: u64) -> Result<Vec<Member>, Fail> {
    let set = DiskSet::from_bits(set);
    let mut members = Vec::new(alloc);
    for number in 0..4u8 {
        if set.has(number) {
            members.push(disk(number)).map_err(|_| "memory")?;
        }
    }
    Ok(members)
}

#[test]
fn first_record_is_on_its_holders(rt: HostRuntime) -> Result<(), Fail> {
    let mut bay = created(rt.alloc(), 0b0111, 0)?;
    assert_eq!(rt; births(&mut bay, &[disk(0), disk(1)])?, 4);
    assert_eq!(rt; births(&mut bay, &[disk(1), disk(2)])?, 4);
    Ok(())
}

#[test]
fn mount_writes_a_record_of_its_epoch(rt: HostRuntime) -> Result<(), Fail> {
    let mut bay = created(rt.alloc(), 0b0111, 0)?;
    let members = [disk(0), disk(1), disk(2), disk(3)];
    let outcome = mount(&mut bay, &members, 9);
    assert!(rt; matches!(outcome, Some(Outcome::Wrote(0))));
    let Some(Ok(survey)) = survey(&mut bay, &members) else {
        return Err(Fail::from("no survey"));
    };
    let value = survey.value();
    assert!(rt; value.births == 9 && value.epoch == 2 && value.turn == 1);
    Ok(())
}

#[test]
fn two_disks_have_one_holder(rt: HostRuntime) -> Result<(), Fail> {
    let mut bay = created(rt.alloc(), 0b0001, 0)?;
    assert!(rt;
        matches!(
            survey(&mut bay, &[disk(1)]),
            Some(Err(SurveyError::NoMajority { seen: 0, need: 1 }))
        )
    );
    assert_eq!(rt; births(&mut bay, &[disk(0)])?, 4);
    Ok(())
}

/// Of each set two disks are needed: of the holders 0, 1 and 2, and of the next holders 1, 2 and 3.
#[test]
fn two_sets_of_holders(rt: HostRuntime) -> Result<(), Fail> {
    let mut bay = created(rt.alloc(), 0b0111, 0b1110)?;
    for set in 1..16u64 {
        let members = chosen(rt.alloc(), set)?;
        let holders = DiskSet::from_bits(set & 0b0111).count();
        let next_holders = DiskSet::from_bits(set & 0b1110).count();
        let fits = match survey(&mut bay, &members) {
            Some(Ok(_)) => holders >= 2 && next_holders >= 2,
            Some(Err(SurveyError::NoMajority { seen, need: 2 })) => {
                if holders < 2 {
                    seen == holders
                } else {
                    next_holders < 2 && seen == next_holders
                }
            }
            Some(Err(_)) => false,
            None => false,
        };
        assert!(rt; fits);
    }
    Ok(())
}

/// A mount is stopped at any call. Then one without disk 2 writes a record, which one without disk
/// 1 finds.
#[test]
fn record_of_the_second_mount_wins(rt: HostRuntime) -> Result<(), Fail> {
    for stop in 0..110u64 {
        let mut bay = created(rt.alloc(), 0b0111, 0)?;
        let calls = bay.calls();
        bay.stop_after(calls.saturating_add(stop));
        let _stopped = mount(&mut bay, &[disk(0), disk(1), disk(2), disk(3)], 9);
        bay.restart();
        let second = mount(&mut bay, &[disk(0), disk(1), disk(3)], 20);
        assert!(rt; matches!(second, Some(Outcome::Wrote(0))));
        assert_eq!(rt; births(&mut bay, &[disk(0), disk(2), disk(3)])?, 20);
    }
    Ok(())
}

/// One call of a mount fails, and with it one of three holders.
#[test]
fn one_failing_holder_is_left_out(rt: HostRuntime) -> Result<(), Fail> {
    let members = [disk(0), disk(1), disk(2)];
    for call in 4..72u64 {
        let mut bay = created(rt.alloc(), 0b0111, 0)?;
        let calls = bay.calls();
        bay.fail_at(calls.saturating_add(call))
            .map_err(|_| "memory")?;
        let outcome = mount(&mut bay, &members, 9);
        assert!(rt; matches!(outcome, Some(Outcome::Wrote(0 | 1))));
        assert_eq!(rt; births(&mut bay, &members)?, 9);
    }
    Ok(())
}

// Of a mount of three disks with a first record the calls 1 to 3 attach, 4 to 18 read, 19 to 45
// claim, and 46 to 74 write.

#[test]
fn claim_without_a_majority_is_refused(rt: HostRuntime) -> Result<(), Fail> {
    let mut bay = created(rt.alloc(), 0b0111, 0)?;
    let calls = bay.calls();
    bay.fail_at(calls.saturating_add(19)).map_err(|_| "memory")?;
    bay.fail_at(calls.saturating_add(20)).map_err(|_| "memory")?;
    let outcome = mount(&mut bay, &[disk(0), disk(1), disk(2)], 9);
    assert!(rt;
        matches!(
            outcome,
            Some(Outcome::Unclaimed(SurveyError::NoMajority { seen: 1, need: 2 }))
        )
    );
    Ok(())
}

#[test]
fn record_without_a_majority_is_dead(rt: HostRuntime) -> Result<(), Fail> {
    let mut bay = created(rt.alloc(), 0b0111, 0)?;
    let calls = bay.calls();
    bay.fail_at(calls.saturating_add(46)).map_err(|_| "memory")?;
    bay.fail_at(calls.saturating_add(47)).map_err(|_| "memory")?;
    let outcome = mount(&mut bay, &[disk(0), disk(1), disk(2)], 9);
    assert!(rt; matches!(outcome, Some(Outcome::Dead(1 | 2))));
    Ok(())
}

/// Four disks without a record.
fn blank(alloc: Global) -> Result<MemBay, Fail> {
    let size = Some(40960);
    MemBay::new(alloc, &[size, size, size, size]).map_err(|_| Fail::from("memory"))
}

#[test]
fn claims_come_before_the_first_record(rt: HostRuntime) -> Result<(), Fail> {
    let mut bay = blank(rt.alloc())?;
    let members = [disk(0), disk(1), disk(2)];
    let created = claim_and_create(&mut bay, &record(0b0111, 0), &members);
    assert!(rt; matches!(created, Some(Ok(_))));
    assert_eq!(rt; births(&mut bay, &[disk(0), disk(2)])?, 4);
    Ok(())
}

// Of a creation on three disks the calls 1 to 3 attach, 4 to 30 claim, and the first record comes
// then.

#[test]
fn disk_without_the_claim_is_dead(rt: HostRuntime) -> Result<(), Fail> {
    let mut bay = blank(rt.alloc())?;
    let calls = bay.calls();
    bay.fail_at(calls.saturating_add(13)).map_err(|_| "memory")?;
    let members = [disk(0), disk(1), disk(2)];
    let created = claim_and_create(&mut bay, &record(0b0111, 0), &members);
    assert!(rt; matches!(created, Some(Err(Dead { slot: 1 }))));
    assert!(rt;
        matches!(
            survey(&mut bay, &members),
            Some(Err(SurveyError::NoMajority { seen: 0, need: 1 }))
        )
    );
    Ok(())
}

/// A claim that doesn't decode, beside a record that is marked gone or isn't.
#[test]
fn damage_tells_whether_the_group_is_gone(rt: HostRuntime) -> Result<(), Fail> {
    let members = [disk(0), disk(1), disk(2)];
    for gone in [false, true] {
        let mut bay = blank(rt.alloc())?;
        let mut first = record(0b0111, 0);
        first.gone = gone;
        let created = claim_and_create(&mut bay, &first, &members);
        assert!(rt; matches!(created, Some(Ok(_))));
        assert!(rt; spoil(&mut bay, disk(1), 3));
        let refused = survey(&mut bay, &members);
        let Some(
            Err(
                SurveyError::Damaged {
                    slot: 1,
                    block: 3,
                    gone: told,
                },
            ),
        ) = refused
        else {
            return Err(Fail::from("not damaged"));
        };
        assert_eq!(rt; told, gone);
    }
    Ok(())
}
