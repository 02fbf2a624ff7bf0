// A new group of one disk, and the bodies behind its gates.
ghost use Rattle.std.specs.Prelude.{◌≡◌, IfOk};
ghost use Rattle.asm_formats.specs.Header.{header_spelling};
ghost use Rattle.asm_formats.specs.Claim.{claim_spelling};
ghost use Rattle.asm_formats.specs.Status.{status_spelling};
ghost use Rattle.mounted_groups.specs.Planned.{IsGroupPlan, header_of_plan, record_of_plan};
ghost use Rattle.mounted_groups.specs.Ready.{AreBodies};

use asm_base::{Block, DiskSet, GroupKind, Mode, Name, NoMemory};
use group_recovery::Header;
use status_table::{Claim, PstEntry, PstRecord, encode_claim};
use std::alloc::Global;
use std::marker::Model;

/// A new group and its one disk. Contracts see it as a plan.
#[derive(Debug, Drop)]
pub struct NewGroup {
    /// The group's id.
    pub id: u64,
    /// The group's name.
    pub name: Name,
    /// The name of its disk.
    pub disk: Name,
    /// The disk's units of 1 MB.
    pub units: u32,
}

impl Model for NewGroup {
    ghost use Rattle.mounted_groups.specs.Planned.{Plan};

    ghost Value = { Plan };

    ghost view = { λ g. record { id = g.id; name = g.name; disk = g.disk; units = g.units } };
}

/// The bodies that the disk is given.
#[derive(Drop)]
pub struct Bodies {
    pub header: Block,
    pub claim: Block,
    pub status: Block,
}

/// The bodies of a new group's disk.
pub fn first_bodies(alloc: Global, group: &NewGroup) -> Result<Bodies, NoMemory>
    requires { IsGroupPlan group.now }
    ensures { IfOk result (λ bodies. AreBodies bodies group.now) }
{
    let header = header_block(alloc, group)?;
    Ok(Bodies {
        header,
        claim: claim_block(group.id),
        status: status_block(group),
    })
}

/// The disk is number 0, with birth 1, in a failure group of its own.
fn header_block(alloc: Global, group: &NewGroup) -> Result<Block, NoMemory>
    requires { IsGroupPlan group.now }
    ensures { IfOk result (λ block. block.bytes ≡ header_spelling (header_of_plan group.now)) }
{
    let header = Header {
        group: group.name.copy()?,
        id: group.id,
        number: 0,
        birth: 1,
        kind: GroupKind::External,
        disk: group.disk.copy()?,
        failgroup: group.disk.copy()?,
        quorum: false,
        au_size: 1_048_576,
        sector: 512,
        step: 20_000,
        dir_blocks: 1_024,
    };
    let mut block = Block::zeros();
    group_recovery::encode(&header, &mut block);
    Ok(block)
}

/// The claim of epoch 1.
fn claim_block(id: u64) -> Block
    ensures { result.bytes ≡ claim_spelling (record { id = id; epoch = 1 }) }
{
    let mut block = Block::zeros();
    encode_claim(&Claim { id, epoch: 1 }, &mut block);
    block
}

/// The body of the first record.
fn status_block(group: &NewGroup) -> Block
    requires { IsGroupPlan group.now }
    ensures { result.bytes ≡ status_spelling (record_of_plan group.now) }
{
    let status = first_status(group);
    let mut block = Block::zeros();
    status_table::encode(&status, &mut block);
    block
}

/// The record of number (1, 1): disk 0 alone holds the status record and the directory.
pub fn first_status(group: &NewGroup) -> PstRecord
    ensures { result ≡ record_of_plan group.now }
{
    let disk = DiskSet::from_bits(1);
    let mut entries = [PstEntry::blank(); 64];
    entries[0] = PstEntry {
        number: 0,
        birth: 1,
        mode: Mode::Online,
        failgroup: 0,
        quorum: false,
        units: group.units,
        since: 0,
        repair: 0,
        partners: DiskSet::empty(),
    };
    PstRecord {
        id: group.id,
        epoch: 1,
        turn: 1,
        gone: false,
        births: 1,
        holders: disk,
        next_holders: DiskSet::empty(),
        dirs: disk,
        count: 1,
        entries,
    }
}
