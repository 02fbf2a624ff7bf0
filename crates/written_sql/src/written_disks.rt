//! The words of disks, failure groups and options, written.

ghost use Rattle.std.specs.Option.{option_map};
ghost use Rattle.std.specs.Prelude.{◌≡◌, IfOk};
ghost use Rattle.asm_grammar.specs.Syntax.{Maybe};
ghost use Rattle.asm_world.specs.Grammar as g;
ghost use Rattle.asm_world.specs.Writing.{after_value, after_word, new_disk_value, dropped_value, failgroup_value, failgroups_value, group_word_value, maybe_rebalance, quorum_value, rebalance_value, forced_value};
ghost use Rattle.written_sql.specs.Lines as lines;
ghost use Rattle.group_sql.specs.Rows.{dropped_disk, maybe_after, maybe_name, maybe_power, maybe_size};
ghost use Rattle.group_sql.specs.Said.{disks_said, maybe_kind_said};

use crate::line::Line;
use asm_base::{Name, NoMemory};
use group_sql::{Disks, DroppedDisk, FailgroupKind, NewDisk, NewFailgroup, Rebalance};

/// FORCE, where it is said.
pub fn write_force(line: Line, force: bool) -> Result<Line, NoMemory>
    ensures { IfOk result (λ longer. longer ≡ lines.with_value g.forced (forced_value force) line) }
{
    if force { line.key(b"FORCE") } else { Ok(line) }
}

/// WAIT, where it is said.
pub fn write_wait(line: Line, wait: bool) -> Result<Line, NoMemory>
    ensures { IfOk result (λ longer. longer ≡ lines.with_value g.waiting (forced_value wait) line) }
{
    if wait { line.key(b"WAIT") } else { Ok(line) }
}

/// SIZE and a size in bytes, where one is said.
pub fn write_size(line: Line, size: Option<u64>) -> Result<Line, NoMemory>
    ensures { IfOk result (λ longer. longer ≡ lines.with_value maybe_size (after_word size) line) }
{
    match size {
        Some(size) => line.key(b"SIZE")?.size(size),
        None => Ok(line),
    }
}

/// DROP AFTER and minutes, where they are said.
pub fn write_after(line: Line, minutes: Option<u64>) -> Result<Line, NoMemory>
    ensures { IfOk result (λ longer. longer
        ≡ lines.with_value maybe_after (after_value minutes) line) }
{
    match minutes {
        Some(minutes) => line.key(b"DROP")?.key(b"AFTER")?.minutes(minutes),
        None => Ok(line),
    }
}

/// POWER and a number, where one is said.
fn write_power(line: Line, power: Option<u64>) -> Result<Line, NoMemory>
    ensures { IfOk result (λ longer. longer
        ≡ lines.with_value maybe_power (after_word power) line) }
{
    match power {
        Some(power) => line.key(b"POWER")?.number(power),
        None => Ok(line),
    }
}

/// REBALANCE and its options.
pub fn write_rebalance(line: Line, rebalance: Rebalance) -> Result<Line, NoMemory>
    ensures { IfOk result (λ longer. longer
        ≡ lines.with_value g.rebalance (rebalance_value rebalance) line) }
{
    let line = write_power(line.key(b"REBALANCE")?, rebalance.power)?;
    write_wait(line, rebalance.wait)
}

/// REBALANCE and its options, where it is said.
pub fn write_rebalanced(line: Line, rebalance: Option<Rebalance>) -> Result<Line, NoMemory>
    ensures { IfOk result (λ longer. longer
        ≡ lines.with_value (Maybe g.rebalance) (maybe_rebalance rebalance) line) }
{
    match rebalance {
        Some(rebalance) => write_rebalance(line, rebalance),
        None => Ok(line),
    }
}

/// NAME and a name, where one is said.
fn write_named(line: Line, name: &Option<Name>) -> Result<Line, NoMemory>
    ensures { IfOk result (λ longer. longer
        ≡ lines.with_value maybe_name (after_word name.now) line) }
{
    match name {
        Some(name) => line.key(b"NAME")?.name(name),
        None => Ok(line),
    }
}

/// A disk's path and its options.
fn write_disk(line: Line, disk: &NewDisk) -> Result<Line, NoMemory>
    ensures { IfOk result (λ longer. longer
        ≡ lines.with_value g.disk (new_disk_value disk.now) line) }
{
    let line = write_named(line.quoted(&disk.path)?, &disk.name)?;
    let line = write_size(line, disk.size)?;
    write_force(line, disk.force)
}

/// Disks behind commas.
fn write_more_disks(mut line: Line, disks: &[NewDisk]) -> Result<Line, NoMemory>
    ensures { IfOk result (λ longer. longer ≡ lines.put_more g.disk new_disk_value disks.now line) }
{
    for disk in disks {
        line = write_disk(line.mark(b',')?, disk)?;
    }
    Ok(line)
}

/// A disk, and others behind commas. None where there is no disk.
#[tactic(auto, using(crate::proofs::Puts::list_put))]
fn write_disks(line: Line, disks: &[NewDisk]) -> Result<Option<Line>, NoMemory>
    ensures { IfOk result (λ longer. longer
        ≡ lines.put_maybe (g.listed g.disk) (lines.list_of new_disk_value disks.now) line) }
{
    let [first, others @ ..] = disks else {
        return Ok(None);
    };
    let line = write_more_disks(write_disk(line, first)?, others)?;
    Ok(Some(line))
}

/// QUORUM, where it is said.
fn write_quorum(line: Line, quorum: bool) -> Result<Line, NoMemory>
    ensures { IfOk result (λ longer. longer
        ≡ lines.with_value (Maybe g.group_word) (quorum_value quorum) line) }
{
    if quorum {
        line.key(b"QUORUM")
    } else {
        Ok(line)
    }
}

/// FAILGROUP and a name, where one is said.
fn write_group_name(line: Line, name: &Option<Name>) -> Result<Line, NoMemory>
    ensures { IfOk result (λ longer. longer
        ≡ lines.with_value lines.maybe_group_name (after_word name.now) line) }
{
    match name {
        Some(name) => line.key(b"FAILGROUP")?.name(name),
        None => Ok(line),
    }
}

/// A failure group with its disks. None where it has none.
#[tactic(auto, using(crate::proofs::Puts::failgroup_put))]
fn write_failgroup(line: Line, group: &NewFailgroup) -> Result<Option<Line>, NoMemory>
    ensures { IfOk result (λ longer. longer
        ≡ lines.put_maybe g.failgroup (failgroup_value group.now group.now.disks) line) }
{
    let line = write_quorum(line, group.quorum)?;
    let line = write_group_name(line, &group.name)?;
    write_disks(line.key(b"DISK")?, group.disks.as_slice())
}

/// Failure groups, one behind another. None where one has no disk.
#[tactic(auto, using(crate::proofs::Puts::no_groups, crate::proofs::Puts::group_put, crate::proofs::Puts::bad_group))]
fn write_groups(mut line: Line, groups: &[NewFailgroup]) -> Result<Option<Line>, NoMemory>
    ensures { IfOk result (λ longer. longer ≡ lines.groups_line groups.now line) }
{
    for group in groups {
        let Some(longer) = write_failgroup(line, group)? else {
            return Ok(None);
        };
        line = longer;
    }
    Ok(Some(line))
}

/// One failure group or more. None where there is none, or one has no disk.
#[tactic(auto, using(crate::proofs::Puts::failgroups_put))]
pub fn write_failgroups(line: Line, groups: &[NewFailgroup]) -> Result<Option<Line>, NoMemory>
    ensures { IfOk result (λ longer. longer
        ≡ lines.put_maybe g.failgroups (failgroups_value groups.now) line) }
{
    if groups.is_empty() {
        return Ok(None);
    }
    write_groups(line, groups)
}

/// A dropped disk's name, and FORCE where it is said.
fn write_dropped(line: Line, disk: &DroppedDisk) -> Result<Line, NoMemory>
    ensures { IfOk result (λ longer. longer
        ≡ lines.with_value dropped_disk (dropped_value disk.now) line) }
{
    write_force(line.name(&disk.name)?, disk.force)
}

/// Dropped disks behind commas.
fn write_more_dropped(mut line: Line, disks: &[DroppedDisk]) -> Result<Line, NoMemory>
    ensures { IfOk result (λ longer. longer
        ≡ lines.put_more dropped_disk dropped_value disks.now line) }
{
    for disk in disks {
        line = write_dropped(line.mark(b',')?, disk)?;
    }
    Ok(line)
}

/// A dropped disk, and others behind commas. None where there is no disk.
#[tactic(auto, using(crate::proofs::Puts::list_put))]
pub fn write_drops(line: Line, disks: &[DroppedDisk]) -> Result<Option<Line>, NoMemory>
    ensures { IfOk result (λ longer. longer
        ≡ lines.put_maybe (g.listed dropped_disk) (lines.list_of dropped_value disks.now) line) }
{
    let [first, others @ ..] = disks else {
        return Ok(None);
    };
    let line = write_more_dropped(write_dropped(line, first)?, others)?;
    Ok(Some(line))
}

/// Names behind commas.
fn write_more_names(mut line: Line, names: &[Name]) -> Result<Line, NoMemory>
    ensures { IfOk result (λ longer. longer ≡ lines.put_more g.name (λ n. n) names.now line) }
{
    for name in names {
        line = line.mark(b',')?.name(name)?;
    }
    Ok(line)
}

/// A name, and others behind commas. None where there is no name.
#[tactic(auto, using(crate::proofs::Puts::list_put))]
fn write_names(line: Line, names: &[Name]) -> Result<Option<Line>, NoMemory>
    ensures { IfOk result (λ longer. longer
        ≡ lines.put_maybe (g.listed g.name) (lines.list_of (λ n. n) names.now) line) }
{
    let [first, others @ ..] = names else {
        return Ok(None);
    };
    let line = write_more_names(line.name(first)?, others)?;
    Ok(Some(line))
}

/// The kind of a failure group, where one is said.
fn write_kind(line: Line, kind: Option<FailgroupKind>) -> Result<Line, NoMemory>
    ensures { IfOk result (λ longer. longer
        ≡ lines.with_value (Maybe g.group_word) (option_map group_word_value (maybe_kind_said kind))
        line) }
{
    match kind {
        Some(FailgroupKind::Quorum) => line.key(b"QUORUM"),
        Some(FailgroupKind::Regular) => line.key(b"REGULAR"),
        None => Ok(line),
    }
}

/// IN and a failure group.
pub fn write_in_failgroup(
    line: Line,
    kind: Option<FailgroupKind>,
    name: &Name,
) -> Result<Line, NoMemory>
    ensures { IfOk result (λ longer. longer
        ≡ lines.with_value g.in_failgroup (lines.in_group_value (maybe_kind_said kind) name.now)
        line) }
{
    let line = write_kind(line.key(b"IN")?, kind)?;
    line.key(b"FAILGROUP")?.name(name)
}

/// Disks by their names, or those of a failure group. None where no disk is named.
#[tactic(auto, using(crate::proofs::Puts::named_put))]
pub fn write_some_disks(line: Line, disks: &Disks) -> Result<Option<Line>, NoMemory>
    ensures { IfOk result (λ longer. longer
        ≡ lines.put_maybe g.some_disks (lines.some_disks_value (disks_said disks.now)) line) }
{
    match disks {
        Disks::Named(names) => write_names(line.key(b"DISK")?, names.as_slice()),
        Disks::InFailgroup { kind, name } => {
            let line = write_in_failgroup(line.key(b"DISKS")?, *kind, name)?;
            Ok(Some(line))
        }
    }
}
