//! The clauses of ALTER DISKGROUP.

ghost use Rattle.group_sql.specs.Choices.{added_at, added_disks_at, check_at, clause_at, drop_disks_at, drop_failgroup_at, dropped_at, last_clause_at, later_clause_at, modified_at, offline_at, online_at, other_added_at, paths_at, renamed_at, resize_at, resized_at, set_at};
ghost use Rattle.group_sql.specs.Readers.{FindsPart, GivesPart};
ghost use Rattle.asm_grammar.specs.Reads.{reads};
ghost use Rattle.group_sql.specs.Said.{clause_said};

use crate::creation::read_attribute;
use crate::disks::{failgroups_behind, in_failgroup, read_drops, read_some_disks, try_failgroup};
use crate::options::{dropped_after, is_forced, is_waiting, rebalance, rebalance_options, sized};
use crate::statement::{Clause, NewFailgroup, Rebalance};
use crate::templates::template;
use crate::words::{expect, read_name, read_text, takes};
use asm_base::Text;
use asm_grammar::{Place, ReadError};
use std::alloc::Global;

/// Two paths with a keyword between them.
#[tactic(auto, unfolding(crate::specs::Choices::paths_at))]
fn two_paths<'a>(
    alloc: Global,
    between: &[u8],
    place: &mut Place<'a>,
) -> Result<(Text, Text), ReadError>
    ensures { GivesPart (λ p. p) result place.new
        (paths_at between.now place.old.rest.now place.old.left) }
{
    let first = read_text(alloc, place)?;
    expect(place, between)?;
    let second = read_text(alloc, place)?;
    Ok((first, second))
}

/// Disks that are added: the groups behind the first, and a rebalance where it is said.
#[tactic(auto, unfolding(crate::specs::Choices::added_disks_at))]
fn added_disks<'a>(
    alloc: Global,
    first: NewFailgroup,
    place: &mut Place<'a>,
) -> Result<Clause, ReadError>
    ensures { GivesPart clause_said result place.new
        (added_disks_at first place.old.rest.now place.old.left) }
{
    let groups = failgroups_behind(alloc, first, place)?;
    let rebalance = rebalance(place)?;
    Ok(Clause::AddDisks { groups, rebalance })
}

/// A template, a directory or an alias that is added.
#[tactic(auto, unfolding(crate::specs::Choices::other_added_at))]
fn other_added<'a>(alloc: Global, place: &mut Place<'a>) -> Result<Clause, ReadError>
    ensures { GivesPart clause_said result place.new
        (other_added_at place.old.rest.now place.old.left) }
{
    if takes(place, b"TEMPLATE") {
        let (name, words) = template(alloc, place)?;
        return Ok(Clause::AddTemplate { name, words });
    }
    if takes(place, b"DIRECTORY") {
        let path = read_text(alloc, place)?;
        return Ok(Clause::AddDirectory { path });
    }
    expect(place, b"ALIAS")?;
    let (alias, path) = two_paths(alloc, b"FOR", place)?;
    Ok(Clause::AddAlias { alias, path })
}

/// What stands behind ADD.
#[tactic(auto, using(crate::proofs::Groups::added_is, crate::proofs::Groups::bad_added, crate::proofs::Groups::other_is))]
fn added<'a>(alloc: Global, place: &mut Place<'a>) -> Result<Clause, ReadError>
    ensures { GivesPart clause_said result place.new (added_at place.old.rest.now place.old.left) }
{
    match try_failgroup(alloc, place)? {
        Some(first) => added_disks(alloc, first, place),
        None => other_added(alloc, place),
    }
}

/// What stands behind DROP DISK.
#[tactic(auto, unfolding(crate::specs::Choices::drop_disks_at, crate::specs::Choices::rebalance_at))]
fn drop_disks<'a>(alloc: Global, place: &mut Place<'a>) -> Result<Clause, ReadError>
    ensures { GivesPart clause_said result place.new
        (drop_disks_at place.old.rest.now place.old.left) }
{
    let disks = read_drops(alloc, place)?;
    let rebalance = rebalance(place)?;
    Ok(Clause::DropDisks { disks, rebalance })
}

/// What stands behind DROP DISKS.
#[tactic(auto, unfolding(crate::specs::Choices::drop_failgroup_at))]
fn drop_failgroup<'a>(alloc: Global, place: &mut Place<'a>) -> Result<Clause, ReadError>
    ensures { GivesPart clause_said result place.new
        (drop_failgroup_at place.old.rest.now place.old.left) }
{
    let (kind, name) = in_failgroup(alloc, place)?;
    let force = is_forced(place);
    let rebalance = rebalance(place)?;
    Ok(Clause::DropFailgroup {
        kind,
        name,
        force,
        rebalance,
    })
}

/// What stands behind DROP.
#[tactic(auto, unfolding(crate::specs::Choices::dropped_at))]
fn dropped<'a>(alloc: Global, place: &mut Place<'a>) -> Result<Clause, ReadError>
    ensures { GivesPart clause_said result place.new
        (dropped_at place.old.rest.now place.old.left) }
{
    if takes(place, b"DISK") {
        return drop_disks(alloc, place);
    }
    if takes(place, b"DISKS") {
        return drop_failgroup(alloc, place);
    }
    if takes(place, b"TEMPLATE") {
        let name = read_name(alloc, place)?;
        return Ok(Clause::DropTemplate { name });
    }
    if takes(place, b"DIRECTORY") {
        let path = read_text(alloc, place)?;
        return Ok(Clause::DropDirectory { path });
    }
    if takes(place, b"ALIAS") {
        let path = read_text(alloc, place)?;
        return Ok(Clause::DropAlias { path });
    }
    expect(place, b"FILE")?;
    let path = read_text(alloc, place)?;
    Ok(Clause::DropFile { path })
}

/// A size and a rebalance, where they are said.
#[tactic(auto, unfolding(crate::specs::Choices::resized_at))]
fn resized<'a>(place: &mut Place<'a>) -> Result<(Option<u64>, Option<Rebalance>), ReadError>
    ensures { GivesPart (λ r. r) result place.new (resized_at place.old.rest.now place.old.left) }
{
    let size = sized(place)?;
    let rebalance = rebalance(place)?;
    Ok((size, rebalance))
}

/// What stands behind RESIZE.
#[tactic(auto, unfolding(crate::specs::Choices::resize_at))]
fn resize<'a>(alloc: Global, place: &mut Place<'a>) -> Result<Clause, ReadError>
    ensures { GivesPart clause_said result place.new (resize_at place.old.rest.now place.old.left) }
{
    if takes(place, b"ALL") {
        let (size, rebalance) = resized(place)?;
        return Ok(Clause::ResizeAll { size, rebalance });
    }
    expect(place, b"DISK")?;
    let name = read_name(alloc, place)?;
    let (size, rebalance) = resized(place)?;
    Ok(Clause::ResizeDisk {
        name,
        size,
        rebalance,
    })
}

/// What stands behind CHECK, where REPAIR and NOREPAIR say the same.
#[tactic(auto, unfolding(crate::specs::Choices::check_at))]
fn check<'a>(place: &mut Place<'a>) -> Clause
    ensures { FindsPart (clause_said result) place.new
        (check_at place.old.rest.now place.old.left) }
{
    if !takes(place, b"REPAIR") {
        takes(place, b"NOREPAIR");
    }
    Clause::Check
}

/// What stands behind ONLINE.
#[tactic(auto, unfolding(crate::specs::Choices::online_at))]
fn online<'a>(alloc: Global, place: &mut Place<'a>) -> Result<Clause, ReadError>
    ensures { GivesPart clause_said result place.new (online_at place.old.rest.now place.old.left) }
{
    if takes(place, b"ALL") {
        let wait = is_waiting(place);
        return Ok(Clause::OnlineAll { wait });
    }
    let disks = read_some_disks(alloc, place)?;
    let wait = is_waiting(place);
    Ok(Clause::Online { disks, wait })
}

/// What stands behind OFFLINE.
#[tactic(auto, unfolding(crate::specs::Choices::offline_at))]
fn offline<'a>(alloc: Global, place: &mut Place<'a>) -> Result<Clause, ReadError>
    ensures { GivesPart clause_said result place.new
        (offline_at place.old.rest.now place.old.left) }
{
    let disks = read_some_disks(alloc, place)?;
    let minutes = dropped_after(place)?;
    Ok(Clause::Offline { disks, minutes })
}

/// What stands behind MODIFY or ALTER.
#[tactic(auto, unfolding(crate::specs::Choices::modified_at))]
fn modified<'a>(alloc: Global, place: &mut Place<'a>) -> Result<Clause, ReadError>
    ensures { GivesPart clause_said result place.new
        (modified_at place.old.rest.now place.old.left) }
{
    expect(place, b"TEMPLATE")?;
    let (name, words) = template(alloc, place)?;
    Ok(Clause::ModifyTemplate { name, words })
}

/// What stands behind RENAME.
#[tactic(auto, unfolding(crate::specs::Choices::renamed_at, crate::specs::Choices::paths_at))]
fn renamed<'a>(alloc: Global, place: &mut Place<'a>) -> Result<Clause, ReadError>
    ensures { GivesPart clause_said result place.new
        (renamed_at place.old.rest.now place.old.left) }
{
    if takes(place, b"DIRECTORY") {
        let (old, new) = two_paths(alloc, b"TO", place)?;
        return Ok(Clause::RenameDirectory { old, new });
    }
    expect(place, b"ALIAS")?;
    let (old, new) = two_paths(alloc, b"TO", place)?;
    Ok(Clause::RenameAlias { old, new })
}

/// What stands behind SET.
#[tactic(auto, unfolding(crate::specs::Choices::set_at))]
fn set<'a>(alloc: Global, place: &mut Place<'a>) -> Result<Clause, ReadError>
    ensures { GivesPart clause_said result place.new (set_at place.old.rest.now place.old.left) }
{
    expect(place, b"ATTRIBUTE")?;
    let attribute = read_attribute(alloc, place)?;
    Ok(Clause::SetAttribute(attribute))
}

/// A clause from OFFLINE on.
#[tactic(auto, unfolding(crate::specs::Choices::last_clause_at))]
fn last_clause<'a>(alloc: Global, place: &mut Place<'a>) -> Result<Clause, ReadError>
    ensures { GivesPart clause_said result place.new
        (last_clause_at place.old.rest.now place.old.left) }
{
    if takes(place, b"OFFLINE") {
        return offline(alloc, place);
    }
    if takes(place, b"MODIFY") {
        return modified(alloc, place);
    }
    if takes(place, b"ALTER") {
        return modified(alloc, place);
    }
    if takes(place, b"RENAME") {
        return renamed(alloc, place);
    }
    expect(place, b"SET")?;
    set(alloc, place)
}

/// A clause from CHECK on.
#[tactic(auto, unfolding(crate::specs::Choices::later_clause_at))]
fn later_clause<'a>(alloc: Global, place: &mut Place<'a>) -> Result<Clause, ReadError>
    ensures { GivesPart clause_said result place.new
        (later_clause_at place.old.rest.now place.old.left) }
{
    if takes(place, b"CHECK") {
        return Ok(check(place));
    }
    if takes(place, b"MOUNT") {
        let force = is_forced(place);
        return Ok(Clause::Mount { force });
    }
    if takes(place, b"DISMOUNT") {
        let force = is_forced(place);
        return Ok(Clause::Dismount { force });
    }
    if takes(place, b"ONLINE") {
        return online(alloc, place);
    }
    last_clause(alloc, place)
}

/// A clause.
#[tactic(auto, unfolding(crate::specs::Choices::clause_at))]
pub fn read_clause<'a>(alloc: Global, place: &mut Place<'a>) -> Result<Clause, ReadError>
    ensures { GivesPart clause_said result place.new (clause_at place.old.rest.now place.old.left) }
{
    if takes(place, b"ADD") {
        return added(alloc, place);
    }
    if takes(place, b"DROP") {
        return dropped(alloc, place);
    }
    if takes(place, b"UNDROP") {
        expect(place, b"DISKS")?;
        return Ok(Clause::UndropDisks);
    }
    if takes(place, b"RESIZE") {
        return resize(alloc, place);
    }
    if takes(place, b"REBALANCE") {
        let rebalance = rebalance_options(place)?;
        return Ok(Clause::Rebalancing(rebalance));
    }
    later_clause(alloc, place)
}
