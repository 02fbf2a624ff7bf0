//! Options that stand behind many clauses.

ghost use Rattle.asm_grammar.specs.Syntax.{Maybe};
ghost use Rattle.asm_world.specs.Grammar as g;
ghost use Rattle.asm_world.specs.Meaning.{after_of, behind, is_said};
ghost use Rattle.group_sql.specs.Choices.{forced_at, options_at, rebalance_at, size_at};
ghost use Rattle.group_sql.specs.Readers.{FindsPart, GivesPart};
ghost use Rattle.asm_grammar.specs.Reads.{reads};
ghost use Rattle.group_sql.specs.Rows.{maybe_after, maybe_kind_of, maybe_power};
ghost use Rattle.group_sql.specs.Said.{maybe_kind_said};

use crate::statement::{FailgroupKind, Rebalance};
use crate::words::{expect, read_minutes, read_number, read_size, takes};
use asm_grammar::{Place, ReadError};

/// Whether FORCE is said, where FORCE or NOFORCE may stand.
#[tactic(auto, unfolding(crate::specs::Choices::forced_at))]
pub fn is_forced<'a>(place: &mut Place<'a>) -> bool
    ensures { FindsPart result place.new (forced_at place.old.rest.now place.old.left) }
{
    if takes(place, b"FORCE") {
        return true;
    }
    takes(place, b"NOFORCE");
    false
}

/// Whether WAIT is said, where WAIT or NOWAIT may stand.
pub fn is_waiting<'a>(place: &mut Place<'a>) -> bool
    ensures { FindsPart result place.new (reads g.waiting is_said place.old) }
{
    if takes(place, b"WAIT") {
        return true;
    }
    takes(place, b"NOWAIT");
    false
}

/// The kind of a failure group, where one is said.
pub fn failgroup_kind<'a>(place: &mut Place<'a>) -> Option<FailgroupKind>
    ensures { FindsPart (maybe_kind_said result) place.new
        (reads (Maybe g.group_word) maybe_kind_of place.old) }
{
    if takes(place, b"QUORUM") {
        return Some(FailgroupKind::Quorum);
    }
    if takes(place, b"REGULAR") {
        return Some(FailgroupKind::Regular);
    }
    None
}

/// SIZE and a size, where it is said.
#[tactic(auto, unfolding(crate::specs::Choices::size_at))]
pub fn sized<'a>(place: &mut Place<'a>) -> Result<Option<u64>, ReadError>
    ensures { GivesPart (λ n. n) result place.new (size_at place.old.rest.now place.old.left) }
{
    if !takes(place, b"SIZE") {
        return Ok(None);
    }
    let size = read_size(place)?;
    Ok(Some(size))
}

/// DROP AFTER and a time, where it is said.
pub fn dropped_after<'a>(place: &mut Place<'a>) -> Result<Option<u64>, ReadError>
    ensures { GivesPart (λ n. n) result place.new (reads maybe_after after_of place.old) }
{
    if !takes(place, b"DROP") {
        return Ok(None);
    }
    expect(place, b"AFTER")?;
    let minutes = read_minutes(place)?;
    Ok(Some(minutes))
}

/// POWER and a number, where it is said.
fn power<'a>(place: &mut Place<'a>) -> Result<Option<u64>, ReadError>
    ensures { GivesPart (λ n. n) result place.new (reads maybe_power behind place.old) }
{
    if !takes(place, b"POWER") {
        return Ok(None);
    }
    let power = read_number(place)?;
    Ok(Some(power))
}

/// What stands behind REBALANCE.
#[tactic(auto, unfolding(crate::specs::Choices::options_at))]
pub fn rebalance_options<'a>(place: &mut Place<'a>) -> Result<Rebalance, ReadError>
    ensures { GivesPart (λ r. r) result place.new (options_at place.old.rest.now place.old.left) }
{
    let power = power(place)?;
    let wait = is_waiting(place);
    Ok(Rebalance { power, wait })
}

/// REBALANCE with its options, where it is said.
#[tactic(auto, unfolding(crate::specs::Choices::rebalance_at, crate::specs::Choices::options_at))]
pub fn rebalance<'a>(place: &mut Place<'a>) -> Result<Option<Rebalance>, ReadError>
    ensures { GivesPart (λ r. r) result place.new (rebalance_at place.old.rest.now place.old.left) }
{
    if !takes(place, b"REBALANCE") {
        return Ok(None);
    }
    let rebalance = rebalance_options(place)?;
    Ok(Some(rebalance))
}
