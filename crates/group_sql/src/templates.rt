//! Templates: their names and their words.

ghost use Rattle.asm_grammar.specs.Syntax.{Maybe};
ghost use Rattle.asm_world.specs.Grammar as g;
ghost use Rattle.asm_world.specs.Meaning.{words_of};
ghost use Rattle.group_sql.specs.Choices.{redundancy_at, stripe_at, template_with_words_at, words_at};
ghost use Rattle.group_sql.specs.Readers.{FindsPart, GivesPart};
ghost use Rattle.asm_grammar.specs.Reads.{reads};
ghost use Rattle.group_sql.specs.Redundancies.{redundancy_said};

use crate::statement::TemplateWords;
use crate::words::{expect, expect_mark, read_name, takes};
use asm_base::{Name, Redundancy, Stripe};
use asm_grammar::{Place, ReadError};
use std::alloc::Global;

/// A redundancy, and the stripe behind it where one is said.
#[tactic(auto, unfolding(crate::specs::Choices::stripe_at))]
fn behind_redundancy<'a>(redundancy: Redundancy, place: &mut Place<'a>) -> TemplateWords
    ensures { FindsPart result place.new
        (stripe_at (redundancy_said redundancy) place.old.rest.now place.old.left) }
{
    let stripe = if takes(place, b"COARSE") {
        Some(Stripe::Coarse)
    } else if takes(place, b"FINE") {
        Some(Stripe::Fine)
    } else {
        None
    };
    TemplateWords {
        redundancy: Some(redundancy),
        stripe,
    }
}

/// A stripe, and the redundancy behind it where one is said.
#[tactic(auto, unfolding(crate::specs::Choices::redundancy_at))]
fn behind_stripe<'a>(stripe: Stripe, place: &mut Place<'a>) -> TemplateWords
    ensures { FindsPart result place.new (redundancy_at stripe place.old.rest.now place.old.left) }
{
    let redundancy = if takes(place, b"UNPROTECTED") {
        Some(Redundancy::Unprotected)
    } else if takes(place, b"MIRROR") {
        Some(Redundancy::Mirror)
    } else if takes(place, b"HIGH") {
        Some(Redundancy::High)
    } else {
        None
    };
    TemplateWords {
        redundancy,
        stripe: Some(stripe),
    }
}

/// One word of one kind and at most one of the other, in either order.
#[tactic(auto, unfolding(crate::specs::Choices::words_at))]
fn template_words<'a>(place: &mut Place<'a>) -> Result<TemplateWords, ReadError>
    ensures { GivesPart (λ w. w) result place.new (words_at place.old.rest.now place.old.left) }
{
    if takes(place, b"UNPROTECTED") {
        return Ok(behind_redundancy(Redundancy::Unprotected, place));
    }
    if takes(place, b"MIRROR") {
        return Ok(behind_redundancy(Redundancy::Mirror, place));
    }
    if takes(place, b"HIGH") {
        return Ok(behind_redundancy(Redundancy::High, place));
    }
    if takes(place, b"COARSE") {
        return Ok(behind_stripe(Stripe::Coarse, place));
    }
    expect(place, b"FINE")?;
    Ok(behind_stripe(Stripe::Fine, place))
}

/// What stands behind TEMPLATE: a name and the template's words.
#[tactic(auto, unfolding(crate::specs::Choices::template_with_words_at))]
pub fn template<'a>(
    alloc: Global,
    place: &mut Place<'a>,
) -> Result<(Name, TemplateWords), ReadError>
    ensures { GivesPart (λ t. t) result place.new
        (template_with_words_at place.old.rest.now place.old.left) }
{
    let name = read_name(alloc, place)?;
    expect(place, b"ATTRIBUTES")?;
    expect_mark(place, b'(')?;
    let words = template_words(place)?;
    expect_mark(place, b')')?;
    Ok((name, words))
}
