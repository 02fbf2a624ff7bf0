// Whether the value of a record is that of templates.
ghost use Rattle.std.specs.Prelude.{◌≡◌, ◌≤◌, [], length};
ghost use Rattle.asm_base.specs.Cursors.{ReadsBy};
ghost use Rattle.directory_page.specs.Checks.{Passes, is_all};
ghost use Rattle.directory_page.specs.Values.{each_after, template_name_reading, template_rest_check, templates_check};

use crate::fields::{pass_copies, pass_flag, pass_stripe};
use crate::text::{precedes, take_named};
use asm_base::{Reader, is_at_end, take_u8};

/// Templates in a group, at most.
const MOST_TEMPLATES: u8 = 64;

pub(crate) fn are_templates(bytes: &[u8]) -> bool
    requires { length bytes.now ≤ 4064 }
    ensures { result ≡ is_all (templates_check bytes.now) }
{
    let mut from = Reader { bytes, at: 0 };
    match pass_templates(&mut from) {
        Some(()) => is_at_end(&from),
        None => false,
    }
}

fn pass_templates(from: &mut Reader) -> Option<()>
    ensures { Passes from.new result (templates_check from.old) }
{
    let count = take_u8(from)?;
    if count > MOST_TEMPLATES {
        return None;
    }
    pass_each(from, count)
}

/// Passes over so many templates, of which each name comes behind the one before, without case.
#[tactic(auto, using(crate::proofs::Ascending::after_more, crate::proofs::Ascending::after_fails, crate::proofs::Ascending::after_back, crate::proofs::Ascending::after_done, crate::proofs::Ascending::after_start))]
fn pass_each(from: &mut Reader, count: u8) -> Option<()>
    ensures { Passes from.new result (each_after [] count from.old) }
{
    let mut before: &[u8] = &[];
    for i in 0..count {
        let name = take_template(from)?;
        if !precedes(before, name) {
            return None;
        }
        before = name;
    }
    Some(())
}

/// Takes a template, and keeps its name.
fn take_template<'a>(from: &mut Reader<'a>) -> Option<&'a [u8]>
    ensures { ReadsBy (λ t. t.now) from.new result (template_name_reading from.old) }
{
    let name = take_named(from)?;
    pass_template_rest(from)?;
    Some(name)
}

/// Passes over the number of copies, the stripe and whether it is a system template.
#[tactic(auto, unfolding(crate::specs::Values::template_rest_check))]
fn pass_template_rest(from: &mut Reader) -> Option<()>
    ensures { Passes from.new result (template_rest_check from.old) }
{
    pass_copies(from)?;
    pass_stripe(from)?;
    pass_flag(from)
}
