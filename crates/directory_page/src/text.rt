// Names and texts in a record, as the bytes where they stand.
ghost use Rattle.std.specs.Prelude.{◌≡◌};
ghost use Rattle.asm_base.specs.asm_group.Names.{folded};
ghost use Rattle.asm_base.specs.asm_formats.Items.{precedes};
ghost use Rattle.asm_base.specs.Cursors.{ReadsBy};
ghost use Rattle.asm_base.specs.Readings.{name_reading, text_reading};
ghost use Rattle.directory_page.specs.Checks.{Passes, check_of};
ghost use Rattle.record_values.specs.Values.{named_reading};

use asm_base::{Reader, folded_byte, is_name, is_part, text_in};

/// Takes a text of a width.
#[tactic(auto, unfolding(asm_base::specs::Readings::text_reading))]
pub(crate) fn take_text<'a>(from: &mut Reader<'a>, width: u8) -> Option<&'a [u8]>
    ensures { ReadsBy (λ t. t.now) from.new result (text_reading width from.old) }
{
    let rest: &'a [u8] = &from.bytes[from.at as usize..];
    let text = text_in(rest, width)?;
    from.at += width as u32 + 1;
    Some(text)
}

/// Takes a name of a disk, a failure group or a template.
pub(crate) fn take_named<'a>(from: &mut Reader<'a>) -> Option<&'a [u8]>
    ensures { ReadsBy (λ t. t.now) from.new result (named_reading from.old) }
{
    let name = take_text(from, 30)?;
    if is_name(name) { Some(name) } else { None }
}

/// Passes over a text of a width.
pub(crate) fn pass_text(from: &mut Reader, width: u8) -> Option<()>
    ensures { Passes from.new result (check_of (text_reading width) from.old) }
{
    take_text(from, width)?;
    Some(())
}

/// Passes over a name of a disk or a failure group.
pub(crate) fn pass_named(from: &mut Reader) -> Option<()>
    ensures { Passes from.new result (check_of named_reading from.old) }
{
    take_named(from)?;
    Some(())
}

/// Passes over a part of a path of a width.
pub(crate) fn pass_name(from: &mut Reader, width: u8) -> Option<()>
    ensures { Passes from.new result (check_of (name_reading width) from.old) }
{
    let name = take_text(from, width)?;
    if is_part(name, width) { Some(()) } else { None }
}

// ---- names

/// Whether a name comes before another, without regard to the case of letters.
#[tactic(auto, using(crate::proofs::Ascending::empty_precedes))]
pub(crate) fn precedes(a: &[u8], b: &[u8]) -> bool
    ensures { result ≡ precedes (folded a.now) (folded b.now) }
{
    match (a, b) {
        ([], []) => false,
        ([_, ..], []) => false,
        ([], [_, ..]) => true,
        ([x, xs @ ..], [y, ys @ ..]) => {
            let left = folded_byte(*x);
            let right = folded_byte(*y);
            left < right || (left == right && precedes(xs, ys))
        }
    }
}
