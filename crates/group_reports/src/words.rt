//! The words of reports.

ghost use Rattle.std.specs.Prelude.{◌≡◌};
ghost use Rattle.asm_world.specs.Reports.{copies_text, disk_kind, kind_text, stripe_text, yes_or_no};

use asm_base::{GroupKind, Stripe};

pub(crate) fn kind_text(kind: GroupKind) -> &'static [u8]
    ensures { result.now ≡ kind_text kind }
{
    match kind {
        GroupKind::External => b"EXTERN",
        GroupKind::Normal => b"NORMAL",
        GroupKind::High => b"HIGH",
    }
}

pub(crate) fn yes_or_no(yes: bool) -> &'static [u8]
    ensures { result.now ≡ yes_or_no yes }
{
    match yes {
        true => b"Y",
        false => b"N",
    }
}

pub(crate) fn disk_kind(quorum: bool) -> &'static [u8]
    ensures { result.now ≡ disk_kind quorum }
{
    match quorum {
        true => b"QUORUM",
        false => b"REGULAR",
    }
}

pub(crate) fn copies_text(copies: u8) -> &'static [u8]
    ensures { result.now ≡ copies_text copies }
{
    match copies {
        1 => b"UNPROT",
        2 => b"MIRROR",
        _ => b"HIGH",
    }
}

pub(crate) fn stripe_text(stripe: Stripe) -> &'static [u8]
    ensures { result.now ≡ stripe_text stripe }
{
    match stripe {
        Stripe::Coarse => b"COARSE",
        Stripe::Fine => b"FINE",
    }
}
