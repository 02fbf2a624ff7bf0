//! Fields of one byte, whose number stands for a word.

ghost use Rattle.std.specs.Prelude.{◌≡◌, ◌≤◌, ◌+◌, ◌∷◌, []};
ghost use Rattle.asm_formats.specs.Codes.{kind_code, mode_code, stripe_code, node_code, pending_code};
ghost use Rattle.asm_base.specs.Cursors.{PutsField, Reads};
ghost use Rattle.byte_codes.specs.Words.{kind_reading, mode_reading, stripe_reading, node_kind_reading, pending_kind_reading};

use asm_base::{GroupKind, Mode, NodeKind, PendingKind, Reader, Stripe, Writer, put_u8, take_u8};

/// Puts the kind of a group: 1 EXTERNAL, 2 NORMAL, 3 HIGH redundancy.
pub fn put_kind(to: &mut Writer, kind: GroupKind)
    requires { to.old.at + 1 ≤ 4096 }
    ensures puts { PutsField to.old to.new (kind_code kind ∷ []) }
    ensures at { to.new.at ≡ to.old.at + 1 }
{
    let code = match kind {
        GroupKind::External => 1,
        GroupKind::Normal => 2,
        GroupKind::High => 3,
    };
    put_u8(to, code);
}

/// Takes the kind of a group. Where there is none, a byte may be gone.
pub fn take_kind(from: &mut Reader) -> Option<GroupKind>
    ensures { Reads from.new result (kind_reading from.old) }
{
    match take_u8(from)? {
        1 => Some(GroupKind::External),
        2 => Some(GroupKind::Normal),
        3 => Some(GroupKind::High),
        _ => None,
    }
}

/// Puts the mode of a disk: 1 online, 2 offline, 3 syncing, 4 dropping, 5 forced.
pub fn put_mode(to: &mut Writer, mode: Mode)
    requires { to.old.at + 1 ≤ 4096 }
    ensures puts { PutsField to.old to.new (mode_code mode ∷ []) }
    ensures at { to.new.at ≡ to.old.at + 1 }
{
    let code = match mode {
        Mode::Online => 1,
        Mode::Offline => 2,
        Mode::Syncing => 3,
        Mode::Dropping => 4,
        Mode::Forced => 5,
    };
    put_u8(to, code);
}

/// Takes the mode of a disk. Where there is none, a byte may be gone.
pub fn take_mode(from: &mut Reader) -> Option<Mode>
    ensures { Reads from.new result (mode_reading from.old) }
{
    match take_u8(from)? {
        1 => Some(Mode::Online),
        2 => Some(Mode::Offline),
        3 => Some(Mode::Syncing),
        4 => Some(Mode::Dropping),
        5 => Some(Mode::Forced),
        _ => None,
    }
}

/// Puts a stripe: 1 COARSE, 2 FINE.
pub fn put_stripe(to: &mut Writer, stripe: Stripe)
    requires { to.old.at + 1 ≤ 4096 }
    ensures puts { PutsField to.old to.new (stripe_code stripe ∷ []) }
    ensures at { to.new.at ≡ to.old.at + 1 }
{
    let code = match stripe {
        Stripe::Coarse => 1,
        Stripe::Fine => 2,
    };
    put_u8(to, code);
}

/// Takes a stripe. Where there is none, a byte may be gone.
pub fn take_stripe(from: &mut Reader) -> Option<Stripe>
    ensures { Reads from.new result (stripe_reading from.old) }
{
    match take_u8(from)? {
        1 => Some(Stripe::Coarse),
        2 => Some(Stripe::Fine),
        _ => None,
    }
}

/// Puts the kind of a node: 1 directory, 2 system name, 3 alias.
pub fn put_node_kind(to: &mut Writer, kind: NodeKind)
    requires { to.old.at + 1 ≤ 4096 }
    ensures puts { PutsField to.old to.new (node_code kind ∷ []) }
    ensures at { to.new.at ≡ to.old.at + 1 }
{
    let code = match kind {
        NodeKind::Directory => 1,
        NodeKind::System => 2,
        NodeKind::Alias => 3,
    };
    put_u8(to, code);
}

/// Takes the kind of a node. Where there is none, a byte may be gone.
pub fn take_node_kind(from: &mut Reader) -> Option<NodeKind>
    ensures { Reads from.new result (node_kind_reading from.old) }
{
    match take_u8(from)? {
        1 => Some(NodeKind::Directory),
        2 => Some(NodeKind::System),
        3 => Some(NodeKind::Alias),
        _ => None,
    }
}

/// Puts the kind of a pending operation: 1 create, 2 remove, 3 grow, 4 shrink.
pub fn put_pending_kind(to: &mut Writer, kind: PendingKind)
    requires { to.old.at + 1 ≤ 4096 }
    ensures puts { PutsField to.old to.new (pending_code kind ∷ []) }
    ensures at { to.new.at ≡ to.old.at + 1 }
{
    let code = match kind {
        PendingKind::Create => 1,
        PendingKind::Remove => 2,
        PendingKind::Grow => 3,
        PendingKind::Shrink => 4,
    };
    put_u8(to, code);
}

/// Takes the kind of a pending operation. Where there is none, a byte may be gone.
pub fn take_pending_kind(from: &mut Reader) -> Option<PendingKind>
    ensures { Reads from.new result (pending_kind_reading from.old) }
{
    match take_u8(from)? {
        1 => Some(PendingKind::Create),
        2 => Some(PendingKind::Remove),
        3 => Some(PendingKind::Grow),
        4 => Some(PendingKind::Shrink),
        _ => None,
    }
}
