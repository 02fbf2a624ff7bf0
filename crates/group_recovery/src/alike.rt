// Whether the members of an id are disks of one group.
ghost use Rattle.std.specs.Prelude.{◌≡◌, find};
ghost use Rattle.std.specs.Option.{option_map};
ghost use Rattle.group_recovery.specs.Alike.{are_alike, clashes, first_stranger, is_same_kind, is_same_shape, shape_in};
ghost use Rattle.group_recovery.specs.declared.finding.Headed.{Headed as HeadedDisk};

use crate::finding::Headed;
use asm_base::{GroupKind, Shape};
use disk_images::Header;

fn is_same_kind(kind: GroupKind, other: GroupKind) -> bool
    ensures { result ≡ is_same_kind kind other }
{
    match kind {
        GroupKind::External => matches!(other, GroupKind::External),
        GroupKind::Normal => matches!(other, GroupKind::Normal),
        GroupKind::High => matches!(other, GroupKind::High),
    }
}

fn is_same_shape(shape: Shape, other: Shape) -> bool
    ensures { result ≡ is_same_shape shape other }
{
    is_same_kind(shape.kind, other.kind)
        && (shape.au == other.au
            && (shape.sector == other.sector
                && (shape.step == other.step && shape.dir_blocks == other.dir_blocks)))
}

/// What the group's creation fixed.
fn shape_of(header: &Header) -> Shape
    ensures { result ≡ header.now.shape }
{
    Shape {
        kind: header.kind,
        au: header.au_size,
        sector: header.sector,
        step: header.step,
        dir_blocks: header.dir_blocks,
    }
}

/// Whether both headers have one name and one shape.
fn are_alike(header: &Header, other: &Header) -> bool
    ensures { result ≡ are_alike header.now other.now }
{
    header.group.is_same(&other.group) && is_same_shape(shape_of(header), shape_of(other))
}

/// Whether a disk has the id of another one, and isn't a further disk of its group: it has another
/// name or shape, or the other's number and birth.
fn clashes(disk: &Headed, other: &Headed) -> bool
    ensures { result ≡ clashes disk.now other.now }
{
    other.header.id == disk.header.id
        && (!are_alike(&disk.header, &other.header)
            || (other.header.number == disk.header.number
                && other.header.birth == disk.header.birth))
}

/// The slot of the first of some disks that clashes with one.
fn first_clash(disk: &Headed, others: &[Headed]) -> Option<u32>
    ensures { result ≡ option_map (λ (h : HeadedDisk). h.slot)
        (find (clashes disk.now) others.now) }
{
    let [first, rest @ ..] = others else {
        return None;
    };
    if clashes(disk, first) {
        return Some(first.slot);
    }
    first_clash(disk, rest)
}

/// The slot of a member of an id that isn't a further disk of the group of an earlier one.
pub fn first_stranger(headed: &[Headed], id: u64) -> Option<u32>
    ensures { result ≡ first_stranger id headed.now }
{
    let [first, rest @ ..] = headed else {
        return None;
    };
    if first.header.id == id {
        match first_clash(first, rest) {
            Some(slot) => return Some(slot),
            None => {}
        }
    }
    first_stranger(rest, id)
}

/// The shape of a group by the first of its members.
pub fn shape_in(headed: &[Headed], id: u64) -> Option<Shape>
    ensures { result ≡ shape_in id headed.now }
{
    let [first, rest @ ..] = headed else {
        return None;
    };
    if first.header.id == id {
        return Some(shape_of(&first.header));
    }
    shape_in(rest, id)
}
