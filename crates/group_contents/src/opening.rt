// A file of a mounted group by its path, and which spans of it may be read and written.
ghost use Rattle.std.specs.Prelude.{◌≡◌, IfErr, IfOk, IfSome, IsTrue, OnOk};
ghost use Rattle.striping.specs.Pieces.{IsAllowedLayout};
ghost use Rattle.file_extents.specs.group_pieces.Usable.{HasNoUsableCopy};
ghost use Rattle.asm_group.specs.Shape.{is_shape};
ghost use Rattle.group_contents.specs.Files.{AtFile, IsOpened, IsSpan, LostFileCause, LostIn, OpenCause, SpanCause, are_sectors, named_file_number};

use asm_base::{ExtentId, NodeKind, Path, Stripe};
use file_extents::{Catalog, Mounted, first_piece, is_lost, layout_of};
use refusal_lines::Refusal;
use striping::Layout;

/// A file of a mounted group, as its head has it.
#[derive(Clone, Copy, Debug)]
pub struct OpenFile {
    pub(crate) file: u32,
    /// How many bytes it has.
    pub(crate) size: u64,
    pub(crate) stripe: Stripe,
    /// How many copies each of its extents has.
    pub(crate) copies: u8,
}

impl OpenFile {
    /// How many bytes the file has.
    pub fn size(&self) -> u64
        ensures { result ≡ self.now.size }
    {
        self.size
    }
}

/// The number of the file at a path, by its system name or its alias.
fn number_at(catalog: &Catalog, path: &Path) -> Option<u32>
    ensures { result ≡ named_file_number catalog.now.tables path.now.parts }
{
    let number = catalog.find(path)?;
    let node = catalog.node(number)?;
    match node.kind {
        NodeKind::Directory => None,
        NodeKind::System => Some(node.file),
        NodeKind::Alias => Some(node.file),
    }
}

/// Opens the file at a path. NoName: there is none.
#[tactic(auto, using(crate::proofs::Opened::no_file, crate::proofs::Opened::no_head))]
pub fn open(m: &Mounted, path: &Path) -> Result<OpenFile, Refusal>
    ensures cause { IfErr result (OpenCause m.now path.now.parts) }
    ensures opened { IfOk result (IsOpened m.now.catalog.tables path.now.parts) }
{
    let Some(file) = number_at(m.catalog(), path) else {
        return Err(Refusal::NoName);
    };
    match m.catalog().file(file) {
        Some(head) => Ok(OpenFile {
            file,
            size: head.size,
            stripe: head.stripe,
            copies: head.copies,
        }),
        None => Err(Refusal::NoName),
    }
}

/// Whether a number of bytes is whole sectors of the group.
pub(crate) fn is_sectors(m: &Mounted, bytes: u64) -> bool
    ensures { result ≡ are_sectors m.now.catalog.shape bytes }
{
    let sector = m.catalog().shape().sector as u64;
    sector != 0 && bytes % sector == 0
}

/// The first extent of a span of a file that has no usable copy, in the order of the file's bytes.
#[tactic(auto, using(crate::proofs::Opened::lost_in))]
pub(crate) fn first_lost(m: &Mounted, file: &OpenFile, at: u64, len: u64) -> Option<ExtentId>
    ensures { IfSome result (LostIn m.now file.now) }
{
    let shape = m.catalog().shape();
    if !shape.is_allowed() {
        return None;
    }
    let layout = layout_of(shape, file.stripe)?;
    lost_in(m, layout, file.file, at, len)
}

fn lost_in(m: &Mounted, layout: Layout, file: u32, at: u64, len: u64) -> Option<ExtentId>
    requires layout { IsAllowedLayout layout }
    requires shape { IsTrue (is_shape m.now.catalog.shape) }
    ensures lost { IfSome result (HasNoUsableCopy m.now) }
    ensures file { IfSome result (λ x. x.file ≡ file) }
{
    let shape = m.catalog().shape();
    let mut from = at;
    let mut left = len;
    while left > 0 {
        let piece = first_piece(shape, layout, file, from, left)?;
        if is_lost(m, piece.x) {
            return Some(piece.x);
        }
        from = from.saturating_add(piece.len as u64);
        left -= piece.len as u64;
    }
    None
}

/// Whether a span of a file may be read and written. NotSectors: it isn't whole sectors. OutOfFile:
/// the file ends before it does. Lost: the first of its extents that has no usable copy.
pub fn check_span(m: &Mounted, file: &OpenFile, at: u64, len: u64) -> Result<(), Refusal>
    ensures cause { IfErr result (SpanCause m.now at len file.now) }
    ensures span { OnOk result (IsSpan m.now at len file.now) }
{
    if !is_sectors(m, at) || !is_sectors(m, len) {
        return Err(Refusal::NotSectors);
    }
    if at > file.size || len > file.size - at {
        return Err(Refusal::OutOfFile);
    }
    match first_lost(m, file, at, len) {
        Some(extent) => Err(Refusal::Lost { extent }),
        None => Ok(()),
    }
}

/// The file at a path, of which a span may be read and written.
pub(crate) fn open_span(m: &Mounted, path: &Path, at: u64, len: u64) -> Result<OpenFile, Refusal>
    ensures cause { IfErr result (AtFile m.now path.now.parts (SpanCause m.now at len)) }
    ensures opened { IfOk result (IsOpened m.now.catalog.tables path.now.parts) }
    ensures span { IfOk result (IsSpan m.now at len) }
{
    let file = match open(m, path) {
        Ok(file) => file,
        Err(refusal) => return Err(refusal),
    };
    match check_span(m, &file, at, len) {
        Ok(()) => Ok(file),
        Err(refusal) => Err(refusal),
    }
}

/// Looks whether the file at a path can be copied, and opens it. NoName: there is none. Lost: its
/// first extent that has no usable copy.
pub fn check_source(m: &Mounted, path: &Path) -> Result<OpenFile, Refusal>
    ensures cause { IfErr result (AtFile m.now path.now.parts (LostFileCause m.now)) }
    ensures opened { IfOk result (IsOpened m.now.catalog.tables path.now.parts) }
{
    let file = match open(m, path) {
        Ok(file) => file,
        Err(refusal) => return Err(refusal),
    };
    match first_lost(m, &file, 0, file.size) {
        Some(extent) => Err(Refusal::Lost { extent }),
        None => Ok(file),
    }
}
