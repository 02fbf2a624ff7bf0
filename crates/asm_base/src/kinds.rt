//! The small values that records, statements and plans share.

ghost use Rattle.std.specs.Prelude.{◌≡◌, ◌≤◌, ◌<◌, ◌^◌};
ghost use Rattle.std.specs.Bool.{OnTrue};
ghost use Rattle.asm_group.specs.Shape.{is_shape, is_unit_size, is_step, is_sector, is_dir_blocks};

pub use asm_group::{GroupKind, Mode, NodeKind, PendingKind, Stripe};
use std::marker::Model;

/// Disks in a group, at most.
pub const MOST_DISKS: u8 = 64;

/// Units of a disk, at most.
pub const MOST_UNITS: u64 = 16_777_216;

/// Units of a disk that hold user bytes, at least.
pub const LEAST_USER_UNITS: u64 = 16;

/// Extents in a chunk.
pub const CHUNK_LEN: usize = 256;

/// Want of memory.
#[derive(Clone, Copy, Debug, PartialEq, Eq)]
pub struct NoMemory;

/// How many copies of each extent a template asks for: one, two or three.
#[derive(Clone, Copy, Debug, PartialEq, Eq)]
pub enum Redundancy {
    Unprotected,
    Mirror,
    High,
}

/// The number of a file.
#[derive(Clone, Copy, Debug, PartialEq, Eq, PartialOrd, Ord)]
pub struct FileNo(pub u32);

/// An extent: its file, and its place in it from 0.
#[derive(Clone, Copy, Debug, PartialEq, Eq, PartialOrd, Ord)]
pub struct ExtentId {
    pub file: u32,
    pub index: u32,
}

/// A run of bytes.
#[derive(Clone, Copy, Debug, PartialEq, Eq)]
pub struct Span {
    pub at: u64,
    pub len: u64,
}

/// Where a copy of an extent begins, in units of its disk.
#[derive(Clone, Copy, Debug, PartialEq, Eq)]
pub struct Home {
    pub disk: u8,
    pub unit: u32,
}

impl Model for Home {
    ghost use Rattle.asm_formats.specs.Items.{Home as FormatHome};

    ghost Value = { FormatHome };

    ghost view = { λ h. record { disk = h.disk; unit = h.unit } };

    ghost inverse = { λ h. record { disk = h.disk; unit = h.unit } };
}

/// The homes of an extent's copies, of which some may be absent.
#[derive(Clone, Copy, Debug, PartialEq, Eq)]
pub struct Homes {
    pub first: Option<Home>,
    pub second: Option<Home>,
    pub third: Option<Home>,
}

impl Model for Homes {
    ghost use Rattle.std.specs.Prelude.{◌∷◌, []};
    ghost use Rattle.asm_formats.specs.Items.{Homes as FormatHomes};
    ghost use Rattle.asm_base.specs.Homes.{first_home, second_home, third_home};

    ghost Value = { FormatHomes };

    ghost view = { λ h. h.first ∷ h.second ∷ h.third ∷ [] };

    ghost inverse = { λ hs. record { first = first_home hs; second = second_home hs; third = third_home hs } };
}

/// A group's kind, and what its creation fixes.
#[derive(Clone, Copy, Debug)]
pub struct Shape {
    pub kind: GroupKind,
    /// Bytes in an allocation unit.
    pub au: u32,
    /// Bytes in a sector.
    pub sector: u32,
    /// Extents of each size.
    pub step: u32,
    /// Record blocks of a directory copy.
    pub dir_blocks: u32,
}

impl Model for Shape {
    ghost use Rattle.asm_group.specs.Shape.{Shape as GroupShape};

    ghost Value = { GroupShape };

    ghost view = { λ s. record { kind = s.kind; au = s.au; sector = s.sector; step = s.step; dir_blocks = s.dir_blocks } };

    ghost inverse = { λ s. record { kind = s.kind; au = s.au; sector = s.sector; step = s.step; dir_blocks = s.dir_blocks } };
}

impl Shape {
    /// Whether a creation may give these values together.
    #[tactic(auto, unfolding(asm_group::specs::Shape::is_shape))]
    pub fn is_allowed(&self) -> bool
        ensures { result ≡ is_shape self.now }
    {
        is_unit_size(self.au as u64)
            && is_step(self.step as u64)
            && is_sector(self.sector, self.au)
            && is_dir_blocks(self.dir_blocks as u64)
    }
}

/// Whether a unit may have so many bytes: 4K, 16K, 64K, 256K, 1M, 2M, 4M, 8M, 16M, 32M or 64M.
pub fn is_unit_size(au: u64) -> bool
    ensures is { result ≡ is_unit_size au }
    ensures small { OnTrue result (au < 2 ^ 32) }
{
    matches!(
        au,
        4_096
            | 16_384
            | 65_536
            | 262_144
            | 1_048_576
            | 2_097_152
            | 4_194_304
            | 8_388_608
            | 16_777_216
            | 33_554_432
            | 67_108_864
    )
}

/// Whether so many extents may be of each size.
pub fn is_step(step: u64) -> bool
    ensures is { result ≡ is_step step }
    ensures small { OnTrue result (step ≤ 20000) }
{
    8 <= step && step <= 20_000 && step % 8 == 0
}

/// A unit has eight sectors at least.
fn is_sector(sector: u32, au: u32) -> bool
    ensures { result ≡ is_sector sector au }
{
    (sector == 512 || sector == 4096) && 8 * sector <= au
}

/// Whether a directory copy may have so many record blocks.
pub fn is_dir_blocks(blocks: u64) -> bool
    ensures is { result ≡ is_dir_blocks blocks }
    ensures small { OnTrue result (blocks ≤ 16384) }
{
    128 <= blocks && blocks <= 16_384
}
