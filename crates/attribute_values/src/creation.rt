//! The attributes of a creation.

ghost use Rattle.std.specs.Prelude.{◌≡◌, ◌||◌, ◌==◌, IfOk};
ghost use Rattle.std.specs.Option.{option_map};
ghost use Rattle.asm_group.specs.Shape.{is_dir_blocks, is_sector, is_step, is_unit_size};
ghost use Rattle.asm_world.specs.Settings.{usual_creation, with_attribute, with_creation_attribute};
ghost use Rattle.attribute_values.specs.Creations.{AreNew, IsNewCreation, creation_meant, shape_if};

use crate::number::{number_of, size_of};
use crate::setting::{is_same, with_attribute};
use std::alloc::Global;
use template_directory::{
    GroupKind, NoMemory, Settings, Shape, is_dir_blocks, is_step, is_unit_size,
};

/// What a creation gives of a new group: its shape and its settings.
#[derive(Debug, Drop)]
pub struct Creation {
    pub shape: Shape,
    pub settings: Settings,
}

impl Creation {
    /// Units of 1 MB, sectors of 512 bytes, 20,000 extents of a size, 1,024 record blocks, and the
    /// settings of a new group.
    pub fn usual(alloc: Global, kind: GroupKind) -> Creation
        ensures usual { creation_meant result ≡ usual_creation kind }
        ensures new { IsNewCreation result }
    {
        Creation {
            shape: usual_shape(kind),
            settings: Settings::usual(alloc),
        }
    }

    /// With a value of an attribute, whose name compares without case: one of the shape's, or one
    /// that may be set at any time. None where there is no such attribute, or it can't have the
    /// value.
    #[tactic(auto, using(crate::proofs::CreationLaws::is_unit, crate::proofs::CreationLaws::is_sector, crate::proofs::CreationLaws::is_step_of, crate::proofs::CreationLaws::is_blocks, crate::proofs::CreationLaws::is_other))]
    pub fn with_attribute(
        &self,
        alloc: Global,
        name: &[u8],
        value: &[u8],
    ) -> Result<Option<Creation>, NoMemory>
        requires { IsNewCreation self.now }
        ensures given { IfOk result (λ new. option_map creation_meant new
            ≡ with_creation_attribute (creation_meant self.now)
            (record { name = name.now; value = value.now })) }
        ensures new { IfOk result AreNew }
    {
        if is_same(name, b"au_size") {
            return self.with_shape(with_unit(&self.shape, size_of(value)));
        }
        if is_same(name, b"sector_size") {
            return self.with_shape(with_sector(&self.shape, size_of(value)));
        }
        if is_same(name, b"extent_step") {
            return self.with_shape(with_step(&self.shape, number_of(value)));
        }
        if is_same(name, b"dir_blocks") {
            return self.with_shape(with_blocks(&self.shape, number_of(value)));
        }
        self.with_setting(alloc, name, value)
    }

    /// Whether a unit has eight sectors at least, as must be once all attributes are given.
    pub fn has_sectors(&self) -> bool
        ensures { result ≡ is_sector self.now.shape.sector self.now.shape.au }
    {
        let sector = self.shape.sector;
        (sector == 512 || sector == 4096) && 8 * sector <= self.shape.au
    }

    /// With another shape, where there is one.
    fn with_shape(&self, shape: Option<Shape>) -> Result<Option<Creation>, NoMemory>
        requires { IsNewCreation self.now }
        ensures given { IfOk result (λ new. option_map creation_meant new
            ≡ option_map (λ s. record (creation_meant self.now) { shape = s }) shape) }
        ensures new { IfOk result AreNew }
    {
        let Some(shape) = shape else {
            return Ok(None);
        };
        Ok(Some(Creation {
            shape,
            settings: self.settings.copy()?,
        }))
    }

    /// With a value of an attribute that may be set at any time.
    fn with_setting(
        &self,
        alloc: Global,
        name: &[u8],
        value: &[u8],
    ) -> Result<Option<Creation>, NoMemory>
        requires { IsNewCreation self.now }
        ensures given { IfOk result (λ new. option_map creation_meant new
            ≡ option_map (λ a. record (creation_meant self.now) { attributes = a })
            (with_attribute self.now.settings.attributes
            (record { name = name.now; value = value.now }))) }
        ensures new { IfOk result AreNew }
    {
        let Some(settings) = with_attribute(alloc, &self.settings, name, value)? else {
            return Ok(None);
        };
        Ok(Some(Creation {
            shape: self.shape,
            settings,
        }))
    }
}

fn usual_shape(kind: GroupKind) -> Shape
    ensures { result ≡ (usual_creation kind).shape }
{
    Shape {
        kind,
        au: 1_048_576,
        sector: 512,
        step: 20_000,
        dir_blocks: 1024,
    }
}

fn with_unit(shape: &Shape, size: Option<u64>) -> Option<Shape>
    ensures { result ≡ shape_if is_unit_size (λ n. record shape.now { au = n }) size }
{
    match size {
        Some(au) if is_unit_size(au) => Some(Shape {
            kind: shape.kind,
            au: au as u32,
            sector: shape.sector,
            step: shape.step,
            dir_blocks: shape.dir_blocks,
        }),
        _ => None,
    }
}

fn with_sector(shape: &Shape, size: Option<u64>) -> Option<Shape>
    ensures { result ≡ shape_if (λ n. n == 512 || n == 4096) (λ n. record shape.now { sector = n })
        size }
{
    match size {
        Some(sector) if sector == 512 || sector == 4096 => Some(Shape {
            kind: shape.kind,
            au: shape.au,
            sector: sector as u32,
            step: shape.step,
            dir_blocks: shape.dir_blocks,
        }),
        _ => None,
    }
}

fn with_step(shape: &Shape, number: Option<u64>) -> Option<Shape>
    ensures { result ≡ shape_if is_step (λ n. record shape.now { step = n }) number }
{
    match number {
        Some(step) if is_step(step) => Some(Shape {
            kind: shape.kind,
            au: shape.au,
            sector: shape.sector,
            step: step as u32,
            dir_blocks: shape.dir_blocks,
        }),
        _ => None,
    }
}

fn with_blocks(shape: &Shape, number: Option<u64>) -> Option<Shape>
    ensures { result ≡ shape_if is_dir_blocks (λ n. record shape.now { dir_blocks = n }) number }
{
    match number {
        Some(blocks) if is_dir_blocks(blocks) => Some(Shape {
            kind: shape.kind,
            au: shape.au,
            sector: shape.sector,
            step: shape.step,
            dir_blocks: blocks as u32,
        }),
        _ => None,
    }
}
