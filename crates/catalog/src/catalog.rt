//! The catalog of a group.

ghost use Rattle.std.specs.Prelude.{◌≡◌, IfErr, IfOk, IsTrue};
ghost use Rattle.std.specs.List.{list_all};
ghost use Rattle.asm_group.specs.Shape.{is_shape};
ghost use Rattle.asm_formats.specs.Status.{is_entry};
ghost use Rattle.plan_records.specs.catalog_tables.Faults.{IsAtFault, IsCatalogOf, NamesFault};

use crate::spare::Spare;
use asm_base::{Records, Shape};
use plan_records::{CatalogError, Parts, PstRecord, Units};
use std::alloc::Global;
use std::marker::Model;

/// All tables of a group as one value: files, extents, names, templates and settings, stale marks,
/// operations, disk records, and of each disk which units are used. Contracts see the record of the
/// tables' values, the shape and the unit maps; the rules that hold across them are the type's
/// invariant.
#[derive(Drop)]
pub struct Catalog {
    pub(crate) parts: Parts,
    pub(crate) shape: Shape,
    /// The units of disk k at place k.
    pub(crate) units: Vec<Units>,
    /// The tables before the last change, or after the one that the memory was taken for.
    pub(crate) spare: Spare,
    /// The units of the disks whose number of units the status record changes that the memory was
    /// taken for.
    pub(crate) next_units: Option<Vec<(u8, Units)>>,
}

impl Model for Catalog {
    ghost use Rattle.plan_records.specs.catalog_tables.Tables.{Catalogued};
    ghost use Rattle.catalog.specs.Spares.{IsCatalogWithSpare, ready_tables, unit_maps_in};

    ghost Value = { Catalogued };

    ghost view = { λ c. record { tables = c.parts; shape = c.shape; units = c.units.items; next = ready_tables c.spare; next_units = unit_maps_in c.next_units } };

    ghost invariant = { λ c. IsCatalogWithSpare (record { tables = c.parts; shape = c.shape; units = c.units.items; next = ready_tables c.spare; next_units = unit_maps_in c.next_units }) c.spare };
}

impl Catalog {
    /// The catalog of a group's records, with the disks of its status record and the shape of its
    /// headers. A record of a disk without an entry is no fault. Damaged names the key of a record
    /// that isn't of the formats or breaks a rule, or of one that must be there and isn't. Work and
    /// memory go by the number of records and their homes.
    #[tactic(auto, using(crate::proofs::StoreLaws::names_at, crate::proofs::StoreLaws::broken_at, crate::proofs::StoreLaws::names_broken, crate::proofs::StoreLaws::catalog_is, crate::proofs::StoreLaws::invariant_is))]
    pub fn from_store(
        alloc: Global,
        content: &Records,
        status: &PstRecord,
        shape: Shape,
    ) -> Result<Catalog, CatalogError>
        requires shape { IsTrue (is_shape shape) }
        requires entries { IsTrue (list_all is_entry status.now.entries) }
        // What is given is the catalog of these records.
        ensures catalog { IfOk result (IsCatalogOf content.now status.now.entries) }
        ensures shape { IfOk result (λ c. c.shape ≡ shape) }
        // The record that is named is at fault.
        ensures fault { IfErr result (NamesFault (IsAtFault content.now shape status.now.entries)) }
    {
        let parts = match Parts::from_records(alloc, content) {
            Ok(parts) => parts,
            Err(error) => return Err(error),
        };
        let entries = status.entries();
        if let Some(key) = parts.fault(&shape, entries) {
            return Err(CatalogError::Damaged { key });
        }
        let units = parts.units(alloc, &shape, entries)?;
        Ok(Catalog {
            parts,
            shape,
            units,
            spare: Spare::Absent,
            next_units: None,
        })
    }
}
