//! Whether the tables of a group keep the rules that hold across them.

ghost use Rattle.std.specs.Prelude.{◌≡◌, List as Items, IfErr, IfNone, IfOk, IfSome, IsTrue, None};
ghost use Rattle.std.specs.List.{list_all};
ghost use Rattle.asm_group.specs.Shape.{Shape as GroupShape, is_shape};
ghost use Rattle.asm_formats.specs.Status.{Entry, is_entry};
ghost use Rattle.extent_map.specs.Extents as extent_table;
ghost use Rattle.catalog_tables.specs.Faults.{AreChunksRight, AreNamesRight, AreSizesRight, BreaksRule, IsChunkFault, NamesFault, disk_key, file_key, key_of_marks};
ghost use Rattle.catalog_tables.specs.Placing.{HasUnits};
ghost use Rattle.catalog_tables.specs.Rules.{AreOnRegular, KeepsRules, first_unknown};
ghost use Rattle.catalog_tables.specs.Tables.{AreTables};

use crate::error::CatalogError;
use crate::parts::Parts;
use crate::placing::{place_in, unused_units};
use crate::reading::{chunk_key, node_key};
use asm_base::{Key, SETTINGS_KEY, Shape, record_kind};
use disk_directory::disk_key;
use page_map::Units;
use partnership::PstEntry;
use std::alloc::Global;

impl Parts {
    /// The key of a record at fault, where the tables break a rule that doesn't speak of units.
    #[tactic(auto, using(crate::proofs::FaultLaws::chunk_fault_is, crate::proofs::FaultLaws::fault_numbered, crate::proofs::FaultLaws::rules_are))]
    pub fn fault(&self, shape: &Shape, entries: &[PstEntry]) -> Option<Key>
        requires shape { IsTrue (is_shape shape.now) }
        requires tables { AreTables self.now }
        ensures some { IfSome result (BreaksRule shape.now entries.now self.now) }
        ensures rules { IfNone result (KeepsRules shape.now self.now) }
        ensures infos { IfNone result (first_unknown self.now entries.now ≡ None) }
        ensures regular { IfNone result (AreOnRegular entries.now self.now) }
    {
        if let Some(at) = self.chunk_fault() {
            return Some(chunk_key(at));
        }
        if let Some(key) = self.name_fault() {
            return Some(key);
        }
        self.size_fault(shape, entries)
    }

    /// A chunk that breaks a rule that doesn't speak of units.
    #[tactic(auto, using(crate::proofs::FaultLaws::unmarked_is, crate::proofs::FaultLaws::unowned_is, crate::proofs::FaultLaws::too_many_is, crate::proofs::FaultLaws::on_one_is, crate::proofs::FaultLaws::chunks_are))]
    fn chunk_fault(&self) -> Option<(u32, u32)>
        ensures some { IfSome result (IsChunkFault self.now) }
        ensures none { IfNone result (AreChunksRight self.now) }
    {
        if let Some(at) = self.unmarked() {
            return Some(at);
        }
        if let Some(at) = self.unowned() {
            return Some(at);
        }
        if let Some(at) = self.too_many_copies() {
            return Some(at);
        }
        if let Some(at) = self.on_one_disk() {
            return Some(at);
        }
        None
    }

    /// The key of a record of stale marks without a chunk or with a mark of a copy that isn't
    /// there, or of a node or a file that isn't named back.
    #[tactic(auto, using(crate::proofs::FaultLaws::alone_is, crate::proofs::FaultLaws::mark_alone_is, crate::proofs::FaultLaws::node_is, crate::proofs::FaultLaws::file_is, crate::proofs::FaultLaws::names_are))]
    fn name_fault(&self) -> Option<Key>
        ensures some { IfSome result (λ k. (s : GroupShape) (es : Items Entry)
            → BreaksRule s es self.now k) }
        ensures none { IfNone result (AreNamesRight self.now) }
    {
        if let Some(at) = self.marks_alone() {
            return Some(marks_key(at));
        }
        if let Some(at) = self.mark_alone() {
            return Some(marks_key(at));
        }
        if let Some(number) = self.nameless_node() {
            return Some(node_key(number));
        }
        if let Some(file) = self.nameless_file() {
            return Some(file_key(file));
        }
        None
    }

    /// The key of a file that lacks an extent, of the record of a disk that isn't known, of a chunk
    /// with a home on a quorum disk, or, where there is no room for all records, of the settings.
    #[tactic(auto, using(crate::proofs::FaultLaws::short_is, crate::proofs::FaultLaws::unknown_is, crate::proofs::FaultLaws::on_quorum_is, crate::proofs::FaultLaws::quorum_numbered, crate::proofs::FaultLaws::no_room_is, crate::proofs::FaultLaws::sizes_are))]
    fn size_fault(&self, shape: &Shape, entries: &[PstEntry]) -> Option<Key>
        requires shape { IsTrue (is_shape shape.now) }
        requires table { extent_table.IsExtentTable self.now.extents }
        ensures some { IfSome result (BreaksRule shape.now entries.now self.now) }
        ensures none { IfNone result (AreSizesRight shape.now entries.now self.now) }
    {
        if let Some(file) = self.short_file(shape) {
            return Some(file_key(file));
        }
        if let Some(number) = self.unknown_disk(entries) {
            return Some(disk_key(number));
        }
        if let Some(at) = self.on_quorum(entries) {
            return Some(chunk_key(at));
        }
        if !self.has_room(shape) {
            return Some(SETTINGS_KEY);
        }
        None
    }

    /// The units of all disk numbers, with those of the homes that the tables name used.
    #[tactic(auto, using(crate::proofs::FaultLaws::misplaced_is, crate::proofs::FaultLaws::misplaced_numbered))]
    pub fn units(
        &self,
        alloc: Global,
        shape: &Shape,
        entries: &[PstEntry],
    ) -> Result<Vec<Units>, CatalogError>
        requires shape { IsTrue (is_shape shape.now) }
        requires entries { IsTrue (list_all is_entry entries.now) }
        requires table { extent_table.IsExtentTable self.now.extents }
        ensures units { IfOk result (λ v. HasUnits shape.now entries.now self.now v.items) }
        ensures fault { IfErr result (NamesFault (BreaksRule shape.now entries.now self.now)) }
    {
        let mut units = unused_units(alloc, shape, entries)?;
        match place_in(&mut units, shape.step, &self.extents) {
            None => Ok(units),
            Some(at) => Err(CatalogError::Damaged { key: chunk_key(at) }),
        }
    }
}

/// The key of the record of a chunk's stale marks.
fn marks_key(at: (u32, u32)) -> Key
    ensures { result ≡ key_of_marks at }
{
    Key {
        kind: record_kind::MARKS,
        a: at.0,
        b: at.1,
    }
}

/// The key of a file's head.
pub fn file_key(file: u32) -> Key
    ensures { result ≡ file_key file }
{
    Key {
        kind: record_kind::FILES,
        a: file,
        b: 0,
    }
}
