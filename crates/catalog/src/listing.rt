//! What a catalog tells of all extents in a row.

ghost use Rattle.std.specs.Prelude.{◌≡◌, ◌≤◌, ◌==◌, ℕ, length, IfNone, IfOk, IfSome, None, Some};
ghost use Rattle.std.specs.List.{list_any};
ghost use Rattle.std.specs.Option.{option_map};
ghost use Rattle.asm_group.specs.TreeEdits.{entry_at};
ghost use Rattle.plan_records.specs.alias_tree.Nodes.{AreByName, is_under_parent, node_at, number_of};
ghost use Rattle.plan_records.specs.alias_tree.Spelling.{names_to};
ghost use Rattle.plan_records.specs.alias_tree.Trees.{tree_of};
ghost use Rattle.asm_formats.specs.Items.{FileHead as FormatHead};
ghost use Rattle.asm_formats.specs.Nodes.{entry_of_node};
ghost use Rattle.plan_records.specs.extent_map.Extents.{chunks_from};
ghost use Rattle.plan_records.specs.file_directory.Files.{head_at};

use crate::catalog::Catalog;
use asm_base::{Name, NoMemory, Path};
use plan_records::Chunk;
use std::alloc::Global;
use std::collections::btree_map::{Iter, Range};

impl Catalog {
    /// The chunks of extents, in the order of file and number, each with the homes of 256 extents.
    pub fn chunks(&self) -> Iter<'_, (u32, u32), Chunk>
        ensures { result ≡ self.now.tables.extents }
    {
        self.parts.extents.iter()
    }

    /// The chunks from this one on, whether it is there or not, in the order of file and number.
    /// Those before it are passed over by their keys.
    pub fn chunks_from(&self, chunk: (u32, u32)) -> Range<'_, (u32, u32), Chunk>
        ensures { result ≡ chunks_from self.now.tables.extents chunk }
    {
        self.parts.extents.iter_from(chunk)
    }

    /// Copies of each extent of a file, where it has a head: one, two or three.
    pub fn copies_of(&self, file: u32) -> Option<u8>
        ensures copies { result ≡ option_map (λ (h : FormatHead). h.copies)
            (head_at self.now.tables.files file) }
        ensures few { IfSome result (λ n. n ≤ 3) }
    {
        match self.parts.files.get(file) {
            Some(head) => Some(head.copies),
            None => None,
        }
    }

    /// The nodes of a directory, or of the root by 0, in the order of their names without case. The
    /// work goes by their number.
    pub fn children(&self, alloc: Global, node: u32) -> Result<Vec<u32>, NoMemory>
        // They are just the nodes of this parent.
        ensures each { IfOk result (λ v. (n : ℕ)
            → list_any (λ m. m == n) v.items ≡ is_under_parent self.now.tables.nodes node n) }
        // By name, and none is given twice.
        ensures order { IfOk result (λ v. AreByName self.now.tables.nodes v.items) }
    {
        self.parts.tree.children(alloc, node)
    }

    /// The path of a node in a group of this name, as the nodes spell it. None where there is no
    /// such node, as for the root. Work and memory go by the number of parts.
    pub fn path_of(&self, alloc: Global, group: &Name, node: u32) -> Result<Option<Path>, NoMemory>
        ensures spelt { IfOk result (λ path. IfSome path
            (λ p. p.parts ≡ names_to self.now.tables.nodes (length self.now.tables.nodes) node)) }
        ensures group { IfOk result (λ path. IfSome path (λ p. p.group ≡ group.now)) }
        // `find` gives the node back.
        ensures at { IfOk result (λ path. IfSome path
            (λ p. number_of self.now.tables.nodes p.parts ≡ Some node)) }
        // The tree of names has the node there.
        ensures entry { IfOk result (λ path. IfSome path
            (λ p. entry_at (tree_of self.now.tables.nodes) p.parts
            ≡ option_map entry_of_node (node_at self.now.tables.nodes node))) }
        ensures none { IfOk result (λ path. IfNone path
            (node_at self.now.tables.nodes node ≡ None)) }
    {
        let Some(parts) = self.parts.tree.path_to(alloc, node)? else {
            return Ok(None);
        };
        Ok(Some(Path {
            group: group.copy()?,
            parts,
        }))
    }
}
