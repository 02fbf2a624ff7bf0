//! A node of the tree.

ghost use Rattle.std.specs.Prelude.{◌≡◌};

use asm_base::{Name, NoMemory, NodeKind};
use std::marker::Model;

/// A name in the tree. Contracts see it as the node of the formats.
#[derive(Debug, Drop)]
pub struct Node {
    /// The node of the directory that has the name, or 0 for the root.
    pub parent: u32,
    pub kind: NodeKind,
    /// The file that the name stands for, of a system name or an alias.
    pub file: u32,
    /// The name as it was spelt.
    pub name: Name,
}

impl Model for Node {
    ghost use Rattle.asm_formats.specs.Items.{Node as FormatNode};

    ghost Value = { FormatNode };

    ghost view = { λ n. record { parent = n.parent; kind = n.kind; file = n.file; name = n.name } };
}

impl Node {
    ghost use Rattle.std.specs.Prelude.{◌≡◌, IfOk};

    pub fn copy(&self) -> Result<Node, NoMemory>
        ensures { IfOk result (λ copy. copy ≡ self.now) }
    {
        Ok(Node {
            parent: self.parent,
            kind: self.kind,
            file: self.file,
            name: self.name.copy()?,
        })
    }
}
