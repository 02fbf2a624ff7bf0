//! The rules of names: nodes and files name each other.

ghost use Rattle.std.specs.Prelude.{◌≡◌, None};
ghost use Rattle.std.specs.Option.{option_copied};
ghost use Rattle.partnership.specs.asm_placement.Naming.{is_named_as, kind_eq, names_back};
ghost use Rattle.catalog_tables.specs.Rules.{first_wrong, has_names, is_named_back, names_file_in_tables};

use crate::parts::Parts;
use alias_tree::Node;
use asm_base::NodeKind;
use file_directory::FileHead;

impl Parts {
    /// The first system or alias node that names no file that names it as such.
    pub(crate) fn nameless_node(&self) -> Option<u32>
        ensures { result ≡ first_wrong (is_named_back self.now) self.now.nodes }
    {
        for (number, node) in self.tree.iter() {
            if !self.is_named_back(*number, node) {
                return Some(*number);
            }
        }
        None
    }

    fn is_named_back(&self, number: u32, node: &Node) -> bool
        ensures { result ≡ is_named_back self.now (number, node.now) }
    {
        match node.kind {
            NodeKind::Directory => true,
            NodeKind::System => match self.files.get(node.file) {
                None => false,
                Some(head) => head.system == number,
            },
            NodeKind::Alias => match self.files.get(node.file) {
                None => false,
                Some(head) => head.alias == number,
            },
        }
    }

    /// The first file that names a node that isn't there or isn't such a node of the file.
    pub(crate) fn nameless_file(&self) -> Option<u32>
        ensures { result ≡ first_wrong (has_names self.now) self.now.files }
    {
        for (file, head) in self.files.iter() {
            if !self.has_names(*file, head) {
                return Some(*file);
            }
        }
        None
    }

    fn has_names(&self, file: u32, head: &FileHead) -> bool
        ensures { result ≡ has_names self.now (file, head.now) }
    {
        self.names_file(file, NodeKind::System, head.system)
            && self.names_file(file, NodeKind::Alias, head.alias)
    }

    /// Whether the number is 0, or that of a node of this kind that names the file.
    fn names_file(&self, file: u32, kind: NodeKind, number: u32) -> bool
        ensures { result ≡ names_file_in_tables self.now file kind number }
    {
        number == 0 || is_named_as(kind, file, self.tree.get(number))
    }
}

fn is_named_as(kind: NodeKind, file: u32, node: Option<&Node>) -> bool
    ensures { result ≡ is_named_as kind file (option_copied node.entry) }
{
    match node {
        None => false,
        Some(node) => is_kind(node.kind, kind) && node.file == file,
    }
}

fn is_kind(a: NodeKind, b: NodeKind) -> bool
    ensures { result ≡ kind_eq a b }
{
    matches!(
        (a, b),
        (NodeKind::Directory, NodeKind::Directory)
            | (NodeKind::System, NodeKind::System)
            | (NodeKind::Alias, NodeKind::Alias)
    )
}
