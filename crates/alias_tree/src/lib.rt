//! The names of a group: directories, and the system names and aliases of its files, as a tree of
//! nodes. A name leads to the same node in any case of its letters.
#![tactic(auto)]

pub use asm_base::{Name, NoMemory, NodeKind, Path};

mod faults;
mod files;
mod index;
mod node;
mod node_paths;
mod nodes;
mod opening;
mod places;
mod reading;
mod tree;
mod writing;

pub use node::Node;
pub use opening::OpenTree;
pub use tree::AliasTree;
pub use writing::node_record;
