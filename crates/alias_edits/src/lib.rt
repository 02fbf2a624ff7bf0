//! Edits of the tree of names: making, renaming and dropping directories and aliases, and the names
//! of files.
#![tactic(auto)]

pub use alias_tree::{Node, node_record};

mod causes;
mod changing;
mod editing;
mod filing;
mod planning;

pub use editing::{TreeEdit, TreeError, edit};
pub use filing::plan_file;
pub use planning::{TreeChange, plan};
