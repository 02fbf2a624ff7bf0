//! The records of a small group, for tests: changes of one of them, and the catalog of such
//! records; and moves of a catalog's copies.
#![tactic(auto)]

mod group;
mod moving;
mod told;

pub use group::{Edit, NO, SHAPE, apply, disks, edited, put_directories, read, usual};
pub use moving::{is_regular, make_move};
pub use told::{catalog, operations_of, operations_told};
