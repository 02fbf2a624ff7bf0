//! The paths of verbs: where they lead from the session's place, and which names a pattern matches.
#![tactic(auto)]

mod pattern;
mod places;
mod slashes;

pub use pattern::{has_star, is_match, is_pattern};
pub use places::{
    clause_path, is_host_path, parts_in_group, resolve, resolve_or_here, resolve_pattern, target,
};
