//! Tests of the tables of a group's directories. Their cases are rows, and of each table one
//! function plays them, so that a row more costs no proof.

mod extents;
mod files;
mod given;
mod name_edits;
mod names;
mod new_names;
mod operations;
mod play;
mod stale_marks;
mod template_edits;
mod templates;
