//! The verbs of asmcmd: lines of them read, and the lines of their reports.
#![tactic(auto)]

mod files;
mod group_reports;
mod groups;
mod line;
mod listings;
mod names;
mod paths;
mod rows;
mod runs;
mod text;
mod verb;
mod words;

pub use group_reports::{
    attribute_lines, check_lines, disk_lines, group_lines, rows_are_lines, template_lines,
};
pub use line::read_line;
pub use listings::{ls_lines, path_lines, usage_lines};
pub use paths::path_text;
pub use rows::{AttrRow, DiskRow, GroupRow, LsRow, TemplateRow};
pub use runs::Runs;
pub use verb::{ReadError, Verb};
