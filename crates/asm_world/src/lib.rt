//! The world that a user sees: groups with their files, the commands and what each may do, runs,
//! and the two languages with their texts. All of it is definitions, and laws over them.
#![tactic(auto)]

mod edits;
mod language;
mod runs;
mod texts;

pub use edits::{done_keeps_whole, files_are_written, known_bytes_are_read, names_are_edited};
pub use language::{
    commands_are_found, one_command, one_statement, refused_at_longest_front, refused_rows,
    said_is_written, statements_are_decided, statements_are_read_alone, statements_spell,
    unreadable_at_longest_front, verb_rows, verbs_are_decided, verbs_are_read_alone, verbs_spell,
    writing_rows, written_is_said,
};
pub use runs::{
    Later, Measure, Premise, between_replies, calls_grow, histories_split, incarnation_rows,
    marks_rise, memory_is_short_anywhere, moments_are_held, mounted_are_there, premises_join,
    quiet_moments_are_held, quiet_moves_leave_groups, run_rows, runs_call_more, runs_join,
    wait_rows, whiles_are_runs, whiles_join, whiles_stay,
};
pub use texts::{
    attribute_rows, cause_rows, generator_rows, name_rows, path_rows, refusal_rows, report_rows,
    text_rows,
};
