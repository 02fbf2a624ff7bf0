//! Tests of the two languages, DISKGROUP statements and asmcmd lines: texts that are read, refused
//! at a place, and written, and reports.

mod play;
mod readings;
mod refused_statements;
mod reports;
mod rewriting;
mod statements;
mod verbs;
