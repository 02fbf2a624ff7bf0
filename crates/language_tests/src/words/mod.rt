//! Tests of the texts and words of a session: event lines, the generated script, and the paths of
//! verbs.

mod generated;
mod lines;
mod paths;
