//! Tests of a group's catalog: what it tells of records and once plans were made, and by which key
//! records at fault are named. Each case is a row of steps, which one function plays.

mod disk_units;
mod disks;
mod extent_rows;
mod extents;
mod facts;
mod file_rows;
mod files;
mod making;
mod name_rows;
mod names;
mod operations;
mod plans;
mod refused;
mod rows;
mod steps;
mod told_rows;
mod tree;
