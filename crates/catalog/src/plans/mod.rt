//! Plans: changes of a group's records that keep its rules.

mod added;
mod attributes;
mod checks;
mod chunks;
mod cuts;
mod disks;
mod files;
mod marks;
mod moves;
mod names;
mod operations;
mod refusals;
mod rules;
mod templates;
mod tree;
