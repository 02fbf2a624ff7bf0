//! Tests of what the tables of a group stand on: the shared types, headers, status records and
//! pages, values of attributes, and where extents go. Their cases are rows that a function plays,
//! so that a row more costs no proof.

mod attributes;
mod blocks;
mod headers;
mod pages;
mod refusals;
mod rows;
mod shared_types;
mod status_records;
mod units;
