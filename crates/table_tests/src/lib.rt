//! Tests of the tables of a group: the shared types and blocks that they stand on, each table, the
//! catalog of them all, and what a rebalance does by it. Their cases are rows that a function
//! plays, so that a row more costs no proof.
#![tactic(auto)]

#[cfg(test)]
mod base;
#[cfg(test)]
mod catalogs;
#[cfg(test)]
mod helpers;
#[cfg(test)]
mod rebalances;
#[cfg(test)]
mod tables;
