//! Tests of a group's rebalance: what it does first, and whole rows of moves.

mod group;
mod rows;
