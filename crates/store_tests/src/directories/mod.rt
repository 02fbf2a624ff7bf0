//! Tests of a copy of the directories over a disk in memory: what a format leaves, and what is
//! loaded. Each case is a row of steps, which one function plays.

mod copies;
mod steps;
