//! Tests of a group on one disk in memory: how it is created, found, mounted and dropped, how many
//! calls that takes, and what is refused. Each case is a row of steps, which one function plays.

mod playing;
mod rows;
mod steps;
