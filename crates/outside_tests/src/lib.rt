//! Tests of the outside in memory, and of the words of a call.
#![tactic(auto)]

#[cfg(test)]
mod memory;
#[cfg(test)]
mod rows;
#[cfg(test)]
mod words;
