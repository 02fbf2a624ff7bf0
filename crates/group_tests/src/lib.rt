//! Tests of a mounted group on four disks in memory: its commits and status records, directory
//! copies that come and go, disks that are attached and leave, the end of what was pending; bytes
//! of extents, statements on disks, slices of a resync and of a rebalance, reports; and what each
//! call leaves and answers where disks fail. Each case is a row of steps, which one function plays.
#![tactic(auto)]

#[cfg(test)]
mod answers;
#[cfg(test)]
mod calls;
#[cfg(test)]
mod disks;
#[cfg(test)]
mod facts;
#[cfg(test)]
mod forming;
#[cfg(test)]
mod playing;
#[cfg(test)]
mod rows;
#[cfg(test)]
mod spelt;
#[cfg(test)]
mod steps;
#[cfg(test)]
mod trials;
