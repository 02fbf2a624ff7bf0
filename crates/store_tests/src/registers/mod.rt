//! Tests of the status register over disks in memory: mounts that are stopped, disks that fail, and
//! which record wins.

mod mounts;
mod trials;
