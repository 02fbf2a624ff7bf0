//! Tests of the store of a group's directories over disks in memory: what a commit writes, commits
//! that are stopped, and what a load takes and refuses; and of the map of its pages.

mod commits;
mod copies;
mod costs;
mod counting;
mod loads;
mod many;
mod page_maps;
mod play;
mod stale;
mod stops;
mod trials;
