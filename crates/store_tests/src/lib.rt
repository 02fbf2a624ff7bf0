//! Tests of what stands on disks, over disks in memory: headers and looks at images, the status
//! register, a copy of the directories and the store of them all, and the creation of a group. Most
//! cases are rows of steps, which one function plays.
#![tactic(auto)]

#[cfg(test)]
mod creations;
#[cfg(test)]
mod directories;
#[cfg(test)]
mod helpers;
#[cfg(test)]
mod images;
#[cfg(test)]
mod registers;
#[cfg(test)]
mod stores;
