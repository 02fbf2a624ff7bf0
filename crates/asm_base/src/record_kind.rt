//! The kinds of directory records.

/// Heads of files, and the chunks of their extents.
pub const FILES: u16 = 1;

/// What is said of a disk.
pub const DISKS: u16 = 2;

/// The active rebalance and the pending operation.
pub const OPERATIONS: u16 = 4;

/// The templates of the group.
pub const TEMPLATES: u16 = 5;

/// Nodes of the tree of names.
pub const NODES: u16 = 6;

/// The settings of the group.
pub const SETTINGS: u16 = 9;

/// Marks of stale copies.
pub const MARKS: u16 = 12;
