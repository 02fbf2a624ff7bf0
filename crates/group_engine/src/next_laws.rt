//! Which records may come next. Each function does nothing; its contract is the law.
ghost use Rattle.group_engine.specs.NextRecords.{SameDisksAreNext};

/// A mounted group may get a record with the same disks, sets and directory copies: modes, times
/// and partners change.
pub fn same_disks_are_next()
    ensures { SameDisksAreNext }
{}
