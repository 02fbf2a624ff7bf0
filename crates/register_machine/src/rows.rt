//! Worked runs, computed.

ghost use Rattle.register_machine.specs.Rows.{OneHolderRow, TwoMountsRow, HoldersMoveRow};

/// A record on one holder, then two forced mounts.
pub fn one_holder_row()
    ensures { OneHolderRow }
{}

/// A forced mount that is stopped, then another.
pub fn two_mounts_row()
    ensures { TwoMountsRow }
{}

/// Tables that move from one set of holders to another.
pub fn two_sets_row()
    ensures { HoldersMoveRow }
{}
