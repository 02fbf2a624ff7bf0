//! Worked choices and rebalances, computed from the definitions.

ghost use Rattle.asm_placement.specs.MoveRows.{AddRow, CreationRow, DropRow, FullDisksRow, HomesRow, PartnersRow, TablesRow, UndropRow, UsualDayRow};

/// Status tables and directory copies of creations.
pub fn creation_row()
    ensures { CreationRow }
{}

/// Partners of four disks.
pub fn partners_row()
    ensures { PartnersRow }
{}

/// Homes of a first mirrored file on four disks.
pub fn homes_row()
    ensures { HomesRow }
{}

/// A disk is dropped.
pub fn drop_row()
    ensures { DropRow }
{}

/// A disk is dropped and kept after all.
pub fn undrop_row()
    ensures { UndropRow }
{}

/// A disk is added.
pub fn add_row()
    ensures { AddRow }
{}

/// A holder is dropped.
pub fn tables_row()
    ensures { TablesRow }
{}

/// Disks that are nearly full.
pub fn full_disks_row()
    ensures { FullDisksRow }
{}

/// A usual day.
pub fn usual_day_row()
    ensures { UsualDayRow }
{}
