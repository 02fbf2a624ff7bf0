//! Which group a record and the records of a catalog's tables describe. Each function does nothing;
//! its contract is the law.
ghost use Rattle.group_of.specs.Describing.{CatalogDescribes, DescribedHasCells, DescribedIsOfCatalog, DescribedIsOfTables, NamesAreGroup, NextTablesDescribe, SurplusDescribes, TablesDescribe};

/// Where tables may stand under a record, the record and their items describe the group that the
/// tables are, with cells as many as the heads say. So do those of the records of which a catalog
/// was read.
pub fn tables_describe()
    ensures tables { TablesDescribe }
    ensures catalog { CatalogDescribes }
{}

/// A group that the items of tables describe is the group that the tables are, with its own cells.
pub fn described_groups_are_of_tables()
    ensures group { DescribedIsOfTables }
    ensures catalog { DescribedIsOfCatalog }
    ensures cells { DescribedHasCells }
{}

/// Where tables describe a group, the next ones describe theirs, as long as extents and disk
/// records stay.
pub fn next_tables_describe()
    ensures { NextTablesDescribe }
{}

/// Extents, marks, disk records and begun operations are no part of the group: where they alone
/// change, and the rules stay, the next tables describe the same group.
pub fn surplus_describes()
    ensures names { NamesAreGroup }
    ensures same { SurplusDescribes }
{}
