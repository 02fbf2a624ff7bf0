//! What holds of every catalog.

ghost use Rattle.std.specs.Prelude.{List as Items};
ghost use Rattle.asm_formats.specs.Items.{Key};
ghost use Rattle.asm_formats.specs.Status.{Entry as StatusEntry};
ghost use Rattle.catalog.specs.asm_base.Records.{DirectoryRecord};
ghost use Rattle.catalog_laws.specs.Blocks.{BlocksAreCounted, PlansHaveRoom};
ghost use Rattle.catalog.specs.catalog_tables.Tables.{Catalogued};
ghost use Rattle.catalog.specs.catalog_tables.Faults.{IsAtFault, IsCatalogOf};
ghost use Rattle.catalog.specs.ExtentPlans.{ClearsItems, MovesItems, StaysInPlace};
ghost use Rattle.catalog.specs.catalog_tables.Items.{ItemsAreOneList, ItemsOfRecords, ItemsSayTables, RecordsAreTold, TablesHaveItems, UnitsOfItems};
ghost use Rattle.catalog.specs.NameChecks.{ChecksAgree, ChecksHold};
ghost use Rattle.catalog.specs.NamePlans.{FilesAsWorld, RefusesAsWorld};
ghost use Rattle.catalog.specs.catalog_tables.Placing.{UnitsAreResized, UnitsResize, UnitsStay};
ghost use Rattle.catalog_laws.specs.RegularHomes.{AppendingKeepsRegular, CopiesAreRegular, CuttingKeepsRegular, HomesAreRegular, MovingKeepsRegular, RegularStays};

/// Where a record is at fault, no value is a catalog of the records.
pub fn a_fault_leaves_no_catalog()
    ensures { (content : Items DirectoryRecord) (es : Items StatusEntry) (c : Catalogued) (k : Key)
        → IsAtFault content c.shape es k → ¬ IsCatalogOf content es c }
{}

/// All tables have items, and these are one list only.
pub fn tables_have_items()
    ensures there { TablesHaveItems }
    ensures one { ItemsAreOneList }
{}

/// The items of a group's records are those of the tables that have these records.
pub fn items_are_of_tables()
    ensures { ItemsOfRecords }
{}

/// At each key the tables of a group's records say what the record of the key says, and nothing
/// where there is none.
pub fn tables_say_records()
    ensures { RecordsAreTold }
{}

/// What items say of files, extents, marks, homes and copies is what the tables say whose items
/// they are.
pub fn items_say_tables()
    ensures { ItemsSayTables }
{}

/// The used units of each disk are, from scratch, those of the homes that the items name.
pub fn units_are_of_items()
    ensures { UnitsOfItems }
{}

/// Units by the entries of a status record are those by other entries that give each disk number as
/// many units.
pub fn units_stay()
    ensures { UnitsStay }
{}

/// Where no unit is used that other entries lack, the unit maps with their units are those by them,
/// and there are no others.
pub fn units_resize()
    ensures there { UnitsResize }
    ensures alone { UnitsAreResized }
{}

/// The items after a move of a copy, as a committed move leaves them, are those of the tables that
/// the plan of the move leads to.
pub fn a_planned_move_is_a_move()
    ensures { MovesItems }
{}

/// The items after a copy was written anew in place, as a committed move leaves them, are those of
/// the tables that the plan which clears the copy's mark leads to; and so does the plan of a move
/// to the home that the copy has.
pub fn a_planned_clearing_is_a_recopy()
    ensures clears { ClearsItems }
    ensures stays { StaysInPlace }
{}

/// The tree of names with a new file, to which its plan leads, and the next incarnation are those
/// of the world's group with the file.
pub fn a_new_name_is_the_worlds()
    ensures { FilesAsWorld }
{}

/// A new file is refused in the world by its template and its size, and then by the causes by which
/// the plan of its name is.
pub fn a_new_file_is_refused_as_its_name()
    ensures { RefusesAsWorld }
{}

/// What was found of the name of a new file before it was made, stays while chunks are added and an
/// operation on the file is pending: the tree of names and the settings are the same.
pub fn a_checked_name_stays()
    ensures agree { ChecksAgree }
    ensures hold { ChecksHold }
{}

/// The pages of a store that has the records of a catalog are counted as the blocks of its tables
/// are. So a plan, which finds a free block for each new record, leaves nothing for the store to
/// refuse as full.
pub fn blocks_are_counted()
    ensures counted { BlocksAreCounted }
    ensures plans { PlansHaveRoom }
{}

/// Where no home of the tables lies on a disk of a quorum failure group, none that their items name
/// does.
pub fn homes_are_on_regular_disks()
    ensures homes { HomesAreRegular }
    ensures copies { CopiesAreRegular }
{}

/// It stays so by the plans of extents, where new homes lie on no such disk, and where the entries
/// change so that each disk that was in no such group still isn't. The tables of other plans have
/// the same homes.
pub fn homes_stay_on_regular_disks()
    ensures appended { AppendingKeepsRegular }
    ensures moved { MovingKeepsRegular }
    ensures cut { CuttingKeepsRegular }
    ensures entries { RegularStays }
{}
