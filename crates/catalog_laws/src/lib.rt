//! What holds of every catalog: laws of its tables, of its items and of its plans.
#![tactic(auto)]

pub use catalog::{Catalog, FileBy, FileHead, NewFile, TreeEdit, has_home};

mod laws;

pub use laws::{
    a_checked_name_stays, a_fault_leaves_no_catalog, a_new_file_is_refused_as_its_name,
    a_new_name_is_the_worlds, a_planned_clearing_is_a_recopy, a_planned_move_is_a_move,
    blocks_are_counted, homes_are_on_regular_disks, homes_stay_on_regular_disks,
    items_are_of_tables, items_say_tables, tables_have_items, tables_say_records,
    units_are_of_items, units_resize, units_stay,
};
