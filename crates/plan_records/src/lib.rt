//! What the plans of a catalog are made of: changes of a few records and copies of changes, heads,
//! operations and names of files, the records of settings and templates, and refusals.
#![tactic(auto)]

pub use alias_edits::{Node, TreeChange, TreeEdit, TreeError, node_record, plan, plan_file};
pub use attribute_values::{
    Creation, Settings, Template, TemplateEdit, are_allowed, settings_value, system,
    templates_value, with_attribute,
};
pub use catalog_units::{
    CatalogError, Chunk, DiskInfo, FileHead, Marks, Parts, Pending, PstEntry, PstRecord, Units,
    are_fit, are_on_disks, changed_maps, chunk_record, disk_key, disk_record, follow, has_home,
    has_stale_on, have_units, is_pending, marks_record, node_key, partners, pending_record, put_in,
    rebalance_record, record_of, units_of,
};

mod changes;
mod heads;
mod new_names;
mod operations;
mod refusals;
mod setting_records;

pub use changes::{change_copied, one_gone, one_put, put_and_gone, two_gone, two_put};
pub use heads::{keys_of_file, with_alias, with_size};
pub use new_names::{NameParts, new_name, system_path};
pub use operations::{removal_of, shrinking};
pub use refusals::{bad_attribute, refusal_of};
pub use setting_records::{settings_next, settings_record, templates_record};
