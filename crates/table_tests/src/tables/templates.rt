// The table of templates and settings: what is read of records and written to them.
ghost use Rattle.std.specs.Prelude.{IfSome, IsTrue};
ghost use Rattle.asm_formats.specs.Items.{is_item, settings_item};

use crate::helpers::{Wrong, row};
use crate::tables::given::{no_change, put, put_all_but};
use asm_base::{Change, GroupKind, Key, List, Records, Value};
use std::alloc::Global;
use template_directory::{Settings, Template, TemplateTable, are_allowed, settings_value, system};

/// The table of a new group of a kind.
pub fn new_table(alloc: Global, kind: GroupKind) -> Option<TemplateTable> {
    match system(alloc, kind) {
        Ok(templates) => table_of(templates, Settings::usual(alloc)),
        Err(_) => None,
    }
}

fn table_of(templates: List<Template>, settings: Settings) -> Option<TemplateTable> {
    if are_allowed(templates.as_slice()) && settings.is_allowed() {
        return Some(TemplateTable::new(templates, settings));
    }
    drop(templates);
    drop(settings);
    None
}

/// The settings of a new group, with another incarnation.
fn settings(alloc: Global, incarnation: u64) -> Option<Settings>
    ensures { IfSome result (λ made. IsTrue (is_item (settings_item made))) }
{
    let mut settings = Settings::usual(alloc);
    settings.incarnation = incarnation;
    if settings.is_allowed() {
        Some(settings)
    } else {
        drop(settings);
        None
    }
}

/// The table of a new group of incarnation 9.
fn table_of_9(alloc: Global) -> Option<TemplateTable> {
    match settings(alloc, 9) {
        Some(settings) => match new_table(alloc, GroupKind::Normal) {
            Some(mut table) => {
                table.set_settings(settings);
                Some(table)
            }
            None => {
                drop(settings);
                None
            }
        },
        None => None,
    }
}

/// The change that puts the records of a table.
fn records_in(alloc: Global, table: &TemplateTable) -> Option<Change> {
    let mut change = no_change(alloc);
    match table.to_records(alloc, &mut change) {
        Ok(()) => Some(change),
        Err(_) => {
            drop(change);
            None
        }
    }
}

/// The same of a new group of incarnation 9.
fn records_of_9(alloc: Global) -> Option<Change> {
    match table_of_9(alloc) {
        Some(table) => {
            let change = records_in(alloc, &table);
            drop(table);
            change
        }
        None => None,
    }
}

/// The incarnation, the repair time in seconds, and how many templates there are.
type Told = (u64, u64, usize);

fn told(table: &TemplateTable) -> Told {
    let settings = table.settings();
    (settings.incarnation, settings.repair, table.list().len())
}

/// What is told of the table of these records. The inner None where they are no table's.
fn read(alloc: Global, records: &Records) -> Option<Option<Told>> {
    match TemplateTable::from_records(alloc, records) {
        Ok(Some(table)) => {
            let told = told(&table);
            drop(table);
            Some(Some(told))
        }
        Ok(None) => Some(None),
        Err(_) => None,
    }
}

/// What is told of the records of a new group of incarnation 9, but those of a kind.
fn read_but(alloc: Global, left_out: u16) -> Option<Option<Told>> {
    let change = records_of_9(alloc)?;
    let mut records = Records::new(alloc);
    let told = match put_all_but(&mut records, change, left_out) {
        Some(()) => read(alloc, &records),
        None => None,
    };
    drop(records);
    told
}

const OTHER_KEY: Key = Key {
    kind: 5,
    a: 0,
    b: 1,
};

fn read_other_key(alloc: Global) -> Option<Option<Told>> {
    let mut records = Records::new(alloc);
    let told = match put(alloc, &mut records, OTHER_KEY, &[0]) {
        Some(()) => read(alloc, &records),
        None => None,
    };
    drop(records);
    told
}

const SETTINGS: Key = Key {
    kind: 9,
    a: 0,
    b: 0,
};

/// The value of the record of the settings of incarnation 8.
fn value_of_8(alloc: Global) -> Option<Value> {
    match settings(alloc, 8) {
        Some(settings) => {
            let value = settings_value(alloc, &settings).ok();
            drop(settings);
            value
        }
        None => None,
    }
}

/// What is told of a copy of a table.
fn told_of_copy(alloc: Global, table: &TemplateTable) -> Option<Told> {
    match table.copy(alloc) {
        Ok(copy) => {
            let told = told(&copy);
            drop(copy);
            Some(told)
        }
        Err(_) => None,
    }
}

/// The same of a new table that is given settings by their record.
fn told_by(alloc: Global, value: &Value) -> Option<Told> {
    match new_table(alloc, GroupKind::Normal) {
        Some(mut table) => {
            let told = if table.put_record(alloc, SETTINGS, value) == Ok(true) {
                told_of_copy(alloc, &table)
            } else {
                None
            };
            drop(table);
            told
        }
        None => None,
    }
}

fn told_put(alloc: Global) -> Option<Told> {
    match value_of_8(alloc) {
        Some(value) => {
            let told = told_by(alloc, &value);
            drop(value);
            told
        }
        None => None,
    }
}

/// A table is read from the records that it makes. Without one of them there is none, and a record
/// of their kinds with another key makes none.
pub fn play_rows(alloc: Global) -> Result<(), Wrong> {
    let whole = read_but(alloc, 0);
    row(
        "templates are read again",
        whole == Some(Some((9, 12_960, 13))),
    )?;
    row(
        "without a record of templates",
        read_but(alloc, 5) == Some(None),
    )?;
    row(
        "templates of another key",
        read_other_key(alloc) == Some(None),
    )?;
    let put = told_put(alloc);
    row(
        "settings are put by their record",
        put == Some((8, 12_960, 13)),
    )
}
