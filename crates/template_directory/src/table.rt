//! The table of templates and settings.

ghost use Rattle.std.specs.Prelude.{◌≡◌, ◌<◌, ◌≤◌, ◌++◌, ◌∷◌, [], drop, length, slice_set, true, IfNone, IfOk, IfSome, OnErr, OnOk, IsTrue, Some, is_some};
ghost use Rattle.std.specs.Option.{option_copied};
ghost use Rattle.std.specs.List.{insert, remove, slice_get};
ghost use Rattle.asm_formats.specs.Items.{is_item, is_template, names_ascend, templates_item, settings_item};
ghost use Rattle.asm_base.specs.Records.{of_kinds};
ghost use Rattle.template_directory.specs.Tables.{Table, IsTemplateTable, if_same, is_key_of_templates, count_of_names_before, records_of_templates, table_of, template_named, with_template_in_order, without_template};

use crate::reading::{MOST_TEMPLATES, settings_in, templates_in};
use crate::settings::Settings;
use crate::template::Template;
use crate::writing::{settings_value, templates_value};
use asm_base::{Change, Key, List, Name, NoMemory, Records, Value, record_kind};
use std::alloc::Global;
use std::collections::btree_map::Iter;
use std::marker::Model;

/// The templates of a group by folded name, at most 64, and its settings: what the directory holds
/// of both.
#[derive(Drop)]
pub struct TemplateTable {
    templates: Vec<Template>,
    settings: Settings,
}

impl Model for TemplateTable {
    ghost use Rattle.template_directory.specs.Tables.{Table, IsTemplateTable};

    ghost Value = { Table };

    ghost view = { λ t. record { templates = t.templates.items; settings = t.settings } };

    ghost invariant = { λ t. IsTemplateTable (record { templates = t.templates.items; settings = t.settings }) };
}

impl TemplateTable {
    ghost use Rattle.template_directory.specs.Tables.{Table, IsTemplateTable, has_room_for_template, is_key_of_templates, records_of_templates, table_of, template_named, with_template_in_order, without_template};

    /// The table of templates by folded name and settings.
    pub fn new(templates: List<Template>, settings: Settings) -> TemplateTable
        requires templates { IsTrue (is_item (templates_item templates)) }
        requires settings { IsTrue (is_item (settings_item settings)) }
        ensures { result ≡ record { templates = templates; settings = settings } }
    {
        TemplateTable {
            templates: templates.into_vec(),
            settings,
        }
    }

    /// The templates, by folded name.
    pub fn list(&self) -> &[Template]
        ensures all { result.now ≡ self.now.templates }
        ensures allowed { IsTrue (is_item (templates_item self.now.templates)) }
    {
        &self.templates
    }

    pub fn settings(&self) -> &Settings
        ensures all { result.now ≡ self.now.settings }
        ensures allowed { IsTrue (is_item (settings_item self.now.settings)) }
    {
        &self.settings
    }

    pub fn set_templates(&mut self, templates: List<Template>)
        requires { IsTrue (is_item (templates_item templates)) }
        ensures { self.new ≡ record { templates = templates; settings = self.old.settings } }
    {
        self.templates = templates.into_vec();
    }

    pub fn set_settings(&mut self, settings: Settings)
        requires { IsTrue (is_item (settings_item settings)) }
        ensures { self.new ≡ record { templates = self.old.templates; settings = settings } }
    {
        self.settings = settings;
    }

    /// The template of a name, in any case.
    #[tactic(auto, using(crate::proofs::Listing::ascends))]
    pub fn get(&self, name: &Name) -> Option<&Template>
        ensures template { option_copied result ≡ template_named name.now self.now.templates }
        ensures allowed { IsTrue (is_item (templates_item self.now.templates)) }
    {
        find(self.list(), name)
    }

    /// Whether a template of this name may be put: one is there, or there are fewer than 64.
    pub fn has_room(&self, name: &Name) -> bool
        ensures { result ≡ has_room_for_template name.now self.now.templates }
    {
        self.get(name).is_some() || self.list().len() < MOST_TEMPLATES
    }

    /// Puts a template in its place, which is that of the template of its name where there is one.
    /// Where there is no memory the table stays.
    #[tactic(auto, using(crate::proofs::Listing::ascends, crate::proofs::Listing::with_allowed))]
    pub fn put(&mut self, template: Template) -> Result<(), NoMemory>
        requires allowed { IsTrue (is_template template) }
        requires room { IsTrue (has_room_for_template template.name self.old.templates) }
        ensures ok { OnOk result (self.new ≡ record {
          templates = with_template_in_order template self.old.templates;
          settings = self.old.settings;
        }) }
        ensures err { OnErr result (self.new ≡ self.old) }
    {
        put_in(&mut self.templates, template)
    }

    /// Takes the template of a name away, and tells whether it was there.
    #[tactic(auto, using(crate::proofs::Listing::ascends, crate::proofs::Listing::without_allowed))]
    pub fn remove(&mut self, name: &Name) -> bool
        ensures there { result ≡ is_some (template_named name.now self.old.templates) }
        ensures after { self.new ≡ record {
          templates = without_template name.now self.old.templates;
          settings = self.old.settings;
        } }
    {
        remove_from(&mut self.templates, name)
    }

    /// An equal table.
    pub fn copy(&self, alloc: Global) -> Result<TemplateTable, NoMemory>
        ensures { IfOk result (λ copy. copy ≡ self.now) }
    {
        let templates = copies(alloc, self.list())?;
        let settings = self.settings().copy()?;
        Ok(TemplateTable::new(templates, settings))
    }

    /// Puts the two records into a change. After an `Err` one of them may stand there.
    pub fn to_records(&self, alloc: Global, change: &mut Change) -> Result<(), NoMemory>
        ensures put { OnOk result (change.new.put
            ≡ change.old.put ++ records_of_templates self.now) }
        ensures gone { change.new.gone ≡ change.old.gone }
    {
        let templates = templates_value(alloc, self.list())?;
        change
            .put
            .push((only_key(record_kind::TEMPLATES), templates))?;
        let settings = settings_value(alloc, self.settings())?;
        change.put.push((only_key(record_kind::SETTINGS), settings))
    }

    /// The table whose records these are, or None where one of the two isn't there or isn't of the
    /// format, or there is another of their kinds.
    pub fn from_records(alloc: Global, records: &Records) -> Result<Option<TemplateTable>, NoMemory>
        // What is read is a table that has these records.
        ensures found { IfOk result (λ read. IfSome read
            (λ t. IsTemplateTable t × (of_kinds is_key_of_templates records.now
            ≡ records_of_templates t))) }
        // A table that has these records is read.
        ensures only { IfOk result (λ read. (t : Table) → IsTemplateTable t
            → of_kinds is_key_of_templates records.now ≡ records_of_templates t → read ≡ Some t) }
    {
        TemplateTable::read(alloc, records)
    }

    #[tactic(auto, using(crate::proofs::ReadingLaws::said_templates_allowed, crate::proofs::ReadingLaws::said_settings_allowed))]
    fn read(alloc: Global, records: &Records) -> Result<Option<TemplateTable>, NoMemory>
        ensures { IfOk result (λ read. read ≡ table_of (of_kinds is_key_of_templates records.now)) }
    {
        let mut left = records.iter();
        let Some((key, value)) = next_mine(&mut left) else {
            return Ok(None);
        };
        let Some(templates) = templates_in(alloc, key, value)? else {
            return Ok(None);
        };
        let Some((key, value)) = next_mine(&mut left) else {
            return Ok(None);
        };
        let Some(settings) = settings_in(alloc, key, value)? else {
            return Ok(None);
        };
        if next_mine(&mut left).is_some() {
            return Ok(None);
        }
        Ok(Some(TemplateTable::new(templates, settings)))
    }
}

/// The same templates once more.
fn copies(alloc: Global, templates: &[Template]) -> Result<List<Template>, NoMemory>
    ensures { IfOk result (λ copies. copies ≡ templates.now) }
{
    let mut copies = List::new(alloc);
    for template in templates {
        copies.push(template.copy()?)?;
    }
    Ok(copies)
}

/// The key of the one record of a kind.
fn only_key(kind: u16) -> Key
    ensures { result ≡ record { kind = kind; a = 0; b = 0 } }
{
    Key { kind, a: 0, b: 0 }
}

/// The next record of templates or settings.
fn next_mine<'a>(left: &mut Iter<'a, Key, Value>) -> Option<(Key, &'a Value)>
    ensures none { IfNone result (of_kinds is_key_of_templates left.old ≡ []) }
    ensures some { IfSome result (λ e. of_kinds is_key_of_templates left.old
        ≡ (e.0, e.1.now) ∷ of_kinds is_key_of_templates left.new) }
{
    while let Some((key, value)) = left.next() {
        if is_mine(*key) {
            return Some((*key, value));
        }
    }
    None
}

fn is_mine(key: Key) -> bool
    ensures { result ≡ is_key_of_templates key }
{
    key.kind == record_kind::TEMPLATES || key.kind == record_kind::SETTINGS
}

/// How many names are before a name.
fn place(templates: &[Template], name: &Name) -> usize
    requires { names_ascend templates.now ≡ true }
    ensures place { result ≡ count_of_names_before name.now templates.now }
    ensures bound { result ≤ length templates.now }
{
    templates.partition_point(|template| template.name.folded_cmp(name).is_lt())
}

#[tactic(auto, using(crate::proofs::Places::named_here))]
fn find<'a>(templates: &'a [Template], name: &Name) -> Option<&'a Template>
    requires { names_ascend templates.now ≡ true }
    ensures { option_copied result ≡ template_named name.now templates.now }
{
    let first = place(templates, name);
    if_same(name, first_from(templates, first))
}

/// The template with this index.
fn first_from(templates: &[Template], index: usize) -> Option<&Template>
    requires { index ≤ length templates.now }
    ensures { option_copied result ≡ slice_get (drop index templates.now) 0 }
{
    templates[index..].first()
}

/// The template, if it has this name.
fn if_same<'a>(name: &Name, found: Option<&'a Template>) -> Option<&'a Template>
    ensures { option_copied result ≡ if_same name.now (option_copied found.entry) }
{
    let template = found?;
    if name.is_same(template.name()) {
        Some(template)
    } else {
        None
    }
}

fn has(templates: &[Template], name: &Name) -> bool
    requires { names_ascend templates.now ≡ true }
    ensures { result ≡ is_some (template_named name.now templates.now) }
{
    find(templates, name).is_some()
}

fn put_in(templates: &mut Vec<Template>, template: Template) -> Result<(), NoMemory>
    requires { names_ascend templates.old.items ≡ true }
    ensures ok { OnOk result (templates.new.items
        ≡ with_template_in_order template templates.old.items) }
    ensures err { OnErr result (templates.new.items ≡ templates.old.items) }
{
    let index = place(templates, template.name());
    if has(templates, template.name()) {
        set_at(templates, index, template);
        return Ok(());
    }
    insert_at(templates, index, template)
}

fn set_at(templates: &mut Vec<Template>, index: usize, template: Template)
    requires { index < length templates.old.items }
    ensures { templates.new.items ≡ slice_set templates.old.items index template }
{
    templates[index] = template;
}

fn insert_at(
    templates: &mut Vec<Template>,
    index: usize,
    template: Template,
) -> Result<(), NoMemory>
    requires { index ≤ length templates.old.items }
    ensures ok { OnOk result (templates.new.items ≡ insert templates.old.items index template) }
    ensures err { OnErr result (templates.new.items ≡ templates.old.items) }
{
    templates.insert(index, template).map_err(|_| NoMemory)
}

fn remove_from(templates: &mut Vec<Template>, name: &Name) -> bool
    requires { names_ascend templates.old.items ≡ true }
    ensures there { result ≡ is_some (template_named name.now templates.old.items) }
    ensures after { templates.new.items ≡ without_template name.now templates.old.items }
{
    if !has(templates, name) {
        return false;
    }
    let index = place(templates, name);
    remove_at(templates, index);
    true
}

fn remove_at(templates: &mut Vec<Template>, index: usize)
    requires { index < length templates.old.items }
    ensures { templates.new.items ≡ remove templates.old.items index }
{
    let _ = templates.remove(index);
}
