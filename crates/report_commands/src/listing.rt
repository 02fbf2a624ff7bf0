// What ls tells: the names in a group, and at `+` the mounted groups.
ghost use Rattle.std.specs.Prelude.{◌≡◌, ◌⊎◌, ◌≤◌, IfErr, IfOk, MatchBool, OnOk, [], false, is_some, length};
ghost use Rattle.std.specs.List.{insert};
ghost use Rattle.std.specs.Option.{option_copied, option_map};
ghost use Rattle.refusal_lines.specs.declared.refusal.Refusal.TheVariants as cause;
ghost use Rattle.asm_group.specs.Names.{is_same_name};
ghost use Rattle.asm_world.specs.Listings.{has_star};
ghost use Rattle.asm_world.specs.Paths.{resolved_pattern};
ghost use Rattle.asm_world.specs.World.{entry_among};
ghost use Rattle.asmcmd.specs.Texts.{ls_row_lines};
ghost use Rattle.catalog_tables.specs.Rules.{KeepsRules};
ghost use Rattle.group_reports.specs.Listing.{AreRowsAt, IsListCause};
ghost use Rattle.report_laws.specs.Lists.{matching_name, names_before};
ghost use Rattle.session.specs.Entries.{entry_view};
ghost use Rattle.report_commands.specs.Listed.{AreListLines, AreRowsListed, AreRowsOfGroup, IsRefusedIn, IsUnlisted, names_matching, rows_of_names};

use asm_base::{List, Name, NoMemory, Text};
use asmcmd::{LsRow, ls_lines};
use group_reports::{directory_row, rows_listed};
use refusal_lines::Refusal;
use session::{Entry, GroupName, Mounted, Session};
use std::alloc::Global;
use verb_paths::{has_star, is_match, resolve_pattern};

/// How many of some names come before a name in folded order.
fn names_before(name: &Name, names: &[Name]) -> usize
    ensures before { result ≡ names_before name.now names.now }
    ensures within { result ≤ length names.now }
{
    let mut before = 0;
    for other in names {
        if other.folded_cmp(name).is_lt() {
            before += 1;
        }
    }
    before
}

/// Puts a name among others, which are in folded order.
fn put_in_order(names: &mut Vec<Name>, name: Name) -> Result<(), NoMemory>
    ensures { OnOk result (names.new.items
        ≡ insert names.old.items (names_before name names.old.items) name) }
{
    let at = names_before(&name, names);
    names.insert(at, name).map_err(|_| NoMemory)
}

/// The rows of directories of these names.
fn directory_rows(alloc: Global, names: &[Name]) -> Result<Vec<LsRow>, NoMemory>
    ensures { IfOk result (λ rows. rows.items ≡ rows_of_names names.now) }
{
    let mut rows = Vec::new(alloc);
    for name in names {
        let row = directory_row(alloc, name)?;
        rows.push(row).map_err(|_| NoMemory)?;
    }
    Ok(rows)
}

/// Whether a group is mounted and its name matches a pattern.
#[tactic(auto, using(crate::proofs::GroupNames::matching_on, crate::proofs::GroupNames::matching_off))]
fn is_matching(pattern: &[u8], key: &GroupName, entry: &Entry) -> bool
    ensures { result ≡ is_some (matching_name pattern.now (entry_view (key.now, entry.now))) }
{
    entry.is_mounted() && is_match(pattern, key.name.as_bytes())
}

/// The names of the mounted groups that match a pattern, in folded order.
#[tactic(auto, using(crate::proofs::GroupNames::named_not, crate::proofs::GroupNames::named_end))]
fn names_matching(session: &Session, alloc: Global, pattern: &[u8]) -> Result<Vec<Name>, NoMemory>
    ensures { IfOk result (λ names. names.items ≡ names_matching pattern.now session.now.entries) }
{
    let mut names = Vec::new(alloc);
    for (key, entry) in session.groups().iter() {
        if is_matching(pattern, key, entry) {
            put_in_order(&mut names, key.name.copy()?)?;
        }
    }
    Ok(names)
}

/// The rows of these groups.
fn rows_matching(session: &Session, alloc: Global, pattern: &[u8]) -> Result<Vec<LsRow>, NoMemory>
    ensures { IfOk result (λ rows. rows.items
        ≡ rows_of_names (names_matching pattern.now session.now.entries)) }
{
    let names = names_matching(session, alloc, pattern)?;
    directory_rows(alloc, &names)
}

fn rows_of_groups(session: &Session, alloc: Global, pattern: &[u8]) -> Result<Vec<LsRow>, Refusal>
    ensures rows { IfOk result (λ rows. rows.items
        ≡ rows_of_names (names_matching pattern.now session.now.entries)) }
    ensures cause { IfErr result (λ refusal. refusal ≡ cause.NoMemory) }
{
    match rows_matching(session, alloc, pattern) {
        Ok(rows) => Ok(rows),
        Err(NoMemory) => Err(Refusal::NoMemory),
    }
}

/// The rows of ls at a path from the top, of which the first part is a group's name: at the top the
/// mounted groups.
fn rows_at(session: &Session, alloc: Global, parts: &[Text]) -> Result<Vec<LsRow>, Refusal>
    ensures rows { IfOk result (λ rows. AreRowsListed session.now parts.now rows.items) }
    ensures cause { IfErr result (IsUnlisted session.now parts.now) }
{
    match parts {
        [] => rows_of_groups(session, alloc, b"*"),
        [name] => rows_of_one(session, alloc, name.as_slice()),
        [name, rest @ ..] => rows_in_group(session, alloc, name.as_slice(), rest),
    }
}

/// The rows at one part: of a pattern the mounted groups that match, else those in the group of the
/// name.
fn rows_of_one(session: &Session, alloc: Global, name: &[u8]) -> Result<Vec<LsRow>, Refusal>
    ensures rows { IfOk result (λ rows. MatchBool (has_star name.now)
        (rows.items ≡ rows_of_names (names_matching name.now session.now.entries))
        (AreRowsOfGroup session.now name.now [] rows.items)) }
    ensures cause { IfErr result (λ refusal. (refusal ≡ cause.NoMemory)
        ⊎ ((has_star name.now ≡ false) × IsRefusedIn session.now name.now [] refusal)) }
{
    if has_star(name) {
        rows_of_groups(session, alloc, name)
    } else {
        rows_in_group(session, alloc, name, &[])
    }
}

/// Whether two texts are one name, without case.
fn is_same_text(text: &[u8], other: &[u8]) -> bool
    ensures { result ≡ is_same_name text.now other.now }
{
    text.eq_ignore_ascii_case(other)
}

/// The name under which the session has a group, by a text, which may be no name.
fn name_in<'a>(session: &'a Session, text: &[u8]) -> Option<&'a Name>
    ensures { option_copied result ≡ option_map (λ e. e.name)
        (entry_among session.now.entries text.now) }
{
    for (key, _) in session.groups().iter() {
        if is_same_text(key.name.as_bytes(), text) {
            return Some(&key.name);
        }
    }
    None
}

/// The rows in the mounted group of a name, which may be none.
fn rows_in_group(
    session: &Session,
    alloc: Global,
    name: &[u8],
    parts: &[Text],
) -> Result<Vec<LsRow>, Refusal>
    ensures rows { IfOk result (λ rows. AreRowsOfGroup session.now name.now parts.now rows.items) }
    ensures cause { IfErr result (λ refusal. (refusal ≡ cause.NoMemory)
        ⊎ IsRefusedIn session.now name.now parts.now refusal) }
{
    let Some(name) = name_in(session, name) else {
        return Err(Refusal::NoGroup);
    };
    match session.mounted(alloc, name) {
        Ok(m) => rows_of(alloc, m, parts),
        Err(refusal) => Err(refusal),
    }
}

/// The rows in a group, by tables that keep their rules.
fn rows_of(alloc: Global, m: &Mounted, parts: &[Text]) -> Result<Vec<LsRow>, Refusal>
    ensures rules { KeepsRules m.now.catalog.shape m.now.catalog.tables }
    ensures rows { IfOk result (λ rows. AreRowsAt m.now.catalog.tables m.now.name parts.now
        rows.items) }
    ensures cause { IfErr result (IsListCause m.now.catalog.tables parts.now) }
{
    // Its clause shows that the rules hold.
    let _group = m.catalog().shape();
    rows_listed(alloc, m.name(), m.catalog(), parts)
}

/// The lines of rows.
fn lines_of(alloc: Global, rows: &[LsRow], long: bool) -> Result<List<Text>, Refusal>
    ensures lines { IfOk result (λ lines. lines ≡ ls_row_lines long rows.now) }
    ensures cause { IfErr result (λ refusal. refusal ≡ cause.NoMemory) }
{
    match ls_lines(alloc, rows, long) {
        Ok(lines) => Ok(lines),
        Err(NoMemory) => Err(Refusal::NoMemory),
    }
}

/// The parts from the top to which the path of ls leads, where one is said, else those of the
/// place.
pub fn parts_led(
    alloc: Global,
    place: &[Name],
    path: &Option<Text>,
) -> Result<Option<List<Text>>, NoMemory>
    ensures { IfOk result (λ led. led ≡ resolved_pattern place.now path.now) }
{
    match path {
        Some(path) => resolve_pattern(alloc, place, Some(path.as_slice())),
        None => resolve_pattern(alloc, place, None),
    }
}

/// What ls tells at a path from the top. Its refusals in order: NoGroup, Dismounted, NoName, and
/// NotDirectory of what a pattern is looked for in.
pub fn listed(
    session: &Session,
    alloc: Global,
    parts: &[Text],
    long: bool,
) -> Result<List<Text>, Refusal>
    ensures lines { IfOk result (AreListLines session.now long parts.now) }
    ensures cause { IfErr result (IsUnlisted session.now parts.now) }
{
    match rows_at(session, alloc, parts) {
        Ok(rows) => lines_of(alloc, &rows, long),
        Err(refusal) => Err(refusal),
    }
}
