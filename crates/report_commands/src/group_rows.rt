// The rows of lsdg, and its lines.
ghost use Rattle.std.specs.Prelude.{◌≡◌, IfErr, IfOk};
ghost use Rattle.report_commands.specs.GroupRows.{AreGroupsTold, AreLinesOf, AreAskedRows, IsNoGroup, IsRowOf, is_asked, is_group_there};

use asm_base::{List, Name, NoMemory, Text};
use asmcmd::{GroupRow, group_lines};
use group_reports::{dismounted_row, group_row};
use refusal_lines::Refusal;
use session::{Entry, GroupName, Session};
use std::alloc::Global;

/// The row of a group of the session, under the name by which it is kept.
#[tactic(auto, using(crate::proofs::GroupLists::mounted_is, crate::proofs::GroupLists::dismounted_is))]
fn row_of(alloc: Global, key: &GroupName, entry: &Entry) -> Result<GroupRow, NoMemory>
    ensures { IfOk result (IsRowOf key.now.name entry.now.group) }
{
    let m = &entry.group;
    if entry.is_mounted() {
        group_row(alloc, &key.name, m.catalog(), m.status())
    } else {
        dismounted_row(alloc, &key.name)
    }
}

/// Whether a group is asked for: it has this name, or none is said.
fn is_asked_for(group: &Option<Name>, key: &GroupName) -> bool
    ensures { result ≡ is_asked group.now key.now.name }
{
    match group {
        Some(name) => key.name.is_same(name),
        None => true,
    }
}

/// The rows of the group of a name, or of all groups, in the order of mounting.
#[tactic(auto, using(crate::proofs::GroupLists::asked_more, crate::proofs::GroupLists::asked_not, crate::proofs::GroupLists::asked_end))]
fn group_rows(
    session: &Session,
    alloc: Global,
    group: &Option<Name>,
) -> Result<Vec<GroupRow>, NoMemory>
    ensures { IfOk result (λ rows. AreAskedRows session.now group.now rows.items) }
{
    let mut rows = Vec::new(alloc);
    for (key, entry) in session.groups().iter() {
        if is_asked_for(group, key) {
            rows.push(row_of(alloc, key, entry)?).map_err(|_| NoMemory)?;
        }
    }
    Ok(rows)
}

/// Their lines, below a head line.
fn lines_of(session: &Session, alloc: Global, group: &Option<Name>) -> Result<List<Text>, NoMemory>
    ensures { IfOk result (AreLinesOf session.now group.now) }
{
    // Its clauses show that each entry has its group, and its state.
    let _groups = session.groups();
    let rows = group_rows(session, alloc, group)?;
    group_lines(alloc, &rows)
}

/// Whether a group of the name is in the session, where one is said.
fn is_there(session: &Session, group: &Option<Name>) -> bool
    ensures { result ≡ is_group_there session.now.entries group.now }
{
    match group {
        Some(name) => session.has(name),
        None => true,
    }
}

/// What lsdg tells of the group of a name, or of all groups in the order of mounting. NoGroup: no
/// group has the name.
pub fn groups_told(
    session: &Session,
    alloc: Global,
    group: &Option<Name>,
) -> Result<List<Text>, Refusal>
    ensures told { IfOk result (AreGroupsTold session.now group.now) }
    ensures cause { IfErr result (IsNoGroup session.now.entries group.now) }
{
    if !is_there(session, group) {
        return Err(Refusal::NoGroup);
    }
    match lines_of(session, alloc, group) {
        Ok(lines) => Ok(lines),
        Err(NoMemory) => Err(Refusal::NoMemory),
    }
}
