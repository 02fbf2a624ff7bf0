//! The clauses of ALTER DISKGROUP, written.

ghost use Rattle.std.specs.Prelude.{◌≡◌, IfOk};
ghost use Rattle.asm_world.specs.Grammar as g;
ghost use Rattle.asm_world.specs.Statement as s;
ghost use Rattle.asm_world.specs.Writing.{attribute_value, redundancy_value, stripe_value, words_value};
ghost use Rattle.written_sql.specs.Lines as lines;
ghost use Rattle.group_sql.specs.Redundancies.{redundancy_said};
ghost use Rattle.group_sql.specs.Said.{clause_said, disks_said, maybe_kind_said};

use crate::line::Line;
use crate::written_disks::{
    write_after, write_drops, write_failgroups, write_force, write_in_failgroup, write_rebalance,
    write_rebalanced, write_size, write_some_disks, write_wait,
};
use asm_base::{Name, NoMemory, Redundancy, Stripe, Text};
use group_sql::{
    Attribute, Clause, Disks, DroppedDisk, FailgroupKind, NewFailgroup, Rebalance, TemplateWords,
};

fn write_redundancy(line: Line, redundancy: Redundancy) -> Result<Line, NoMemory>
    ensures { IfOk result (λ longer. longer
        ≡ lines.with_value g.redundancy (redundancy_value (redundancy_said redundancy)) line) }
{
    match redundancy {
        Redundancy::Unprotected => line.key(b"UNPROTECTED"),
        Redundancy::Mirror => line.key(b"MIRROR"),
        Redundancy::High => line.key(b"HIGH"),
    }
}

fn write_stripe(line: Line, stripe: Stripe) -> Result<Line, NoMemory>
    ensures { IfOk result (λ longer. longer
        ≡ lines.with_value g.stripe (stripe_value stripe) line) }
{
    match stripe {
        Stripe::Coarse => line.key(b"COARSE"),
        Stripe::Fine => line.key(b"FINE"),
    }
}

/// A redundancy before a stripe. None where neither is said.
fn write_words(line: Line, words: &TemplateWords) -> Result<Option<Line>, NoMemory>
    ensures { IfOk result (λ longer. longer
        ≡ lines.put_maybe g.template_words (words_value words.now.redundancy words.now.stripe)
        line) }
{
    match (words.redundancy, words.stripe) {
        (Some(redundancy), Some(stripe)) => {
            let line = write_stripe(write_redundancy(line, redundancy)?, stripe)?;
            Ok(Some(line))
        }
        (Some(redundancy), None) => Ok(Some(write_redundancy(line, redundancy)?)),
        (None, Some(stripe)) => Ok(Some(write_stripe(line, stripe)?)),
        (None, None) => Ok(None),
    }
}

/// The words of a template in brackets. None where no word is said.
#[tactic(auto, using(crate::proofs::Wholes::bracketed_put))]
fn write_bracketed(line: Line, words: &TemplateWords) -> Result<Option<Line>, NoMemory>
    ensures { IfOk result (λ longer. longer
        ≡ lines.put_maybe lines.bracketed_words (lines.bracketed_value words.now) line) }
{
    let Some(line) = write_words(line.mark(b'(')?, words)? else {
        return Ok(None);
    };
    Ok(Some(line.mark(b')')?))
}

/// TEMPLATE, its name and its words. None where no word is said.
#[tactic(auto, using(crate::proofs::Wholes::template_put))]
fn write_template(line: Line, name: &Name, words: &TemplateWords) -> Result<Option<Line>, NoMemory>
    ensures { IfOk result (λ longer. longer
        ≡ lines.put_maybe g.template (lines.template_value name.now words.now) line) }
{
    let line = line.key(b"TEMPLATE")?.name(name)?;
    write_bracketed(line.key(b"ATTRIBUTES")?, words)
}

/// An attribute's name and its value.
pub fn write_attribute(line: Line, attribute: &Attribute) -> Result<Line, NoMemory>
    ensures { IfOk result (λ longer. longer
        ≡ lines.with_value g.attribute (attribute_value attribute.now) line) }
{
    let line = line.quoted(&attribute.name)?.mark(b'=')?;
    line.quoted(&attribute.value)
}

/// ADD and failure groups. None where there is none, or one has no disk.
#[tactic(auto, using(crate::proofs::Wholes::added_disks))]
fn add_disks(
    line: Line,
    groups: &[NewFailgroup],
    rebalance: Option<Rebalance>,
) -> Result<Option<Line>, NoMemory>
    ensures { IfOk result (λ longer. longer
        ≡ lines.clause_line (s.AddDisks groups.now rebalance) line) }
{
    let Some(line) = write_failgroups(line.key(b"ADD")?, groups)? else {
        return Ok(None);
    };
    Ok(Some(write_rebalanced(line, rebalance)?))
}

/// ADD TEMPLATE. None where no word is said.
#[tactic(auto, using(crate::proofs::Wholes::added_template))]
fn add_template(line: Line, name: &Name, words: &TemplateWords) -> Result<Option<Line>, NoMemory>
    ensures { IfOk result (λ longer. longer
        ≡ lines.clause_line (s.AddTemplate name.now words.now) line) }
{
    write_template(line.key(b"ADD")?, name, words)
}

/// ADD DIRECTORY.
#[tactic(auto, unfolding(crate::specs::Lines::clause_line))]
fn add_directory(line: Line, path: &Text) -> Result<Option<Line>, NoMemory>
    ensures { IfOk result (λ longer. longer ≡ lines.clause_line (s.AddDirectory path.now) line) }
{
    let line = line.key(b"ADD")?.key(b"DIRECTORY")?.quoted(path)?;
    Ok(Some(line))
}

/// ADD ALIAS.
#[tactic(auto, unfolding(crate::specs::Lines::clause_line))]
fn add_alias(line: Line, alias: &Text, path: &Text) -> Result<Option<Line>, NoMemory>
    ensures { IfOk result (λ longer. longer
        ≡ lines.clause_line (s.AddAlias alias.now path.now) line) }
{
    let line = line.key(b"ADD")?.key(b"ALIAS")?.quoted(alias)?;
    let line = line.key(b"FOR")?.quoted(path)?;
    Ok(Some(line))
}

/// DROP DISK. None where there is no disk.
#[tactic(auto, using(crate::proofs::Wholes::dropped_disks))]
fn drop_disks(
    line: Line,
    disks: &[DroppedDisk],
    rebalance: Option<Rebalance>,
) -> Result<Option<Line>, NoMemory>
    ensures { IfOk result (λ longer. longer
        ≡ lines.clause_line (s.DropDisks disks.now rebalance) line) }
{
    let Some(line) = write_drops(line.key(b"DROP")?.key(b"DISK")?, disks)? else {
        return Ok(None);
    };
    Ok(Some(write_rebalanced(line, rebalance)?))
}

/// DROP DISKS.
#[tactic(auto, unfolding(crate::specs::Lines::clause_line))]
fn drop_failgroup(
    line: Line,
    kind: Option<FailgroupKind>,
    name: &Name,
    force: bool,
    rebalance: Option<Rebalance>,
) -> Result<Option<Line>, NoMemory>
    ensures { IfOk result (λ longer. longer
        ≡ lines.clause_line (s.DropFailgroup (maybe_kind_said kind) name.now force rebalance)
        line) }
{
    let line = line.key(b"DROP")?.key(b"DISKS")?;
    let line = write_force(write_in_failgroup(line, kind, name)?, force)?;
    Ok(Some(write_rebalanced(line, rebalance)?))
}

/// DROP TEMPLATE.
#[tactic(auto, unfolding(crate::specs::Lines::clause_line))]
fn drop_template(line: Line, name: &Name) -> Result<Option<Line>, NoMemory>
    ensures { IfOk result (λ longer. longer ≡ lines.clause_line (s.DropTemplate name.now) line) }
{
    let line = line.key(b"DROP")?.key(b"TEMPLATE")?.name(name)?;
    Ok(Some(line))
}

/// DROP DIRECTORY.
#[tactic(auto, unfolding(crate::specs::Lines::clause_line))]
fn drop_directory(line: Line, path: &Text) -> Result<Option<Line>, NoMemory>
    ensures { IfOk result (λ longer. longer ≡ lines.clause_line (s.DropDirectory path.now) line) }
{
    let line = line.key(b"DROP")?.key(b"DIRECTORY")?.quoted(path)?;
    Ok(Some(line))
}

/// DROP ALIAS.
#[tactic(auto, unfolding(crate::specs::Lines::clause_line))]
fn drop_alias(line: Line, path: &Text) -> Result<Option<Line>, NoMemory>
    ensures { IfOk result (λ longer. longer ≡ lines.clause_line (s.DropAlias path.now) line) }
{
    let line = line.key(b"DROP")?.key(b"ALIAS")?.quoted(path)?;
    Ok(Some(line))
}

/// DROP FILE.
#[tactic(auto, unfolding(crate::specs::Lines::clause_line))]
fn drop_file(line: Line, path: &Text) -> Result<Option<Line>, NoMemory>
    ensures { IfOk result (λ longer. longer ≡ lines.clause_line (s.DropFile path.now) line) }
{
    let line = line.key(b"DROP")?.key(b"FILE")?.quoted(path)?;
    Ok(Some(line))
}

/// RESIZE ALL.
#[tactic(auto, unfolding(crate::specs::Lines::clause_line))]
fn resize_all(
    line: Line,
    size: Option<u64>,
    rebalance: Option<Rebalance>,
) -> Result<Option<Line>, NoMemory>
    ensures { IfOk result (λ longer. longer ≡ lines.clause_line (s.ResizeAll size rebalance) line) }
{
    let line = write_size(line.key(b"RESIZE")?.key(b"ALL")?, size)?;
    Ok(Some(write_rebalanced(line, rebalance)?))
}

/// RESIZE DISK.
#[tactic(auto, unfolding(crate::specs::Lines::clause_line))]
fn resize_disk(
    line: Line,
    name: &Name,
    size: Option<u64>,
    rebalance: Option<Rebalance>,
) -> Result<Option<Line>, NoMemory>
    ensures { IfOk result (λ longer. longer
        ≡ lines.clause_line (s.ResizeDisk name.now size rebalance) line) }
{
    let line = line.key(b"RESIZE")?.key(b"DISK")?.name(name)?;
    let line = write_size(line, size)?;
    Ok(Some(write_rebalanced(line, rebalance)?))
}

/// MOUNT.
#[tactic(auto, unfolding(crate::specs::Lines::clause_line))]
fn mount(line: Line, force: bool) -> Result<Option<Line>, NoMemory>
    ensures { IfOk result (λ longer. longer ≡ lines.clause_line (s.Mount force) line) }
{
    let line = write_force(line.key(b"MOUNT")?, force)?;
    Ok(Some(line))
}

/// DISMOUNT.
#[tactic(auto, unfolding(crate::specs::Lines::clause_line))]
fn dismount(line: Line, force: bool) -> Result<Option<Line>, NoMemory>
    ensures { IfOk result (λ longer. longer ≡ lines.clause_line (s.Dismount force) line) }
{
    let line = write_force(line.key(b"DISMOUNT")?, force)?;
    Ok(Some(line))
}

/// ONLINE ALL.
#[tactic(auto, unfolding(crate::specs::Lines::clause_line))]
fn online_all(line: Line, wait: bool) -> Result<Option<Line>, NoMemory>
    ensures { IfOk result (λ longer. longer ≡ lines.clause_line (s.Online s.All wait) line) }
{
    let line = write_wait(line.key(b"ONLINE")?.key(b"ALL")?, wait)?;
    Ok(Some(line))
}

/// ONLINE. None where no disk is named.
#[tactic(auto, using(crate::proofs::Wholes::onlined))]
fn online(line: Line, disks: &Disks, wait: bool) -> Result<Option<Line>, NoMemory>
    ensures { IfOk result (λ longer. longer
        ≡ lines.clause_line (s.Online (disks_said disks.now) wait) line) }
{
    let Some(line) = write_some_disks(line.key(b"ONLINE")?, disks)? else {
        return Ok(None);
    };
    Ok(Some(write_wait(line, wait)?))
}

/// OFFLINE. None where no disk is named.
#[tactic(auto, using(crate::proofs::Wholes::offlined))]
fn offline(line: Line, disks: &Disks, minutes: Option<u64>) -> Result<Option<Line>, NoMemory>
    ensures { IfOk result (λ longer. longer
        ≡ lines.clause_line (s.Offline (disks_said disks.now) minutes) line) }
{
    let Some(line) = write_some_disks(line.key(b"OFFLINE")?, disks)? else {
        return Ok(None);
    };
    Ok(Some(write_after(line, minutes)?))
}

/// MODIFY TEMPLATE. None where no word is said.
#[tactic(auto, using(crate::proofs::Wholes::modified_template))]
fn modify_template(line: Line, name: &Name, words: &TemplateWords) -> Result<Option<Line>, NoMemory>
    ensures { IfOk result (λ longer. longer
        ≡ lines.clause_line (s.ModifyTemplate name.now words.now) line) }
{
    write_template(line.key(b"MODIFY")?, name, words)
}

/// RENAME DIRECTORY.
#[tactic(auto, unfolding(crate::specs::Lines::clause_line))]
fn rename_directory(line: Line, old: &Text, new: &Text) -> Result<Option<Line>, NoMemory>
    ensures { IfOk result (λ longer. longer
        ≡ lines.clause_line (s.RenameDirectory old.now new.now) line) }
{
    let line = line.key(b"RENAME")?.key(b"DIRECTORY")?.quoted(old)?;
    let line = line.key(b"TO")?.quoted(new)?;
    Ok(Some(line))
}

/// RENAME ALIAS.
#[tactic(auto, unfolding(crate::specs::Lines::clause_line))]
fn rename_alias(line: Line, old: &Text, new: &Text) -> Result<Option<Line>, NoMemory>
    ensures { IfOk result (λ longer. longer
        ≡ lines.clause_line (s.RenameAlias old.now new.now) line) }
{
    let line = line.key(b"RENAME")?.key(b"ALIAS")?.quoted(old)?;
    let line = line.key(b"TO")?.quoted(new)?;
    Ok(Some(line))
}

/// SET ATTRIBUTE.
#[tactic(auto, unfolding(crate::specs::Lines::clause_line))]
fn set_attribute(line: Line, attribute: &Attribute) -> Result<Option<Line>, NoMemory>
    ensures { IfOk result (λ longer. longer
        ≡ lines.clause_line (s.SetAttribute attribute.now) line) }
{
    let line = write_attribute(line.key(b"SET")?.key(b"ATTRIBUTE")?, attribute)?;
    Ok(Some(line))
}

/// A clause. None where a list that has a member in the language has none, or a template has no
/// word.
#[tactic(auto, unfolding(crate::specs::Lines::clause_line))]
pub fn write_clause(line: Line, clause: &Clause) -> Result<Option<Line>, NoMemory>
    ensures { IfOk result (λ longer. longer ≡ lines.clause_line (clause_said clause.now) line) }
{
    match clause {
        Clause::AddDisks { groups, rebalance } => add_disks(line, groups.as_slice(), *rebalance),
        Clause::AddTemplate { name, words } => add_template(line, name, words),
        Clause::AddDirectory { path } => add_directory(line, path),
        Clause::AddAlias { alias, path } => add_alias(line, alias, path),
        Clause::DropDisks { disks, rebalance } => drop_disks(line, disks.as_slice(), *rebalance),
        Clause::DropFailgroup {
            kind,
            name,
            force,
            rebalance,
        } => drop_failgroup(line, *kind, name, *force, *rebalance),
        Clause::DropTemplate { name } => drop_template(line, name),
        Clause::DropDirectory { path } => drop_directory(line, path),
        Clause::DropAlias { path } => drop_alias(line, path),
        Clause::DropFile { path } => drop_file(line, path),
        Clause::UndropDisks => Ok(Some(line.key(b"UNDROP")?.key(b"DISKS")?)),
        Clause::ResizeAll { size, rebalance } => resize_all(line, *size, *rebalance),
        Clause::ResizeDisk {
            name,
            size,
            rebalance,
        } => resize_disk(line, name, *size, *rebalance),
        Clause::Rebalancing(rebalance) => Ok(Some(write_rebalance(line, *rebalance)?)),
        Clause::Check => Ok(Some(line.key(b"CHECK")?)),
        Clause::Mount { force } => mount(line, *force),
        Clause::Dismount { force } => dismount(line, *force),
        Clause::OnlineAll { wait } => online_all(line, *wait),
        Clause::Online { disks, wait } => online(line, disks, *wait),
        Clause::Offline { disks, minutes } => offline(line, disks, *minutes),
        Clause::ModifyTemplate { name, words } => modify_template(line, name, words),
        Clause::RenameDirectory { old, new } => rename_directory(line, old, new),
        Clause::RenameAlias { old, new } => rename_alias(line, old, new),
        Clause::SetAttribute(attribute) => set_attribute(line, attribute),
    }
}
