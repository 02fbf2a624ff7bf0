// The lines of the reports on one mounted group, and of those on a directory in it: du and find.
ghost use Rattle.std.specs.Prelude.{◌≡◌, ◌⊎◌, Err, IfErr, IfOk};
ghost use Rattle.std.specs.Option.{option_map};
ghost use Rattle.refusal_lines.specs.declared.refusal.Refusal.TheVariants.{NoMemory as WantOfMemory};
ghost use Rattle.asm_world.specs.Paths.{parts_of, resolved_or_here};
ghost use Rattle.group_reports.specs.Places.{directory_at};
ghost use Rattle.session.specs.Listing.{IsInGroup, IsPathCause};
ghost use Rattle.session.specs.Naming.{IsOutCause};
ghost use Rattle.report_commands.specs.Told.{AreFoundLines, IsUsageIn, attributes_told, checked_told, disks_told, found_told, templates_told, report_lines, usage_told};

use asm_base::{List, Name, NoMemory, Path, Text};
use asmcmd::{attribute_lines, check_lines, disk_lines, path_lines, template_lines, usage_lines};
use group_reports::{
    attribute_rows, check, directory_at, disk_rows, paths_found, template_rows, usage_below,
};
use refusal_lines::Refusal;
use session::{Mounted, Session};
use std::alloc::Global;
use verb_paths::target;

/// A report on one mounted group.
#[derive(Clone, Copy)]
pub enum Report {
    /// lsdsk.
    Disks,
    /// CHECK.
    Check,
    /// lstmpl.
    Templates,
    /// lsattr.
    Attributes,
}

fn disks_of(alloc: Global, m: &Mounted) -> Result<List<Text>, NoMemory>
    ensures { IfOk result (λ lines. lines ≡ disks_told m.now) }
{
    let rows = disk_rows(alloc, m.catalog(), m.status())?;
    disk_lines(alloc, &rows)
}

fn checked_of(alloc: Global, m: &Mounted) -> Result<List<Text>, NoMemory>
    ensures { IfOk result (λ lines. lines ≡ checked_told m.now) }
{
    let checked = check(m.catalog(), m.status());
    check_lines(alloc, checked.extents, checked.not_full)
}

fn templates_of(alloc: Global, m: &Mounted) -> Result<List<Text>, NoMemory>
    ensures { IfOk result (λ lines. lines ≡ templates_told m.now) }
{
    let rows = template_rows(alloc, m.catalog())?;
    template_lines(alloc, &rows)
}

fn attributes_of(alloc: Global, m: &Mounted) -> Result<List<Text>, NoMemory>
    ensures { IfOk result (λ lines. lines ≡ attributes_told m.now) }
{
    let rows = attribute_rows(alloc, m.catalog())?;
    attribute_lines(alloc, &rows)
}

/// The lines of a report on a group.
fn lines_of(alloc: Global, m: &Mounted, report: Report) -> Result<List<Text>, NoMemory>
    ensures { IfOk result (λ lines. lines ≡ report_lines report m.now) }
{
    match report {
        Report::Disks => disks_of(alloc, m),
        Report::Check => checked_of(alloc, m),
        Report::Templates => templates_of(alloc, m),
        Report::Attributes => attributes_of(alloc, m),
    }
}

/// What a report tells of a group.
fn told_of(alloc: Global, m: &Mounted, report: Report) -> Result<List<Text>, Refusal>
    ensures told { IfOk result (λ lines. lines ≡ report_lines report m.now) }
    ensures cause { IfErr result (λ refusal. refusal ≡ WantOfMemory) }
{
    match lines_of(alloc, m, report) {
        Ok(lines) => Ok(lines),
        Err(NoMemory) => Err(Refusal::NoMemory),
    }
}

/// What a report tells of the mounted group of a name. Its refusals in order: NoGroup, Dismounted.
pub fn told(
    session: &Session,
    alloc: Global,
    name: &Name,
    report: Report,
) -> Result<List<Text>, Refusal>
    ensures told { IfOk result (λ lines. IsInGroup session.now name.now
        (λ m. lines ≡ report_lines report m)) }
    ensures cause { IfErr result (IsOutCause session.now.entries name.now) }
{
    match session.mounted(alloc, name) {
        Ok(m) => told_of(alloc, m, report),
        Err(refusal) => Err(refusal),
    }
}

/// The directory of du: that to which the path leads, where one is said, else the place. None where
/// it comes to `+`.
pub fn directory_led(
    alloc: Global,
    place: &[Name],
    path: &Option<Text>,
) -> Result<Option<Path>, NoMemory>
    ensures { IfOk result (λ led. option_map (λ p. (p.group, p.parts)) led
        ≡ parts_of (resolved_or_here place.now path.now)) }
{
    match path {
        Some(path) => target(alloc, place, path.as_slice()),
        // A path without bytes leads to the place.
        None => target(alloc, place, b""),
    }
}

/// What the files below a directory take.
fn usage_of(alloc: Global, m: &Mounted, dir: &[Name]) -> Result<List<Text>, NoMemory>
    ensures { IfOk result (λ lines. lines ≡ usage_told m.now dir.now) }
{
    let usage = usage_below(alloc, m.name(), m.catalog(), dir)?;
    usage_lines(alloc, usage.used, usage.mirrored)
}

/// The same of the directory at a path.
fn usage_at(alloc: Global, m: &Mounted, path: &Path) -> Result<List<Text>, Refusal>
    ensures used { IfOk result (IsUsageIn m.now path.now.parts) }
    ensures cause { IfErr result (λ refusal.
        (directory_at m.now.catalog.tables path.now.parts ≡ Err refusal)
        ⊎ (refusal ≡ WantOfMemory)) }
{
    // Its clause shows that the rules hold.
    let _group = m.catalog().shape();
    directory_at(m.catalog(), path)?;
    match usage_of(alloc, m, path.parts.as_slice()) {
        Ok(lines) => Ok(lines),
        Err(NoMemory) => Err(Refusal::NoMemory),
    }
}

/// What du tells of the directory at a path. Its refusals in order: NoGroup, Dismounted, NoName,
/// NotDirectory.
pub fn used(session: &Session, alloc: Global, path: &Path) -> Result<List<Text>, Refusal>
    ensures used { IfOk result (λ lines. IsInGroup session.now path.now.group
        (λ m. IsUsageIn m path.now.parts lines)) }
    ensures cause { IfErr result (IsPathCause session.now path.now.group path.now.parts) }
{
    match session.mounted(alloc, &path.group) {
        Ok(m) => usage_at(alloc, m, path),
        Err(refusal) => Err(refusal),
    }
}

/// The paths below a directory whose last part matches a pattern.
fn found_of(
    alloc: Global,
    m: &Mounted,
    dir: &[Name],
    pattern: &[u8],
) -> Result<List<Text>, NoMemory>
    ensures { IfOk result (λ lines. lines ≡ found_told m.now dir.now pattern.now) }
{
    let paths = paths_found(alloc, m.name(), m.catalog(), dir, pattern)?;
    path_lines(alloc, &paths)
}

/// The same of the directory at a path.
fn found_at(alloc: Global, m: &Mounted, path: &Path, pattern: &[u8]) -> Result<List<Text>, Refusal>
    ensures found { IfOk result (AreFoundLines m.now path.now.parts pattern.now) }
    ensures cause { IfErr result (λ refusal.
        (directory_at m.now.catalog.tables path.now.parts ≡ Err refusal)
        ⊎ (refusal ≡ WantOfMemory)) }
{
    // Its clause shows that the rules hold.
    let _group = m.catalog().shape();
    directory_at(m.catalog(), path)?;
    match found_of(alloc, m, path.parts.as_slice(), pattern) {
        Ok(lines) => Ok(lines),
        Err(NoMemory) => Err(Refusal::NoMemory),
    }
}

/// What find tells of the directory at a path. Its refusals in order: NoGroup, Dismounted, NoName,
/// NotDirectory.
pub fn found(
    session: &Session,
    alloc: Global,
    path: &Path,
    pattern: &[u8],
) -> Result<List<Text>, Refusal>
    ensures found { IfOk result (λ lines. IsInGroup session.now path.now.group
        (λ m. AreFoundLines m path.now.parts pattern.now lines)) }
    ensures cause { IfErr result (IsPathCause session.now path.now.group path.now.parts) }
{
    match session.mounted(alloc, &path.group) {
        Ok(m) => found_at(alloc, m, path, pattern),
        Err(refusal) => Err(refusal),
    }
}
