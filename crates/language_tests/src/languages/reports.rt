// The lines of reports, of which each is made once.
use crate::languages::play::{Wrong, both, has_lines, row, word};
use asm_base::{List, Path, Text};
use asmcmd::{
    AttrRow, DiskRow, GroupRow, TemplateRow, attribute_lines, disk_lines, group_lines, path_lines,
    template_lines,
};
use std::alloc::Global;

fn group_row(alloc: Global, state: &[u8]) -> Option<GroupRow> {
    let words = both(word(alloc, state), word(alloc, b"EXTERN"));
    let names = both(word(alloc, b"N"), word(alloc, b"DATA"));
    let ((state, kind), (rebal, name)) = both(words, names)?;
    Some(GroupRow {
        state,
        kind,
        rebal,
        sector: 512,
        block: 4096,
        au: 4096,
        total: 1024,
        free: 754,
        offline: 0,
        name,
    })
}

fn groups(alloc: Global, rows: &[GroupRow]) -> Option<List<Text>> {
    group_lines(alloc, rows).ok()
}

fn are_groups_listed(alloc: Global) -> bool {
    match both(
        group_row(alloc, b"MOUNTED"),
        group_row(alloc, b"DISMOUNTED"),
    ) {
        Some((mounted, dismounted)) => {
            let rows = [mounted, dismounted];
            let lines = groups(alloc, &rows);
            drop(rows);
            let text =
                b"State Type Rebal Sector Block AU Total Free Offline Name\nMOUNTED EXTERN N 512 4096 4096 1024 754 0 DATA\nDISMOUNTED - - - - - - - - DATA\n";
            has_lines(alloc, lines, text)
        }
        None => false,
    }
}

fn disk_row(alloc: Global) -> Option<DiskRow> {
    let words = both(word(alloc, b"Online"), word(alloc, b"f2"));
    let names = both(word(alloc, b"QUORUM"), word(alloc, b"DATA_0003"));
    let ((mode, failgroup), (kind, name)) = both(words, names)?;
    Some(DiskRow {
        number: 3,
        mode,
        failgroup,
        kind,
        total: 64,
        free: 55,
        name,
    })
}

fn disks(alloc: Global, rows: &[DiskRow]) -> Option<List<Text>> {
    disk_lines(alloc, rows).ok()
}

fn is_disk_listed(alloc: Global) -> bool {
    match disk_row(alloc) {
        Some(disk) => {
            let rows = [disk];
            let lines = disks(alloc, &rows);
            drop(rows);
            let text =
                b"Number Mode Failgroup Kind Total Free Name\n3 Online f2 QUORUM 64 55 DATA_0003\n";
            has_lines(alloc, lines, text)
        }
        None => false,
    }
}

fn template_row(alloc: Global) -> Option<TemplateRow> {
    let words = both(word(alloc, b"CONTROLFILE"), word(alloc, b"HIGH"));
    let others = both(word(alloc, b"FINE"), word(alloc, b"Y"));
    let ((name, redund), (striped, sys)) = both(words, others)?;
    Some(TemplateRow {
        name,
        redund,
        striped,
        sys,
    })
}

fn templates(alloc: Global, rows: &[TemplateRow]) -> Option<List<Text>> {
    template_lines(alloc, rows).ok()
}

fn is_template_listed(alloc: Global) -> bool {
    match template_row(alloc) {
        Some(template) => {
            let rows = [template];
            let lines = templates(alloc, &rows);
            drop(rows);
            has_lines(
                alloc,
                lines,
                b"Name Redund Striped Sys\nCONTROLFILE HIGH FINE Y\n",
            )
        }
        None => false,
    }
}

fn attributes(alloc: Global, rows: &[AttrRow]) -> Option<List<Text>> {
    attribute_lines(alloc, rows).ok()
}

fn is_attribute_listed(alloc: Global) -> bool {
    match both(word(alloc, b"disk_repair_time"), word(alloc, b"300s")) {
        Some((name, value)) => {
            let rows = [AttrRow { name, value }];
            let lines = attributes(alloc, &rows);
            drop(rows);
            has_lines(alloc, lines, b"Name Value\ndisk_repair_time 300s\n")
        }
        None => false,
    }
}

fn found(alloc: Global, paths: &[Path]) -> Option<List<Text>> {
    path_lines(alloc, paths).ok()
}

fn path(alloc: Global, bytes: &[u8]) -> Option<Path> {
    match Path::read(alloc, bytes) {
        Ok(path) => path,
        Err(_) => None,
    }
}

fn are_paths_listed(alloc: Global) -> bool {
    let one = path(alloc, b"+DATA/o/DATAFILE/u.256.1");
    match both(one, path(alloc, b"+DATA/x")) {
        Some((one, other)) => {
            let paths = [one, other];
            let lines = found(alloc, &paths);
            drop(paths);
            has_lines(alloc, lines, b"+DATA/o/DATAFILE/u.256.1\n+DATA/x\n")
        }
        None => false,
    }
}

pub fn play_rows(alloc: Global) -> Result<(), Wrong> {
    row("groups are listed", are_groups_listed(alloc))?;
    row("disks are listed", is_disk_listed(alloc))?;
    row("templates are listed", is_template_listed(alloc))?;
    row("attributes are listed", is_attribute_listed(alloc))?;
    row("paths are listed", are_paths_listed(alloc))?;
    row(
        "no paths are listed",
        has_lines(alloc, found(alloc, &[]), b""),
    )
}
