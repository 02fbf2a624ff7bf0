// Lines of asmcmd that are read or refused, and short reports. A verb is dropped by a call, since
// what goes in place is proved in place.
use crate::languages::play::{Wrong, both, has_lines, row, table, word};
use asm_base::{List, Text};
use asmcmd::{LsRow, ReadError, Runs, check_lines, ls_lines, read_line, usage_lines};
use std::alloc::Global;

/// A line of each verb, with and without what may be absent.
const VERBS: [&[u8]; 36] = [
    b"dbcreate +DATA/o/DATAFILE/u 1M",
    b"dbcreate o/DATAFILE/u 512 scratch",
    b"dbwrite u.256.1 1K 61fF00",
    b"dbfill u.256.1 512K 512 6A",
    b"dbread u.256.1\t0 1024 \t",
    b"dbresize u.256.1 512K",
    b"ls",
    b"ls -l",
    b"ls +DATA",
    b"ls -l +DATA/o*",
    b"cd ..",
    b"pwd",
    b"mkdir +DATA/a",
    b"rm b.257.2",
    b"cp u.256.1 ./out",
    b"cp /out +DATA/o/DATAFILE/w",
    b"cp a b/DATAFILE/c",
    b"du",
    b"du o",
    b"find +DATA u*",
    b"mkalias u.256.1 +DATA/x",
    b"rmalias +DATA/X",
    b"lsdg",
    b"lsdg DATA",
    b"lsdsk DATA",
    b"lstmpl DATA",
    b"lsattr DATA",
    b"offline DATA DATA_0003",
    b"online DATA d1",
    b"rebal DATA 0004",
    // At the limits.
    b"rebal \t DATA\t18446744073709551615 ",
    b"lsdsk abcdefghijklmnopqrstuvwxyz$#_1",
    b"rm 0123456789012345678901234567890123456789012345678901234567890123456789012345678.",
    b"dbresize u 16777215T",
    b"ls +",
    b"ls -l *",
];

/// A line that is no verb, and where it is refused.
#[derive(Clone, Copy)]
struct Refused {
    line: &'static [u8],
    at: u64,
}

const REFUSED: [Refused; 29] = [
    Refused { line: b"", at: 0 },
    Refused { line: b"LS", at: 0 },
    Refused {
        line: b"lsx",
        at: 2,
    },
    Refused {
        line: b"pwd\r",
        at: 3,
    },
    Refused {
        line: b"pwd x",
        at: 4,
    },
    Refused {
        line: b"cd a*",
        at: 4,
    },
    Refused { line: b"cd", at: 2 },
    Refused {
        line: b"ls -l -l",
        at: 8,
    },
    Refused {
        line: b"cp ./a ./b",
        at: 8,
    },
    Refused {
        line: b"dbwrite u 0 616",
        at: 15,
    },
    Refused {
        line: b"dbwrite u 0 6g",
        at: 13,
    },
    Refused {
        line: b"dbfill u 0 512 6161",
        at: 17,
    },
    Refused {
        line: b"dbread u 0 512k",
        at: 14,
    },
    Refused {
        line: b"rebal DATA 18446744073709551616",
        at: 30,
    },
    Refused {
        line: b"lsdsk 1DATA",
        at: 6,
    },
    // A front of CREATE, ALTER or DROP counts too.
    Refused {
        line: b"CRE",
        at: 3,
    },
    Refused {
        line: b"crEx",
        at: 3,
    },
    Refused {
        line: b"dro",
        at: 3,
    },
    Refused {
        line: b"dbo",
        at: 2,
    },
    Refused { line: b"cr", at: 2 },
    Refused {
        line: b"ALTERx",
        at: 5,
    },
    // Beyond the limits.
    Refused {
        line: b"lsdsk abcdefghijklmnopqrstuvwxyz$#_12",
        at: 36,
    },
    Refused {
        line: b"rm 0123456789012345678901234567890123456789012345678901234567890123456789012345678.x",
        at: 83,
    },
    Refused {
        line: b"dbresize u 16777216T",
        at: 19,
    },
    Refused {
        line: b"dbresize u 18446744073709551616",
        at: 30,
    },
    Refused {
        line: b"rebal DATA 4K",
        at: 12,
    },
    Refused {
        line: b"cd .",
        at: 4,
    },
    Refused {
        line: b"cd a//b",
        at: 5,
    },
    Refused {
        line: b"dbcreate u 1M t-1",
        at: 15,
    },
];

fn is_verb(alloc: Global, line: &[u8]) -> bool {
    match read_line(alloc, line) {
        Ok(verb) => {
            drop(verb);
            true
        }
        Err(_) => false,
    }
}

fn refused_at(alloc: Global, line: &[u8]) -> Option<u64> {
    match read_line(alloc, line) {
        Ok(verb) => {
            drop(verb);
            None
        }
        Err(ReadError::Syntax { at }) => Some(at),
        Err(_) => None,
    }
}

fn other_verb(alloc: Global) -> Option<usize> {
    VERBS.iter().position(|line| !is_verb(alloc, line))
}

fn other_refused(alloc: Global) -> Option<usize> {
    REFUSED
        .iter()
        .position(|row| refused_at(alloc, row.line) != Some(row.at))
}

const FILL: &[u8; 26] = b"dbfill u.256.1 512K 512 6A";

// The length of a prefix that isn't refused at its length.
fn other_prefix(alloc: Global) -> Option<usize> {
    for len in 1..26usize {
        if refused_at(alloc, &FILL[..len]) != Some(len as u64) {
            return Some(len);
        }
    }
    None
}

fn usage(alloc: Global, used: u128, mirrored: u128) -> Option<List<Text>> {
    usage_lines(alloc, used, mirrored).ok()
}

fn checked(alloc: Global, extents: u64, not_full: u64) -> Option<List<Text>> {
    check_lines(alloc, extents, not_full).ok()
}

/// The lines of bytes that come in two pieces.
fn lines_read(alloc: Global, at: u32, first: &[u8; 4], second: &[u8; 3]) -> Option<List<Text>> {
    let mut runs = Runs::new(alloc, at as u64);
    runs.put(first).ok()?;
    runs.put(second).ok()?;
    runs.into_lines().ok()
}

// Whether a run that goes on in the second piece has one line.
fn are_runs_joined(alloc: Global) -> bool {
    match lines_read(alloc, 510, b"aaa\x00", b"\x00\xab\xab") {
        Some(lines) => {
            let are_joined = match lines.as_slice() {
                [first, second, third] => {
                    first.as_slice() == b"510 3 61".as_slice()
                        && second.as_slice() == b"513 2 00".as_slice()
                        && third.as_slice() == b"515 2 ab".as_slice()
                }
                _ => false,
            };
            drop(lines);
            are_joined
        }
        None => false,
    }
}

fn alias_row(alloc: Global) -> Option<LsRow> {
    let words = both(word(alloc, b"DATAFILE"), word(alloc, b"UNPROT"));
    let others = both(word(alloc, b"COARSE"), word(alloc, b"N"));
    let names = both(word(alloc, b"x"), word(alloc, b"+DATA/o/DATAFILE/u.256.1"));
    let (((kind, redund), (striped, sys)), (name, target)) = both(both(words, others), names)?;
    Some(LsRow {
        kind,
        redund,
        striped,
        sys,
        name,
        dir: false,
        target: Some(target),
    })
}

fn listed(alloc: Global, rows: &[LsRow], long: bool) -> Option<List<Text>> {
    ls_lines(alloc, rows, long).ok()
}

fn is_alias_listed(alloc: Global, long: bool, text: &[u8]) -> bool {
    match alias_row(alloc) {
        Some(alias) => {
            let rows = [alias];
            let lines = listed(alloc, &rows, long);
            drop(rows);
            has_lines(alloc, lines, text)
        }
        None => false,
    }
}

const LONG: &[u8] =
    b"Type Redund Striped Sys Name\nDATAFILE UNPROT COARSE N x => +DATA/o/DATAFILE/u.256.1\n";

pub fn play_rows(alloc: Global) -> Result<(), Wrong> {
    table("each verb is read", other_verb(alloc))?;
    table(
        "other lines are refused at their place",
        other_refused(alloc),
    )?;
    table(
        "each prefix of a line is refused at its length",
        other_prefix(alloc),
    )?;
    row("the whole line is read", is_verb(alloc, FILL))?;
    let used = b"Used Mirror_used\n1048576 2097152\n";
    row(
        "use is shown",
        has_lines(alloc, usage(alloc, 1_048_576, 2_097_152), used),
    )?;
    row(
        "a check is shown",
        has_lines(alloc, checked(alloc, 1, 0), b"check 1 0\n"),
    )?;
    row("bytes are read in lines", are_runs_joined(alloc))?;
    row("an alias is listed", is_alias_listed(alloc, true, LONG))?;
    row("its name is listed", is_alias_listed(alloc, false, b"x\n"))
}
