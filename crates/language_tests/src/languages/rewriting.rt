// One text for each form of each statement, which is read, written, and read again.
use crate::languages::play::{Wrong, row, table};
use crate::languages::readings::statement;
use asm_base::{List, Name};
use group_sql::{Clause, Statement, TemplateWords};
use std::alloc::Global;
use written_sql::write_statement;

/// Texts that are written as they stand.
const CANONICAL: [&[u8]; 52] = [
    b"CREATE DISK 'd0' SIZE 67108864;",
    b"CREATE DISKGROUP g DISK 'd0';",
    b"CREATE DISKGROUP g EXTERNAL REDUNDANCY DISK 'a', 'b';",
    b"CREATE DISKGROUP g NORMAL REDUNDANCY FAILGROUP f DISK 'a' FAILGROUP h DISK 'b', 'c' NAME n;",
    b"CREATE DISKGROUP g HIGH REDUNDANCY QUORUM FAILGROUP q DISK 'a' NAME n SIZE 1024 FORCE DISK 'b' QUORUM DISK 'c' ATTRIBUTE 'x'='1';",
    b"CREATE DISKGROUP g DISK 'a' ATTRIBUTE 'x'='1', 'y'='';",
    b"DROP DISKGROUP g;",
    b"DROP DISKGROUP g INCLUDING CONTENTS;",
    b"ALTER DISKGROUP g ADD DISK 'a';",
    b"ALTER DISKGROUP g ADD QUORUM FAILGROUP f DISK 'a' FORCE, 'b' SIZE 512 REBALANCE;",
    b"ALTER DISKGROUP g ADD FAILGROUP f DISK 'a' FAILGROUP h DISK 'b' REBALANCE POWER 4 WAIT;",
    b"ALTER DISKGROUP g DROP DISK d;",
    b"ALTER DISKGROUP g DROP DISK d FORCE, e, f FORCE REBALANCE WAIT;",
    b"ALTER DISKGROUP g DROP DISKS IN FAILGROUP f;",
    b"ALTER DISKGROUP g DROP DISKS IN QUORUM FAILGROUP f FORCE;",
    b"ALTER DISKGROUP g DROP DISKS IN REGULAR FAILGROUP f REBALANCE POWER 0;",
    b"ALTER DISKGROUP g UNDROP DISKS;",
    b"ALTER DISKGROUP g RESIZE ALL;",
    b"ALTER DISKGROUP g RESIZE ALL SIZE 1073741824 REBALANCE;",
    b"ALTER DISKGROUP g RESIZE DISK d;",
    b"ALTER DISKGROUP g RESIZE DISK d SIZE 18446744073709551615 REBALANCE POWER 2;",
    b"ALTER DISKGROUP g REBALANCE;",
    b"ALTER DISKGROUP g REBALANCE POWER 18446744073709551615;",
    b"ALTER DISKGROUP g REBALANCE POWER 4 WAIT;",
    b"ALTER DISKGROUP g REBALANCE WAIT;",
    b"ALTER DISKGROUP g CHECK;",
    b"ALTER DISKGROUP g MOUNT;",
    b"ALTER DISKGROUP g MOUNT FORCE;",
    b"ALTER DISKGROUP g DISMOUNT;",
    b"ALTER DISKGROUP g DISMOUNT FORCE;",
    b"ALTER DISKGROUP g ONLINE ALL;",
    b"ALTER DISKGROUP g ONLINE ALL WAIT;",
    b"ALTER DISKGROUP g ONLINE DISK a;",
    b"ALTER DISKGROUP g ONLINE DISK a, b WAIT;",
    b"ALTER DISKGROUP g ONLINE DISKS IN FAILGROUP f;",
    b"ALTER DISKGROUP g ONLINE DISKS IN QUORUM FAILGROUP f WAIT;",
    b"ALTER DISKGROUP g OFFLINE DISK a, b;",
    b"ALTER DISKGROUP g OFFLINE DISK a DROP AFTER 307445734561825860M;",
    b"ALTER DISKGROUP g OFFLINE DISKS IN REGULAR FAILGROUP f DROP AFTER 0M;",
    b"ALTER DISKGROUP g ADD TEMPLATE t ATTRIBUTES (MIRROR);",
    b"ALTER DISKGROUP g ADD TEMPLATE t ATTRIBUTES (HIGH COARSE);",
    b"ALTER DISKGROUP g MODIFY TEMPLATE t ATTRIBUTES (FINE);",
    b"ALTER DISKGROUP g MODIFY TEMPLATE t ATTRIBUTES (UNPROTECTED FINE);",
    b"ALTER DISKGROUP g DROP TEMPLATE t;",
    b"ALTER DISKGROUP g ADD DIRECTORY '+g/a';",
    b"ALTER DISKGROUP g RENAME DIRECTORY '+g/a' TO '+g/b';",
    b"ALTER DISKGROUP g DROP DIRECTORY '+g/a';",
    b"ALTER DISKGROUP g ADD ALIAS '+g/x' FOR '+g/y';",
    b"ALTER DISKGROUP g RENAME ALIAS '+g/x' TO '+g/z';",
    b"ALTER DISKGROUP g DROP ALIAS '+g/x';",
    b"ALTER DISKGROUP g DROP FILE '+g/y';",
    b"ALTER DISKGROUP g SET ATTRIBUTE 'disk_repair_time'='5m';",
];

/// A text, and the canonical text of what it says.
#[derive(Clone, Copy)]
struct Spelling {
    text: &'static [u8],
    canonical: &'static [u8],
}

const OTHERS: [Spelling; 17] = [
    Spelling {
        text: b"create disk'd0'size 064M ;",
        canonical: b"CREATE DISK 'd0' SIZE 67108864;",
    },
    Spelling {
        text: b"Create DiskGroup Data regular failgroup f disk'a'noforce,'b'size 2K;",
        canonical: b"CREATE DISKGROUP Data FAILGROUP f DISK 'a', 'b' SIZE 2048;",
    },
    Spelling {
        text: b"CREATE DISKGROUP g DISK 'a' ATTRIBUTE 'x' = '1' , 'y'\n=\t'2';",
        canonical: b"CREATE DISKGROUP g DISK 'a' ATTRIBUTE 'x'='1', 'y'='2';",
    },
    Spelling {
        text: b"DROP DISKGROUP g EXCLUDING CONTENTS;",
        canonical: b"DROP DISKGROUP g;",
    },
    Spelling {
        text: b"ALTER DISKGROUP g ADD DISK 'a' REBALANCE POWER 007 NOWAIT;",
        canonical: b"ALTER DISKGROUP g ADD DISK 'a' REBALANCE POWER 7;",
    },
    Spelling {
        text: b"ALTER DISKGROUP g DROP DISK d NOFORCE,e;",
        canonical: b"ALTER DISKGROUP g DROP DISK d, e;",
    },
    Spelling {
        text: b"ALTER DISKGROUP g DROP DISKS IN FAILGROUP f NOFORCE;",
        canonical: b"ALTER DISKGROUP g DROP DISKS IN FAILGROUP f;",
    },
    Spelling {
        text: b"ALTER DISKGROUP g RESIZE ALL SIZE 2T;",
        canonical: b"ALTER DISKGROUP g RESIZE ALL SIZE 2199023255552;",
    },
    Spelling {
        text: b"ALTER DISKGROUP g CHECK REPAIR;",
        canonical: b"ALTER DISKGROUP g CHECK;",
    },
    Spelling {
        text: b"ALTER DISKGROUP g CHECK NOREPAIR;",
        canonical: b"ALTER DISKGROUP g CHECK;",
    },
    Spelling {
        text: b"ALTER DISKGROUP g MOUNT NOFORCE;",
        canonical: b"ALTER DISKGROUP g MOUNT;",
    },
    Spelling {
        text: b"ALTER DISKGROUP g DISMOUNT NOFORCE;",
        canonical: b"ALTER DISKGROUP g DISMOUNT;",
    },
    Spelling {
        text: b"ALTER DISKGROUP g ONLINE DISK a NOWAIT;",
        canonical: b"ALTER DISKGROUP g ONLINE DISK a;",
    },
    Spelling {
        text: b"ALTER DISKGROUP g OFFLINE DISK a DROP AFTER 2 h;",
        canonical: b"ALTER DISKGROUP g OFFLINE DISK a DROP AFTER 120M;",
    },
    Spelling {
        text: b"ALTER DISKGROUP g ALTER TEMPLATE t ATTRIBUTES( FINE HIGH );",
        canonical: b"ALTER DISKGROUP g MODIFY TEMPLATE t ATTRIBUTES (HIGH FINE);",
    },
    Spelling {
        text: b"alter diskgroup G add template T attributes(coarse mirror);",
        canonical: b"ALTER DISKGROUP G ADD TEMPLATE T ATTRIBUTES (MIRROR COARSE);",
    },
    Spelling {
        text: b"ALTER DISKGROUP g SET ATTRIBUTE 'a b'= '--;';",
        canonical: b"ALTER DISKGROUP g SET ATTRIBUTE 'a b'='--;';",
    },
];

// A statement's canonical text. None where there is no memory.
fn written(alloc: Global, statement: &Statement) -> Option<Vec<u8>> {
    write_statement(alloc, statement).ok()
}

// The canonical text of what a text says. None where it is refused or there is no memory.
fn rewritten(alloc: Global, text: &[u8]) -> Option<Vec<u8>> {
    match statement(alloc, text) {
        Some(statement) => {
            let text = written(alloc, &statement);
            drop(statement);
            text
        }
        None => None,
    }
}

fn is_written(alloc: Global, text: &[u8], canonical: &[u8]) -> bool {
    match rewritten(alloc, text) {
        Some(written) => {
            let is_same = written.as_slice() == canonical;
            drop(written);
            is_same
        }
        None => false,
    }
}

fn other_canonical(alloc: Global) -> Option<usize> {
    CANONICAL
        .iter()
        .position(|text| !is_written(alloc, text, text))
}

fn other_spelling(alloc: Global) -> Option<usize> {
    OTHERS.iter().position(|row| {
        !is_written(alloc, row.text, row.canonical)
            || !is_written(alloc, row.canonical, row.canonical)
    })
}

// Whether a change of the group g has no text.
fn has_no_text(alloc: Global, clause: Clause) -> bool {
    match Name::read(alloc, b"g", 30) {
        Ok(Some(group)) => {
            let statement = Statement::Alter { group, clause };
            let text = written(alloc, &statement);
            drop(statement);
            is_empty(text)
        }
        _ => {
            drop(clause);
            false
        }
    }
}

fn is_empty(text: Option<Vec<u8>>) -> bool {
    match text {
        Some(text) => {
            let is_empty = text.is_empty();
            drop(text);
            is_empty
        }
        None => false,
    }
}

// A template without words.
fn no_words(alloc: Global) -> Option<Clause> {
    let words = TemplateWords {
        redundancy: None,
        stripe: None,
    };
    match Name::read(alloc, b"t", 30) {
        Ok(Some(name)) => Some(Clause::AddTemplate { name, words }),
        _ => None,
    }
}

// What no text says has no text.
fn play_unsaid(alloc: Global) -> Result<(), Wrong> {
    let no_disks = Clause::DropDisks {
        disks: List::new(alloc),
        rebalance: None,
    };
    row("no disks have no text", has_no_text(alloc, no_disks))?;
    let no_groups = Clause::AddDisks {
        groups: List::new(alloc),
        rebalance: None,
    };
    row("no groups have no text", has_no_text(alloc, no_groups))?;
    match no_words(alloc) {
        Some(clause) => row("no words have no text", has_no_text(alloc, clause)),
        None => Err(("no name", 0)),
    }
}

pub fn play_rows(alloc: Global) -> Result<(), Wrong> {
    table(
        "a canonical text is written as it stands",
        other_canonical(alloc),
    )?;
    table(
        "another spelling is written canonically",
        other_spelling(alloc),
    )?;
    play_unsaid(alloc)
}
