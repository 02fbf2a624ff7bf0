// That the calls answer where memory is had, and the worked rows.
use crate::languages::play::{Wrong, row, table};
use crate::languages::readings::{
    command, is_read, other_read, other_refused, refused_at, statement,
};
use asm_base::{GroupKind, Redundancy, Stripe};
use group_sql::{Clause, Disks, Statement};
use std::alloc::Global;

const PREFIXES: &[u8] = b"ALTER DISKGROUP data DROP DISK d1 FORCE;";

// The length of a prefix that isn't refused at its length.
fn other_prefix(alloc: Global) -> Option<usize> {
    for len in 1..40usize {
        if refused_at(alloc, &PREFIXES[..len]) != Some(len as u64) {
            return Some(len);
        }
    }
    None
}

const PARTED: [(&[u8], u64); 6] = [
    (b"ALTER DISKGROUP data ADD", 24),
    (b"ALTEX DISKGROUP a MOUNT;", 4),
    (b"alter diskgroup a mount forx;", 27),
    (b"ALTER DISKGROUP a MOUNT; ", 24),
    (b"ALTER DISKGROUP a ADD VOLUME v;", 22),
    (b"CREATE DISK 'd0 SIZE 1M;", 24),
];

const SIZES: [&[u8]; 2] = [
    b"ALTER DISKGROUP a REBALANCE POWER 18446744073709551615;",
    b"CREATE DISK 'd' SIZE 16777215T;",
];

const OTHER_SIZES: [(&[u8], u64); 3] = [
    (
        b"ALTER DISKGROUP a REBALANCE POWER 18446744073709551616;",
        53,
    ),
    (b"CREATE DISK 'd' SIZE 16777216T;", 29),
    (b"CREATE DISK 'd' SIZE 1m;", 22),
];

const NAMES: [&[u8]; 1] = [b"ALTER DISKGROUP abcdefghijklmnopqrstuvwxyz$#_1 MOUNT;"];

const OTHER_NAMES: [(&[u8], u64); 2] = [
    (
        b"ALTER DISKGROUP abcdefghijklmnopqrstuvwxyz$#_12 MOUNT;",
        46,
    ),
    (b"ALTER DISKGROUP 1a MOUNT;", 16),
];

const SPELLINGS: [&[u8]; 4] = [
    b"create DiskGroup\tdata\r\n external REDUNDANCY disk'd0','d1'size 1M;",
    b"ALTER DISKGROUP a ADD TEMPLATE t ATTRIBUTES(FINE HIGH);",
    b"ALTER DISKGROUP a SET ATTRIBUTE'x'='y';",
    b"ALTER DISKGROUP a OFFLINE DISK d DROP AFTER 5 h ;",
];

const STATEMENTS: [&[u8]; 5] = [
    b"CREATE DISK 'd0' SIZE 64M;",
    b"CREATE DISKGROUP g DISK 'd0';",
    b"CREATE DISKGROUP g HIGH REDUNDANCY QUORUM FAILGROUP f DISK 'a' NAME n SIZE 1 NOFORCE REGULAR DISK 'b' ATTRIBUTE 'x'='1', 'y'='2';",
    b"DROP DISKGROUP g;",
    b"DROP DISKGROUP g EXCLUDING CONTENTS;",
];

const ON_DISKS: [&[u8]; 10] = [
    b"ALTER DISKGROUP g ADD FAILGROUP f DISK 'a' REBALANCE;",
    b"ALTER DISKGROUP g DROP DISKS IN REGULAR FAILGROUP f NOFORCE REBALANCE NOWAIT;",
    b"ALTER DISKGROUP g UNDROP DISKS;",
    b"ALTER DISKGROUP g RESIZE ALL SIZE 1G;",
    b"ALTER DISKGROUP g RESIZE DISK d REBALANCE POWER 2;",
    b"ALTER DISKGROUP g DISMOUNT FORCE;",
    b"ALTER DISKGROUP g CHECK NOREPAIR;",
    b"ALTER DISKGROUP g ONLINE ALL WAIT;",
    b"ALTER DISKGROUP g ONLINE DISKS IN FAILGROUP f;",
    b"ALTER DISKGROUP g OFFLINE DISK a, b;",
];

const ON_NAMES: [&[u8]; 9] = [
    b"ALTER DISKGROUP g ALTER TEMPLATE t ATTRIBUTES (COARSE);",
    b"ALTER DISKGROUP g DROP TEMPLATE t;",
    b"ALTER DISKGROUP g ADD DIRECTORY '+g/a';",
    b"ALTER DISKGROUP g RENAME DIRECTORY '+g/a' TO '+g/b';",
    b"ALTER DISKGROUP g DROP DIRECTORY '+g/a';",
    b"ALTER DISKGROUP g ADD ALIAS '+g/x' FOR '+g/y';",
    b"ALTER DISKGROUP g RENAME ALIAS '+g/x' TO '+g/z';",
    b"ALTER DISKGROUP g DROP ALIAS '+g/x';",
    b"ALTER DISKGROUP g DROP FILE '+g/y';",
];

fn play_texts(alloc: Global) -> Result<(), Wrong> {
    table(
        "every prefix of a statement is refused at its length",
        other_prefix(alloc),
    )?;
    row("the whole statement is read", is_read(alloc, PREFIXES))?;
    table(
        "a text is refused where it parts from the language",
        other_refused(alloc, &PARTED),
    )?;
    table("sizes at the limits", other_read(alloc, &SIZES))?;
    table(
        "sizes beyond the limits",
        other_refused(alloc, &OTHER_SIZES),
    )?;
    table("names of thirty bytes", other_read(alloc, &NAMES))?;
    table("names of more", other_refused(alloc, &OTHER_NAMES))?;
    table(
        "case and blanks make no difference",
        other_read(alloc, &SPELLINGS),
    )?;
    table("each statement is read", other_read(alloc, &STATEMENTS))?;
    table("each clause on disks is read", other_read(alloc, &ON_DISKS))?;
    table("each clause on names is read", other_read(alloc, &ON_NAMES))
}

const CREATION: &[u8] =
    b"CREATE DISKGROUP data NORMAL REDUNDANCY QUORUM FAILGROUP q DISK 'a' SIZE 2K FORCE, 'b' DISK 'c' ATTRIBUTE 'au_size'='1M';";

// Whether a statement is that creation.
fn is_creation(statement: &Statement) -> bool {
    let Statement::CreateGroup {
        name,
        kind,
        groups,
        attributes,
    } = statement
    else {
        return false;
    };
    let [group, _] = groups.as_slice() else {
        return false;
    };
    let [disk, _] = group.disks.as_slice() else {
        return false;
    };
    name.as_bytes() == b"data".as_slice()
        && *kind == Some(GroupKind::Normal)
        && attributes.len() == 1
        && group.quorum
        && disk.path.as_slice() == b"a".as_slice()
        && disk.size == Some(2048)
        && disk.force
}

const OFFLINE: &[u8] = b"ALTER DISKGROUP data OFFLINE DISK force, d2 DROP AFTER 2H;";

// Whether a statement is that one, with its minutes.
fn is_offline(statement: &Statement) -> bool {
    let Statement::Alter { group: _, clause } = statement else {
        return false;
    };
    let Clause::Offline { disks, minutes } = clause else {
        return false;
    };
    let Disks::Named(names) = disks else {
        return false;
    };
    let [first, _] = names.as_slice() else {
        return false;
    };
    *minutes == Some(120) && first.as_bytes() == b"force".as_slice()
}

const TEMPLATE: &[u8] = b"ALTER DISKGROUP data MODIFY TEMPLATE t ATTRIBUTES (FINE UNPROTECTED);";

// Whether a statement is that one, with its words.
fn is_template(statement: &Statement) -> bool {
    let Statement::Alter { group: _, clause } = statement else {
        return false;
    };
    match clause {
        Clause::ModifyTemplate { name: _, words } => {
            words.redundancy == Some(Redundancy::Unprotected) && words.stripe == Some(Stripe::Fine)
        }
        _ => false,
    }
}

// A text whose parts are looked at.
#[derive(Clone, Copy)]
enum Whole {
    Creation,
    Offline,
    Template,
}

// Whether a text has its parts.
fn has_parts(alloc: Global, whole: Whole, text: &[u8]) -> bool {
    match statement(alloc, text) {
        Some(statement) => {
            let has_parts = match whole {
                Whole::Creation => is_creation(&statement),
                Whole::Offline => is_offline(&statement),
                Whole::Template => is_template(&statement),
            };
            drop(statement);
            has_parts
        }
        None => false,
    }
}

const SCRIPT: &[u8] = b"\n -- note\nDROP DISKGROUP 'a;b' ; pwd\n";

pub fn play_rows(alloc: Global) -> Result<(), Wrong> {
    play_texts(alloc)?;
    row(
        "a creation has its parts",
        has_parts(alloc, Whole::Creation, CREATION),
    )?;
    row(
        "an offline has its minutes",
        has_parts(alloc, Whole::Offline, OFFLINE),
    )?;
    row(
        "a template has its words",
        has_parts(alloc, Whole::Template, TEMPLATE),
    )?;
    row("a command is cut", command(SCRIPT) == Some((10, 22)))?;
    row(
        "the next command is cut",
        command(&SCRIPT[32..]) == Some((1, 3)),
    )?;
    row("no command is cut", command(b" \n--x").is_none())
}
