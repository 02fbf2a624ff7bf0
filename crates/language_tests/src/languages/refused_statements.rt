// Texts at the limits of the language, and where those beyond are refused.
use crate::languages::play::{Wrong, row, table};
use crate::languages::readings::{command, other_read, refused_at};
use std::alloc::Global;

/// A text that is no statement, and how many of its bytes begin one.
#[derive(Clone, Copy)]
struct Refused {
    text: &'static [u8],
    at: u64,
}

const REFUSED: [Refused; 35] = [
    Refused { text: b"", at: 0 },
    Refused { text: b";", at: 0 },
    Refused {
        text: b" \r\n\t",
        at: 4,
    },
    // Words.
    Refused {
        text: b"ALTER\x0bDISKGROUP g MOUNT;",
        at: 5,
    },
    Refused {
        text: b"ALTERDISKGROUP g MOUNT;",
        at: 5,
    },
    Refused {
        text: b"CREATE DISKGROUP gDISK 'a';",
        at: 23,
    },
    Refused {
        text: b"ALTER DISKGROUP g\n-- note\nMOUNT;",
        at: 18,
    },
    Refused {
        text: b"ALTER DISKGROUP g MOUNT FORCE NOFORCE;",
        at: 30,
    },
    Refused {
        text: b"ALTER DISKGROUP g MOUNT;;",
        at: 24,
    },
    // Bytes below 32 inside quotes.
    Refused {
        text: b"CREATE DISK 'p\nok' SIZE 1M;",
        at: 14,
    },
    Refused {
        text: b"CREATE DISK '\td' SIZE 1M;",
        at: 13,
    },
    Refused {
        text: b"CREATE DISK 'd\x1f' SIZE 1M;",
        at: 14,
    },
    Refused {
        text: b"CREATE DISK 'd\n; SIZE",
        at: 14,
    },
    Refused {
        text: b"CREATE DISKGROUP g DISK 'a', 'b\r' NAME n;",
        at: 31,
    },
    Refused {
        text: b"CREATE DISKGROUP g DISK 'a' ATTRIBUTE 'x\0'='y';",
        at: 40,
    },
    Refused {
        text: b"CREATE DISKGROUP g DISK 'a' ATTRIBUTE 'x'='y\nz';",
        at: 44,
    },
    Refused {
        text: b"CREATE DISKGROUP g DISK 'a' ATTRIBUTE 'x'='y\tz';",
        at: 44,
    },
    Refused {
        text: b"CREATE DISKGROUP g DISK 'a' ATTRIBUTE 'x'='y\x1f';",
        at: 44,
    },
    Refused {
        text: b"ALTER DISKGROUP g ADD ALIAS '+g/x' FOR '+g/\x01y';",
        at: 43,
    },
    // Lists.
    Refused {
        text: b"ALTER DISKGROUP g DROP DISK ,d;",
        at: 28,
    },
    Refused {
        text: b"ALTER DISKGROUP g DROP DISK d,;",
        at: 30,
    },
    Refused {
        text: b"ALTER DISKGROUP g ONLINE DISK a b;",
        at: 32,
    },
    Refused {
        text: b"CREATE DISKGROUP g;",
        at: 18,
    },
    Refused {
        text: b"ALTER DISKGROUP g ADD TEMPLATE t ATTRIBUTES ();",
        at: 45,
    },
    Refused {
        text: b"ALTER DISKGROUP g ADD TEMPLATE t ATTRIBUTES (FINE COARSE);",
        at: 50,
    },
    // Names.
    Refused {
        text: b"ALTER DISKGROUP _g MOUNT;",
        at: 16,
    },
    Refused {
        text: b"ALTER DISKGROUP g-h MOUNT;",
        at: 17,
    },
    // Numbers, sizes and times.
    Refused {
        text: b"ALTER DISKGROUP g REBALANCE POWER -1;",
        at: 34,
    },
    Refused {
        text: b"ALTER DISKGROUP g REBALANCE POWER 1K;",
        at: 35,
    },
    Refused {
        text: b"CREATE DISK 'd' SIZE 18446744073709551616;",
        at: 40,
    },
    Refused {
        text: b"CREATE DISK 'd' SIZE 18014398509481984K;",
        at: 38,
    },
    Refused {
        text: b"CREATE DISK 'd' SIZE 17592186044416M;",
        at: 35,
    },
    Refused {
        text: b"CREATE DISK 'd' SIZE 17179869184G;",
        at: 32,
    },
    Refused {
        text: b"ALTER DISKGROUP g OFFLINE DISK d DROP AFTER 5124095576030432H;",
        at: 60,
    },
    Refused {
        text: b"ALTER DISKGROUP g OFFLINE DISK d DROP AFTER 307445734561825861M;",
        at: 61,
    },
];

/// Texts of statements at the limits.
const READ: [&[u8]; 12] = [
    b" \r\n\tALTER DISKGROUP g MOUNT ;",
    b"ALTER DISKGROUP abcdefghijklmnopqrstuvwxyz$#_1 MOUNT;",
    b"ALTER DISKGROUP g DROP DISK force FORCE, force;",
    b"CREATE DISKGROUP g DISK'a'NAME n,'b'ATTRIBUTE'x'='y';",
    b"CREATE DISKGROUP g DISK '' ATTRIBUTE ''='';",
    b"CREATE DISKGROUP g DISK ' !~\x7f', '\x80\x9f\xff' ATTRIBUTE 'x'='\x7f\x85';",
    b"CREATE DISK 'd' SIZE 18446744073709551615;",
    b"CREATE DISK 'd' SIZE 18014398509481983K;",
    b"CREATE DISK 'd' SIZE 17592186044415M;",
    b"CREATE DISK 'd' SIZE 17179869183G;",
    b"ALTER DISKGROUP g OFFLINE DISK d DROP AFTER 5124095576030431H;",
    b"ALTER DISKGROUP g OFFLINE DISK d DROP AFTER 307445734561825860M;",
];

fn other_row(alloc: Global) -> Option<usize> {
    REFUSED
        .iter()
        .position(|row| refused_at(alloc, row.text) != Some(row.at))
}

pub fn play_rows(alloc: Global) -> Result<(), Wrong> {
    table("other texts are refused at their place", other_row(alloc))?;
    table("texts at the limits are read", other_read(alloc, &READ))?;
    let found = command(b"-- a;\n \t-- b\r\nDROP DISKGROUP g;\n");
    row(
        "comment lines are skipped between commands",
        found == Some((14, 17)),
    )
}
