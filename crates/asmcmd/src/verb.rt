//! What a line asks for.

use asm_base::{Name, Text};

/// A verb with its words. Paths and patterns are as written; sizes and offsets are in bytes.
#[derive(Debug, Drop)]
pub enum Verb {
    /// `dbcreate P size [N]`
    DbCreate {
        path: Text,
        size: u64,
        template: Option<Name>,
    },
    /// `dbwrite P at hex`
    DbWrite {
        path: Text,
        at: u64,
        bytes: Text,
    },
    /// `dbfill P at size hh`
    DbFill {
        path: Text,
        at: u64,
        size: u64,
        byte: u8,
    },
    /// `dbread P at size`
    DbRead {
        path: Text,
        at: u64,
        size: u64,
    },
    /// `dbresize P size`
    DbResize {
        path: Text,
        size: u64,
    },
    /// `ls [-l] [P]`, whose path may hold `*`
    Ls {
        long: bool,
        path: Option<Text>,
    },
    /// `cd P`
    Cd {
        path: Text,
    },
    /// `pwd`
    Pwd,
    /// `mkdir P`
    MakeDir {
        path: Text,
    },
    /// `rm P`
    Remove {
        path: Text,
    },
    /// `cp P Q`, of which one at most is outside
    Copy {
        source: Text,
        target: Text,
    },
    /// `du [P]`
    Usage {
        path: Option<Text>,
    },
    /// `find P pattern`
    Find {
        path: Text,
        pattern: Text,
    },
    /// `mkalias P Q`: the alias Q for the file P
    MakeAlias {
        path: Text,
        alias: Text,
    },
    /// `rmalias P`
    RemoveAlias {
        path: Text,
    },
    /// `lsdg [N]`
    ListGroups {
        group: Option<Name>,
    },
    /// `lsdsk N`
    ListDisks {
        group: Name,
    },
    /// `lstmpl N`
    ListTemplates {
        group: Name,
    },
    /// `lsattr N`
    ListAttributes {
        group: Name,
    },
    /// `offline N N`
    OfflineDisk {
        group: Name,
        disk: Name,
    },
    /// `online N N`
    OnlineDisk {
        group: Name,
        disk: Name,
    },
    /// `rebal N power`
    SetPower {
        group: Name,
        power: u64,
    },
}

/// Why a line was not read.
#[derive(Clone, Copy, Debug, PartialEq, Eq)]
pub enum ReadError {
    /// It is no verb: `at` is the length of the longest front of it that begins some command.
    Syntax { at: u64 },
    NoMemory,
}
