//! The rows of reports: a field for each column. Words are as they are printed.

use asm_base::Text;

/// A row of `ls`.
#[derive(Debug, Drop)]
pub struct LsRow {
    /// The file's type.
    pub kind: Text,
    /// UNPROT, MIRROR or HIGH
    pub redund: Text,
    /// COARSE or FINE
    pub striped: Text,
    /// Y of a system name
    pub sys: Text,
    pub name: Text,
    /// Whether it is a directory. Its row has its name alone.
    pub dir: bool,
    /// The system path of an alias, whose Sys is N.
    pub target: Option<Text>,
}

/// A row of `lsdg`. Sizes of sectors, blocks and units are in bytes, totals in units.
#[derive(Debug, Drop)]
pub struct GroupRow {
    /// MOUNTED or DISMOUNTED. Of a dismounted group the row has its name alone.
    pub state: Text,
    /// EXTERN, NORMAL or HIGH
    pub kind: Text,
    /// Y while a rebalance is active, else N
    pub rebal: Text,
    pub sector: u64,
    pub block: u64,
    pub au: u64,
    pub total: u64,
    pub free: u64,
    /// How many disks are offline.
    pub offline: u64,
    pub name: Text,
}

/// A row of `lsdsk`. Totals are in units.
#[derive(Debug, Drop)]
pub struct DiskRow {
    pub number: u64,
    pub mode: Text,
    pub failgroup: Text,
    /// REGULAR or QUORUM
    pub kind: Text,
    pub total: u64,
    pub free: u64,
    pub name: Text,
}

/// A row of `lstmpl`.
#[derive(Debug, Drop)]
pub struct TemplateRow {
    pub name: Text,
    /// UNPROT, MIRROR or HIGH
    pub redund: Text,
    /// COARSE or FINE
    pub striped: Text,
    /// Y of a system template, else N
    pub sys: Text,
}

/// A row of `lsattr`.
#[derive(Debug, Drop)]
pub struct AttrRow {
    pub name: Text,
    pub value: Text,
}
