//! The words of a disk group, and what a group is for its users: names and paths, files and their
//! bytes, templates and attributes. All other crates of definitions stand on these.
#![tactic(auto)]

ghost use Rattle.asm_group.specs.Rows.{NameRows, TemplateRows, RefusalRows};

/// The redundancy of a group, fixed at its creation.
#[derive(Clone, Copy, Debug, PartialEq, Eq)]
pub enum GroupKind {
    External,
    Normal,
    High,
}

/// How a file's bytes lie on its extents.
#[derive(Clone, Copy, Debug, PartialEq, Eq)]
pub enum Stripe {
    Coarse,
    Fine,
}

/// The mode of a disk.
#[derive(Clone, Copy, Debug, PartialEq, Eq)]
pub enum Mode {
    Online,
    Offline,
    Syncing,
    Dropping,
    Forced,
}

/// What a node of the alias tree is.
#[derive(Clone, Copy, Debug, PartialEq, Eq)]
pub enum NodeKind {
    Directory,
    System,
    Alias,
}

/// What a pending operation does.
#[derive(Clone, Copy, Debug, PartialEq, Eq)]
pub enum PendingKind {
    Create,
    Remove,
    Grow,
    Shrink,
}

/// Which texts are names, and which names are one.
pub fn name_rows()
    ensures { NameRows }
{}

/// The system templates of each kind of group.
pub fn template_rows()
    ensures { TemplateRows }
{}

/// Refusals as they are printed.
pub fn refusal_rows()
    ensures { RefusalRows }
{}
