//! What a statement says.

use asm_base::{GroupKind, List, Name, Redundancy, Stripe, Text};
use std::marker::Model;

/// The kind of a failure group, where a statement names one by it.
#[derive(Clone, Copy, Debug, PartialEq, Eq)]
pub enum FailgroupKind {
    Quorum,
    Regular,
}

/// A disk that a statement gives to a group.
#[derive(Debug, Drop)]
pub struct NewDisk {
    /// The path of its image, as written.
    pub path: Text,
    pub name: Option<Name>,
    /// In bytes.
    pub size: Option<u64>,
    /// Whether FORCE is said.
    pub force: bool,
}

impl Model for NewDisk {
    ghost use Rattle.asm_world.specs.Statement.{NewDisk as SaidDisk};

    ghost Value = { SaidDisk };

    ghost view = { λ d. record { path = d.path; name = d.name; size = d.size; force = d.force } };
}

/// Disks that a statement gives to a group, in one failure group or, without a name, each in its
/// own.
#[derive(Debug, Drop)]
pub struct NewFailgroup {
    pub quorum: bool,
    pub name: Option<Name>,
    /// At least one.
    pub disks: List<NewDisk>,
}

impl Model for NewFailgroup {
    ghost use Rattle.asm_world.specs.Statement.{NewFailgroup as SaidFailgroup};

    ghost Value = { SaidFailgroup };

    ghost view = { λ f. record { quorum = f.quorum; name = f.name; disks = f.disks } };
}

/// REBALANCE and its options.
#[derive(Clone, Copy, Debug)]
pub struct Rebalance {
    /// Steps in a slice.
    pub power: Option<u64>,
    /// Whether WAIT is said.
    pub wait: bool,
}

impl Model for Rebalance {
    ghost use Rattle.asm_world.specs.Statement.{Rebalance as SaidRebalance};

    ghost Value = { SaidRebalance };

    ghost view = { λ r. record { power = r.power; wait = r.wait } };

    ghost inverse = { λ r. record { power = r.power; wait = r.wait } };
}

/// An attribute's name and its value, as written.
#[derive(Debug, Drop)]
pub struct Attribute {
    pub name: Text,
    pub value: Text,
}

impl Model for Attribute {
    ghost use Rattle.asm_world.specs.Statement.{Attribute as SaidAttribute};

    ghost Value = { SaidAttribute };

    ghost view = { λ a. record { name = a.name; value = a.value } };
}

/// A disk that a statement drops.
#[derive(Debug, Drop)]
pub struct DroppedDisk {
    pub name: Name,
    /// Whether FORCE is said.
    pub force: bool,
}

impl Model for DroppedDisk {
    ghost use Rattle.asm_world.specs.Statement.{DroppedDisk as SaidDrop};

    ghost Value = { SaidDrop };

    ghost view = { λ d. record { name = d.name; force = d.force } };
}

/// The words of a template, of which there is one at least.
#[derive(Debug, Drop)]
pub struct TemplateWords {
    pub redundancy: Option<Redundancy>,
    pub stripe: Option<Stripe>,
}

impl Model for TemplateWords {
    ghost use Rattle.std.specs.Option.{option_map};
    ghost use Rattle.asm_world.specs.Statement.{TemplateWords as SaidWords};
    ghost use Rattle.group_sql.specs.Redundancies.{redundancy_said};

    ghost Value = { SaidWords };

    ghost view = { λ t. record { redundancy = option_map redundancy_said t.redundancy; stripe = t.stripe } };
}

/// The disks that a statement names.
#[derive(Debug, Drop)]
pub enum Disks {
    /// At least one.
    Named(List<Name>),
    /// Those of a failure group, which has to be of the kind, where one is said.
    InFailgroup {
        kind: Option<FailgroupKind>,
        name: Name,
    },
}

/// What ALTER DISKGROUP does. Paths are as written.
#[derive(Debug, Drop)]
pub enum Clause {
    AddDisks {
        /// At least one.
        groups: List<NewFailgroup>,
        rebalance: Option<Rebalance>,
    },
    AddTemplate {
        name: Name,
        words: TemplateWords,
    },
    AddDirectory {
        path: Text,
    },
    AddAlias {
        alias: Text,
        path: Text,
    },
    DropDisks {
        /// At least one.
        disks: List<DroppedDisk>,
        rebalance: Option<Rebalance>,
    },
    DropFailgroup {
        kind: Option<FailgroupKind>,
        name: Name,
        force: bool,
        rebalance: Option<Rebalance>,
    },
    DropTemplate {
        name: Name,
    },
    DropDirectory {
        path: Text,
    },
    DropAlias {
        path: Text,
    },
    DropFile {
        path: Text,
    },
    UndropDisks,
    /// Sizes are in bytes. Without one a disk takes its whole image.
    ResizeAll {
        size: Option<u64>,
        rebalance: Option<Rebalance>,
    },
    ResizeDisk {
        name: Name,
        size: Option<u64>,
        rebalance: Option<Rebalance>,
    },
    Rebalancing(Rebalance),
    Check,
    Mount {
        force: bool,
    },
    Dismount {
        force: bool,
    },
    OnlineAll {
        wait: bool,
    },
    Online {
        disks: Disks,
        wait: bool,
    },
    Offline {
        disks: Disks,
        /// After how many minutes the disks are dropped, where it is said.
        minutes: Option<u64>,
    },
    ModifyTemplate {
        name: Name,
        words: TemplateWords,
    },
    RenameDirectory {
        old: Text,
        new: Text,
    },
    RenameAlias {
        old: Text,
        new: Text,
    },
    SetAttribute(Attribute),
}

/// A statement. Contracts see it as the statement of the language that it says (`statement_said`).
#[derive(Debug, Drop)]
pub enum Statement {
    CreateDisk {
        path: Text,
        /// In bytes.
        size: u64,
    },
    CreateGroup {
        name: Name,
        kind: Option<GroupKind>,
        /// At least one.
        groups: List<NewFailgroup>,
        attributes: List<Attribute>,
    },
    DropGroup {
        name: Name,
        /// Whether INCLUDING CONTENTS is said.
        contents: bool,
    },
    Alter {
        group: Name,
        clause: Clause,
    },
}
