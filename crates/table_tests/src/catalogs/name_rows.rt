//! Rows of the tree of names, and of new files.

use crate::catalogs::making::play;
use crate::catalogs::steps::{Answer, Fact, Plan, Step, Verb};
use asm_base::NodeKind;
use sample_group::Edit;
use std::alloc::Global;
use std::test::Fail;

/// The root, which an edit of one path doesn't heed.
const ROOT: &[u8] = b"+DATA";

/// Directories are made, renamed with what lies below them, and dropped.
const DIRECTORIES: [Step<'static>; 9] = [
    Step::Make(Plan::Tree(Verb::MakeDir, b"+DATA/a", ROOT), Answer::Done),
    Step::Make(
        Plan::Tree(Verb::RenameDir, b"+DATA/DB", b"+DATA/a/c"),
        Answer::Done,
    ),
    Step::Make(
        Plan::Tree(Verb::DropDir, b"+DATA/a", ROOT),
        Answer::NotEmpty,
    ),
    Step::Make(Plan::Tree(Verb::MakeDir, b"+DATA/e", ROOT), Answer::Done),
    Step::Make(Plan::Tree(Verb::DropDir, b"+DATA/e", ROOT), Answer::Done),
    Step::Tells(Fact::Find(b"+DATA/a", Some(4))),
    Step::Tells(Fact::Find(b"+DATA/a/C/u.256.1", Some(2))),
    Step::Tells(Fact::Find(b"+DATA/db", None)),
    Step::Tells(Fact::Find(b"+DATA/e", None)),
];

/// The head of a file follows its alias, which goes, comes and is renamed. A second alias is
/// refused.
const ALIASES: [Step<'static>; 10] = [
    Step::Make(Plan::Tree(Verb::MakeDir, b"+DATA/a", ROOT), Answer::Done),
    Step::Make(Plan::Tree(Verb::DropAlias, b"+DATA/x", ROOT), Answer::Done),
    Step::Tells(Fact::Head(256, Some((2, 3_145_728, 1, 2, 0)))),
    Step::Make(Plan::Tree(Verb::MakeDir, b"+DATA/b", ROOT), Answer::Done),
    Step::Make(
        Plan::Tree(Verb::AddAlias, b"+DATA/a/y", b"+DATA/db/u.256.1"),
        Answer::Done,
    ),
    Step::Tells(Fact::Head(256, Some((2, 3_145_728, 1, 2, 5)))),
    Step::Make(
        Plan::Tree(Verb::RenameAlias, b"+DATA/a/y", b"+DATA/z"),
        Answer::Done,
    ),
    Step::Make(
        Plan::Tree(Verb::AddAlias, b"+DATA/w", b"+DATA/z"),
        Answer::HasAlias,
    ),
    Step::Tells(Fact::Head(256, Some((2, 3_145_728, 1, 2, 5)))),
    Step::Tells(Fact::Find(b"+DATA/Z", Some(5))),
];

/// The last free block is given to a directory. The next is refused, behind what else it is refused
/// for, and names may still change their places.
const LAST_BLOCK: [Step<'static>; 4] = [
    Step::Make(Plan::Tree(Verb::MakeDir, b"+DATA/a", ROOT), Answer::Done),
    Step::Make(
        Plan::Tree(Verb::MakeDir, b"+DATA/b", ROOT),
        Answer::Full(1, 0),
    ),
    Step::Make(
        Plan::Tree(Verb::MakeDir, b"+DATA/a", ROOT),
        Answer::NameTaken,
    ),
    Step::Make(
        Plan::Tree(Verb::RenameDir, b"+DATA/a", b"+DATA/b"),
        Answer::Done,
    ),
];

/// File 257 is being made, and has no extents.
const BEGUN: [Edit<'static>; 1] = [Edit::Begun(257)];

/// Where file 257 gets its name.
const USERS: &[u8] = b"+DATA/db/DATAFILE/users";

/// A file gets its head, the operation that makes it ends, and the next incarnation rises.
const NEW_HEAD: [Step<'static>; 5] = [
    // the head, a directory, the system name and the settings are put, and the operation goes
    Step::Tells(Fact::Change(Plan::Name(USERS), 4, 1)),
    Step::Make(Plan::Name(USERS), Answer::Done),
    Step::Tells(Fact::Head(257, Some((2, 0, 1, 5, 0)))),
    Step::Tells(Fact::Incarnation(2)),
    Step::Tells(Fact::Pending(None)),
];

/// Its name is below a directory that is there and one that is made. A node's path is spelt as the
/// nodes are; the root and a number that no node has have none.
const NEW_NODES: [Step<'static>; 10] = [
    Step::Make(Plan::Name(USERS), Answer::Done),
    Step::Tells(Fact::Find(b"+DATA/DB/datafile", Some(4))),
    Step::Tells(Fact::Find(b"+DATA/db/datafile/Users.257.1", Some(5))),
    Step::Tells(Fact::Path(0, &[])),
    Step::Tells(Fact::Path(1, &[b"db"])),
    Step::Tells(Fact::Path(2, &[b"db", b"u.256.1"])),
    Step::Tells(Fact::Path(3, &[b"x"])),
    Step::Tells(Fact::Path(4, &[b"db", b"DATAFILE"])),
    Step::Tells(Fact::Path(5, &[b"db", b"DATAFILE", b"users.257.1"])),
    Step::Tells(Fact::Path(6, &[])),
];

/// Paths that no file may have: of two parts, of the type of volumes, and of a type of 31 bytes or
/// a tag of 49. A type of 30 bytes and a tag of 48 may be.
const PATHS: [Step<'static>; 6] = [
    Step::Make(Plan::Name(b"+DATA/db/users"), Answer::NoTemplate),
    Step::Make(Plan::Name(b"+DATA/db/asmVOL/users"), Answer::NoTemplate),
    Step::Make(
        Plan::Name(b"+DATA/db/t123456789t123456789t123456789t/t"),
        Answer::NoTemplate,
    ),
    Step::Make(
        Plan::Name(b"+DATA/db/t/t123456789t123456789t123456789t123456789t12345678"),
        Answer::NoTemplate,
    ),
    Step::Tells(Fact::Change(
        Plan::Name(
            b"+DATA/db/t123456789t123456789t123456789/t123456789t123456789t123456789t123456789t1234567",
        ),
        4,
        1,
    )),
    Step::Make(
        Plan::Name(
            b"+DATA/db/t123456789t123456789t123456789/t123456789t123456789t123456789t123456789t1234567",
        ),
        Answer::Done,
    ),
];

/// A directory has the name that a file 257 of the first incarnation gets for its tag.
const TAKEN: [Edit<'static>; 2] = [
    Edit::Node(4, 1, NodeKind::Directory, 0, b"Type"),
    Edit::Node(5, 4, NodeKind::Directory, 0, b"tag.257.1"),
];

/// The same while file 257 is being made.
const TAKEN_AND_BEGUN: [Edit<'static>; 3] = [
    Edit::Node(4, 1, NodeKind::Directory, 0, b"Type"),
    Edit::Node(5, 4, NodeKind::Directory, 0, b"tag.257.1"),
    Edit::Begun(257),
];

/// Below an alias or a system name is no name, and none is where one is.
const TAKEN_NAMES: [Step<'static>; 5] = [
    Step::Make(Plan::Name(b"+DATA/X/a/b"), Answer::NotDirectory),
    Step::Make(Plan::Name(b"+DATA/db/u.256.1/b"), Answer::NotDirectory),
    Step::Make(Plan::Name(b"+DATA/db/type/TAG"), Answer::NameTaken),
    Step::Tells(Fact::Change(Plan::Name(b"+DATA/db/type/TAG2"), 3, 1)),
    Step::Make(Plan::Name(b"+DATA/db/type/TAG2"), Answer::Done),
];

/// The head and each node that is missing need a block.
const THREE_BLOCKS: [Step<'static>; 3] = [
    Step::Make(Plan::Name(b"+DATA/new/new/users"), Answer::Full(4, 3)),
    Step::Tells(Fact::Change(Plan::Name(b"+DATA/db/new/users"), 4, 1)),
    Step::Make(Plan::Name(b"+DATA/db/new/users"), Answer::Done),
];

/// Want of blocks comes behind the other causes.
const TWO_BLOCKS: [Step<'static>; 2] = [
    Step::Make(Plan::Name(b"+DATA/db/new/users"), Answer::Full(3, 2)),
    Step::Make(Plan::Name(b"+DATA/X/new/users"), Answer::NotDirectory),
];

/// A name makes a node for each directory that is missing, and one of its own; and each cause comes
/// in its order.
const CHECKED: [Step<'static>; 8] = [
    Step::Tells(Fact::Check(b"+DATA/new/new/users", 0, Ok(3))),
    Step::Tells(Fact::Check(b"+DATA/DB/new/users", 512, Ok(2))),
    Step::Tells(Fact::Check(b"+DATA/db/type/TAG2", 512, Ok(1))),
    Step::Tells(Fact::Check(b"+DATA/db/users", 1, Err(Answer::NoTemplate))),
    Step::Tells(Fact::Check(b"+DATA/X/a/b", 1, Err(Answer::NotSectors))),
    Step::Tells(Fact::Check(b"+DATA/X/a/b", 512, Err(Answer::NotDirectory))),
    Step::Tells(Fact::Check(b"+DATA/db/type/TAG", 513, Err(Answer::NotSectors))),
    Step::Tells(Fact::Check(b"+DATA/db/type/TAG", 1024, Err(Answer::NameTaken))),
];

/// The number of a file that is being made isn't that of the next.
const NEXT_NUMBER: [Step<'static>; 1] = [Step::Tells(Fact::Check(b"+DATA/db/type/TAG", 0, Ok(1)))];

/// Plays the rows of the tree and of a file's first name, each in a group of its own.
fn play_names(alloc: Global) -> Result<(), Fail> {
    play(alloc, "directories", &[], 0, &DIRECTORIES)?;
    play(alloc, "aliases", &[], 0, &ALIASES)?;
    play(alloc, "last block of names", &[], 115, &LAST_BLOCK)?;
    play(alloc, "new head", &BEGUN, 0, &NEW_HEAD)?;
    play(alloc, "new nodes", &BEGUN, 0, &NEW_NODES)
}

/// Plays the rows of paths that a new file may not have, or has.
fn play_paths(alloc: Global) -> Result<(), Fail> {
    play(alloc, "paths of files", &BEGUN, 0, &PATHS)?;
    play(alloc, "taken names", &TAKEN_AND_BEGUN, 0, &TAKEN_NAMES)?;
    play(alloc, "full directories", &BEGUN, 113, &THREE_BLOCKS)?;
    play(alloc, "fuller directories", &BEGUN, 114, &TWO_BLOCKS)?;
    play(alloc, "checked names", &TAKEN, 0, &CHECKED)?;
    play(alloc, "next number", &TAKEN_AND_BEGUN, 0, &NEXT_NUMBER)
}

pub fn names_and_paths(alloc: Global) -> Result<(), Fail> {
    play_names(alloc)?;
    play_paths(alloc)
}
