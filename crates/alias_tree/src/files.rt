//! The index of the names by file.

ghost use Rattle.std.specs.Prelude.{◌≡◌, ◌<◌, ◌^◌, ◌||◌, [], ℕ, IfNone, IfOk, IfSome, IsTrue, OnErr, OnOk, Some, None, false, true};
ghost use Rattle.std.specs.Ordering.{is_gt};
ghost use Rattle.std.specs.BTreeMap.Range.{IsInRange};
ghost use Rattle.std.specs.declared.ops.Bound.TheVariants.{Included};
ghost use Rattle.alias_tree.specs.FileNames.{is_left_there, has_name, is_it, is_same_file_name, name_by_kind, name_cmp, numbers_of_file, FileName};

use asm_base::{NoMemory, NodeKind};
use std::alloc::Global;
use std::collections::BTreeSet;
use std::marker::Model;

/// A node that is a name of a file. The names of a file stand together, its aliases last.
#[derive(Clone, Copy, Debug, PartialEq, Eq, PartialOrd, Ord)]
pub(crate) struct FileName {
    file: u32,
    is_alias: bool,
    number: u32,
}

/// The name of a file that a node of this number is.
pub(crate) fn name_by_kind(number: u32, file: u32, kind: NodeKind) -> Option<FileName>
    ensures { result ≡ name_by_kind number file kind }
{
    match kind {
        NodeKind::Directory => None,
        NodeKind::System => Some(FileName {
            file,
            is_alias: false,
            number,
        }),
        NodeKind::Alias => Some(FileName {
            file,
            is_alias: true,
            number,
        }),
    }
}

/// The nodes that are names of files, by file.
#[derive(Drop)]
pub(crate) struct FileNames {
    set: BTreeSet<FileName>,
}

impl Model for FileNames {
    ghost use Rattle.std.specs.Prelude.{List as Items};
    ghost use Rattle.alias_tree.specs.declared.files.FileName.{FileName};

    ghost Value = { Items FileName };

    ghost view = { λ n. n.set.keys };
}

impl FileNames {
    pub(crate) fn new(alloc: Global) -> FileNames
        ensures { result ≡ [] }
    {
        FileNames {
            set: BTreeSet::new(alloc),
        }
    }

    /// Puts a name, where there is one.
    pub(crate) fn put(&mut self, name: Option<FileName>) -> Result<(), NoMemory>
        ensures ok { OnOk result ((q : FileName)
            → has_name self.new q ≡ (is_it name q || has_name self.old q)) }
        ensures err { OnErr result (self.new ≡ self.old) }
    {
        let Some(name) = name else {
            return Ok(());
        };
        match self.set.insert(name) {
            Ok(_) => Ok(()),
            Err(_) => Err(NoMemory),
        }
    }

    /// Takes a name away, unless it is the one that is kept.
    pub(crate) fn forget(&mut self, gone: Option<FileName>, kept: Option<FileName>)
        ensures { (q : FileName) → has_name self.new q
            ≡ is_left_there gone kept q (has_name self.old q) }
    {
        let Some(gone) = gone else {
            return;
        };
        if !is_that(kept, gone) {
            let _ = self.set.remove(&gone);
        }
    }

    /// The first node that is a name of the file.
    pub(crate) fn first(&self, file: u32) -> Option<u32>
        ensures found { IfSome result (λ n. (q : FileName) × (q.file ≡ file) × (q.number ≡ n)
            × (has_name self.now q ≡ true)) }
        ensures none { IfNone result ((q : FileName) → q.file ≡ file → q.number < 2 ^ 32
            → has_name self.now q ≡ false) }
    {
        let from = FileName {
            file,
            is_alias: false,
            number: 0,
        };
        let to = FileName {
            file,
            is_alias: true,
            number: u32::MAX,
        };
        let first = self.between(from, to)?;
        Some(first.number)
    }

    /// Whether the file has a user alias.
    pub(crate) fn has_alias(&self, file: u32) -> bool
        ensures found { result ≡ true → (q : FileName) × (q.file ≡ file) × (q.is_alias ≡ true)
            × (has_name self.now q ≡ true) }
        ensures none { result ≡ false → (q : FileName) → q.file ≡ file → q.is_alias ≡ true
            → q.number < 2 ^ 32 → has_name self.now q ≡ false }
    {
        let from = FileName {
            file,
            is_alias: true,
            number: 0,
        };
        let to = FileName {
            file,
            is_alias: true,
            number: u32::MAX,
        };
        self.between(from, to).is_some()
    }

    /// The nodes that are names of the file.
    pub(crate) fn all(&self, alloc: Global, file: u32) -> Result<Vec<u32>, NoMemory>
        ensures { IfOk result (λ v. v.items ≡ numbers_of_file self.now file) }
    {
        let from = FileName {
            file,
            is_alias: false,
            number: 0,
        };
        let to = FileName {
            file,
            is_alias: true,
            number: u32::MAX,
        };
        let mut numbers = Vec::new(alloc);
        for name in self.set.range(from..=to) {
            if numbers.push(name.number).is_err() {
                return Err(NoMemory);
            }
        }
        Ok(numbers)
    }

    /// The first name that is between two.
    fn between(&self, from: FileName, to: FileName) -> Option<FileName>
        requires { is_gt (name_cmp from to) ≡ false }
        ensures found { IfSome result (λ q. IsInRange name_cmp (Included from) (Included to) q
            × (has_name self.now q ≡ true)) }
        ensures none { IfNone result ((q : FileName)
            → IsInRange name_cmp (Included from) (Included to) q → has_name self.now q ≡ false) }
    {
        match self.set.range(from..=to).next() {
            Some(name) => Some(*name),
            None => None,
        }
    }
}

fn is_that(kept: Option<FileName>, name: FileName) -> bool
    ensures { result ≡ is_it kept name }
{
    match kept {
        None => false,
        Some(kept) => kept.cmp(&name).is_eq(),
    }
}
