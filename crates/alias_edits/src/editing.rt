//! Edits of the tree of names.

ghost use Rattle.std.specs.Prelude.{◌≡◌, IfErr, IsTrue, OnErr, OnOk, None, Ok};
ghost use Rattle.std.specs.Option.{option_map};
ghost use Rattle.asm_group.specs.Names.{is_part};
ghost use Rattle.asm_group.specs.Causes.{first_cause};
ghost use Rattle.asm_group.specs.TreeEdits.{edit_causes, edited};
ghost use Rattle.alias_edits.specs.Edits.{ChangesNodes, IsRefusal, are_parts, cause_said, edit_meant, is_tree_edit};
ghost use Rattle.alias_tree.specs.Trees.{tree_of};

use crate::causes::{
    add_alias_refusal, drop_alias_refusal, drop_dir_refusal, drop_file_refusal, new_name_refusal,
    rename_alias_refusal, rename_dir_refusal,
};
use crate::changing::{
    add_alias, drop_alias, drop_dir, drop_names, make, rename_alias, rename_dir,
};
use alias_tree::{AliasTree, Name, NoMemory, NodeKind, Path};

/// An edit of the tree of names. It heeds the parts of a path alone, not the group's name.
#[derive(Debug, Drop)]
pub enum TreeEdit {
    /// Makes a directory.
    MakeDir { path: Path },
    /// Takes away a directory that has no names.
    DropDir { path: Path },
    /// Puts a directory, with all that lies below it, at another path.
    RenameDir { old: Path, new: Path },
    /// Gives the file of a path its user alias.
    AddAlias { alias: Path, path: Path },
    /// Puts a user alias at another path.
    RenameAlias { old: Path, new: Path },
    /// Takes away a user alias.
    DropAlias { path: Path },
    /// Gives a file its system name, below a directory that is there.
    AddFile { path: Path, file: u32 },
    /// Takes away all names of a file.
    DropFile { file: u32 },
}

/// Why an edit of the tree is refused.
#[derive(Clone, Copy, Debug, PartialEq, Eq)]
pub enum TreeError {
    /// The root, or a path to nothing, or to nothing of this kind; or nothing is above a new name.
    NoName,
    /// The new name is there, or it lies below the directory that is to be renamed.
    NameTaken,
    /// What is to be a directory is a file.
    NotDirectory,
    /// The directory has names.
    NotEmpty,
    /// The file has a user alias.
    HasAlias,
    /// It is a system name, which goes with its file alone.
    SystemName,
    /// There is no memory. The tree is as it was.
    NoMemory,
}

impl TreeEdit {
    /// Whether the parts of the name that it puts are of the grammar: 1 to 80 bytes each.
    pub fn is_allowed(&self) -> bool
        ensures { result ≡ is_tree_edit (edit_meant self.now) }
    {
        match self {
            TreeEdit::MakeDir { path } => are_parts(path.parts.as_slice()),
            TreeEdit::RenameDir { new, .. } => are_parts(new.parts.as_slice()),
            TreeEdit::AddAlias { alias, .. } => are_parts(alias.parts.as_slice()),
            TreeEdit::RenameAlias { new, .. } => are_parts(new.parts.as_slice()),
            TreeEdit::AddFile { path, .. } => are_parts(path.parts.as_slice()),
            TreeEdit::DropDir { .. } => true,
            TreeEdit::DropAlias { .. } => true,
            TreeEdit::DropFile { .. } => true,
        }
    }
}

#[tactic(auto, using(alias_tree::proofs::Paths::all_step, alias_tree::proofs::Paths::all_stop))]
fn are_parts(parts: &[Name]) -> bool
    ensures { result ≡ are_parts parts.now }
{
    for part in parts {
        if !is_part(part) {
            return false;
        }
    }
    true
}

/// Whether the name has at most 80 bytes.
#[tactic(auto, using(alias_tree::proofs::Single::short_is_part))]
fn is_part(name: &Name) -> bool
    ensures { result ≡ is_part 80 name.now }
{
    name.as_bytes().len() <= 80
}

/// Edits the tree. The refusals are tried in the order of `TreeError`, but for NoMemory, which
/// comes last. After an `Err` the tree is as it was. A path costs a look-up for each of its parts,
/// a row of new nodes one for each, and AddAlias and DropFile one for each name of the file,
/// whatever other names there are.
#[tactic(auto, using(crate::proofs::EditLaws::edited_is, crate::proofs::EditLaws::refused_is))]
pub fn edit(tree: &mut AliasTree, edit: &TreeEdit) -> Result<(), TreeError>
    requires { IsTrue (is_tree_edit (edit_meant edit.now)) }
    // The tree of names is edited as the edit says.
    ensures done { OnOk result (edited (tree_of tree.old) (edit_meant edit.now)
        ≡ Ok (tree_of tree.new)) }
    // One node is put, moved or gone, or the names of one file are gone.
    ensures nodes { OnOk result (ChangesNodes tree.old tree.new (edit_meant edit.now)) }
    ensures refused { IfErr result (IsRefusal (edited (tree_of tree.old) (edit_meant edit.now))) }
    ensures unchanged { OnErr result (tree.new ≡ tree.old) }
{
    tree.keeps_rule();
    if let Some(cause) = refusal(tree, edit) {
        return Err(cause);
    }
    match apply(tree, edit) {
        Ok(()) => {
            tree.keeps_rule();
            Ok(())
        }
        Err(NoMemory) => Err(TreeError::NoMemory),
    }
}

/// Why an edit is refused, or None where it isn't.
pub(crate) fn refusal(tree: &AliasTree, edit: &TreeEdit) -> Option<TreeError>
    ensures { option_map cause_said result
        ≡ first_cause (edit_causes (tree_of tree.now) (edit_meant edit.now)) }
{
    match edit {
        TreeEdit::MakeDir { path } => new_name_refusal(tree, path),
        TreeEdit::DropDir { path } => drop_dir_refusal(tree, path),
        TreeEdit::RenameDir { old, new } => rename_dir_refusal(tree, old, new),
        TreeEdit::AddAlias { alias, path } => add_alias_refusal(tree, alias, path),
        TreeEdit::RenameAlias { old, new } => rename_alias_refusal(tree, old, new),
        TreeEdit::DropAlias { path } => drop_alias_refusal(tree, path),
        TreeEdit::AddFile { path, .. } => new_name_refusal(tree, path),
        TreeEdit::DropFile { file } => drop_file_refusal(tree, *file),
    }
}

/// Does an edit that isn't refused.
fn apply(tree: &mut AliasTree, edit: &TreeEdit) -> Result<(), NoMemory>
    requires edit { IsTrue (is_tree_edit (edit_meant edit.now)) }
    requires free { first_cause (edit_causes (tree_of tree.old) (edit_meant edit.now)) ≡ None }
    ensures ok { OnOk result (ChangesNodes tree.old tree.new (edit_meant edit.now)) }
    ensures err { OnErr result (tree.new ≡ tree.old) }
{
    match edit {
        TreeEdit::MakeDir { path } => make(tree, path, NodeKind::Directory, 0),
        TreeEdit::DropDir { path } => {
            drop_dir(tree, path);
            Ok(())
        }
        TreeEdit::RenameDir { old, new } => rename_dir(tree, old, new),
        TreeEdit::AddAlias { alias, path } => add_alias(tree, alias, path),
        TreeEdit::RenameAlias { old, new } => rename_alias(tree, old, new),
        TreeEdit::DropAlias { path } => {
            drop_alias(tree, path);
            Ok(())
        }
        TreeEdit::AddFile { path, file } => make(tree, path, NodeKind::System, *file),
        TreeEdit::DropFile { file } => {
            drop_names(tree, *file);
            Ok(())
        }
    }
}
