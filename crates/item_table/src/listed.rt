//! What may be kept in a table.

ghost use Rattle.std.specs.Prelude.{◌≡◌, Bool, IfOk, IsTrue, Option};
ghost use Rattle.std.specs.Option.{option_map};
ghost use Rattle.std.specs.declared.cmp.Ordering.TheVariants.{Equal};
ghost use Rattle.asm_base.specs.asm_formats.Items.{Item, Key as RecordKey};
ghost use Rattle.asm_base.specs.Tables.{entry_of_record};
ghost use Rattle.asm_base.proofs.ItemTables.{AreEntries, IsEntry};

use asm_base::{Key, NoMemory, Value};
use std::alloc::Global;

/// What a table keeps by its keys. With its key it is an item of the formats, and so what one
/// record says.
pub trait Listed<K: Ord + Copy>: Sized + Drop {
    /// The item that it is at a key.
    ghost item_of: { K × Self → Item };

    /// The key and what is kept there, where an item is that.
    ghost entry_of: { Item → Option (K × Self) };

    /// Whether a record's key is that of such items.
    ghost is_mine: { RecordKey → Bool };

    /// The table's key of a record's.
    ghost place_of: { RecordKey → K };

    /// Whether a record's key is that of such items.
    fn is_mine(key: Key) -> bool
        ensures { result ≡ is_mine key };

    /// The table's key of a record's.
    fn place_of(key: Key) -> K
        ensures { result ≡ place_of key };

    /// What the value of a record says, or None where it is not the spelling of any.
    fn in_record(alloc: Global, key: Key, value: &Value) -> Result<Option<Self>, NoMemory>
        requires { IsTrue (is_mine key) }
        ensures { IfOk result (λ read. entry_of_record entry_of (key, value.now) ≡ option_map (λ x. (place_of key, x)) read) };

    /// An equal one.
    fn copied(&self, alloc: Global) -> Result<Self, NoMemory>
        ensures { IfOk result (λ copy. copy ≡ self.now) };

    /// An item is the entry whose item it is.
    ghost is_entry: { IsEntry item_of entry_of };

    /// Each item of such a key is that of an entry.
    ghost are_entries: { AreEntries is_mine item_of };

    /// Keys that compare alike are one.
    ghost exact: { (x y : K) → K.cmp x y ≡ Equal → x ≡ y };
}
