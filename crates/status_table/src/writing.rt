//! The spelling of a status record.

ghost use Rattle.std.specs.Prelude.{◌≡◌, ◌≤◌, ◌+◌, ◌*◌, ◌++◌, ◌∷◌, [], length, flat_map, IsTrue};
ghost use Rattle.std.specs.Int.{w64};
ghost use Rattle.asm_formats.specs.Bytes.{number_bytes};
ghost use Rattle.asm_formats.specs.Status.{entry_fields, is_status, status_spelling};
ghost use Rattle.asm_base.specs.Cursors.{PutsField};
ghost use Rattle.status_table.specs.declared.reading.Version.TheVariants.{Two};
ghost use Rattle.status_table.specs.Readings.{status_fields};

use crate::record::{PstEntry, PstRecord};
use asm_base::{Block, Writer, finish, put_bytes, put_flag, put_set, put_u8, put_u32, put_u64};
use byte_codes::put_mode;

/// Fills the block with the record, in version 2.
#[tactic(auto, using(crate::proofs::Laws::spelling_is))]
pub fn encode(status: &PstRecord, block: &mut Block)
    requires { IsTrue (is_status status.now) }
    ensures { block.new.bytes ≡ status_spelling status.now }
{
    let mut to = Writer { block, at: 0 };
    put_record(&mut to, status);
    finish(&mut to);
}

fn put_record(to: &mut Writer, status: &PstRecord)
    requires { to.old.at + 2624 ≤ 4096 }
    ensures puts { PutsField to.old to.new (status_fields Two status.now) }
    ensures at { to.new.at ≤ to.old.at + 2624 }
{
    put_bytes(to, b"ASMP\x00\x02");
    put_u64(to, status.id);
    put_u64(to, status.epoch);
    put_u64(to, status.turn);
    put_flag(to, status.gone);
    put_u64(to, status.births);
    put_set(to, status.holders);
    put_set(to, status.next_holders);
    put_set(to, status.dirs);
    put_entries(to, status.entries());
}

/// The number of entries, and each entry.
fn put_entries(to: &mut Writer, entries: &[PstEntry])
    requires few { length entries.now ≤ 64 }
    requires room { to.old.at + 1 + 40 * length entries.now ≤ 4096 }
    ensures puts { PutsField to.old to.new (length entries.now
        ∷ flat_map entry_fields entries.now) }
    ensures at { to.new.at ≡ to.old.at + 1 + 40 * length entries.now }
{
    put_u8(to, entries.len() as u8);
    for entry in entries {
        put_entry(to, *entry);
    }
}

#[tactic(auto, unfolding(asm_formats::specs::Status::entry_fields))]
fn put_entry(to: &mut Writer, entry: PstEntry)
    requires { to.old.at + 40 ≤ 4096 }
    ensures puts { PutsField to.old to.new (entry_fields entry) }
    ensures at { to.new.at ≡ to.old.at + 40 }
{
    put_u8(to, entry.number);
    put_u64(to, entry.birth);
    put_mode(to, entry.mode);
    put_u8(to, entry.failgroup);
    put_flag(to, entry.quorum);
    put_u32(to, entry.units);
    put_u64(to, entry.since);
    put_u64(to, entry.repair);
    put_set(to, entry.partners);
}
