// A file's operation begins, and its new extents get their homes.
ghost use Rattle.std.specs.Prelude.{◌≡◌, IfErr, OnOk};
ghost use Rattle.group_pieces.specs.group_engine.Mounts.{IsMounted, Takes};
ghost use Rattle.group_pieces.specs.group_engine.Own.{KeepsGroup};
ghost use Rattle.group_pieces.specs.group_engine.Pending.{GoesOn};
ghost use Rattle.file_extents.specs.Beginning.{Begins, HomesCause};

use crate::committing::{give_back, is_at_rest, shut};
use crate::filling::{Filling, choose_all, open_part};
use crate::rows::NewExtents;
use bay::Bay;
use catalog_tables::{Pending, PendingKind};
use group_pieces::Mounted;
use refusal_lines::Refusal;
use std::alloc::Global;

/// Begins an operation on a file: it is committed as the pending one. The move that is on its way
/// is given up. Refusals: Dismounted, and NoMemory.
pub fn begin_operation<B: Bay>(
    m: &mut Mounted,
    alloc: Global,
    bay: &mut B,
    kind: PendingKind,
    new: NewExtents,
) -> Result<(), Refusal>
    requires mounted { IsMounted m.old }
    requires takes { Takes m.old (B.state bay.old) }
    ensures goes { GoesOn m.old result m.new (B.state bay.old) (B.state bay.new) }
    ensures begins { OnOk result (Begins m.old kind new m.new) }
{
    m.set_flight(None);
    if !is_at_rest(m) {
        return Err(Refusal::NoMemory);
    }
    let op = Pending {
        kind,
        file: new.file,
        kept: new.first,
    };
    let catalog = m.catalog();
    // The tables keep their rules: the proof takes this from here.
    let _shape = catalog.shape();
    match catalog.plan_begin(alloc, op) {
        Ok(change) => m.commit_plan(alloc, bay, &change),
        Err(_) => Err(Refusal::NoMemory),
    }
}

/// Gives all extents of an operation that has begun homes, by the modes and the units of the group
/// as they are now. NoSpace: the first of them for which there is no choice once those before it
/// have theirs; the operation is given back. After want of memory the group takes no more calls.
/// Dismounted: it couldn't be given back.
pub fn give_homes<B: Bay>(
    m: &mut Mounted,
    alloc: Global,
    bay: &mut B,
    filling: &mut Filling,
) -> Result<(), Refusal>
    requires mounted { IsMounted m.old }
    requires takes { Takes m.old (B.state bay.old) }
    ensures keeps { KeepsGroup m.old m.new (B.state bay.old) (B.state bay.new) }
    ensures mounted { OnOk result (IsMounted m.new) }
    ensures cause { IfErr result (HomesCause m.old filling.old.extents m.new (B.state bay.old)
        (B.state bay.new)) }
    ensures extents { filling.new.extents ≡ filling.old.extents }
    ensures end { filling.new.end ≡ filling.old.end }
    ensures failed { filling.new.failed ≡ filling.old.failed }
{
    match choose_all(m, alloc, filling) {
        Ok(()) => {
            open_part(m, filling);
            Ok(())
        }
        Err(Refusal::NoSpace { extent }) => {
            Err(give_back(m, alloc, bay, Refusal::NoSpace { extent }))
        }
        Err(_) => Err(shut(m)),
    }
}
