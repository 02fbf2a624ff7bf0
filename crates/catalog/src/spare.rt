//! A second set of tables, by which a change is made in work that goes by the change.

ghost use Rattle.std.specs.Prelude.{◌≡◌, IfNone, IfOk, IfSome, None};
ghost use Rattle.catalog.specs.Spares.{IsSpareOf, ready_tables};
ghost use Rattle.catalog.specs.declared.spare.Spare.TheVariants.{Ready};
ghost use Rattle.plan_records.specs.catalog_tables.Tables.{AreTables};

use asm_base::{Change, NoMemory};
use plan_records::Parts;
use std::alloc::Global;

/// Tables beside those of a catalog, with the change that lies between the two.
#[derive(Drop)]
pub(crate) enum Spare {
    Absent,
    /// The tables before the last change, and that change.
    Behind { parts: Parts, change: Change },
    /// The tables after the change that the memory was taken for, and that change.
    Ready { parts: Parts, change: Change },
}

impl Spare {
    /// The tables that the memory was taken for, with their change.
    pub(crate) fn ready(self) -> Option<(Parts, Change)>
        ensures ready { IfSome result (λ x. self ≡ Ready x.0 x.1) }
        ensures none { IfNone result (ready_tables self ≡ None) }
    {
        match self {
            Spare::Ready { parts, change } => Some((parts, change)),
            _ => None,
        }
    }
}

/// Tables equal to a catalog's, of its spare ones. Those before the last change are brought up by
/// it, in work that goes by that change; otherwise all are copied.
pub(crate) fn brought_up(alloc: Global, spare: Spare, parts: &Parts) -> Result<Parts, NoMemory>
    requires tables { AreTables parts.now }
    requires spare { IsSpareOf spare parts.now }
    ensures { IfOk result (λ made. made ≡ parts.now) }
{
    match spare {
        Spare::Behind {
            parts: behind,
            change,
        } => behind.changed(alloc, &change),
        _ => parts.copy(alloc),
    }
}
