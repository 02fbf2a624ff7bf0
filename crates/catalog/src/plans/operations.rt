//! Plans of the rebalance and of the pending operation.

ghost use Rattle.std.specs.Prelude.{◌≡◌, ◌<◌, ◌^◌, IfErr, IfOk, None, Some, true};
ghost use Rattle.asm_formats.specs.Items.{is_item, pending_item};
ghost use Rattle.refusal_lines.specs.declared.refusal.Refusal.TheVariants.{NoMemory as WithoutMemory};
ghost use Rattle.catalog.specs.Plans.{AreOwned, IsPlan};

use crate::catalog::Catalog;
use crate::plans::refusals::no_memory;
use asm_base::{Change, Key, NoMemory, PENDING_KEY, REBALANCE_KEY};
use plan_records::{Pending, one_gone, one_put, pending_record, rebalance_record};
use refusal_lines::Refusal;
use std::alloc::Global;

impl Catalog {
    /// The change by which the rebalance of a power is the active one, or none is.
    pub fn plan_rebalance(&self, alloc: Global, power: Option<u16>) -> Result<Change, Refusal>
        ensures planned { IfOk result (λ change. IsPlan self.now change.put change.gone
            (record self.now.tables {
              operations = record self.now.tables.operations { rebalance = power };
            })) }
        ensures refused { IfErr result (λ e. e ≡ WithoutMemory) }
    {
        let change = match power {
            Some(power) => self.set_power(alloc, power),
            None => self.set_no_power(alloc),
        };
        change.map_err(no_memory)
    }

    #[tactic(auto, using(crate::proofs::PlanLaws::power_planned))]
    fn set_power(&self, alloc: Global, power: u16) -> Result<Change, NoMemory>
        ensures { IfOk result (λ change. IsPlan self.now change.put change.gone
            (record self.now.tables {
              operations = record self.now.tables.operations { rebalance = Some power };
            })) }
    {
        self.keeps_rules();
        let entry = rebalance_record(alloc, power)?;
        let change = one_put(alloc, entry)?;
        Ok(change)
    }

    #[tactic(auto, using(crate::proofs::PlanLaws::no_power_planned))]
    fn set_no_power(&self, alloc: Global) -> Result<Change, NoMemory>
        ensures { IfOk result (λ change. IsPlan self.now change.put change.gone
            (record self.now.tables {
              operations = record self.now.tables.operations { rebalance = None };
            })) }
    {
        self.keeps_rules();
        let change = one_gone(alloc, REBALANCE_KEY)?;
        Ok(change)
    }

    /// The change by which an operation is the pending one. It is a plan where each chunk is then
    /// one of a file or of the operation.
    pub fn plan_begin(&self, alloc: Global, op: Pending) -> Result<Change, Refusal>
        ensures planned { IfOk result (λ change. AreOwned
            (record self.now.tables {
              operations = record self.now.tables.operations { pending = Some op };
            }) → IsPlan self.now change.put change.gone
            (record self.now.tables {
              operations = record self.now.tables.operations { pending = Some op };
            })) }
        ensures refused { IfErr result (λ e. e ≡ WithoutMemory) }
    {
        self.set_pending(alloc, op).map_err(no_memory)
    }

    #[tactic(auto, using(crate::proofs::PlanLaws::begun_planned))]
    fn set_pending(&self, alloc: Global, op: Pending) -> Result<Change, NoMemory>
        ensures { IfOk result (λ change. AreOwned
            (record self.now.tables {
              operations = record self.now.tables.operations { pending = Some op };
            }) → IsPlan self.now change.put change.gone
            (record self.now.tables {
              operations = record self.now.tables.operations { pending = Some op };
            })) }
    {
        self.keeps_rules();
        fits(&op);
        let entry = pending_record(alloc, &op)?;
        let change = one_put(alloc, entry)?;
        Ok(change)
    }

    /// The change by which no operation is pending. It is a plan where each chunk is then one of a
    /// file.
    pub fn plan_end(&self, alloc: Global) -> Result<Change, Refusal>
        ensures planned { IfOk result (λ change. AreOwned
            (record self.now.tables {
              operations = record self.now.tables.operations { pending = None };
            }) → IsPlan self.now change.put change.gone
            (record self.now.tables {
              operations = record self.now.tables.operations { pending = None };
            })) }
        ensures refused { IfErr result (λ e. e ≡ WithoutMemory) }
    {
        self.set_no_pending(alloc).map_err(no_memory)
    }

    #[tactic(auto, using(crate::proofs::PlanLaws::ended_planned))]
    fn set_no_pending(&self, alloc: Global) -> Result<Change, NoMemory>
        ensures { IfOk result (λ change. AreOwned
            (record self.now.tables {
              operations = record self.now.tables.operations { pending = None };
            }) → IsPlan self.now change.put change.gone
            (record self.now.tables {
              operations = record self.now.tables.operations { pending = None };
            })) }
    {
        self.keeps_rules();
        let change = one_gone(alloc, PENDING_KEY)?;
        Ok(change)
    }
}

/// Shows that an operation is one that a record may say, and does nothing.
#[tactic(auto, using(crate::proofs::PlanLaws::operation_fits))]
pub(crate) fn fits(op: &Pending)
    ensures { is_item (pending_item op.now) ≡ true }
{
    numbers(op.file, op.kept);
}

fn numbers(file: u32, kept: u64)
    ensures file { file < 2 ^ 32 }
    ensures kept { kept < 2 ^ 64 }
{
    // Reading a number shows that it is one of its type.
    let _file = file;
    let _kept = kept;
}
