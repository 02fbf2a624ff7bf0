//! A group is dropped: its status record is marked gone.
ghost use Rattle.std.specs.Prelude.{◌≡◌, false, IfErr, IsTrue, OnOk};
ghost use Rattle.asm_formats.specs.Status.{is_status};
ghost use Rattle.status_register.specs.Keeping.{IsRegisterReady as IsWritable};
ghost use Rattle.status_register.specs.Reaching.{Reaches};
ghost use Rattle.status_register.specs.RegisterCalls.{HasWritten};
ghost use Rattle.group_engine.specs.Gone.{GoneCause, EndsGroup, IsGone, gone_of};
ghost use Rattle.group_engine.specs.Mounts.{IsMounted, IsReady, IsWhole};
ghost use Rattle.group_engine.specs.Own.{KeepsGroup};

use crate::access::Access;
use crate::mounted::Mounted;
use crate::search::Search;
use asm_base::DiskSet;
use bay::Bay;
use refusal_lines::{DiskRef, Refusal};
use status_register::{Dead, Register, with_gone};

/// Writes the record that holds, marked gone.
fn mark_gone<B: Bay>(bay: &mut B, register: &mut Register) -> Result<DiskSet, Dead>
    requires status { IsTrue (is_status register.old.value) }
    requires written { register.old.is_fresh ≡ false }
    requires ready { IsWritable register.old (B.state bay.old) }
    requires majority { Reaches register.old.members register.old.value }
    ensures { HasWritten register.old (gone_of register.old.value) result register.new
        (B.state bay.old) (B.state bay.new) }
{
    let value = register.value();
    let next = with_gone(value);
    register.write(bay, &next)
}

impl Mounted {
    /// Drops the group: writes its record marked gone, by which a later mount finds no group. It
    /// takes no memory. The group takes no calls from then on, whatever comes. Refusals:
    /// Dismounted, where the group is, or where in this call a majority of a set of the record
    /// failed; NoMemory, where the group was closed before.
    pub fn end_group<B: Bay>(&mut self, bay: &mut B) -> Result<(), Refusal>
        requires whole { IsMounted self.old → IsWhole self.old }
        requires ready { IsMounted self.old → IsReady self.old (B.state bay.old) }
        ensures keeps { KeepsGroup self.old self.new (B.state bay.old) (B.state bay.new) }
        ensures closed { IsMounted self.new → ⊥ }
        // Once it is done, a majority of each set shows the record. It is done of a group that took
        // calls alone.
        ensures mounted { OnOk result (IsMounted self.old) }
        ensures gone { OnOk result (IsGone self.old self.new (B.state bay.old) (B.state bay.new)) }
        ensures cause { IfErr result (GoneCause self.old self.new (B.state bay.old)
            (B.state bay.new)) }
    {
        match self.access {
            Access::Mounted => self.write_gone(bay),
            Access::Dismounted { disk } => Err(Refusal::Dismounted {
                disk: DiskRef::Number(disk),
            }),
            Access::Closed => Err(Refusal::NoMemory),
        }
    }

    /// Drops a group that takes calls.
    fn write_gone<B: Bay>(&mut self, bay: &mut B) -> Result<(), Refusal>
        requires whole { IsWhole self.old }
        requires ready { IsReady self.old (B.state bay.old) }
        ensures { EndsGroup self.old result self.new (B.state bay.old) (B.state bay.new) }
    {
        self.search = Search::start();
        match mark_gone(bay, &mut self.register) {
            Ok(_) => {
                self.access = Access::Closed;
                Ok(())
            }
            Err(dead) => Err(self.dismount(dead.slot)),
        }
    }
}
