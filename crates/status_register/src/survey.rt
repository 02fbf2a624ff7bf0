//! What a mount reads of the members before it claims an epoch.

ghost use Rattle.std.specs.Prelude.{◌≡◌, ◌≤◌, length};
ghost use Rattle.status_register.specs.Answers.{Judges};
ghost use Rattle.status_register.specs.RegisterCalls.{ClaimsNext, HasSurveyed};
ghost use Rattle.status_register.specs.Registered.{AreNumbered};
ghost use Rattle.status_register.specs.Rows.{HaveOwnSlots};
ghost use Rattle.status_register.specs.Tallies.{HaveSlots};

use crate::majorities::missing;
use crate::members::MemberList;
use crate::register::{Register, claim_epoch};
use crate::tally::{Tally, read_all};
use crate::{Member, SurveyError};
use bay::Bay;
use status_table::PstRecord;
use std::marker::Model;

/// What was read of a group's members: the greatest record, of which a majority of each set was
/// read. Contracts see what was surveyed.
#[derive(Drop)]
pub struct Survey {
    id: u64,
    members: MemberList,
    read: MemberList,
    value: PstRecord,
    epoch: u64,
}

impl Model for Survey {
    ghost use Rattle.status_register.specs.Answers.{Surveyed};

    ghost Value = { Surveyed };

    ghost view = { λ s. record { id = s.id; members = s.members; read = s.read; value = s.value; epoch = s.epoch } };
}

impl Survey {
    /// Reads the claim and status slots of the members of a group, and gives the greatest record.
    /// Nothing is synced: a mount has done so.
    pub fn read<B: Bay>(bay: &mut B, id: u64, members: &[Member]) -> Result<Survey, SurveyError>
        requires slots { HaveSlots (B.state bay.old) members.now }
        requires few { length members.now ≤ 512 }
        ensures { HasSurveyed id members.now result (B.state bay.old) (B.state bay.new) }
    {
        let tally = read_all(bay, id, members);
        judge(id, members, tally)
    }

    /// Claims an epoch above all that was read: the claim is put on every member, and a majority of
    /// each set of the record must take it. At each moment the disks fit the history that they did.
    pub fn claim<B: Bay>(self, bay: &mut B) -> Result<Register, SurveyError>
        requires slots { HaveSlots (B.state bay.old) self.members }
        requires apart { HaveOwnSlots self.members }
        requires numbers { AreNumbered self.members }
        ensures { ClaimsNext self result (B.state bay.old) (B.state bay.new) }
    {
        claim_epoch(bay, self.id, self.members, self.value, self.epoch)
    }

    /// The members that were surveyed.
    pub fn members(&self) -> &[Member]
        ensures { result.now ≡ self.now.members }
    {
        self.members.members()
    }

    /// Those of them that were read.
    pub fn seen(&self) -> &[Member]
        ensures { result.now ≡ self.now.read }
    {
        self.read.members()
    }

    /// The greatest record that was read.
    pub fn value(&self) -> &PstRecord
        ensures { result.now ≡ self.now.value }
    {
        &self.value
    }

    /// The greatest epoch that was read, of a claim or of the record.
    pub fn epoch(&self) -> u64
        ensures { result ≡ self.now.epoch }
    {
        self.epoch
    }
}

/// Judges what was read.
fn judge(id: u64, members: &[Member], tally: Tally) -> Result<Survey, SurveyError>
    requires few { length members.now ≤ 512 }
    ensures { Judges id members.now tally result }
{
    let Tally {
        read,
        epoch,
        status,
        damage,
    } = tally;
    let Some(value) = status else {
        return Err(SurveyError::NoMajority { seen: 0, need: 1 });
    };
    if let Some((seen, need)) = missing(read.members(), &value) {
        return Err(SurveyError::NoMajority { seen, need });
    }
    if let Some((slot, block)) = damage {
        return Err(SurveyError::Damaged {
            slot,
            block,
            gone: value.gone,
        });
    }
    let epoch = epoch.max(value.epoch);
    Ok(Survey {
        id,
        members: MemberList::of(members),
        read,
        value,
        epoch,
    })
}
