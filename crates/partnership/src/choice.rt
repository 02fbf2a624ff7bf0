//! Disks that are taken in rounds over the failure groups.

ghost use Rattle.std.specs.Prelude.{◌≡◌, ◌<◌, ◌++◌, filter, fold, IfSome, slice_get};
ghost use Rattle.asm_placement.specs.DiskSets.{by_group};
ghost use Rattle.asm_placement.specs.TableDisks.{in_rounds};
ghost use Rattle.partnership.specs.Selections.{FitInSet, lies_in};
ghost use Rattle.partnership.specs.Rounds.{none_of, round, with_disk, with_found};

use crate::failure_groups::has_group;
use allocator::DiskSet;
use status_table::PstEntry;

/// Disks that were taken, and how many are left to take.
#[derive(Clone, Copy)]
pub struct Choice {
    pub set: DiskSet,
    pub left: usize,
}

impl Choice {
    pub fn none_of(count: usize) -> Choice
        ensures { result ≡ none_of count }
    {
        Choice {
            set: DiskSet::empty(),
            left: count,
        }
    }

    /// One more, while some are left to take.
    #[tactic(auto, using(crate::proofs::Tables::bit_is))]
    fn with_disk(self, disk: &PstEntry) -> Choice
        requires { disk.now.number < 64 }
        ensures { result ≡ with_disk self disk.now }
    {
        if self.left == 0 {
            return self;
        }
        let bits = self.set.bits() | 1 << disk.number;
        Choice {
            set: DiskSet::from_bits(bits),
            left: self.left - 1,
        }
    }

    fn with_found(self, disk: Option<PstEntry>) -> Choice
        requires { IfSome disk (λ e. e.number < 64) }
        ensures { result ≡ with_found self disk }
    {
        match disk {
            Some(disk) => self.with_disk(&disk),
            None => self,
        }
    }
}

/// So many disks in rounds over the failure groups, quorum groups first. Each round takes the next
/// disk of each group.
#[tactic(auto, using(crate::proofs::Rounds::round_step, crate::proofs::Rounds::rounds_start, crate::proofs::Rounds::rounds_end, crate::proofs::Rounds::none_left))]
pub fn in_rounds(quorum: &[PstEntry], regular: &[PstEntry], rounds: usize, count: usize) -> Choice
    requires quorum_numbers { FitInSet quorum.now }
    requires numbers { FitInSet regular.now }
    ensures { result ≡ fold with_disk (none_of count)
        (in_rounds rounds (by_group quorum.now ++ by_group regular.now)) }
{
    let mut choice = Choice::none_of(count);
    for k in 0..rounds {
        if choice.left == 0 {
            return choice;
        }
        choice = with_round(choice, quorum, k);
        choice = with_round(choice, regular, k);
    }
    choice
}

/// Takes of each failure group the disk before which it has so many.
#[tactic(auto, using(crate::proofs::Rounds::group_step, crate::proofs::Rounds::group_past, crate::proofs::Rounds::round_start, crate::proofs::Rounds::round_end))]
pub fn with_round(from: Choice, disks: &[PstEntry], k: usize) -> Choice
    requires { FitInSet disks.now }
    ensures { result ≡ fold with_disk from (round k disks.now) }
{
    let mut choice = from;
    for i in 0..disks.len() {
        let disk = &disks[i];
        let failgroup = disk.failgroup;
        if !has_group(&disks[..i], failgroup) {
            choice = choice.with_found(nth_of_group(disks, failgroup, k));
        }
    }
    choice
}

/// The disk of the failure group before which it has so many.
#[tactic(auto, using(crate::proofs::Rounds::nth_step, crate::proofs::Rounds::nth_past, crate::proofs::Rounds::nth_found, crate::proofs::Rounds::nth_end))]
fn nth_of_group(disks: &[PstEntry], failgroup: u8, n: usize) -> Option<PstEntry>
    requires { FitInSet disks.now }
    ensures disk { result ≡ slice_get (filter (lies_in failgroup) disks.now) n }
    ensures number { IfSome result (λ e. e.number < 64) }
{
    let mut left = n;
    for disk in disks {
        if disk.failgroup == failgroup {
            if left == 0 {
                return Some(*disk);
            }
            left -= 1;
        }
    }
    None
}
