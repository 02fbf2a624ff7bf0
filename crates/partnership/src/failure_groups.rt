//! The failure groups of disks.

ghost use Rattle.std.specs.Prelude.{◌≡◌, ◌≤◌, length};
ghost use Rattle.std.specs.List.{list_any};
ghost use Rattle.asm_placement.specs.DiskSets.{distinct_failgroups};
ghost use Rattle.partnership.specs.Selections.{lies_in};

use status_table::PstEntry;

/// Whether one of the disks lies in the failure group.
pub fn has_group(disks: &[PstEntry], failgroup: u8) -> bool
    ensures { result ≡ list_any (lies_in failgroup) disks.now }
{
    disks.iter().any(|disk| disk.failgroup == failgroup)
}

/// In how many failure groups the disks lie.
#[tactic(auto, using(crate::proofs::FailureGroups::count_first, crate::proofs::FailureGroups::count_later, crate::proofs::FailureGroups::count_start, crate::proofs::FailureGroups::count_end))]
pub fn group_count(disks: &[PstEntry]) -> usize
    ensures { result ≡ length (distinct_failgroups disks.now) }
{
    let mut count = 0;
    for i in 0..disks.len() {
        let disk = &disks[i];
        if !has_group(&disks[..i], disk.failgroup) {
            count += 1;
        }
    }
    count
}
