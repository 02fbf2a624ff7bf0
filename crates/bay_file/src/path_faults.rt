// How often calls on each path failed.
ghost use Rattle.std.specs.Prelude.{◌≡◌, ◌≤◌, ℕ, OnOk, OnErr};
ghost use Rattle.bay.specs.Counts.{count_after};
ghost use Rattle.bay_file.specs.PathFaults.{faults_of_path, OthersKeep};

use std::alloc::{AllocError, Global};
use std::collections::BTreeMap;

// Paths whose calls never failed aren't kept.
pub type PathFaults = BTreeMap<String, u64>;

// Counts a fault of a path.
pub fn count_fault(alloc: Global, faults: &mut PathFaults, path: &str) -> Result<(), AllocError>
    ensures counted { OnOk result (faults_of_path faults.new path.now
        ≡ count_after (faults_of_path faults.old path.now) 1) }
    ensures others { OthersKeep path.now faults.old faults.new }
    ensures later { faults_of_path faults.old path.now ≤ faults_of_path faults.new path.now }
    ensures refused { OnErr result (faults_of_path faults.new path.now
        ≡ faults_of_path faults.old path.now) }
{
    let count = faults.get(path).copied().unwrap_or(0);
    let key = String::from_str(alloc, path)?;
    faults.insert(key, count.saturating_add(1))?;
    Ok(())
}
