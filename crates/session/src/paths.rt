// The paths of clauses and of verbs, in groups.
ghost use Rattle.std.specs.Prelude.{◌≡◌, IfErr, IfOk};
ghost use Rattle.std.specs.Option.{option_map};
ghost use Rattle.asm_world.specs.Paths.{clause_path};
ghost use Rattle.session.specs.Leading.{IsLedTo, IsNoTarget};

use asm_base::{Name, NoMemory, Path};
use group_turns::{clause_path, target};
use refusal_lines::Refusal;
use std::alloc::Global;

/// The path of a clause in the group that the statement names. None where it isn't a path of that
/// group.
pub fn path_in(alloc: Global, group: &Name, path: &[u8]) -> Result<Option<Path>, NoMemory>
    ensures { IfOk result (λ led. option_map (λ p. p.parts) led ≡ clause_path group.now path.now) }
{
    match clause_path(alloc, group, path)? {
        Some(parts) => {
            let group = group.copy()?;
            Ok(Some(Path { group, parts }))
        }
        None => Ok(None),
    }
}

/// The path in a group to which that of a verb leads from a place. NoGroup where it comes to `+`.
pub fn path_of_verb(alloc: Global, place: &[Name], path: &[u8]) -> Result<Path, Refusal>
    ensures led { IfOk result (IsLedTo place.now path.now) }
    ensures cause { IfErr result (IsNoTarget place.now path.now) }
{
    match target(alloc, place, path) {
        Ok(Some(path)) => Ok(path),
        Ok(None) => Err(Refusal::NoGroup),
        Err(NoMemory) => Err(Refusal::NoMemory),
    }
}
