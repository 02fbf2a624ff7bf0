//! A group of normal redundancy comes to be on four of five disks in memory, and is mounted again.

ghost use Rattle.std.specs.Prelude.{IfOk, IfSome};
ghost use Rattle.group_engine.specs.Mounts.{Takes};

use asm_base::{GroupKind, Name};
use bay::Bay;
use group_engine::Mounted;
use group_recovery::MountOption;
use group_sql::{Statement, read_statement};
use new_groups::{GroupAsked, Known, create_group, mount_group};
use std::alloc::Global;

/// Four disks of units of 4K, with the least directories.
const STATEMENT: &[u8] =
    b"CREATE DISKGROUP D DISK 'd0', 'd1', 'd2', 'd3' ATTRIBUTE 'au_size'='4K', 'dir_blocks'='128';";

/// What the statement asks for.
fn asked(alloc: Global) -> Option<GroupAsked> {
    match read_statement(alloc, STATEMENT) {
        Ok(
            Statement::CreateGroup {
                name,
                kind,
                groups,
                attributes,
            },
        ) => Some(GroupAsked {
            name,
            kind: kind.unwrap_or(GroupKind::Normal),
            groups,
            attributes,
        }),
        _ => None,
    }
}

/// The group that a call gives, or none.
fn given<B: Bay, E: Drop>(called: Result<Mounted, E>, bay: &B) -> Option<Mounted>
    requires { IfOk called (λ m. Takes m (B.state bay.now)) }
    ensures { IfSome result (λ m. Takes m (B.state bay.now)) }
{
    let _bay = bay;
    match called {
        Ok(group) => Some(group),
        Err(error) => {
            drop(error);
            None
        }
    }
}

/// Makes a group as it is asked for.
#[tactic(auto, using(crate::proofs::Taking::newly_takes))]
fn form<B: Bay>(
    alloc: Global,
    bay: &mut B,
    paths: &[String; 5],
    asked: &GroupAsked,
) -> Option<Mounted>
    ensures { IfSome result (λ m. Takes m (B.state bay.new)) }
{
    let known = Known {
        floor: 7,
        held: Vec::new(alloc),
        taken: Vec::new(alloc),
    };
    let mut ids = Vec::new(alloc);
    let (_, group) = create_group(alloc, bay, paths, asked, &known, &mut ids);
    drop(ids);
    drop(known);
    given(group, bay)
}

/// Makes the group of id 7.
pub fn create<B: Bay>(alloc: Global, bay: &mut B, paths: &[String; 5]) -> Option<Mounted>
    ensures { IfSome result (λ m. Takes m (B.state bay.new)) }
{
    let asked = asked(alloc)?;
    let group = form(alloc, bay, paths, &asked);
    drop(asked);
    group
}

/// Mounts the group at second 100.
#[tactic(auto, using(crate::proofs::Taking::mounted_takes))]
pub fn mount<B: Bay>(
    alloc: Global,
    bay: &mut B,
    paths: &[String; 5],
    option: MountOption,
) -> Option<Mounted>
    ensures { IfSome result (λ m. Takes m (B.state bay.new)) }
{
    let Ok(Some(name)) = Name::read(alloc, b"d", 30) else {
        return None;
    };
    let group = mount_group(alloc, bay, paths, &name, option, 100, &[]);
    drop(name);
    given(group, bay)
}

fn text(alloc: Global, text: &str) -> Option<String> {
    match String::from_str(alloc, text) {
        Ok(text) => Some(text),
        Err(_) => None,
    }
}

/// The paths of the five images.
pub fn paths(alloc: Global) -> Option<[String; 5]> {
    let first = text(alloc, "d0")?;
    let second = text(alloc, "d1")?;
    let third = text(alloc, "d2")?;
    let fourth = text(alloc, "d3")?;
    let fifth = text(alloc, "d4")?;
    Some([first, second, third, fourth, fifth])
}
