//! The system templates.

ghost use Rattle.std.specs.Prelude.{◌≡◌, ◌++◌, ◌∷◌, [], ◌<◌, IfOk, OnOk, IsTrue};
ghost use Rattle.asm_group.specs.Names.{is_part};
ghost use Rattle.asm_group.specs.NewGroup.{control_copies, system_template, system_templates, usual_copies};

use crate::template::Template;
use asm_base::{GroupKind, List, Name, NoMemory, Stripe};
use std::alloc::Global;

/// The system templates of a group of a kind, in folded order of their names.
#[tactic(auto, unfolding(asm_group::specs::NewGroup::system_templates))]
pub fn system(alloc: Global, kind: GroupKind) -> Result<List<Template>, NoMemory>
    ensures { IfOk result (λ ts. ts ≡ system_templates kind) }
{
    let usual = usual_copies(kind);
    let mut all = List::new(alloc);
    add(alloc, &mut all, usual, Stripe::Coarse, b"ARCHIVELOG")?;
    add(alloc, &mut all, usual, Stripe::Coarse, b"AUTOBACKUP")?;
    add(alloc, &mut all, usual, Stripe::Coarse, b"BACKUPSET")?;
    add(alloc, &mut all, usual, Stripe::Coarse, b"CHANGETRACKING")?;
    add(
        alloc,
        &mut all,
        control_copies(kind),
        Stripe::Fine,
        b"CONTROLFILE",
    )?;
    add(alloc, &mut all, usual, Stripe::Coarse, b"DATAFILE")?;
    add(alloc, &mut all, usual, Stripe::Coarse, b"DATAGUARDCONFIG")?;
    add(alloc, &mut all, usual, Stripe::Coarse, b"DUMPSET")?;
    add(alloc, &mut all, usual, Stripe::Coarse, b"FLASHBACK")?;
    add(alloc, &mut all, usual, Stripe::Coarse, b"ONLINELOG")?;
    add(alloc, &mut all, usual, Stripe::Coarse, b"PARAMETERFILE")?;
    add(alloc, &mut all, usual, Stripe::Coarse, b"TEMPFILE")?;
    add(alloc, &mut all, usual, Stripe::Coarse, b"XTRANSPORT")?;
    Ok(all)
}

fn add(
    alloc: Global,
    to: &mut List<Template>,
    copies: u8,
    stripe: Stripe,
    name: &[u8],
) -> Result<(), NoMemory>
    requires { IsTrue (is_part 30 name.now) }
    ensures { OnOk result (to.new ≡ to.old ++ system_template copies stripe name.now ∷ []) }
{
    let Some(name) = Name::read(alloc, name, 30)? else {
        unreachable!()
    };
    to.push(Template {
        name,
        copies,
        stripe,
        system: true,
    })
}

/// The copies of a template that says none: UNPROTECTED, MIRROR and HIGH.
pub(crate) fn usual_copies(kind: GroupKind) -> u8
    ensures { result ≡ usual_copies kind }
{
    match kind {
        GroupKind::External => 1,
        GroupKind::Normal => 2,
        GroupKind::High => 3,
    }
}

/// A control file has three copies but in an EXTERNAL group.
fn control_copies(kind: GroupKind) -> u8
    ensures { result ≡ control_copies kind }
{
    match kind {
        GroupKind::External => 1,
        GroupKind::Normal | GroupKind::High => 3,
    }
}
