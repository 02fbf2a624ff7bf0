//! The disks of a new group get their parts: headers, directory copies, claims, and last the
//! record.
ghost use Rattle.std.specs.Prelude.{◌≡◌, [], IfErr, IfOk, IsTrue};
ghost use Rattle.refusal_lines.specs.Refusals.{meaning_of};
ghost use Rattle.asm_group.specs.Shape.{is_shape};
ghost use Rattle.bay.specs.Image.{ChangesOnly};
ghost use Rattle.bay.specs.Moments.{Runs};
ghost use Rattle.directory_store.specs.Stores.{Keeps};
ghost use Rattle.mounted_groups.specs.group_recovery.Verdicts.{IsSlotIn};
ghost use Rattle.mounted_groups.specs.group_recovery.Writing.{FrontOf};
ghost use Rattle.status_register.specs.Keeping.{IsRegisterReady};
ghost use Rattle.status_register.specs.Writes.{first_register};
ghost use Rattle.new_groups.specs.Drafts.{HasAgreeingParts, AreLists, copy_list, member_list};
ghost use Rattle.new_groups.specs.Forming.{AreDisks, AreHeadable, AreLong, FormCause, IsErrorSaid, IsFaultOf, IsFormed, IsFormRefusal, Works};

use crate::draft::Draft;
use crate::lists::Lists;
use crate::preparing::Ready;
use asm_base::Shape;
use bay::{Bay, Fault};
use directory_store::{Store, StoreError};
use disk_images::{close_gates, write_header};
use mounted_groups::{Headed, write_fault};
use refusal_lines::Refusal;
use status_register::{Dead, Register, claim_first};
use std::alloc::Global;

/// Why a group isn't formed.
#[derive(Clone, Copy, Debug)]
pub enum FormError {
    /// The disk of this slot failed.
    Fault { slot: u32 },
    NoMemory,
}

/// Closes the gates of the disks, one after another.
fn close_all<B: Bay>(bay: &mut B, disks: &[Headed], shape: Shape) -> Result<(), FormError>
    requires shape { IsTrue (is_shape shape) }
    requires long { AreLong shape disks.now (B.state bay.old) }
    ensures works { Works disks.now (B.state bay.old) (B.state bay.new) }
    ensures cause { IfErr result (FormCause disks.now (B.state bay.old) (B.state bay.new)) }
{
    for disk in disks {
        match close_gates(bay, disk.slot, shape) {
            Ok(()) => {}
            Err(Fault) => return Err(FormError::Fault { slot: disk.slot }),
        }
    }
    Ok(())
}

/// Gives the disks their headers, one after another.
fn write_headers<B: Bay>(bay: &mut B, disks: &[Headed]) -> Result<(), FormError>
    requires { AreHeadable disks.now (B.state bay.old) }
    ensures works { Works disks.now (B.state bay.old) (B.state bay.new) }
    ensures cause { IfErr result (FormCause disks.now (B.state bay.old) (B.state bay.new)) }
{
    for disk in disks {
        match write_header(bay, disk.slot, &disk.header) {
            Ok(()) => {}
            Err(Fault) => return Err(FormError::Fault { slot: disk.slot }),
        }
    }
    Ok(())
}

/// Closes the gates of the disks, and gives them their headers.
fn give_headers<B: Bay>(bay: &mut B, disks: &[Headed], shape: Shape) -> Result<(), FormError>
    requires shape { IsTrue (is_shape shape) }
    requires long { AreLong shape disks.now (B.state bay.old) }
    requires headers { AreHeadable disks.now (B.state bay.old) }
    ensures works { Works disks.now (B.state bay.old) (B.state bay.new) }
    ensures cause { IfErr result (FormCause disks.now (B.state bay.old) (B.state bay.new)) }
{
    match close_all(bay, disks, shape) {
        Ok(()) => write_headers(bay, disks),
        Err(error) => Err(error),
    }
}

/// Makes the directory copies.
fn give_directories<B: Bay>(
    alloc: Global,
    bay: &mut B,
    draft: &Draft,
    lists: &Lists,
) -> Result<Store, FormError>
    requires agrees { HasAgreeingParts draft.now }
    requires lists { AreLists draft.now lists.now }
    requires disks { AreDisks draft.now.disks.items (B.state bay.old) }
    ensures works { Works draft.now.disks.items (B.state bay.old) (B.state bay.new) }
    ensures cause { IfErr result (FormCause draft.now.disks.items (B.state bay.old)
        (B.state bay.new)) }
    ensures copies { IfOk result (λ store. store.copies
        ≡ copy_list draft.now.status.directories draft.now.disks.items) }
    ensures keeps { IfOk result (λ store. Keeps store (B.state bay.new)) }
{
    if lists.copies.is_empty() {
        return Err(FormError::NoMemory);
    }
    match Store::create(alloc, bay, &lists.copies, &draft.first) {
        Ok(store) => Ok(store),
        Err(StoreError::Gone { slot }) => Err(FormError::Fault { slot }),
        // There is room for these records.
        Err(StoreError::Full { .. }) => Err(FormError::NoMemory),
        Err(StoreError::NoMemory) => Err(FormError::NoMemory),
    }
}

/// Claims the first epoch, and writes the first record.
fn give_record<B: Bay>(bay: &mut B, draft: &Draft, lists: &Lists) -> Result<Register, FormError>
    requires agrees { HasAgreeingParts draft.now }
    requires lists { AreLists draft.now lists.now }
    requires disks { AreDisks draft.now.disks.items (B.state bay.old) }
    ensures works { Works draft.now.disks.items (B.state bay.old) (B.state bay.new) }
    ensures cause { IfErr result (FormCause draft.now.disks.items (B.state bay.old)
        (B.state bay.new)) }
    ensures front { Runs (IsSlotIn draft.now.disks.items)
        (ChangesOnly (FrontOf (member_list draft.now.disks.items))) (B.state bay.old)
        (B.state bay.new) }
    ensures register { IfOk result (λ register. register
        ≡ first_register draft.now.status (member_list draft.now.disks.items)) }
    ensures ready { IfOk result (λ register. IsRegisterReady register (B.state bay.new)) }
{
    match claim_first(bay, draft.status.id, 1, &lists.holders) {
        Ok(()) => write_record(bay, draft, lists),
        Err(Dead { slot }) => Err(FormError::Fault { slot }),
    }
}

/// Writes the first record.
fn write_record<B: Bay>(bay: &mut B, draft: &Draft, lists: &Lists) -> Result<Register, FormError>
    requires agrees { HasAgreeingParts draft.now }
    requires lists { AreLists draft.now lists.now }
    requires disks { AreDisks draft.now.disks.items (B.state bay.old) }
    ensures works { Works draft.now.disks.items (B.state bay.old) (B.state bay.new) }
    ensures cause { IfErr result (FormCause draft.now.disks.items (B.state bay.old)
        (B.state bay.new)) }
    ensures front { Runs (IsSlotIn draft.now.disks.items)
        (ChangesOnly (FrontOf (member_list draft.now.disks.items))) (B.state bay.old)
        (B.state bay.new) }
    ensures register { IfOk result (λ register. register
        ≡ first_register draft.now.status (member_list draft.now.disks.items)) }
    ensures ready { IfOk result (λ register. IsRegisterReady register (B.state bay.new)) }
{
    match Register::first(bay, &draft.status, &lists.members) {
        Ok(register) => Ok(register),
        Err(Dead { slot }) => Err(FormError::Fault { slot }),
    }
}

/// The register and the directories of a group that was formed.
#[derive(Drop)]
pub struct Formed {
    pub store: Store,
    pub register: Register,
}

/// Gives the disks their directories and the record.
fn give_rest<B: Bay>(
    alloc: Global,
    bay: &mut B,
    draft: &Draft,
    lists: &Lists,
) -> Result<Formed, FormError>
    requires agrees { HasAgreeingParts draft.now }
    requires lists { AreLists draft.now lists.now }
    requires disks { AreDisks draft.now.disks.items (B.state bay.old) }
    ensures works { Works draft.now.disks.items (B.state bay.old) (B.state bay.new) }
    ensures cause { IfErr result (FormCause draft.now.disks.items (B.state bay.old)
        (B.state bay.new)) }
    ensures formed { IfOk result (λ formed. IsFormed draft.now formed (B.state bay.new)) }
{
    let store = match give_directories(alloc, bay, draft, lists) {
        Ok(store) => store,
        Err(error) => return Err(error),
    };
    match give_record(bay, draft, lists) {
        Ok(register) => Ok(Formed { store, register }),
        Err(error) => {
            drop(store);
            Err(error)
        }
    }
}

/// Gives the disks of a new group all their parts.
fn give_parts<B: Bay>(
    alloc: Global,
    bay: &mut B,
    draft: &Draft,
    lists: &Lists,
) -> Result<Formed, FormError>
    requires agrees { HasAgreeingParts draft.now }
    requires lists { AreLists draft.now lists.now }
    requires disks { AreDisks draft.now.disks.items (B.state bay.old) }
    ensures works { Works draft.now.disks.items (B.state bay.old) (B.state bay.new) }
    ensures cause { IfErr result (FormCause draft.now.disks.items (B.state bay.old)
        (B.state bay.new)) }
    ensures formed { IfOk result (λ formed. IsFormed draft.now formed (B.state bay.new)) }
{
    match give_headers(bay, &draft.disks, draft.shape) {
        Ok(()) => give_rest(alloc, bay, draft, lists),
        Err(error) => Err(error),
    }
}

/// WriteFault by the disk of a slot.
fn fault_of(alloc: Global, disks: &[Headed], slot: u32) -> Refusal
    ensures { IsFaultOf disks.now slot (meaning_of (λ _. []) result) }
{
    let [first, rest @ ..] = disks else {
        return Refusal::NoMemory;
    };
    if first.slot == slot {
        return write_fault(alloc, &first.header.disk);
    }
    fault_of(alloc, rest, slot)
}

/// Why a group isn't formed, as its creation is refused.
fn refusal_of(alloc: Global, disks: &[Headed], error: FormError) -> Refusal
    ensures { IsErrorSaid disks.now error (meaning_of (λ _. []) result) }
{
    match error {
        FormError::Fault { slot } => fault_of(alloc, disks, slot),
        FormError::NoMemory => Refusal::NoMemory,
    }
}

/// Forms a group on its disks.
pub fn form<B: Bay>(alloc: Global, bay: &mut B, ready: &Ready) -> Result<Formed, Refusal>
    requires agrees { HasAgreeingParts ready.now.draft }
    requires lists { AreLists ready.now.draft ready.now.lists }
    requires disks { AreDisks ready.now.draft.disks.items (B.state bay.old) }
    ensures works { Works ready.now.draft.disks.items (B.state bay.old) (B.state bay.new) }
    ensures formed { IfOk result (λ formed. IsFormed ready.now.draft formed (B.state bay.new)) }
    ensures cause { IfErr result (λ refusal. IsFormRefusal ready.now.draft.disks.items
        (meaning_of (λ _. []) refusal) (B.state bay.old) (B.state bay.new)) }
{
    match give_parts(alloc, bay, &ready.draft, &ready.lists) {
        Ok(formed) => Ok(formed),
        Err(error) => Err(refusal_of(alloc, &ready.draft.disks, error)),
    }
}
