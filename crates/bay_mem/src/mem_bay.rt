// The disks in memory.
ghost use Rattle.std.specs.Prelude.{◌≡◌, ◌≢◌, ℕ, ◌+◌, ◌≤◌, ◌<◌, ◌^◌, Some, None, length, IfOk, OnOk, OnErr, IsSome, IsErr, IsErrOf, IsTrue, ◌↔◌, vec_len, false, not, ◌||◌, ◌==◌, nat_lt};
ghost use Rattle.std.specs.Option.{ForSome};
ghost use Rattle.bay.specs.Image.{window, Same, ChangesOnly, Range, Puts, Makes, MayMake};
ghost use Rattle.bay.specs.declared.fault.BayError.TheVariants.{Fault};
ghost use Rattle.bay.specs.Counts.{Rose};
ghost use Rattle.bay.specs.Calls.{AttachCall, Attaches, AttachesZeros, DeviceCall, Held, Settles, Tells, sends, sends_none};
ghost use Rattle.bay.specs.State.{IsSlot, KeepsAttached, AttachesOnly, IsOnSectors, size_of};
ghost use Rattle.bay.specs.Moments.{Runs, Ends, Holds};
ghost use Rattle.bay_mem.specs.Changes.{are_by, image_of, attached_at};
ghost use Rattle.bay_mem.specs.Plans.{is_listed, is_past_stop, is_slot, is_absent, is_to_fail, tears};

use crate::counts::count_up;
use crate::disk::{Change, Disk};
use crate::disks::{
    attach_disk, detach_all, detach_disk, empty_disks, make_disk, old_bytes, read_disk, write_disk,
};
use crate::memory::NoMemory;
use crate::plan::Plan;
use bay::{Bay, BayError, Fault};
use std::alloc::{AllocError, Global};

/// Disks in memory. Some of their calls fail, by their numbers, and they may stop after some of
/// them. What they hold, and held in each moment, is told.
#[derive(Drop)]
pub struct MemBay {
    alloc: Global,
    disks: Vec<Disk>,
    faults: Vec<u64>,
    written: Vec<u64>,
    plan: Plan,
    calls: u64,
    history: Vec<Change>,
    ghost recorded: { IsTrue (are_by calls history.items) },
    ghost slots: { vec_len plan.absent ≡ vec_len disks },
}

impl MemBay {
    ghost use Rattle.bay_mem.specs.MemState.{state_of, plan_of, fails_now, IsQuiet, IsNewBay};

    /// Disks of zeros of these sizes in bytes, by slot, none of them attached. A slot without a
    /// size has no disk. No call is to fail.
    pub fn new(alloc: Global, sizes: &[Option<u64>]) -> Result<Self, NoMemory>
        ensures begins { IfOk result (λ bay. IsNewBay sizes.now (state_of bay)) }
        ensures slots { IfOk result (λ bay. (s : ℕ)
            → is_absent (plan_of bay) s ≡ not (nat_lt s (length sizes.now))) }
        ensures unlisted { IfOk result (λ bay. (n : ℕ) → is_listed (plan_of bay) n ≡ false) }
        ensures runs_on { IfOk result (λ bay. (n : ℕ) → is_past_stop (plan_of bay) n ≡ false) }
    {
        let count = sizes.len();
        Ok(MemBay {
            alloc,
            disks: empty_disks(alloc, sizes)?,
            faults: vec![in alloc; 0; count]?,
            written: vec![in alloc; 0; count]?,
            plan: Plan::new(alloc, count)?,
            calls: 0,
            history: Vec::new(alloc),
        })
    }

    /// The call of this number is to fail. Calls are counted from 1.
    pub fn fail_at(&mut self, call: u64) -> Result<(), NoMemory>
        ensures quiet { IsQuiet (state_of self.old) (state_of self.new) }
        ensures attached { KeepsAttached (state_of self.old) (state_of self.new) }
        ensures listed { OnOk result ((n : ℕ) → is_listed (plan_of self.new) n
            ≡ (is_listed (plan_of self.old) n || call == n)) }
        ensures unlisted { OnErr result ((n : ℕ) → is_listed (plan_of self.new) n
            ≡ is_listed (plan_of self.old) n) }
        ensures stop { (n : ℕ) → is_past_stop (plan_of self.new) n
            ≡ is_past_stop (plan_of self.old) n }
        ensures absent { (s : ℕ) → is_absent (plan_of self.new) s ≡ is_absent (plan_of self.old) s }
    {
        Ok(self.plan.fails.push(call)?)
    }

    /// After this many calls each call is to fail. Of the write that comes then the first half
    /// stands.
    pub fn stop_after(&mut self, calls: u64)
        ensures quiet { IsQuiet (state_of self.old) (state_of self.new) }
        ensures attached { KeepsAttached (state_of self.old) (state_of self.new) }
        ensures stops { (n : ℕ) → is_past_stop (plan_of self.new) n ≡ nat_lt calls n }
        ensures listed { (n : ℕ) → is_listed (plan_of self.new) n ≡ is_listed (plan_of self.old) n }
        ensures absent { (s : ℕ) → is_absent (plan_of self.new) s ≡ is_absent (plan_of self.old) s }
    {
        self.plan.stop = Some(calls);
    }

    /// Each call on an absent slot is to fail.
    pub fn set_absent(&mut self, slot: u32, absent: bool)
        ensures quiet { IsQuiet (state_of self.old) (state_of self.new) }
        ensures attached { KeepsAttached (state_of self.old) (state_of self.new) }
        ensures here { is_absent (plan_of self.new) slot
            ≡ (absent || not (is_slot (plan_of self.old) slot)) }
        ensures others { (s : ℕ) → s ≢ slot → is_absent (plan_of self.new) s
            ≡ is_absent (plan_of self.old) s }
        ensures listed { (n : ℕ) → is_listed (plan_of self.new) n ≡ is_listed (plan_of self.old) n }
        ensures stop { (n : ℕ) → is_past_stop (plan_of self.new) n
            ≡ is_past_stop (plan_of self.old) n }
    {
        self.plan.set_absent(slot as usize, absent);
    }

    /// Lifts the stop, and detaches all slots.
    pub fn restart(&mut self)
        ensures quiet { IsQuiet (state_of self.old) (state_of self.new) }
        ensures detached { (s : ℕ) → (state_of self.new).attached s ≡ None }
        ensures lifted { (n : ℕ) → is_past_stop (plan_of self.new) n ≡ false }
        ensures listed { (n : ℕ) → is_listed (plan_of self.new) n ≡ is_listed (plan_of self.old) n }
        ensures absent { (s : ℕ) → is_absent (plan_of self.new) s ≡ is_absent (plan_of self.old) s }
    {
        self.plan.stop = None;
        detach_all(&mut self.disks);
    }

    /// Fills a buffer with what the disk of a slot holds from a place on. It is no call of the bay.
    pub fn image(&self, slot: u32, at: u64, buf: &mut [u8])
        requires inside { ForSome (state_of self.now).holds
            (λ image. at + length buf.old ≤ image.size slot) }
        ensures bytes { ForSome (state_of self.now).holds
            (λ image. buf.new ≡ window (image.byte slot) at (length buf.old)) }
    {
        let slot = slot as usize;
        if slot < self.disks.len() {
            read_disk(&self.disks, slot, at, buf);
        }
    }
}

impl MemBay {
    ghost use Rattle.bay_mem.specs.MemState.{state_of, fails_now, BeginsCall, KeepsCounts};

    // Counts a call on a slot, and says whether it is to be done.
    fn begin(&mut self, slot: usize) -> bool
        ensures begins { BeginsCall self.old self.new }
        ensures runs { Runs (IsSlot slot) Same (state_of self.old) (state_of self.new) }
        ensures cause { result ≡ false → Rose ((state_of self.old).faults slot)
            ((state_of self.new).faults slot) }
        ensures named { result ≡ not (fails_now self.old slot) }
    {
        self.calls = self.calls.saturating_add(1);
        let done = !self.plan.names(slot, self.calls);
        if !done {
            count_up(&mut self.faults, slot, 1);
        }
        done
    }

    // Writes, and keeps what was there. If there is no memory it may be written in part.
    fn overwrite(&mut self, slot: usize, at: u64, bytes: &[u8]) -> Result<(), AllocError>
        requires inside { at + length bytes.now ≤ (image_of self.old.disks.items).size slot }
        requires there { slot < vec_len self.old.disks }
        ensures attached { KeepsAttached (state_of self.old) (state_of self.new) }
        ensures runs { Runs (IsSlot slot) (ChangesOnly (Range slot at (length bytes.now)))
            (state_of self.old) (state_of self.new) }
        ensures held { OnOk result (Holds (Puts slot at bytes.now) (state_of self.old)
            (state_of self.new)) }
        ensures counts { KeepsCounts self.old self.new }
    {
        let old = old_bytes(self.alloc, &self.disks, slot, at, bytes.len())?;
        self.history.push(Change::Write {
            call: self.calls,
            slot,
            at,
            old,
        })?;
        write_disk(self.alloc, &mut self.disks, slot, at, bytes)
    }

    fn detach(&mut self, slot: usize)
        ensures here { attached_at self.new.disks.items slot ≡ None }
        ensures others { AttachesOnly slot (state_of self.old) (state_of self.new) }
        ensures runs { Runs (IsSlot slot) Same (state_of self.old) (state_of self.new) }
        ensures len { vec_len self.new.disks ≡ vec_len self.old.disks }
        ensures counts { KeepsCounts self.old self.new }
    {
        detach_disk(&mut self.disks, slot);
    }

    // Makes the disk of a slot zeros, and attaches it.
    fn remake(&mut self, slot: usize, size: u64) -> Result<(), AllocError>
        requires { slot < vec_len self.old.disks }
        ensures attached { OnOk result (attached_at self.new.disks.items slot ≡ Some size) }
        ensures others { AttachesOnly slot (state_of self.old) (state_of self.new) }
        ensures runs { Runs (IsSlot slot) (MayMake slot) (state_of self.old) (state_of self.new) }
        ensures done { OnOk result (Ends (Makes slot size) (state_of self.old)
            (state_of self.new)) }
        ensures counts { KeepsCounts self.old self.new }
    {
        make_disk(
            self.alloc,
            &mut self.history,
            self.calls,
            &mut self.disks,
            slot,
            size,
        )?;
        Ok(())
    }
}

// Each call has the clauses of its trait, that the plan stays, and which calls fail.
impl Bay for MemBay {
    ghost use Rattle.bay_mem.specs.MemState.{state_of};
    ghost use Rattle.bay_mem.specs.MemState.{plan_of, fails_now, has_image};
    ghost use Rattle.bay_mem.specs.Told.{sound};

    ghost state = { state_of };

    fn attach(&mut self, slot: u32, _path: &str) -> Result<u64, BayError>
        ensures call { AttachCall result slot Same (Attaches slot) ((state_of self.old).attached slot)
            (state_of self.old) (state_of self.new) }
        ensures plan { plan_of self.new ≡ plan_of self.old }
        ensures named { IsErr result ↔ IsTrue (fails_now self.old slot
            || not (has_image self.old slot)) }
    {
        let slot = slot as usize;
        if !self.begin(slot) {
            return Err(BayError::Fault);
        }
        match attach_disk(&mut self.disks, slot) {
            Some(size) => Ok(size),
            None => {
                count_up(&mut self.faults, slot, 1);
                Err(BayError::Fault)
            }
        }
    }

    fn make(&mut self, slot: u32, _path: &str, size: u64) -> Result<(), BayError>
        ensures call { AttachCall result slot (MayMake slot) (λ value. AttachesZeros slot size) None
            (state_of self.old) (state_of self.new) }
        ensures plan { plan_of self.new ≡ plan_of self.old }
        ensures named { IsErrOf result BayError.Fault ↔ IsTrue (fails_now self.old slot) }
    {
        let slot = slot as usize;
        let done = self.begin(slot);
        self.detach(slot);
        if !done {
            return Err(BayError::Fault);
        }
        if self.remake(slot, size).is_err() {
            self.detach(slot);
            return Err(BayError::NoMemory);
        }
        Ok(())
    }

    fn read(&mut self, slot: u32, at: u64, buf: &mut [u8]) -> Result<(), Fault>
        requires attached { IsSome ((state_of self.old).attached slot) }
        requires inside { at + length buf.old ≤ size_of (state_of self.old) slot }
        requires sectors { IsOnSectors at (length buf.old) }
        ensures call { DeviceCall result slot Same
            (λ value. Tells (λ image. buf.new ≡ window (image.byte slot) at (length buf.old)))
            sends_none (state_of self.old) (state_of self.new) }
        ensures plan { plan_of self.new ≡ plan_of self.old }
        ensures named { IsErr result ↔ IsTrue (fails_now self.old slot) }
    {
        let slot = slot as usize;
        if !self.begin(slot) {
            return Err(Fault);
        }
        read_disk(&self.disks, slot, at, buf);
        Ok(())
    }

    fn write(&mut self, slot: u32, at: u64, bytes: &[u8]) -> Result<(), Fault>
        requires attached { IsSome ((state_of self.old).attached slot) }
        requires inside { at + length bytes.now ≤ size_of (state_of self.old) slot }
        requires sectors { IsOnSectors at (length bytes.now) }
        ensures call { DeviceCall result slot (ChangesOnly (Range slot at (length bytes.now)))
            (Held (Puts slot at bytes.now)) (sends (length bytes.now))
            (state_of self.old) (state_of self.new) }
        ensures plan { plan_of self.new ≡ plan_of self.old }
        // A write for which there is no memory fails as well.
        ensures named { IsTrue (fails_now self.old slot) → IsErr result }
    {
        let slot = slot as usize;
        let torn = self.plan.tears(slot, self.calls);
        count_up(&mut self.written, slot, bytes.len() as u64);
        if !self.begin(slot) {
            if torn {
                let _ = self.overwrite(slot, at, &bytes[..bytes.len() / 2]);
            }
            return Err(Fault);
        }
        if self.overwrite(slot, at, bytes).is_err() {
            count_up(&mut self.faults, slot, 1);
            return Err(Fault);
        }
        Ok(())
    }

    fn sync(&mut self, slot: u32) -> Result<(), Fault>
        requires attached { IsSome ((state_of self.old).attached slot) }
        ensures call { DeviceCall result slot Same (Settles slot) sends_none (state_of self.old)
            (state_of self.new) }
        ensures plan { plan_of self.new ≡ plan_of self.old }
        ensures named { IsErr result ↔ IsTrue (fails_now self.old slot) }
    {
        if self.begin(slot as usize) {
            Ok(())
        } else {
            Err(Fault)
        }
    }

    fn calls(&self) -> u64 {
        self.calls
    }

    fn written(&self, slot: u32) -> u64 {
        let slot = slot as usize;
        if slot < self.written.len() {
            self.written[slot]
        } else {
            u64::MAX
        }
    }

    ghost sound = { sound };
}
