// The laws by which a claim on images is carried over calls, for any bay, step and claim. Each
// function has an empty body: its contract is the law.
ghost use Rattle.std.specs.Prelude.{◌≡◌, ◌≢◌, ◌+◌, ◌-◌, ◌<◌, ◌≤◌, ◌++◌, ◌∷◌, [], ℕ, Bool, false, List, length, OnErr};
ghost use Rattle.bay.specs.Image.{Image, Same};
ghost use Rattle.bay.specs.Counts.{Rose};
ghost use Rattle.bay.specs.Moments.{Runs, Ends, Holds, Durable, NowOnly, LeavesOnly, Joins, Within, StepGives};
ghost use Rattle.bay.specs.Calls.{Cost, cost, both_costs, CostsAtMost, Calls, Call, DeviceCall, ChangesEachImage, Went};
ghost use Rattle.bay.specs.State.{BayState};
ghost use Rattle.bay.specs.Lists.{Tasks, Claims, OneMore, IsLocal, HasOwnSlot, own_cost, DoesOne, DoesEach};
ghost use Rattle.bay.specs.Marks.{AtMarks};

use crate::{Bay, Fault};

/// Some slots.
pub trait Slots {
    ghost among: { ℕ → Type 0 };
}

/// What calls may do to an image of all disks.
pub trait Step {
    ghost leads: { Image → Image → Type 0 };
}

/// What a call has done, of the bay before and after it.
pub trait Deed {
    ghost does: { BayState → BayState → Type 0 };
}

/// Claims on an image of all disks, numbered.
pub trait Claim {
    ghost says: { ℕ → Image → Type 0 };
}

/// Calls that ended well and the calls after them are calls of the joined step.
pub fn calls_go_on<B: Bay, T: Slots, D: Step, S: Step, W: Step>(start: &B, middle: &B, end: &B)
    ensures { Joins D.leads S.leads W.leads → Runs T.among W.leads (B.state start.now) (B.state middle.now)
        → Ends D.leads (B.state start.now) (B.state middle.now) → Runs T.among S.leads (B.state middle.now) (B.state end.now)
        → Runs T.among W.leads (B.state start.now) (B.state end.now) }
{}

/// What holds of each image that a stop before the calls may leave, and is kept by their step,
/// holds of each image of each moment of the calls.
pub fn claims_are_kept<B: Bay, T: Slots, S: Step, P: Claim, Q: Claim>(start: &B, end: &B)
    ensures { StepGives (P.says 0) S.leads (Q.says 0) → Runs T.among S.leads (B.state start.now) (B.state end.now)
        → NowOnly (B.state start.now) (P.says 0) → LeavesOnly (B.state start.now) (B.state end.now) (Q.says 0) }
{}

/// What calls that ended well make of a claim holds of each image that a stop may leave from then
/// on.
pub fn claims_are_reached<B: Bay, D: Step, P: Claim, Q: Claim>(start: &B, end: &B)
    ensures { StepGives (P.says 0) D.leads (Q.says 0) → Ends D.leads (B.state start.now) (B.state end.now)
        → NowOnly (B.state start.now) (P.says 0) → NowOnly (B.state end.now) (Q.says 0) }
{}

/// A claim over the moments of some calls and of the next ones is a claim over the moments of both.
pub fn claims_go_on<B: Bay, P: Claim>(start: &B, middle: &B, end: &B)
    ensures { LeavesOnly (B.state start.now) (B.state middle.now) (P.says 0)
        → LeavesOnly (B.state middle.now) (B.state end.now) (P.says 0) → LeavesOnly (B.state start.now) (B.state end.now) (P.says 0) }
{}

/// A sync that answers Ok settles what the writes before it did: each image that a stop may leave
/// from then on has on the slot's disk what the disk holds.
pub fn syncs_settle<B: Bay, T: Slots, S: Step, D: Step, W: Step>(
    start: &B,
    middle: &B,
    end: &B,
    slot: u32,
)
    ensures { Joins S.leads Same S.leads
        → ((x y h held : Image) → S.leads x y → D.leads h held → ((k : ℕ) → y.byte slot k ≡ held.byte slot k) → W.leads x y)
        → Runs T.among S.leads (B.state start.now) (B.state middle.now) → Holds D.leads (B.state start.now) (B.state middle.now)
        → Runs T.among Same (B.state middle.now) (B.state end.now) → Durable slot (B.state end.now)
        → Ends W.leads (B.state start.now) (B.state end.now) }
{}

/// A disk that a sync settled stays so over calls that leave its bytes.
pub fn settled_disks_stay<B: Bay, T: Slots, S: Step>(start: &B, end: &B, slot: u32)
    ensures { ((x y : Image) (k : ℕ) → S.leads x y → y.byte slot k ≡ x.byte slot k)
        → Runs T.among S.leads (B.state start.now) (B.state end.now) → Durable slot (B.state start.now) → Durable slot (B.state end.now) }
{}

/// The claim of the last mark goes on over calls at each of whose moments it holds, and the earlier
/// marks keep theirs.
pub fn marks_go_on<B: Bay, P: Claim>(start: &B, end: &B)
    ensures { (marks : List ℕ) → 0 < length marks → AtMarks (B.state start.now) marks P.says
        → LeavesOnly (B.state start.now) (B.state end.now) (P.says (length marks - 1)) → AtMarks (B.state end.now) marks P.says }
{}

/// The moment that lasts may be marked where the next claim holds of it. With no marks before, it
/// is the first.
pub fn new_marks<B: Bay, P: Claim>(bay: &B)
    ensures pushed { (marks : List ℕ) → AtMarks (B.state bay.now) marks P.says
        → NowOnly (B.state bay.now) (P.says (length marks)) → AtMarks (B.state bay.now) (marks ++ (B.state bay.now).calls ∷ []) P.says }
    ensures first { AtMarks (B.state bay.now) [] P.says }
{}

/// A call of the device is a call: its cost is one call, and as many bytes as it can send.
pub fn device_calls_are_calls<B: Bay, S: Step, D: Deed>(
    start: &B,
    end: &B,
    slot: u32,
    answer: Result<(), Fault>,
)
    ensures { (sent : ℕ → ℕ) (bytes : ℕ) → ((n : ℕ) → sent n ≤ n + bytes)
        → DeviceCall answer slot S.leads (λ value. D.does) sent (B.state start.now) (B.state end.now)
        → Call answer slot S.leads (λ value. D.does) (cost 1 bytes) (B.state start.now) (B.state end.now) }
{}

/// Calls are calls of a wider step, on more slots and at a greater cost.
pub fn calls_widen<B: Bay, T: Slots, U: Slots, S: Step, W: Step>(start: &B, end: &B)
    ensures { (least most : Cost) → ((s : ℕ) → T.among s → U.among s) → Within S.leads W.leads
        → CostsAtMost least most
        → Calls T.among S.leads least (B.state start.now) (B.state end.now)
        → Calls U.among W.leads most (B.state start.now) (B.state end.now) }
{}

/// Calls that ended well and the calls after them are calls of the joined step, at both costs.
pub fn calls_join<B: Bay, T: Slots, D: Step, S: Step, W: Step>(start: &B, middle: &B, end: &B)
    ensures { (first second : Cost) → Joins D.leads S.leads W.leads
        → Calls T.among W.leads first (B.state start.now) (B.state middle.now)
        → Ends D.leads (B.state start.now) (B.state middle.now)
        → Calls T.among S.leads second (B.state middle.now) (B.state end.now)
        → Calls T.among W.leads (both_costs first second) (B.state start.now) (B.state end.now) }
{}

/// A call on one slot leaves the counts of every other slot, of faults and of bytes written. Where
/// it failed the count of faults of its own slot rose.
pub fn calls_stay_on_their_slot<B: Bay, S: Step, D: Step>(
    start: &B,
    end: &B,
    slot: u32,
    answer: Result<(), Fault>,
)
    ensures others { (most : Cost)
        → Call answer slot S.leads (ChangesEachImage D.leads) most (B.state start.now) (B.state end.now)
        → (s : ℕ) → s ≢ slot
        → ((B.state end.now).faults s ≡ (B.state start.now).faults s)
        × ((B.state end.now).written s ≡ (B.state start.now).written s) }
    ensures cause { (most : Cost)
        → Call answer slot S.leads (ChangesEachImage D.leads) most (B.state start.now) (B.state end.now)
        → OnErr answer (Rose ((B.state start.now).faults slot) ((B.state end.now).faults slot)) }
{}

/// A call on a slot that ended well and the next one on it are one call with the second's answer,
/// at the sum of their costs. `M` and `N` are what may be seen while they run, `D` and `E` what
/// they have done; `W` and `F` are those of both.
pub fn two_calls_are_one<B: Bay, M: Step, D: Step, N: Step, E: Step, W: Step, F: Step>(
    start: &B,
    middle: &B,
    end: &B,
    slot: u32,
    answer: Result<(), Fault>,
)
    ensures { (first second : Cost) → Within M.leads W.leads
        → Joins D.leads N.leads W.leads → Joins D.leads E.leads F.leads
        → Went slot M.leads D.leads first (B.state start.now) (B.state middle.now)
        → Call answer slot N.leads (ChangesEachImage E.leads) second (B.state middle.now) (B.state end.now)
        → Call answer slot W.leads (ChangesEachImage F.leads) (both_costs first second)
        (B.state start.now) (B.state end.now) }
{}

/// Things, by their numbers, on each of which a call is made.
pub trait Things {
    ghost tasks: { Tasks ℕ };

    ghost claims: { Claims ℕ };

    ghost among: { ℕ → Type 0 };
}

/// A call on each of several things that stand on slots of their own, past faults, is one call on
/// all: at none of them, and at one before others.
pub fn calls_on_each<B: Bay, T: Things>(start: &B, middle: &B, end: &B)
    ensures none { (failed : ℕ → Bool)
        → DoesEach T.tasks T.claims (λ x. ⊥) (cost 0 0) failed
        (B.state start.now) (B.state start.now) }
    ensures more { (x : ℕ) (most : Cost) (wrong : Bool) (rest all : ℕ → Bool)
        → IsLocal T.tasks T.claims (OneMore x T.among) → HasOwnSlot T.tasks x T.among
        → (all x ≡ false → wrong ≡ false) → ((y : ℕ) → T.among y → all y ≡ false → rest y ≡ false)
        → DoesOne T.tasks T.claims x wrong (B.state start.now) (B.state middle.now)
        → DoesEach T.tasks T.claims T.among most rest (B.state middle.now) (B.state end.now)
        → DoesEach T.tasks T.claims (OneMore x T.among) (both_costs (own_cost T.tasks x) most) all
        (B.state start.now) (B.state end.now) }
{}
