//! What the disks of a mounted group hold while copies of its extents are made, move and lag
//! behind. Each function does nothing; its contract is the law.
#![tactic(auto)]

ghost use Rattle.flight_laws.specs.Added.{AddedDisksAreSurplus};
ghost use Rattle.flight_laws.specs.Agreeing.{AgreedCopiesHold, AgreedHold, ClearedCopiesHold, MarkedCopiesHold};
ghost use Rattle.flight_laws.specs.Elsewhere.{AgreesElsewhere, AttachedAreIn, HoldsElsewhere, DescribedHomesAreUser, MetadataAgrees, MetadataHolds, SpareAgrees, SpareHolds};
ghost use Rattle.flight_laws.specs.Filling.{AppendIsSurplus, FilledIsHeld};
ghost use Rattle.flight_laws.specs.Flying.{BeginningAgrees, CopyingGoesOn, FlightClearsOn, FlightLeadsOn, PutAgrees};
ghost use Rattle.flight_laws.specs.Following.{FewerCellsAgree, FewerCellsHold, FollowingAgrees, FreedKnowsLess, SettledAgrees, SettledAgreesBeside, SpanAgrees};
ghost use Rattle.flight_laws.specs.Later.{DescribedHaveEntries, LaterRecordAgrees, LaterRecordKeeps, SameEntriesKeep};
ghost use Rattle.flight_laws.specs.Leading.{ClearingLeadsOn, HeldLeadsOn, MarksLeadOn, MoveLeadsOn, RecopyLeadsOn};
ghost use Rattle.flight_laws.specs.Spare.{FreeUnitsAreSpare, NoHomeNoneKnown, StaleCopyIsSpare};
ghost use Rattle.flight_laws.specs.Staying.{FlightOverMetadata, FlightOverSpare, HeldOverMetadata, HeldOverSpare, LedDescribe, MountedDescribe};
ghost use Rattle.flight_laws.specs.Writing.{SettlingHolds, WritingAgrees, WritingHolds};

use bay::Bay;

/// What the disks hold of a group by some tables they hold by others, where each copy that these
/// make current has the bytes of its extent: a copy at another home, and one whose mark is cleared.
/// Where marks are set alone they hold it in any case.
pub fn agreed_copies_hold()
    ensures any { AgreedHold }
    ensures moved { AgreedCopiesHold }
    ensures cleared { ClearedCopiesHold }
    ensures marked { MarkedCopiesHold }
{}

/// The commit of such a change leads from a mounted group to the group itself.
pub fn copies_lead_on<B: Bay>(bay: &B)
    ensures any { HeldLeadsOn (B.state bay.now) }
    ensures moved { MoveLeadsOn (B.state bay.now) }
    ensures cleared { ClearingLeadsOn (B.state bay.now) }
    ensures recopied { RecopyLeadsOn (B.state bay.now) }
    ensures marked { MarksLeadOn (B.state bay.now) }
{}

/// What the disks hold of a group, and what they have of an extent at a home, stays where other
/// bytes than those of current copies change, and no header does.
pub fn holds_elsewhere()
    ensures holds { HoldsElsewhere }
    ensures agrees { AgreesElsewhere }
{}

/// So it stays where claims, status records and directory copies change, as homes lie behind the
/// directory regions.
pub fn metadata_holds()
    ensures behind { DescribedHomesAreUser }
    ensures holds { MetadataHolds }
    ensures agrees { MetadataAgrees }
{}

/// So it stays where bytes of units change in which no current copy with known cells lies.
pub fn spare_holds()
    ensures holds { SpareHolds }
    ensures agrees { SpareAgrees }
{}

/// In units that are free by a catalog's maps, and in those of a copy that is marked stale, no
/// current copy with known cells lies.
pub fn units_are_spare()
    ensures free { FreeUnitsAreSpare }
    ensures none { NoHomeNoneKnown }
    ensures stale { StaleCopyIsSpare }
{}

/// An attached disk of a mounted group is in its slot, in each image that a stop may leave.
pub fn attached_are_in<B: Bay>(bay: &B)
    ensures { AttachedAreIn (B.state bay.now) }
{}

/// What agrees with the known cells of an extent, and is put at a home behind bytes that agree
/// there, agrees there too: of a copy that is on its way to another home, of one that is brought
/// up, and of one of a new extent.
pub fn put_agrees<B: Bay>(start: &B, end: &B)
    ensures { PutAgrees (B.state start.now) (B.state end.now) }
{}

/// What was copied of an extent whose move is on its way agrees with its known cells: nothing at
/// first, then what was read and put. Once that is the whole extent, the commit of the move leads
/// from the group to the group itself.
pub fn copying_goes_on<B: Bay>(start: &B, end: &B)
    ensures begins { BeginningAgrees (B.state start.now) }
    ensures goes_on { CopyingGoesOn (B.state start.now) (B.state end.now) }
    ensures leads { FlightLeadsOn (B.state start.now) }
    ensures clears { FlightClearsOn (B.state start.now) }
{}

/// What the disks hold of a group by its tables, they hold of one that knows the cells of new
/// extents too, by the tables with these, once each copy without a mark has its bytes. Where the
/// file hasn't the extents by its size, the plan that adds them changes nothing that the group is.
pub fn filled_is_held()
    ensures held { FilledIsHeld }
    ensures surplus { AppendIsSurplus }
{}

/// What the disks hold, and what they have at a home, stays under a later status record by which no
/// disk is back that was Forced. `record_laws` says which records are such.
pub fn later_records_hold()
    ensures same { SameEntriesKeep }
    ensures entries { DescribedHaveEntries }
    ensures holds { LaterRecordKeeps }
    ensures agrees { LaterRecordAgrees }
{}

/// What the disks hold of a group they hold of one with fewer known cells, as with a span Free.
pub fn fewer_cells_hold()
    ensures freed { FreedKnowsLess }
    ensures holds { FewerCellsHold }
    ensures agrees { FewerCellsAgree }
{}

/// What the disks have at a home while a span of the extent is written there, and once its cells
/// are known.
pub fn span_agrees()
    ensures writing { SpanAgrees }
    ensures settled { SettledAgrees }
    ensures beside { SettledAgreesBeside }
{}

/// The new copy of a move that is on its way takes of a client's write what lies below the bytes
/// that were copied: these agree still, once the write is acknowledged.
pub fn following_agrees<B: Bay>(start: &B, end: &B)
    ensures { FollowingAgrees (B.state start.now) (B.state end.now) }
{}

/// What the disks hold of any group of the shape while a span of an extent is written to copies of
/// it, and once each current copy has the bytes; and what they have at a home that lies apart from
/// these copies.
pub fn writing_holds()
    ensures writing { WritingHolds }
    ensures settled { SettlingHolds }
    ensures agrees { WritingAgrees }
{}

/// The tables of a mounted group describe a group under its record, and so do those to which a
/// change leads.
pub fn tables_describe_some<B: Bay>(bay: &B)
    ensures mounted { MountedDescribe (B.state bay.now) }
    ensures led { LedDescribe (B.state bay.now) }
{}

/// What the disks hold by such tables, of any group of the shape, over calls that change metadata
/// alone, as commits and status records do; by the tables of a mounted group over those that change
/// bytes of units in which nothing is known; and what was copied of the move that is on its way
/// over both.
pub fn held_over_calls<B: Bay>(start: &B, end: &B)
    ensures metadata { HeldOverMetadata (B.state start.now) (B.state end.now) }
    ensures spare { HeldOverSpare (B.state start.now) (B.state end.now) }
    ensures flight_metadata { FlightOverMetadata (B.state start.now) (B.state end.now) }
    ensures flight_spare { FlightOverSpare (B.state start.now) (B.state end.now) }
{}

/// The plan of records of new disks changes nothing that the group is.
pub fn added_disks_are_surplus()
    ensures { AddedDisksAreSurplus }
{}
