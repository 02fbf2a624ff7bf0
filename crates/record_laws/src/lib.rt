//! Which status records a mounted group may get, by what they change, what a group is under another
//! record, and that it stays mounted when its disks come and go, or others change. Each function
//! does nothing; its contract is the law.
#![tactic(auto)]

ghost use Rattle.record_laws.specs.Attaching.{AttachedAddsSlot, AttachedMounts, DetachedAddsNone, DetachedMounts, MountedIsKept, OtherFlightsMount};
ghost use Rattle.record_laws.specs.Beside.{HeaderStaysBeside, MemberStaysBeside, MountsBeside, NoEntryIsNoHolder};
ghost use Rattle.record_laws.specs.Changing.{ModesJoin, ModesOfEach, TableIsMade, TableStays};
ghost use Rattle.record_laws.specs.Describing.{EntriesDescribe, ModesDescribe};
ghost use Rattle.record_laws.specs.Getting.{EntriesMayBeGot, FewerCopiesMayBeGot, ModesAloneAreModes, ModesMayBeGot, MountedHasPartners, SameDisksMayBeGot, SameEntriesMayBeGot};
ghost use Rattle.record_laws.specs.Gone.{GoneLeavesNothing};
ghost use Rattle.record_laws.specs.Holding.{DisksKeepNoMore, LaterRecordHolds, ModesKeepNoMore};
ghost use Rattle.record_laws.specs.Leaving.{LeavingGoesOn, LeavingLetsGo, LeftRecordMayBeGot};

use bay::{Bay, Slots, Step};
pub use group_engine::{
    Attached, Catalog, Extent, FileBy, Flight, Mounted, Move, NewFile, Next, TreeEdit, copies_for,
    items_say_tables, partners as partners_of, planned_moves_change_one_chunk, same_disks_are_next,
    serving_groups, tables_have_items, template_for,
};
pub use status_register::{PstEntry, PstRecord, with_offline, with_partners};

/// A group that records describe under a status record is described by them under one with other
/// modes, and under one with other entries, where its tables may stand under these.
pub fn other_records_describe()
    ensures modes { ModesDescribe }
    ensures entries { EntriesDescribe }
{}

/// A mounted group may get a record with other modes, times and partners, with other holders, and
/// by which more births were given.
pub fn modes_may_be_got<B: Bay>(bay: &B)
    ensures { ModesMayBeGot (B.state bay.now) }
{}

/// It may get a record with the same entries and copies, with other holders, or by which more
/// births were given; the partners in its record are those of its modes.
pub fn same_entries_may_be_got<B: Bay>(bay: &B)
    ensures partners { MountedHasPartners (B.state bay.now) }
    ensures got { SameEntriesMayBeGot (B.state bay.now) }
{}

/// It may get a record with other entries: of disks that come, go, or get other units.
pub fn entries_may_be_got<B: Bay>(bay: &B)
    ensures { EntriesMayBeGot (B.state bay.now) }
{}

/// Where it may get a record, it may get the one that names fewer directory copies.
pub fn fewer_copies_may_be_got<B: Bay>(bay: &B)
    ensures { FewerCopiesMayBeGot (B.state bay.now) }
{}

/// Where each entry is changed in its mode and times alone, and what was Forced is so still, the
/// record changes modes alone; two such changes one after the other are one. Where no disk comes to
/// the table of partners or leaves it, the partners are those of the table still, and those that
/// are made anew are so too.
pub fn modes_change()
    ensures each { ModesOfEach }
    ensures join { ModesJoin }
    ensures stays { TableStays }
    ensures made { TableIsMade }
{}

/// It may get a record with the same disks, sets and copies, where the partners are those of the
/// modes and no disk that was Forced is otherwise.
pub fn same_disks_may_be_got<B: Bay>(bay: &B)
    ensures modes { ModesAloneAreModes }
    ensures got { SameDisksMayBeGot (B.state bay.now) }
{}

/// While a group is dropped each image stands for it or for nothing; once it is done, no image
/// stands for a group of its id.
pub fn gone_leaves_nothing<B: Bay>(start: &B, end: &B)
    ensures { GoneLeavesNothing (B.state start.now) (B.state end.now) }
{}

/// Of a mounted group its record is kept, none that was begun, and the slots of its attached disks.
pub fn mounted_is_kept<B: Bay>(bay: &B)
    ensures { MountedIsKept (B.state bay.now) }
{}

/// A group stays mounted when an image is attached as one of its disks, which in each image that a
/// stop may leave now is that disk's.
pub fn attached_mounts<B: Bay>(bay: &B)
    ensures mounts { AttachedMounts (B.state bay.now) }
    ensures slots { AttachedAddsSlot }
{}

/// A group stays mounted when one of its disks is attached no more, where it takes the next call
/// without it.
pub fn detached_mounts<B: Bay>(bay: &B)
    ensures mounts { DetachedMounts (B.state bay.now) }
    ensures slots { DetachedAddsNone }
{}

/// A group stays mounted with another move on its way, or none.
pub fn other_flights_mount<B: Bay>(bay: &B)
    ensures { OtherFlightsMount (B.state bay.now) }
{}

/// What the disks hold of a group by a record they hold by a later one by which no disk counts that
/// didn't: one with other modes, and one by which disks come or go.
pub fn later_record_holds<B: Bay>(bay: &B)
    ensures holds { LaterRecordHolds }
    ensures modes { ModesKeepNoMore }
    ensures disks { DisksKeepNoMore (B.state bay.now) }
{}

/// A group stays mounted, and is held at each moment, while one disk changes that isn't attached to
/// it, also a member of its id: where what is held of it stays so, and the disk is no disk of its
/// record's sets. A disk without an entry is none.
pub fn mounts_beside<B: Bay, T: Slots, S: Step>(start: &B, end: &B)
    ensures mounts { MountsBeside T.among S.leads (B.state start.now) (B.state end.now) }
    ensures no_entry { NoEntryIsNoHolder }
{}

/// Over a call of a group a disk that isn't attached to it has the header that it had, so a member
/// is a member still.
pub fn disks_beside_stay<B: Bay>(start: &B, end: &B)
    ensures header { HeaderStaysBeside (B.state start.now) (B.state end.now) }
    ensures member { MemberStaysBeside (B.state start.now) (B.state end.now) }
{}

/// A mounted group may get the record without a disk's entry and its directory copy, where a copy
/// is left and the disk has no partners.
pub fn left_record_may_be_got<B: Bay>(bay: &B)
    ensures { LeftRecordMayBeGot (B.state bay.now) }
{}

/// While that record is written, the disk is attached no more and its disk record goes, each image
/// is held for the group with the disks that are attached; where it takes calls in the end, it is
/// mounted without the disk. The disk's slot may change then, as one that isn't attached to the
/// group and is no disk of its record's sets.
pub fn leaving_goes_on<B: Bay>(start: &B, between: &B, end: &B)
    ensures goes { LeavingGoesOn (B.state start.now) (B.state between.now) (B.state end.now) }
    ensures lets_go { LeavingLetsGo (B.state start.now) (B.state between.now) (B.state end.now) }
{}
