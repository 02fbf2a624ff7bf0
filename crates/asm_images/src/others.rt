//! Ids without members or without a record that counts, and other groups.

ghost use Rattle.asm_images.specs.OutsideLaws.{GoneHoldsNothing, MemberIsOutsideOthers, MemberlessIsSound, OtherHeaderIsElsewhere};

/// An id that no disk is a member of holds no group.
pub fn memberless_is_sound()
    ensures { MemberlessIsSound }
{}

/// Once the record that says so is complete, a dropped group is gone.
pub fn gone_holds_nothing()
    ensures { GoneHoldsNothing }
{}

/// A disk is a member of one id.
pub fn member_is_outside_others()
    ensures { MemberIsOutsideOthers }
{}

/// A disk whose header has another id is outside.
pub fn other_header_is_elsewhere()
    ensures { OtherHeaderIsElsewhere }
{}
