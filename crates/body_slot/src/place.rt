// The place of a gated slot on a disk.
ghost use Rattle.std.specs.Prelude.{◌≡◌, ◌<◌, ℕ};
ghost use Rattle.bay.specs.Image.{Image, ChangesOnly};
ghost use Rattle.body_slot.specs.Slot.{PlaceOf, ArePlacesApart, shown_body};

/// Where a gate and its body are on a disk, in bytes. The gate is one sector of 512 or 4,096 bytes.
#[derive(Clone, Copy, Debug, PartialEq, Eq)]
pub struct Place {
    pub gate: u64,
    pub body: u64,
    pub len: u64,
    pub sector: u32,
}

/// A change within one place leaves what any other shows that has no byte in common with it.
pub fn other_places_stay(place: Place, slot: u32, other: Place, other_slot: u32)
    ensures { (x y : Image) → 0 < place.sector → ArePlacesApart place slot other other_slot → ChangesOnly (PlaceOf other other_slot) x y
        → shown_body place slot y ≡ shown_body place slot x }
{}
