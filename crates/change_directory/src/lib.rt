//! One copy of a group's directories on one disk: pages, and a change log of two gated slots. A
//! commit puts the changed pages into a log slot, and its checkpoint writes them home.
#![tactic(auto)]

mod change;
mod copy;
mod erase;
mod head;
mod home;
mod laws;
mod loading;
mod numbers;
mod open_log;
mod pages;
mod slots;
mod spare;

pub use change::commit;
pub use copy::{DirCopy, LogSlot};
pub use erase::format;
pub use home::checkpoint;
pub use laws::{
    dues_stand, formatted_is_empty, formatting_loses, homed_are_at_home, homed_settles,
    homing_keeps, loaded_is_content, loaded_is_due, logged_are_due, logged_has, logged_is_put,
    logging_is_put, logging_keeps_or_has, opening_has_none_or_all, other_copy_is_same,
    region_is_same, steps_stay_inside, unopened_homed, unopened_opens, unopened_stays,
};
pub use loading::{LoadFault, Pages, load};
