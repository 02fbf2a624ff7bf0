//! A script is read command by command, each is run on the disks, and its reply is printed.
#![tactic(auto)]

pub use disk_commands::Desk;

mod commands;
mod events;
mod laws;
mod manner;
mod printing;
mod program;
mod reader;
mod running;
mod server;
mod stop;

pub use laws::{disks_are_made, meaning_is_of_the_languages};
pub use manner::Manner;
pub use program::Program;
pub use stop::Stop;
