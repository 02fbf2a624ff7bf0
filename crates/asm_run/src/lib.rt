//! The call that `main` makes: words and a script are read, the commands are run on images of
//! disks, and their replies are printed. It stands in a library of its own, so that scripts can be
//! played by it over disks in memory.
#![tactic(auto)]

mod generating;
mod program;
mod report;

pub use program::run;
pub use report::Report;
