//! The outside in real files: images of disks, a folder, the standard streams, and the
//! system's clock. Nothing is told of contents, since no proof can say what a file holds; what is
//! proved is that each fault is counted, that an answer of the system is passed on, and that bytes
//! are read and written whole.
#![tactic(auto)]

mod clock;
mod errors;
mod file_bay;
mod file_host;
mod held;
mod image;
mod kinds;
mod limit;
mod notes;
mod one_line;
mod opener;
mod path_faults;
mod slot;
mod slots;
mod streams;
#[cfg(test)]
mod tests;
mod whole;

pub use clock::SystemClock;
pub use errors::StdErrors;
pub use file_bay::FileBay;
pub use file_host::FileHost;
pub use held::hold_streams;
pub use streams::{StdSink, StdSource};
