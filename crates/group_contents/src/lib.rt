//! The files of a mounted group: how they come, go and change their size, and their bytes.
#![tactic(auto)]

pub use file_extents::{Attached, Contents, Filling, Mounted, put_next};

mod buffers;
mod chunks;
mod creating;
mod entry_copies;
mod opening;
mod reading;
mod removing;
mod resizing;
mod work;
mod writing;

pub use buffers::buffer;
pub use creating::{begin_new, create, finish_new, give_up};
pub use opening::{OpenFile, check_source, check_span, open};
pub use reading::{read, read_next};
pub use removing::{remove, remove_file};
pub use resizing::resize;
pub use work::{FileWork, work_on_file};
pub use writing::{fill, write};
