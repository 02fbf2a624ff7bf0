//! What the program's images show, and how a disk gets its open header and loses it, for each shape
//! and sector.
#![tactic(auto)]

pub use disk_header::{Header, encode};

mod headers;
mod laws;
mod looking;

pub use headers::{close_gates, close_header, write_header};
pub use laws::{
    formatted_disks_show, gates_closing_keeps, header_closing_keeps, header_putting_keeps,
    leaving_keeps, making_keeps,
};
pub use looking::{Looked, look_at, look_at_images, read_header};
