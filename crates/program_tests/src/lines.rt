// Lines that a run prints.

/// Whether a line ends a reply: by `ok` or by an error.
pub fn ends_reply(line: &[u8]) -> bool {
    line == b"ok".as_slice() || line.starts_with(b"error ")
}
