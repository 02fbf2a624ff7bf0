// What several rooms use: how a row fails, and the bytes of a disk and of a page.

/// The name of a row that isn't right, and the place of its first step that isn't, or 0.
pub type Wrong = (&'static str, usize);

/// Fails by the name of a row that isn't right.
pub fn row(name: &'static str, is_right: bool) -> Result<(), Wrong> {
    if is_right { Ok(()) } else { Err((name, 0)) }
}

/// Fails by the name of a row, of whose steps so many are right and the next isn't.
pub fn all_right(name: &'static str, right: usize, steps: usize) -> Result<(), Wrong> {
    if right == steps {
        Ok(())
    } else {
        Err((name, right))
    }
}

/// The bytes of a disk that reaches to the end of a directory region of 128 pages.
pub const SIZE: u64 = 1_105_920;

/// The page of the record of the active rebalance, of a power.
pub fn power_page(power: u8) -> [u8; 4096] {
    let mut page = [0; 4096];
    page[..4].copy_from_slice(b"ASMR");
    page[5] = 4;
    page[15] = 2;
    page[33] = power;
    page
}
