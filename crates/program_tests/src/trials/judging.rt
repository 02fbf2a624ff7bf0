// Images that a run of the built program left, judged as behind a stop.
use crate::trials::disks::{Disks, PAGE, PAGES};
use crate::trials::mounts::second_script;
use crate::trials::stops::{Asked, between, effect_list, try_sets};
use crate::trials::tally::{Place, Tally};
use bay::Bay;
use bay_file::FileBay;
use std::alloc::{AllocError, Global};

// Whether a page is one of zeros.
fn is_empty(page: &[u8]) -> bool {
    page.iter().all(|byte| *byte == 0)
}

// Takes over a page of an image. False where it can't be read.
fn take_page(
    bay: &mut FileBay,
    disks: &mut Disks,
    slot: u32,
    page: usize,
    path: &str,
) -> Result<bool, AllocError> {
    let Ok(size) = bay.attach(slot, path) else {
        return Ok(false);
    };
    if page >= PAGES {
        return Ok(false);
    }
    let at = page as u64 * PAGE as u64;
    let mut bytes = [0u8; PAGE];
    if at + PAGE as u64 > size || bay.read(slot, at, &mut bytes).is_err() {
        return Ok(false);
    }
    if !is_empty(&bytes) {
        disks.write(slot as usize, at, &bytes)?;
    }
    Ok(true)
}

// Takes over the front of an image, as far as the script reaches. False where it can't be read.
fn take_image(
    bay: &mut FileBay,
    disks: &mut Disks,
    slot: u32,
    path: &str,
) -> Result<bool, AllocError> {
    for page in 0..PAGES {
        if !take_page(bay, disks, slot, page, path)? {
            return Ok(false);
        }
    }
    Ok(true)
}

// The front of four images. None where one can't be read.
fn take_all(
    alloc: Global,
    bay: &mut FileBay,
    paths: &[String],
) -> Result<Option<Disks>, AllocError> {
    let mut disks = Disks::zeros(alloc)?;
    for slot in 0..4u32 {
        let Some(path) = paths.get(slot as usize) else {
            return Ok(None);
        };
        if !take_image(bay, &mut disks, slot, path)? {
            return Ok(None);
        }
    }
    Ok(Some(disks))
}

/// Judges four images as what a stop leaves once so many commands are acknowledged: each set of
/// them is mounted. None where one can't be read.
pub fn judge_images(
    alloc: Global,
    bay: &mut FileBay,
    commands: usize,
    paths: &[String],
) -> Result<Option<Tally>, AllocError> {
    let Some(disks) = take_all(alloc, bay, paths)? else {
        return Ok(None);
    };
    let effects = effect_list(alloc)?;
    let worlds = between(alloc, &effects, commands)?;
    let script = second_script(alloc)?;
    let asked = Asked {
        alloc,
        script: script.as_bytes(),
        worlds: &worlds,
        must: commands > 0,
    };
    let mut tally = Tally::new(alloc);
    try_sets(&asked, &disks, Place::Left { commands }, &mut tally)?;
    Ok(Some(tally))
}
