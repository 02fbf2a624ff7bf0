//! Plays worked rows over disks in memory by `run`, the program's own call: those of which more must be seen or done than a user can
//! at real files. The words are the names of files of rows. For each row that fails a line is printed, and at the end a count.
//!
//! Rows are written as those of rows/ are, and have more kinds of lines. A line that is empty or begins with `#` says nothing. Numbers
//! are decimal, or those of K or M. Where an image is named, it is one of the row's.
//!
//!     == the title
//!     image d0 25M          an image of zeros of this size, or of size `none` where it isn't there
//!     byte d0 4096 ff       this byte of an image is changed to this value
//!     stands nothing        what the first image stands for, read by the formats alone and not by the program: `nothing`, `the
//!                           empty group` (DATA, just created on it alone) or `something else`
//!     run d0 d1             a run of the program on these words, to which the lines below belong. A slot is an image by its place in
//!                           the row, so a run names the row's images in their order, and those that are left out are away
//!     > a line of the script
//!     text a text           more of the script, without an end of the line; \t, \r, \n and \s stand for a tab, a carriage return, a
//!                           line feed and a blank
//!     < a line of the answer
//!     status 1              the status that is wanted; 0 where the line isn't there
//!
//! What the outside does in a run. A script is read line by line, and a command runs once its line was read; so what stands before a
//! line of the script holds from that command on.
//!
//!     away d2               each call on this image fails, as if it weren't there
//!     clock 1000 1300       the times that the commands read, one after the other, and then the last again; else it is noon
//!     fail read d0          the next read of this image fails; so with attach, make, write and sync
//!     fail read d0 3        the third read of it from here on fails
//!     fail read d0 on       each read of it fails from here on
//!     fail source 2         the second read of the script fails, which is one of its second line
//!     fail sink 2           the second write of what is printed fails
//!     stop write d1 3       the run stops at the third write of this image from here on, or at the first where there is no number: of
//!                           a write the first half stands, and nothing that comes later. No status is wanted then, and what is
//!                           printed is looked at as far as lines are wanted. The run must come to its stop
//!
//! What is counted in a run.
//!
//!     written d3 to 22016   the command before handed at most so many bytes to writes of this image; without `to`, exactly so many
//!     calls to 80           there were at most so many calls on the disks up to the end of the command before; so without `to`
//!     sectors 4096          each read and write of the run is on multiples of so many bytes, a power of two: its place and its length
//!     show                  for one who writes a row: it fails by a list of the calls of the command before, with slots and bytes
//!
//! What no command asks for alone.
//!
//!     striping usual fine byte 131072 = byte 0 of extent 1
//!                           where a byte of a file lies, in a `usual` group, of units of 1 MB and steps of 20,000 extents, or a `small`
//!                           one, of 4 KB and 8, where the file is `fine` or `coarse`; so with `units 20000 = 4`, the units of an extent,
//!                           `size 229376 = 17 in 56 units`, the extents of a size, and `piece 131000 200 = 72 bytes of extent 0 from
//!                           131000 on`, the first bytes of a span that lie in a row
//!
//! A row may be played anew for each call of its first run, whose calls are counted first.
//!
//!     fail each 2           each of its calls fails in turn, from the second on. All that is wanted is wanted each time
//!     stop each             it stops after each number of calls, from all of them down to none. What it prints is looked at where it
//!                           isn't stopped
//!     or another            behind `<` or `stands` in such a row: another that may come. The first comes where the run stops early, and
//!                           the second from some call on, also in each later place of the row that has two; with all calls it is the
//!                           second, with none the first. No status is wanted of a run with such a line

mod asked;
mod checks;
mod findings;
mod formats_reader;
mod layouts;
mod line;
mod playing;
mod row;

use crate::rows::findings::{Findings, Trouble};
use crate::rows::line::{Line, lines_of, row_of};
use crate::rows::row::play_row;
use std::alloc::Global;
use std::{fs, io};

/// How many rows were played, and how many of them failed.
#[derive(Clone, Copy)]
struct Tally {
    rows: u64,
    failed: u64,
}

/// Plays the rows of files, and prints a line for each that fails, and a count.
pub fn play_files(alloc: Global, rt: &HostRuntime, names: &[String]) -> io::Result<()> {
    let mut tally = Tally { rows: 0, failed: 0 };
    for name in names {
        let text = fs::read_to_string(rt, name.as_str())?;
        play_file(alloc, rt, name, &text, &mut tally)?;
    }
    println!(rt; "{} rows, {} failed", tally.rows, tally.failed)
}

/// Plays the rows of a file, and prints a line for each that fails.
fn play_file(
    alloc: Global,
    rt: &HostRuntime,
    name: &str,
    text: &str,
    tally: &mut Tally,
) -> io::Result<()> {
    let lines = lines_of(alloc, text)?;
    for (place, numbered) in lines.iter().enumerate() {
        if let Line::Title(title) = numbered.line {
            let mut findings = Findings::new(alloc);
            let played = play_row(alloc, row_of(&lines[place + 1..]), &mut findings);
            tally.rows = tally.rows.saturating_add(1);
            if let Err(trouble) = played {
                tally.failed = tally.failed.saturating_add(1);
                tell(rt, name, title, trouble, &findings)?;
            }
        }
    }
    Ok(())
}

fn tell(
    rt: &HostRuntime,
    name: &str,
    title: &str,
    trouble: Trouble,
    findings: &Findings,
) -> io::Result<()> {
    match trouble {
        Trouble::NoMemory => println!(rt; "{name}, {title}: no memory"),
        _ => {
            let message = findings.message();
            println!(rt; "{name}, {title}: {message}")
        }
    }
}
