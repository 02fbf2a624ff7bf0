//! Plays one script to four disks in memory, by the program's own call: with each call on a disk
//! failing once, and stopped before and within each call, with a second run after it that mounts
//! the group by force. Without a word it tries some of the calls. `stops`, `faults` and `mounts`
//! with numbers N and M try every Nth from the Mth on, and two more numbers say the same of the
//! calls of the mounts that are stopped. `all` tries each, and each 20th call of the mounts behind
//! each 100th. `once` plays the script alone and prints its replies. It prints what it tried, and
//! what went wrong. `script` prints the script, and `judge` with a number and four images judges
//! what a run of the built program left behind so many acknowledged commands.

mod choice;
mod deeds;
mod disks;
mod dues;
mod faults;
mod formats;
mod judging;
mod mounts;
mod playing;
mod replies;
mod stops;
mod tally;
mod world;

use crate::trials::choice::{Choice, read_choice};
use crate::trials::deeds::SCRIPT;
use crate::trials::faults::try_faults;
use crate::trials::judging::judge_images;
use crate::trials::mounts::second_script;
use crate::trials::playing::{Played, four_disks, play};
use crate::trials::stops::{try_mounts, try_stops};
use crate::trials::tally::Tally;
use bay_file::FileBay;
use std::alloc::{AllocError, Global};
use std::io;

/// Plays what the words behind `trials` ask for.
pub fn play_trials(alloc: Global, rt: &HostRuntime, words: &[String]) -> io::Result<()> {
    match words.first().map(String::as_str) {
        Some("script") => {
            let text = script_text(alloc)?;
            rt.print(&text)
        }
        Some("judge") => judge_words(alloc, rt, &words[1..]),
        _ => try_by_words(alloc, rt, words),
    }
}

fn script_text(alloc: Global) -> Result<String, AllocError> {
    let mut text = String::new(alloc);
    for deed in SCRIPT {
        text.push_str(deed.text)?;
    }
    Ok(text)
}

fn try_all(
    alloc: Global,
    choice: Choice,
    text: &[u8],
    base: &Played,
    tally: &mut Tally,
) -> Result<(), AllocError> {
    let second = second_script(alloc)?;
    try_stops(alloc, second.as_bytes(), base, choice.stops, tally)?;
    try_mounts(
        alloc,
        second.as_bytes(),
        base,
        choice.mounts,
        choice.inner,
        tally,
    )?;
    try_faults(alloc, (text, second.as_bytes()), base, choice.faults, tally)
}

fn tell(rt: &HostRuntime, calls: usize, tally: &Tally) -> io::Result<()> {
    let failing = tally.failing;
    let stops = tally.stops;
    let mounts = tally.mounts;
    let again = tally.again;
    let wrong = tally.wrong.len();
    for line in tally.wrong.iter().take(20) {
        println!(rt; "{line}")?;
    }
    println!(rt;
        "calls {calls} · failing calls {failing} · stops {stops} · stops of mounts {again} · mounts {mounts} · wrong {wrong}"
    )
}

// Says which words the program takes, where those that were given are others.
fn refuse_words(rt: &HostRuntime) -> io::Result<()> {
    println!(rt;
        "words of trials: none, once, all, script, stops|faults|mounts N M [N M], or judge N and four images"
    )?;
    Err(io::Error::from(io::ErrorKind::InvalidInput))
}

// Judges images by the words behind `judge`.
fn judge_words(alloc: Global, rt: &HostRuntime, words: &[String]) -> io::Result<()> {
    let [commands, paths @ ..] = words else {
        return refuse_words(rt);
    };
    let Ok(commands) = commands.parse::<usize>() else {
        return refuse_words(rt);
    };
    if paths.len() != 4 {
        return refuse_words(rt);
    }
    let mut bay = FileBay::new(rt.clone()?);
    match judge_images(alloc, &mut bay, commands, paths)? {
        Some(tally) => tell(rt, 0, &tally),
        None => println!(rt; "an image can't be read"),
    }
}

// Tries what the words choose.
fn try_by_words(alloc: Global, rt: &HostRuntime, words: &[String]) -> io::Result<()> {
    let Some(choice) = read_choice(words) else {
        return refuse_words(rt);
    };
    let text = script_text(alloc)?;
    let played = match four_disks(alloc) {
        Some(disks) => play(alloc, text.as_bytes(), disks),
        None => None,
    };
    let Some(base) = played else {
        return println!(rt; "there is no memory");
    };
    if choice.once {
        let shown = String::from_utf8_lossy(alloc, &base.text)?;
        let status = base.status;
        return println!(rt; "{shown}status {status}");
    }
    let mut tally = Tally::new(alloc);
    try_all(alloc, choice, text.as_bytes(), &base, &mut tally)?;
    tell(rt, base.calls.len(), &tally)
}
