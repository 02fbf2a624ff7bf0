//! Tests of the whole program, played over disks in memory by `run`, the program's own call.
//!
//!     rows FILE...          the rows of these files; the head of `rows/mod.rt` says what a row is
//!     trials WORD...        one script with calls that fail and stops; the head of `trials/mod.rt` says what the words are
//!     both FILE...          the rows of these files, and the trials that no word asks for
#![tactic(auto)]

mod calls;
mod line_source;
mod lines;
mod rows;
mod ruled_bay;
mod rules;
mod running;
mod trace;
mod trials;

use rows::play_files;
use std::alloc::{AllocError, Global};
use std::{env, io};
use trials::play_trials;

// The words after the program's own name.
fn words_of(alloc: Global, rt: &HostRuntime) -> io::Result<Vec<String>> {
    let mut words = Vec::new(alloc);
    for word in env::args(rt)?.skip(1) {
        words.push(word).map_err(AllocError::from)?;
    }
    Ok(words)
}

// Says which words the program takes, where those that were given are others.
fn refuse_room(rt: &HostRuntime) -> io::Result<()> {
    println!(rt; "words: rows FILE.., trials with words of its own, or both FILE..")?;
    Err(io::Error::from(io::ErrorKind::InvalidInput))
}

// Plays what a first word asks for, with the words behind it.
fn play_room(alloc: Global, rt: &HostRuntime, room: &str, words: &[String]) -> io::Result<()> {
    match room {
        "rows" => play_files(alloc, rt, words),
        "trials" => play_trials(alloc, rt, words),
        "both" => {
            play_files(alloc, rt, words)?;
            play_trials(alloc, rt, &[])
        }
        _ => refuse_room(rt),
    }
}

fn main(rt: HostRuntime) -> io::Result<()> {
    let alloc = rt.alloc();
    let words = words_of(alloc, &rt)?;
    match words.split_first() {
        Some((room, words)) => play_room(alloc, &rt, room, words),
        None => refuse_room(&rt),
    }
}
