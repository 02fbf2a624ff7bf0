//! `asm IMAGE...` reads a script on standard input, runs its commands on images of disks, and
//! answers each on standard output.
#![tactic(auto)]

use asm_run::run;
use bay_file::{FileBay, FileHost, StdErrors, StdSink, StdSource, SystemClock, hold_streams};
use command_line::{Notice, misuse_of};
use std::alloc::{AllocError, Global};
use std::io::ErrorKind;
use std::process::ExitCode;
use std::{env, io};

fn main(rt: HostRuntime) -> ExitCode {
    let alloc = rt.alloc();
    match answer(alloc, &rt) {
        Ok(status) => ExitCode::from(status),
        // A word isn't UTF-8.
        Err(error) if error.kind() == ErrorKind::InvalidData => {
            StdErrors::new(rt).tell("asm: a word is not UTF-8; see asm --help");
            ExitCode::from(2)
        }
        Err(_) => ExitCode::from(5),
    }
}

/// Answers a call by its words. The status comes of `run`, but for help and version.
fn answer(alloc: Global, rt: &HostRuntime) -> io::Result<u8> {
    hold_streams(rt)?;
    let words = words_of(alloc, rt)?;
    if let Some(notice) = Notice::asked(&words) {
        return Ok(tell(rt, notice));
    }
    run_words(alloc, rt, &words)
}

/// Runs standard input on the images of files, and answers on standard output.
fn run_words(alloc: Global, rt: &HostRuntime, words: &[String]) -> io::Result<u8> {
    let bay = FileBay::new(rt.clone()?);
    let host = FileHost::new(rt.clone()?);
    let mut source = StdSource::new(rt.clone()?);
    let sink = StdSink::new(rt.clone()?);
    let clock = SystemClock::new(rt.clone()?);
    let report = run(alloc, words, bay, host, &mut source, sink, clock);
    if report.status == 2 {
        explain(alloc, rt, words);
    }
    Ok(report.status)
}

/// Says on standard error what is wrong with words that `run` refused. For want of memory nothing
/// is said.
fn explain(alloc: Global, rt: &HostRuntime, words: &[String]) {
    let Ok(Some(misuse)) = misuse_of(alloc, words) else {
        return;
    };
    if let Ok(text) = format!(in alloc; "asm: {misuse}; see asm --help") {
        StdErrors::new(*rt).tell(&text);
    }
}

/// Prints help or the version. Where that fails the status is that of a reply that can't be
/// written.
fn tell(rt: &HostRuntime, notice: Notice) -> u8 {
    match rt.print(notice.text()) {
        Ok(()) => 0,
        Err(_) => 4,
    }
}

/// The words after the program's own name.
fn words_of(alloc: Global, rt: &HostRuntime) -> io::Result<Vec<String>> {
    let mut words = Vec::new(alloc);
    for word in env::args(rt)?.skip(1) {
        words.push(word).map_err(AllocError::from)?;
    }
    Ok(words)
}
