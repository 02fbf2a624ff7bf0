// Words that are accepted and refused.
use crate::rows::{Wrong, row};
use command_line::{Notice, Words, WordsError, read_words};
use std::alloc::{AllocError, Global};

// The words of a line, cut at blanks. `''` is the empty word.
fn words_of(alloc: Global, line: &str) -> Result<Vec<String>, AllocError> {
    let mut words = Vec::new(alloc);
    for word in line.split_whitespace() {
        let text = if word == "''" { "" } else { word };
        words.push(String::from_str(alloc, text)?)?;
    }
    Ok(words)
}

fn read(alloc: Global, line: &str) -> Result<Words, WordsError> {
    read_words(alloc, words_of(alloc, line)?.as_slice())
}

/// Lines that are read: the seed, how many images there are, and the last of them.
const READ: [(&str, Option<u64>, usize, &str); 10] = [
    ("a b", None, 2, "b"),
    ("a", None, 1, "a"),
    ("--generate 7 a b c d", Some(7), 4, "d"),
    ("a b --generate=007 c d", Some(7), 4, "d"),
    (
        "a b c d --generate 18446744073709551615",
        Some(u64::MAX),
        4,
        "d",
    ),
    ("-- --generate -x", None, 2, "-x"),
    ("a -- --", None, 2, "--"),
    ("- ''", None, 2, ""),
    ("it's", None, 1, "it's"),
    ("a=b generate", None, 2, "generate"),
];

fn is_read(words: &Words, generate: Option<u64>, count: usize, last: &str) -> bool {
    words.generate == generate
        && words.images.len() == count
        && words
            .images
            .last()
            .is_some_and(|image| image.as_str() == last)
}

fn reads_as(alloc: Global, line: &str, generate: Option<u64>, count: usize, last: &str) -> bool {
    match read(alloc, line) {
        Ok(words) => {
            let is_read = is_read(&words, generate, count, last);
            drop(words);
            is_read
        }
        Err(_) => false,
    }
}

/// The first of the lines that isn't read so.
fn wrongly_read(alloc: Global) -> Option<&'static str> {
    for (line, generate, count, last) in &READ {
        if !reads_as(alloc, line, *generate, *count, last) {
            return Some(line);
        }
    }
    None
}

const REFUSED: [&str; 26] = [
    "",
    "--generate",
    "--generate 7",
    "a b c d --generate",
    "a b c d --generate --",
    "--generate --generate 7 a b c d",
    "--generate 7 --generate 7 a b c d",
    "--generate=7 a b c",
    "--generate 7 a b c d e",
    "--generate 7 a b c it's",
    "--generate +7 a b c d",
    "--generate=-7 a b c d",
    "--generate -7 a b c d",
    "--generate= a b c d",
    "--generate 0x7 a b c d",
    "--generate 18446744073709551616 a b c d",
    "--gen 7 a b c d",
    "-g 7 a b c d",
    "--images a",
    "a -x",
    "-1",
    "--help",
    "-h a",
    "--version a",
    "a b a",
    "--",
];

/// Whether words are refused.
fn is_refused(read: Result<Words, WordsError>) -> bool {
    match read {
        Ok(words) => {
            drop(words);
            false
        }
        Err(error) => error == WordsError::Usage,
    }
}

/// The first of the lines that isn't refused.
fn wrongly_refused(alloc: Global) -> Option<&'static str> {
    for line in &REFUSED {
        if !is_refused(read(alloc, line)) {
            return Some(line);
        }
    }
    None
}

// Paths `0`, `1` and so on.
fn numbered(alloc: Global, count: u32) -> Result<Vec<String>, AllocError> {
    let mut words = Vec::new(alloc);
    for number in 0..count {
        words.push(format!(in alloc; "{number}")?)?;
    }
    Ok(words)
}

/// What is read of so many paths.
fn read_paths(alloc: Global, count: u32) -> Result<Words, WordsError> {
    match numbered(alloc, count) {
        Ok(paths) => {
            let read = read_words(alloc, paths.as_slice());
            drop(paths);
            read
        }
        Err(_) => Err(WordsError::NoMemory),
    }
}

fn has_images(read: Result<Words, WordsError>, count: usize) -> bool {
    match read {
        Ok(words) => {
            let images = words.images.len();
            drop(words);
            images == count
        }
        Err(_) => false,
    }
}

/// Words, and what they ask for.
const NOTICES: [(&str, Option<Notice>); 7] = [
    ("--help", Some(Notice::Help)),
    ("-h", Some(Notice::Help)),
    ("--version", Some(Notice::Version)),
    ("-V", Some(Notice::Version)),
    ("--help a", None),
    ("-v", None),
    ("", None),
];

fn asks_for(alloc: Global, line: &str, notice: Option<Notice>) -> bool {
    match words_of(alloc, line) {
        Ok(words) => {
            let asked = Notice::asked(words.as_slice());
            drop(words);
            asked == notice
        }
        Err(_) => false,
    }
}

/// The first of the lines that doesn't ask for this.
fn wrongly_asked(alloc: Global) -> Option<&'static str> {
    for (line, notice) in &NOTICES {
        if !asks_for(alloc, line, *notice) {
            return Some(line);
        }
    }
    None
}

fn all(wrong: Option<&'static str>) -> Result<(), Wrong> {
    match wrong {
        Some(line) => Err(line),
        None => Ok(()),
    }
}

pub fn play_words(alloc: Global) -> Result<(), Wrong> {
    all(wrongly_read(alloc))?;
    all(wrongly_refused(alloc))?;
    row(
        "512 images are taken",
        has_images(read_paths(alloc, 512), 512),
    )?;
    row("513 images are refused", is_refused(read_paths(alloc, 513)))?;
    all(wrongly_asked(alloc))?;
    let usage = "usage: asm [--generate N] IMAGE...";
    row("the text of --help", Notice::Help.text().contains(usage))?;
    row(
        "the text of --version",
        Notice::Version.text() == "asm 1.0\n",
    )
}
