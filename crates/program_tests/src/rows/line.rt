// Lines of rows, as they are read.
use crate::calls::Kind;
use crate::rows::layouts::{Group, Question};
use crate::rules::Then;
use asm_base::Stripe;
use std::alloc::{AllocError, Global};

/// A number that is wanted, or the greatest that may come.
#[derive(Clone, Copy)]
pub enum Amount {
    Exactly(u64),
    AtMost(u64),
}

/// A line of a row, as the head of the program says.
#[derive(Clone, Copy)]
pub enum Line<'t> {
    Title(&'t str),
    Image(&'t str, Option<u64>),
    Byte(&'t str, u64, u8),
    Stands(&'t str),
    Or(&'t str),
    Run(&'t str),
    Away(&'t str),
    Clock(&'t str),
    Script(&'t str),
    Text(&'t str),
    Answer(&'t str),
    Status(u64),
    Rule(Kind, &'t str, Then),
    FailSource(u64),
    FailSink(u64),
    FailEach(u64),
    StopEach,
    Written(&'t str, Amount),
    Calls(Amount),
    Sectors(u64),
    Show,
    Striping(Group, Stripe, Question, &'t str),
    /// A line that can't be read.
    Other,
}

/// A line of a row and its number in the file.
#[derive(Clone, Copy)]
pub struct Numbered<'t> {
    pub number: u64,
    pub line: Line<'t>,
}

/// A number of digits, or one of K or M.
fn number(text: &str) -> Option<u64> {
    if let Some(digits) = text.strip_suffix('K') {
        return digits.parse::<u64>().ok()?.checked_mul(1_024);
    }
    if let Some(digits) = text.strip_suffix('M') {
        return digits.parse::<u64>().ok()?.checked_mul(1_048_576);
    }
    text.parse::<u64>().ok()
}

fn amount_of(text: &str) -> Option<Amount> {
    match text.strip_prefix("to ") {
        Some(most) => Some(Amount::AtMost(number(most)?)),
        None => Some(Amount::Exactly(number(text)?)),
    }
}

fn image(rest: &str) -> Option<Line<'_>> {
    let (name, size) = rest.split_once(' ')?;
    if size == "none" {
        return Some(Line::Image(name, None));
    }
    Some(Line::Image(name, Some(number(size)?)))
}

fn byte(rest: &str) -> Option<Line<'_>> {
    let (name, more) = rest.split_once(' ')?;
    let (place, value) = more.split_once(' ')?;
    let value = u8::from_str_radix(value, 16).ok()?;
    Some(Line::Byte(name, number(place)?, value))
}

fn failing<'t>(kind: Kind, rest: &'t str) -> Option<Line<'t>> {
    match rest.split_once(' ') {
        Some((name, "on")) => Some(Line::Rule(kind, name, Then::FailOn)),
        Some((name, count)) => Some(Line::Rule(kind, name, Then::FailAt(number(count)?))),
        None => Some(Line::Rule(kind, rest, Then::FailAt(1))),
    }
}

fn fail(rest: &str) -> Option<Line<'_>> {
    let (word, more) = rest.split_once(' ')?;
    match word {
        "source" => Some(Line::FailSource(number(more)?)),
        "sink" => Some(Line::FailSink(number(more)?)),
        "each" => Some(Line::FailEach(number(more)?)),
        _ => failing(Kind::named(word)?, more),
    }
}

fn stop(rest: &str) -> Option<Line<'_>> {
    if rest == "each" {
        return Some(Line::StopEach);
    }
    let (word, more) = rest.split_once(' ')?;
    let kind = Kind::named(word)?;
    match more.split_once(' ') {
        Some((name, count)) => Some(Line::Rule(kind, name, Then::StopAt(number(count)?))),
        None => Some(Line::Rule(kind, more, Then::StopAt(1))),
    }
}

fn written(rest: &str) -> Option<Line<'_>> {
    let (name, more) = rest.split_once(' ')?;
    Some(Line::Written(name, amount_of(more)?))
}

fn question(rest: &str) -> Option<Question> {
    let (word, more) = rest.split_once(' ')?;
    match word {
        "units" => Some(Question::Units(number(more)?)),
        "byte" => Some(Question::Byte(number(more)?)),
        "size" => Some(Question::Size(number(more)?)),
        "piece" => {
            let (place, length) = more.split_once(' ')?;
            Some(Question::Piece(number(place)?, number(length)?))
        }
        _ => None,
    }
}

fn striping(rest: &str) -> Option<Line<'_>> {
    let (asked, wanted) = rest.split_once(" = ")?;
    let (group, more) = asked.split_once(' ')?;
    let (stripe, more) = more.split_once(' ')?;
    let group = match group {
        "usual" => Group::Usual,
        "small" => Group::Small,
        _ => return None,
    };
    let stripe = match stripe {
        "coarse" => Stripe::Coarse,
        "fine" => Stripe::Fine,
        _ => return None,
    };
    Some(Line::Striping(group, stripe, question(more)?, wanted))
}

/// The lines that set up images and outside.
fn setting<'t>(word: &'t str, rest: &'t str) -> Option<Line<'t>> {
    match word {
        "image" => image(rest),
        "byte" => byte(rest),
        "away" => Some(Line::Away(rest)),
        "clock" => Some(Line::Clock(rest)),
        "fail" => fail(rest),
        "stop" => stop(rest),
        _ => None,
    }
}

/// The lines that say what is wanted beside the answers.
fn wanting<'t>(word: &'t str, rest: &'t str) -> Option<Line<'t>> {
    match word {
        "or" => Some(Line::Or(rest)),
        "status" => Some(Line::Status(number(rest)?)),
        "stands" => Some(Line::Stands(rest)),
        "written" => written(rest),
        "calls" => Some(Line::Calls(amount_of(rest)?)),
        "sectors" => Some(Line::Sectors(number(rest)?)),
        "show" => Some(Line::Show),
        "striping" => striping(rest),
        _ => None,
    }
}

fn read_line(text: &str) -> Line<'_> {
    let (word, rest) = text.split_once(' ').unwrap_or((text, ""));
    match word {
        "==" => Line::Title(rest),
        ">" => Line::Script(rest),
        "<" => Line::Answer(rest),
        "text" => Line::Text(rest),
        "run" => Line::Run(rest),
        _ => setting(word, rest)
            .or(wanting(word, rest))
            .unwrap_or(Line::Other),
    }
}

/// The lines of a file of rows, but for those that are empty or begin with `#`.
pub fn lines_of<'t>(alloc: Global, text: &'t str) -> Result<Vec<Numbered<'t>>, AllocError> {
    let mut lines = Vec::new(alloc);
    let mut number = 0u64;
    for text in text.lines() {
        number = number.saturating_add(1);
        if !text.is_empty() && !text.starts_with('#') {
            lines.push(Numbered {
                number,
                line: read_line(text),
            })?;
        }
    }
    Ok(lines)
}

/// The lines of a row, where its title is before them.
pub fn row_of<'s, 't>(lines: &'s [Numbered<'t>]) -> &'s [Numbered<'t>] {
    for (place, numbered) in lines.iter().enumerate() {
        if matches!(numbered.line, Line::Title(_)) {
            return &lines[..place];
        }
    }
    lines
}

/// The lines of a run, where its first is before them.
pub fn run_of<'s, 't>(lines: &'s [Numbered<'t>]) -> &'s [Numbered<'t>] {
    for (place, numbered) in lines.iter().enumerate() {
        if !is_of_run(numbered.line) {
            return &lines[..place];
        }
    }
    lines
}

/// Whether a line belongs to the run before it.
pub fn is_of_run(line: Line<'_>) -> bool {
    !matches!(
        line,
        Line::Title(_)
            | Line::Image(..)
            | Line::Byte(..)
            | Line::Stands(_)
            | Line::Run(_)
            | Line::Striping(..)
    )
}
