//! Where commands begin and end in a script that may come in pieces.

ghost use Rattle.std.specs.Prelude.{◌≡◌, ◌+◌, ◌-◌, ◌<◌, ◌≤◌, List, ℕ, true, false, [], ◌∷◌, length, take, drop, IfSome, IfNone};
ghost use Rattle.script.specs.Script.{cut, between, commands_of};
ghost use Rattle.script.specs.Scanning.{place_of_state, opening_place, IsCutterOf, IsFresh, Leads, FirstIs, Steps, Goes, ComesTo, GoesOnWithMore, last_command};

use crate::first_word::{begins_comment, is_blank, opens_statement, word_len};

/// A part of some bytes, in bytes from the first of them.
#[derive(Clone, Copy, Debug, PartialEq, Eq)]
pub struct Span {
    pub at: u64,
    pub len: u64,
}

/// Where the next byte of a script stands.
#[derive(Clone, Copy, Debug, PartialEq, Eq)]
pub enum State {
    /// Between commands.
    Gap,
    /// In a line that is skipped.
    Comment,
    /// In a command that its line ends.
    Line,
    /// In a statement, outside quotes.
    Statement,
    /// In a statement, inside quotes.
    Quote,
}

/// How far the front of a script has been scanned, so that no byte of a long command is scanned
/// twice.
#[derive(Clone, Copy, Debug)]
pub struct Cutter {
    /// Where the first byte stands.
    pub from: State,
    /// Where the command that stands open begins; else the same as `at`.
    pub start: usize,
    /// How many bytes were scanned.
    pub at: usize,
    /// Where the byte at `at` stands.
    pub state: State,
}

/// What the byte at a place does.
#[derive(Clone, Copy)]
enum Step {
    /// It is of a gap.
    Skip(State),
    /// It is of the command.
    Take(State),
    /// The command ends before it.
    EndsBefore,
    /// The command ends with it.
    EndsWith,
    /// The bytes that follow have to tell whether a statement begins here.
    Waits,
}

/// What stands between commands does.
fn look_in_gap(rest: &[u8]) -> Step
    requires { 0 < length rest.now }
    ensures { Steps between rest.now result }
{
    if is_blank(rest[0]) {
        return Step::Skip(State::Gap);
    }
    if begins_comment(rest) {
        return Step::Skip(State::Comment);
    }
    if rest.len() < 7 && word_len(rest) == rest.len() {
        return Step::Waits;
    }
    if opens_statement(rest) {
        Step::Take(State::Statement)
    } else {
        Step::Take(State::Line)
    }
}

fn look_at(state: State, rest: &[u8]) -> Step
    requires { 0 < length rest.now }
    ensures { Steps (place_of_state state) rest.now result }
{
    match (state, rest[0]) {
        (State::Gap, _) => look_in_gap(rest),
        (State::Comment, b'\n') => Step::Skip(State::Gap),
        (State::Comment, _) => Step::Skip(State::Comment),
        (State::Line, b'\n') => Step::EndsBefore,
        (State::Line, _) => Step::Take(State::Line),
        (State::Statement, b';') => Step::EndsWith,
        (State::Statement, b'\'') => Step::Take(State::Quote),
        (State::Statement, _) => Step::Take(State::Statement),
        (State::Quote, b'\'') => Step::Take(State::Statement),
        (State::Quote, _) => Step::Take(State::Quote),
    }
}

/// What scanning comes to.
enum Scan {
    /// The next command has its end among the bytes.
    Found(Span),
    /// It has not.
    Open(Cutter),
}

/// One byte further.
enum Onward {
    Further(Cutter),
    Found(Span),
    Waits,
}

impl Cutter {
    /// At the front of a script, or behind a command.
    pub fn new() -> Cutter
        ensures stands { (bytes : List ℕ) → IsCutterOf bytes result }
        ensures fresh { IsFresh result }
    {
        Cutter {
            from: State::Gap,
            start: 0,
            at: 0,
            state: State::Gap,
        }
    }

    /// Looks at the byte that is next.
    fn onward(self, bytes: &[u8]) -> Onward
        requires stands { IsCutterOf bytes.now self }
        requires more { self.at < length bytes.now }
        ensures { Goes self bytes.now result }
    {
        let Cutter {
            from,
            start,
            at,
            state,
        } = self;
        match look_at(state, &bytes[at..]) {
            Step::Skip(state) => Onward::Further(Cutter {
                from,
                start: at + 1,
                at: at + 1,
                state,
            }),
            Step::Take(state) => Onward::Further(Cutter {
                from,
                start,
                at: at + 1,
                state,
            }),
            Step::EndsBefore => Onward::Found(Span {
                at: start as u64,
                len: (at - start) as u64,
            }),
            Step::EndsWith => Onward::Found(Span {
                at: start as u64,
                len: (at - start) as u64 + 1,
            }),
            Step::Waits => Onward::Waits,
        }
    }

    /// Goes on from where it stands to the end of the next command, or of the bytes.
    fn scan(self, bytes: &[u8]) -> Scan
        requires { IsCutterOf bytes.now self }
        ensures { ComesTo self bytes.now result }
    {
        let mut cutter = self;
        while cutter.at < bytes.len() {
            match cutter.onward(bytes) {
                Onward::Further(next) => cutter = next,
                Onward::Found(span) => return Scan::Found(span),
                Onward::Waits => return Scan::Open(cutter),
            }
        }
        Scan::Open(cutter)
    }

    /// The next command of a script that begins with these bytes, where its end is among them; the
    /// cutter is then a fresh one, for the bytes behind the command. Where it is not, the cutter
    /// goes on later, with more bytes behind these.
    pub fn next(&mut self, bytes: &[u8]) -> Option<Span>
        requires { IsCutterOf bytes.now self.old }
        ensures within { IfSome result (λ span. span.at + span.len ≤ length bytes.now) }
        ensures found { IfSome result (λ span. FirstIs (place_of_state self.old.from) bytes.now
            (take span.len (drop span.at bytes.now)) (drop (span.at + span.len) bytes.now)) }
        ensures progress { IfSome result (λ span. 0 < span.len) }
        ensures fresh { IfSome result (λ _. IsFresh self.new) }
        ensures none { IfNone result (cut false (place_of_state self.old.from) bytes.now ≡ []) }
        ensures stands { IfNone result (IsCutterOf bytes.now self.new) }
        ensures from { IfNone result (self.new.from ≡ self.old.from) }
        ensures scanned { IfNone result (length bytes.now ≤ self.new.at + 6) }
    {
        match self.scan(bytes) {
            Scan::Found(span) => {
                *self = Cutter::new();
                Some(span)
            }
            Scan::Open(cutter) => {
                *self = cutter;
                None
            }
        }
    }

    /// The next command of a script that ends with these bytes.
    pub fn last(self, bytes: &[u8]) -> Option<Span>
        requires { IsCutterOf bytes.now self }
        ensures within { IfSome result (λ span. span.at + span.len ≤ length bytes.now) }
        ensures found { IfSome result (λ span. cut true (place_of_state self.from) bytes.now
            ≡ take span.len (drop span.at bytes.now) ∷ commands_of (drop (span.at + span.len) bytes.now)) }
        ensures progress { IfSome result (λ span. 0 < span.len) }
        ensures none { IfNone result (cut true (place_of_state self.from) bytes.now ≡ []) }
    {
        match self.scan(bytes) {
            Scan::Found(span) => Some(span),
            Scan::Open(cutter) => rest_of(bytes, cutter.start),
        }
    }

    /// The same, where the caller drops the first `start` bytes, which are a gap that was skipped.
    pub fn without_gap(self) -> Cutter
        requires { self.start ≤ self.at }
        ensures start { result.start ≡ 0 }
        ensures stands { (bytes : List ℕ) → IsCutterOf bytes self
            → IsCutterOf (drop self.start bytes) result }
        ensures same { (bytes : List ℕ) → IsCutterOf bytes self
            → Leads (place_of_state self.from) bytes [] (place_of_state result.from)
            (drop self.start bytes) }
    {
        Cutter {
            from: opening(self.state),
            start: 0,
            at: self.at - self.start,
            state: self.state,
        }
    }
}

/// Where the first byte of the open command stands, or of what is left of the gap.
fn opening(state: State) -> State
    ensures { place_of_state result ≡ opening_place (place_of_state state) }
{
    match state {
        State::Gap | State::Comment => state,
        State::Line | State::Statement | State::Quote => State::Gap,
    }
}

/// A cutter goes on with more bytes behind those that it has seen.
pub fn goes_on_with_more()
    ensures { GoesOnWithMore }
{}

/// The bytes from a place on, where there are any.
fn rest_of(bytes: &[u8], start: usize) -> Option<Span>
    requires { start ≤ length bytes.now }
    ensures within { IfSome result (λ span. span.at + span.len ≡ length bytes.now) }
    ensures found { IfSome result (λ span. last_command (drop start bytes.now)
        ≡ take span.len (drop span.at bytes.now) ∷ []) }
    ensures progress { IfSome result (λ span. 0 < span.len) }
    ensures none { IfNone result (last_command (drop start bytes.now) ≡ []) }
{
    if start == bytes.len() {
        return None;
    }
    Some(Span {
        at: start as u64,
        len: (bytes.len() - start) as u64,
    })
}

/// The first command of a script. `None` says that only blanks and comment lines are left.
pub fn next_command(script: &[u8]) -> Option<Span>
    ensures within { IfSome result (λ span. span.at + span.len ≤ length script.now) }
    ensures found { IfSome result (λ span. commands_of script.now
        ≡ take span.len (drop span.at script.now) ∷ commands_of (drop (span.at + span.len) script.now)) }
    ensures progress { IfSome result (λ span. 0 < span.len) }
    ensures none { IfNone result (commands_of script.now ≡ []) }
{
    Cutter::new().last(script)
}
