// Which calls on the disks fail, by what they are.
use crate::calls::{Call, Kind};

/// What becomes of the calls of a kind on an image, from the next command on.
#[derive(Clone, Copy)]
pub enum Then {
    /// The call of this number, counted from 1, fails.
    FailAt(u64),
    /// Each fails.
    FailOn,
    /// The run stops at the call of this number, counted from 1.
    StopAt(u64),
    /// Nothing any more.
    Over,
}

/// What becomes of a call.
#[derive(Clone, Copy, PartialEq, Eq)]
pub enum Fate {
    IsDone,
    Fails,
    /// The run stops at it: it fails, and each call after it.
    Stops,
}

/// A rule on the calls of a kind on a slot, from a line of the script on.
#[derive(Clone, Copy)]
pub struct Rule {
    pub line: u64,
    pub slot: u32,
    pub kind: Kind,
    pub then: Then,
}

impl Rule {
    fn speaks_of(&self, call: Call) -> bool {
        self.line <= call.line && self.slot == call.slot && self.kind == call.kind
    }

    /// What becomes of a call by this rule, which is told each.
    fn meets(&mut self, call: Call) -> Fate {
        if !self.speaks_of(call) {
            return Fate::IsDone;
        }
        match self.then {
            Then::FailAt(count) if count > 1 => {
                self.then = Then::FailAt(count - 1);
                Fate::IsDone
            }
            Then::FailAt(_) => {
                self.then = Then::Over;
                Fate::Fails
            }
            Then::FailOn => Fate::Fails,
            Then::StopAt(count) if count > 1 => {
                self.then = Then::StopAt(count - 1);
                Fate::IsDone
            }
            Then::StopAt(_) => {
                self.then = Then::Over;
                Fate::Stops
            }
            Then::Over => Fate::IsDone,
        }
    }
}

/// What becomes of a call by rules, which are told each.
pub fn fate_of(rules: &mut [Rule], call: Call) -> Fate {
    let mut fate = Fate::IsDone;
    for rule in rules.iter_mut() {
        let met = rule.meets(call);
        if fate != Fate::Stops && met != Fate::IsDone {
            fate = met;
        }
    }
    fate
}
