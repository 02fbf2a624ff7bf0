// What the words of trials ask for.
use crate::trials::stops::Cut;

/// What is tried.
#[derive(Clone, Copy)]
pub struct Choice {
    pub once: bool,
    pub stops: Cut,
    pub faults: Cut,
    pub mounts: Cut,
    pub inner: Cut,
}

/// What is tried without a word.
const SOME: Choice = Choice {
    once: false,
    stops: Cut {
        step: 61,
        first: 13,
    },
    faults: Cut { step: 53, first: 5 },
    mounts: Cut {
        step: 700,
        first: 560,
    },
    inner: Cut {
        step: 131,
        first: 31,
    },
};

const NONE: Cut = Cut {
    step: 1_000_000,
    first: 1_000_000,
};

// What a word asks for, with the cut of what it tries, and that of the calls of the mounts that are
// stopped. None where there is no such word.
fn choice_of(word: &str, cut: Cut, inner: Cut) -> Option<Choice> {
    let none = Choice {
        once: false,
        stops: NONE,
        faults: NONE,
        mounts: NONE,
        inner,
    };
    Some(match word {
        "once" => Choice { once: true, ..none },
        "all" => Choice {
            stops: Cut { step: 1, first: 0 },
            faults: Cut { step: 1, first: 1 },
            mounts: Cut {
                step: 100,
                first: 0,
            },
            inner: Cut { step: 20, first: 0 },
            ..none
        },
        "stops" => Choice { stops: cut, ..none },
        "faults" => Choice {
            faults: cut,
            ..none
        },
        "mounts" => Choice {
            mounts: cut,
            ..none
        },
        _ => return None,
    })
}

// A word as a number, and another number where there is no word. None where it is no number.
fn number_of(word: Option<&String>, other: usize) -> Option<usize> {
    match word {
        Some(text) => text.parse::<usize>().ok(),
        None => Some(other),
    }
}

/// What the words ask for. None where they aren't those of trials.
pub fn read_choice(words: &[String]) -> Option<Choice> {
    let [word, numbers @ ..] = words else {
        return Some(SOME);
    };
    if numbers.len() > 4 {
        return None;
    }
    let cut = Cut {
        step: number_of(numbers.first(), 1)?,
        first: number_of(numbers.get(1), 0)?,
    };
    let inner = Cut {
        step: number_of(numbers.get(2), 1)?,
        first: number_of(numbers.get(3), 0)?,
    };
    choice_of(word, cut, inner)
}
