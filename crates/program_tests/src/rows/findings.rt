// What is found of a row.
use std::alloc::{AllocError, AllocFailed, Global};
use std::fmt::Write;

/// Why a row, or a trial of one, is not played on.
#[derive(Clone, Copy, Debug, PartialEq, Eq)]
pub enum Trouble {
    /// Something isn't as it is wanted, and the findings say what.
    Wrong,
    /// The calls of the run that is tried were counted.
    Counted,
    NoMemory,
}

impl From<AllocError> for Trouble {
    fn from(_: AllocError) -> Trouble {
        Trouble::NoMemory
    }
}

impl<T: Drop> From<AllocFailed<T>> for Trouble {
    fn from(_: AllocFailed<T>) -> Trouble {
        Trouble::NoMemory
    }
}

impl From<bay_mem::NoMemory> for Trouble {
    fn from(_: bay_mem::NoMemory) -> Trouble {
        Trouble::NoMemory
    }
}

impl From<asm_base::NoMemory> for Trouble {
    fn from(_: asm_base::NoMemory) -> Trouble {
        Trouble::NoMemory
    }
}

/// What was found of a row so far: what is wrong, how many calls the run made that is tried, and of
/// each answer of a trial that may come in two ways whether it came in the second.
#[derive(Drop)]
pub struct Findings {
    message: String,
    pub calls: u64,
    pub seconds: Vec<bool>,
}

impl Findings {
    pub fn new(alloc: Global) -> Findings {
        Findings {
            message: String::new(alloc),
            calls: 0,
            seconds: Vec::new(alloc),
        }
    }

    pub fn message(&self) -> &str {
        &self.message
    }

    /// Says what was wanted at a line, and what came.
    pub fn wrong(&mut self, number: u64, wanted: &str, came: &str) -> Trouble {
        match write!(
            self.message,
            "line {number}: wanted `{wanted}`, got `{came}`"
        ) {
            Ok(()) => Trouble::Wrong,
            Err(_) => Trouble::NoMemory,
        }
    }

    /// The same of numbers.
    pub fn wrong_number(&mut self, number: u64, wanted: u64, came: u64) -> Trouble {
        match write!(self.message, "line {number}: wanted {wanted}, got {came}") {
            Ok(()) => Trouble::Wrong,
            Err(_) => Trouble::NoMemory,
        }
    }

    /// Says what is wrong with a row.
    pub fn say(&mut self, text: &str) -> Trouble {
        match self.message.push_str(text) {
            Ok(()) => Trouble::Wrong,
            Err(_) => Trouble::NoMemory,
        }
    }

    /// Adds the call at which a trial of a row went wrong.
    pub fn say_trial(&mut self, trouble: Trouble, call: u64) -> Trouble {
        match write!(self.message, ", at call {call}") {
            Ok(()) => trouble,
            Err(_) => Trouble::NoMemory,
        }
    }

    /// Compares what came with what is wanted, or with a second answer, where there is one.
    pub fn compare(
        &mut self,
        number: u64,
        wanted: &str,
        second: Option<&str>,
        came: &str,
    ) -> Result<(), Trouble> {
        let is_second = second == Some(came);
        if !is_second && came != wanted {
            return Err(self.wrong(number, wanted, came));
        }
        if second.is_some() {
            self.seconds.push(is_second)?;
        }
        Ok(())
    }
}
