//! The units of a disk: the reserved ones, and of each user unit whether it is used.

ghost use Rattle.std.specs.Prelude.{◌≡◌, ◌≤◌, ◌<◌, ◌+◌, ◌*◌, ◌^◌, ◌++◌, ◌-◌, ◌↔◌, IfOk, IsTrue, MatchOption, ℕ, true, false, length, take, vec_len, replicate, if◌then◌else◌};
ghost use Rattle.std.specs.Bool.{OnFalse, OnTrue};
ghost use Rattle.allocator.specs.Words.{AreFresh, AreResized, SetsRun};
ghost use Rattle.allocator.specs.UnitMaps.{HasNoRun, IsFreeRun, IsLowestRun, IsUnusedFrom, IsUsedRun, with_unit_count, with_taken_run, total_of, unused, used_of, with_run};

use crate::words::{first_free, is_free, lowest_run, set_run, used_between};
use asm_base::NoMemory;
use std::alloc::{AllocError, Global};
use std::marker::Model;

/// Which units of a disk are used. Units before the first user unit are reserved.
#[derive(Drop)]
pub struct Units {
    first: u32,
    units: u32,
    used: u32,
    /// No unit before this one is free.
    from: u32,
    /// A bit for each unit, set where the unit is used or reserved, and behind the last unit.
    words: Vec<u64>,
}

impl Model for Units {
    ghost use Rattle.allocator.specs.UnitMaps.{UnitMap};

    ghost Value = { UnitMap };

    ghost use Rattle.allocator.specs.Sound.{IsSoundInside, map_of};

    ghost view = { map_of };

    ghost invariant = { IsSoundInside };
}

impl Units {
    /// A disk of so many units, none of which are used. Those before `first` are reserved, so there
    /// are no user units where `first` is above `units`.
    pub fn new(alloc: Global, first: u32, units: u32) -> Result<Units, NoMemory>
        requires { units ≤ 16777216 }
        ensures { IfOk result (λ u. u ≡ unused first units) }
    {
        let words = fresh_words(alloc, first, units)?;
        Ok(Units {
            first,
            units,
            used: 0,
            from: 0,
            words,
        })
    }

    /// An equal value. It, `new` and `resized` alone take memory.
    pub fn copy(&self) -> Result<Units, NoMemory>
        ensures { IfOk result (λ u. u ≡ self.now) }
    {
        let words = copy_words(*self.words.allocator(), &self.words)?;
        Ok(Units {
            first: self.first,
            units: self.units,
            used: self.used,
            from: self.from,
            words,
        })
    }

    /// The disk with so many units: each is used where it was, and a new one isn't. What is used
    /// behind the last unit is lost. Work and memory go by the number of units, a word at a time.
    pub fn resized(&self, units: u32) -> Result<Units, NoMemory>
        requires { units ≤ 16777216 }
        ensures { IfOk result (λ u. u ≡ with_unit_count self.now units) }
    {
        let alloc = *self.words.allocator();
        let words = resized_words(alloc, &self.words, self.first, self.units, units)?;
        let used = used_between(&words, self.first.min(units), units);
        Ok(Units {
            first: self.first,
            units,
            used,
            from: self.from.min(self.units).min(units),
            words,
        })
    }

    /// Whether no unit from one on is used.
    pub fn is_unused_from(&self, unit: u32) -> bool
        ensures { IsTrue result ↔ IsUnusedFrom self.now unit }
    {
        let from = unit.max(self.first);
        from >= self.units || is_free(&self.words, from, self.units - from)
    }

    /// Takes the lowest run of so many free user units. None, with nothing changed, where there is
    /// no such run.
    pub fn take(&mut self, n: u32) -> Option<u32>
        requires { 0 < n }
        ensures found { MatchOption result (HasNoRun self.old n) (IsLowestRun self.old n) }
        ensures after { self.new ≡ with_taken_run self.old n result }
    {
        let at = self.lowest(n)?;
        self.use_run(at, n);
        Some(at)
    }

    /// Makes a run used. False, with nothing changed, where it is out of range or meets a used
    /// unit.
    pub fn mark(&mut self, at: u32, n: u32) -> bool
        requires { 0 < n }
        ensures free { IsTrue result ↔ IsFreeRun self.old at n }
        ensures after { self.new ≡ (if result then with_run self.old at n true else self.old) }
    {
        if !self.is_free_run(at, n) {
            return false;
        }
        self.use_run(at, n);
        true
    }

    /// Gives a used run back.
    pub fn give(&mut self, at: u32, n: u32)
        requires some { 0 < n }
        requires used { IsUsedRun self.old at n }
        ensures { self.new ≡ with_run self.old at n false }
    {
        set_words(&mut self.words, at, n, false);
        self.used -= n;
        self.from = self.from.min(at);
    }

    /// Makes a free run used. `from` goes on to the first free unit, so that no search passes over
    /// the used ones before it.
    fn use_run(&mut self, at: u32, n: u32)
        requires some { 0 < n }
        requires free { IsFreeRun self.old at n }
        ensures { self.new ≡ with_run self.old at n true }
    {
        set_words(&mut self.words, at, n, true);
        self.used += n;
        self.from = first_free(&self.words, self.from);
    }

    fn is_free_run(&self, at: u32, n: u32) -> bool
        requires { 0 < n }
        ensures { IsTrue result ↔ IsFreeRun self.now at n }
    {
        at as u64 + n as u64 <= self.units as u64 && is_free(&self.words, at, n)
    }

    /// The run that `take` would give, with nothing changed.
    pub fn lowest(&self, n: u32) -> Option<u32>
        requires { 0 < n }
        ensures { MatchOption result (HasNoRun self.now n) (IsLowestRun self.now n) }
    {
        lowest_run(&self.words, self.from, n)
    }

    /// Whether so many user units in a row are free.
    pub fn has_room(&self, n: u32) -> bool
        requires { 0 < n }
        ensures room { OnTrue result ((at : ℕ) × IsFreeRun self.now at n) }
        ensures none { OnFalse result (HasNoRun self.now n) }
    {
        self.lowest(n).is_some()
    }

    /// How many units the disk has, reserved ones included.
    pub fn size(&self) -> u32
        ensures { result ≡ self.now.units }
    {
        self.units
    }

    /// The number of user units.
    pub fn total(&self) -> u32
        ensures { result ≡ total_of self.now }
    {
        self.units.saturating_sub(self.first)
    }

    /// The number of user units that are used.
    pub fn used(&self) -> u32
        ensures value { result ≡ used_of self.now }
        ensures few { used_of self.now ≤ total_of self.now }
    {
        self.used
    }
}

/// Words whose bits are set but for the user units.
fn fresh_words(alloc: Global, first: u32, units: u32) -> Result<Vec<u64>, NoMemory>
    requires { units ≤ 16777216 }
    ensures { IfOk result (λ words. AreFresh first units words.items) }
{
    let count = units / 64 + 1;
    let mut words = zero_words(alloc, count)?;
    set_words(&mut words, 0, first.min(units), true);
    set_words(&mut words, units, count * 64 - units, true);
    Ok(words)
}

/// The words of a disk that had `before` units, for another number of units.
fn resized_words(
    alloc: Global,
    old: &[u64],
    first: u32,
    before: u32,
    units: u32,
) -> Result<Vec<u64>, NoMemory>
    requires units { units ≤ 16777216 }
    requires room { before ≤ 64 * length old.now }
    requires few { 64 * length old.now < 2 ^ 32 }
    ensures { IfOk result (λ words. AreResized first before units old.now words.items) }
{
    let count = units / 64 + 1;
    let mut words = kept_words(alloc, old, count)?;
    let kept = before.min(units);
    let end = units.min(old.len() as u32 * 64);
    set_words(&mut words, kept, end - kept, false);
    set_words(&mut words, 0, first.min(units), true);
    set_words(&mut words, units, count * 64 - units, true);
    Ok(words)
}

/// So many words: the first ones of others, and zeros behind them.
fn kept_words(alloc: Global, old: &[u64], count: u32) -> Result<Vec<u64>, NoMemory>
    ensures { IfOk result (λ words. words.items
        ≡ take count old.now ++ replicate (count - length old.now) 0) }
{
    let kept = old.len().min(count as usize);
    let mut words = Vec::with_capacity(alloc, count as usize).map_err(no_memory)?;
    words.extend_from_slice(&old[..kept]).map_err(no_memory)?;
    words.resize(count as usize, 0).map_err(no_memory)?;
    Ok(words)
}

fn zero_words(alloc: Global, count: u32) -> Result<Vec<u64>, NoMemory>
    ensures { IfOk result (λ words. words.items ≡ replicate count 0) }
{
    vec![in alloc; 0; count as usize].map_err(no_memory)
}

fn set_words(words: &mut Vec<u64>, at: u32, n: u32, used: bool)
    requires within { at + n ≤ 64 * vec_len words.old }
    requires few { 64 * vec_len words.old < 2 ^ 32 }
    ensures { SetsRun words.old.items words.new.items at n used }
{
    set_run(words, at, n, used);
}

fn copy_words(alloc: Global, words: &[u64]) -> Result<Vec<u64>, NoMemory>
    ensures { IfOk result (λ copy. copy.items ≡ words.now) }
{
    Vec::from_slice(alloc, words).map_err(no_memory)
}

fn no_memory(_: AllocError) -> NoMemory {
    NoMemory
}
