//! A set of disk numbers below 64.

ghost use Rattle.std.specs.Prelude.{◌≡◌, ◌<◌, ◌^◌, ◌==◌, ◌||◌, ◌&&◌, not, ℕ, false, length};
ghost use Rattle.asm_formats.specs.Sets.{has_bit, elements};

use std::marker::Model;

/// A set of disk numbers. Contracts see it as a number: bit k, counted from the least, is disk k.
#[derive(Clone, Copy, Debug, PartialEq, Eq)]
pub struct DiskSet {
    bits: u64,
}

impl Model for DiskSet {
    ghost Value = { ℕ };

    ghost view = { λ s. s.bits };

    ghost inverse = { λ n. record { bits = n } };
}

impl DiskSet {
    pub fn empty() -> DiskSet
        ensures { result ≡ 0 }
    {
        DiskSet { bits: 0 }
    }

    /// Whether disk n is in the set; no number from 64 on is.
    #[tactic(auto, using(crate::proofs::Sets::no_bit), unfolding(asm_formats::specs::Sets::has_bit))]
    pub fn has(&self, n: u8) -> bool
        ensures { result ≡ has_bit self.now n }
    {
        let bits = self.bits;
        n < 64 && bits >> n & 1 == 1
    }

    /// The set with disk n in it.
    #[tactic(auto, using(crate::proofs::Sets::bit_with), unfolding(asm_formats::specs::Sets::has_bit))]
    pub fn with(self, n: u8) -> DiskSet
        requires { n < 64 }
        ensures { (k : ℕ) → k < 64 → has_bit result k ≡ (k == n || has_bit self k) }
    {
        DiskSet {
            bits: self.bits | 1 << n,
        }
    }

    /// The set without disk n.
    #[tactic(auto, using(crate::proofs::Sets::bit_without), unfolding(asm_formats::specs::Sets::has_bit))]
    pub fn without(self, n: u8) -> DiskSet
        requires { n < 64 }
        ensures { (k : ℕ) → k < 64 → has_bit result k ≡ (not (k == n) && has_bit self k) }
    {
        DiskSet {
            bits: self.bits & !(1 << n),
        }
    }

    /// How many disks are in the set.
    #[tactic(auto, using(crate::proofs::Sets::ones_are_elements, crate::proofs::Sets::few_ones))]
    pub fn count(&self) -> u8
        ensures { result ≡ length (elements self.now) }
    {
        self.bits.count_ones() as u8
    }

    /// The set whose bit k, counted from the least, is disk k.
    pub fn from_bits(bits: u64) -> DiskSet
        ensures { result ≡ bits }
    {
        DiskSet { bits }
    }

    /// The set as a number: bit k, counted from the least, is disk k.
    pub fn bits(&self) -> u64
        ensures bits { result ≡ self.now }
        ensures small { self.now < 2 ^ 64 }
    {
        self.bits
    }
}
