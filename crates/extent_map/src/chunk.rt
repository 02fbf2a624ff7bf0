//! The extents of a chunk in memory.

ghost use Rattle.std.specs.Prelude.{◌≡◌, ◌≤◌, ◌+◌, ◌||◌, [], get_or, length, slice_set, replicate, IfOk, None};
ghost use Rattle.std.specs.Option.{is_some};
ghost use Rattle.extent_map.specs.Extents.{absent_homes, count_in, cut_to, has_home, with_more};

use asm_base::{Homes, NoMemory};
use std::alloc::Global;
use std::marker::Model;

/// The homes of a chunk's 256 extents. Contracts see the list of them.
#[derive(Debug, Drop)]
pub struct Chunk {
    homes: Vec<Homes>,
}

impl Model for Chunk {
    ghost use Rattle.std.specs.Prelude.{◌≡◌, List as Items, length};
    ghost use Rattle.asm_formats.specs.Items.{Homes as FormatHomes};

    ghost Value = { Items FormatHomes };

    ghost view = { λ c. c.homes.items };

    ghost invariant = { λ c. length c.homes.items ≡ 256 };
}

impl Chunk {
    /// A chunk with no extents.
    pub fn blank(alloc: Global) -> Result<Chunk, NoMemory>
        ensures { IfOk result (λ c. c ≡ replicate 256 absent_homes) }
    {
        let homes = vec![in alloc; ABSENT; 256].map_err(|_| NoMemory)?;
        Ok(Chunk { homes })
    }

    /// The chunk of 256 extents.
    pub fn from_homes(homes: Vec<Homes>) -> Chunk
        requires { length homes.items ≡ 256 }
        ensures { result ≡ homes.items }
    {
        Chunk { homes }
    }

    /// An equal chunk.
    pub fn copy(&self, alloc: Global) -> Result<Chunk, NoMemory>
        ensures { IfOk result (λ c. c ≡ self.now) }
    {
        let homes = Vec::from_slice(alloc, &self.homes).map_err(|_| NoMemory)?;
        Ok(Chunk { homes })
    }

    pub fn as_slice(&self) -> &[Homes]
        ensures homes { result.now ≡ self.now }
        ensures size { length self.now ≡ 256 }
    {
        &self.homes
    }

    pub fn get(&self, place: u8) -> &Homes
        ensures { result.now ≡ get_or self.now place [] }
    {
        &self.homes[place as usize]
    }

    pub fn set(&mut self, place: u8, homes: Homes)
        ensures { self.new ≡ slice_set self.old place homes }
    {
        self.homes[place as usize] = homes;
    }

    /// How many extents are there from the first on.
    pub fn count(&self) -> usize
        ensures count { result ≡ count_in self.now }
        ensures size { length self.now ≡ 256 }
    {
        self.homes
            .iter()
            .take_while(|homes| has_home(homes))
            .count()
    }

    /// Puts extents behind those that are there.
    pub fn append(&mut self, homes: &[Homes])
        requires { count_in self.old + length homes.now ≤ 256 }
        ensures { self.new ≡ with_more self.old homes.now }
    {
        let first = self.count();
        self.homes[first..first + homes.len()].copy_from_slice(homes);
    }

    /// Takes the extents from a place on away.
    pub fn cut(&mut self, kept: usize)
        requires { kept ≤ 256 }
        ensures { self.new ≡ cut_to kept self.old }
    {
        let chunk = [ABSENT; 256];
        let blank = &chunk[..];
        self.homes[kept..].copy_from_slice(&blank[kept..]);
    }
}

/// What stands at the place of an extent that isn't there.
pub const ABSENT: Homes = Homes {
    first: None,
    second: None,
    third: None,
};

/// Whether the extent is there: it has a home.
pub fn has_home(homes: &Homes) -> bool
    ensures { result ≡ has_home homes.now }
{
    homes.first.is_some() || homes.second.is_some() || homes.third.is_some()
}
