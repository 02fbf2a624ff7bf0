//! Which pages are free.

ghost use Rattle.std.specs.Prelude.{◌≡◌, ◌<◌, ◌≤◌, ◌==◌, ℕ, true, false, IfOk, IfNone, IfSome, if◌then◌else◌};
ghost use Rattle.page_map.specs.Free.{is_page_free, IsLeastFreePage};

use allocator::{NoMemory, Units};
use std::alloc::Global;
use std::marker::Model;

/// The free pages of a directory copy. Finding the least one takes no search through the pages.
#[derive(Drop)]
pub struct FreePages {
    units: Units,
}

impl Model for FreePages {
    ghost use Rattle.page_map.specs.Free.{FreeMap, IsFreeMap};

    ghost Value = { FreeMap };

    ghost view = { λ f. f.units };

    ghost invariant = { λ f. IsFreeMap f.units };
}

impl FreePages {
    /// So many pages, all of which are free.
    pub fn new(alloc: Global, pages: u32) -> Result<FreePages, NoMemory>
        requires { pages ≤ 16384 }
        ensures free { IfOk result (λ f. (page : ℕ) → page < pages → is_page_free f page ≡ true) }
        ensures count { IfOk result (λ f. f.units ≡ pages) }
    {
        let units = Units::new(alloc, 0, pages)?;
        Ok(FreePages { units })
    }

    /// How many pages there are, free or not.
    pub fn count(&self) -> u32
        ensures { result ≡ self.now.units }
    {
        self.units.total()
    }

    /// Takes the least free page. None, with nothing changed, where none is free.
    pub fn take(&mut self) -> Option<u32>
        ensures least { IfSome result (IsLeastFreePage self.old) }
        ensures taken { IfSome result (λ p. (page : ℕ)
            → is_page_free self.new page
            ≡ (if page == p then false else is_page_free self.old page)) }
        ensures count { self.new.units ≡ self.old.units }
        ensures none { IfNone result (self.new ≡ self.old) }
    {
        self.units.take(1)
    }

    /// Takes a page that is free.
    pub fn mark(&mut self, page: u32)
        requires { is_page_free self.old page ≡ true }
        ensures taken { (k : ℕ) → is_page_free self.new k
            ≡ (if k == page then false else is_page_free self.old k) }
        ensures count { self.new.units ≡ self.old.units }
    {
        self.units.mark(page, 1);
    }

    /// Gives a page back.
    pub fn give(&mut self, page: u32)
        requires inside { page < self.old.units }
        requires taken { is_page_free self.old page ≡ false }
        ensures given { (k : ℕ) → is_page_free self.new k
            ≡ (if k == page then true else is_page_free self.old k) }
        ensures count { self.new.units ≡ self.old.units }
    {
        self.units.give(page, 1);
    }
}
