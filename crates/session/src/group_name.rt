// Names of groups as keys of a map. They are equal where they differ in the case of letters alone.
ghost use Rattle.std.specs.Prelude.{◌≡◌, fold};
ghost use Rattle.std.proofs.Common.{ap};
ghost use Rattle.std.specs.Cmp.{on_equiv, on_per, partial_equiv_from_equiv};
ghost use Rattle.std.specs.Cmp.Lexicographic.{bytes_decides, nat_list_eq_equiv};
ghost use Rattle.std.specs.Hash as fed;
ghost use Rattle.asm_group.specs.Names.{folded, is_same_name};

use asm_base::{Name, folded_byte};
use indexmap::Equivalent;
use std::hash::{Hash, Hasher};

/// A group's name, as it is spelt in the headers of its disks.
#[derive(Drop)]
pub struct GroupName {
    pub name: Name,
}

/// A name by which a group is looked up.
#[derive(Clone, Copy)]
pub struct SoughtName<'a> {
    pub name: &'a Name,
}

fn hash_folded<H: Hasher>(bytes: &[u8], state: &mut H)
    ensures { state.new ≡ fold H.write state.old (fed.slice fed.u8 (folded bytes.now)) }
{
    state.write_usize(bytes.len());
    for byte in bytes {
        state.write_u8(folded_byte(*byte));
    }
}

impl PartialEq for GroupName {
    ghost eq = { λ a b. is_same_name a.name b.name };

    ghost laws = { on_per (λ k. folded k.name) (partial_equiv_from_equiv nat_list_eq_equiv) };

    fn eq(&self, other: &GroupName) -> bool {
        self.name.is_same(&other.name)
    }
}

impl Eq for GroupName {
    ghost laws = { on_equiv (λ k. folded k.name) nat_list_eq_equiv };
}

impl Hash for GroupName {
    ghost hash_input = { λ k. fed.slice fed.u8 (folded k.name) };

    ghost respects_eq = { λ a b same. ap (fed.slice fed.u8) ((bytes_decides (folded a.name) (folded b.name)).0 same) };

    fn hash<H: Hasher>(&self, state: &mut H) {
        hash_folded(self.name.as_bytes(), state);
    }
}

impl<'a> PartialEq for SoughtName<'a> {
    ghost eq = { λ a b. is_same_name a.name.now b.name.now };

    ghost laws = { on_per (λ q. folded q.name.now) (partial_equiv_from_equiv nat_list_eq_equiv) };

    fn eq(&self, other: &SoughtName<'a>) -> bool {
        self.name.is_same(other.name)
    }
}

impl<'a> Eq for SoughtName<'a> {
    ghost laws = { on_equiv (λ q. folded q.name.now) nat_list_eq_equiv };
}

impl<'a> Hash for SoughtName<'a> {
    ghost hash_input = { λ q. fed.slice fed.u8 (folded q.name.now) };

    ghost respects_eq = { λ a b same. ap (fed.slice fed.u8) ((bytes_decides (folded a.name.now) (folded b.name.now)).0 same) };

    fn hash<H: Hasher>(&self, state: &mut H) {
        hash_folded(self.name.as_bytes(), state);
    }
}

impl<'a> Equivalent<GroupName> for SoughtName<'a> {
    ghost equivalent = { λ q k. is_same_name q.name.now k.name };

    ghost respects_hash = { λ q k same. ap (fed.slice fed.u8) ((bytes_decides (folded q.name.now) (folded k.name)).0 same) };

    ghost respects_eq = { λ q x y. nat_list_eq_equiv.congr (folded q.name.now) (folded x.name) (folded y.name) };

    fn equivalent(&self, key: &GroupName) -> bool {
        self.name.is_same(&key.name)
    }
}
