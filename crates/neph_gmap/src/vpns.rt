// The virtual pages of one page.
ghost use Rattle.std.specs.Prelude.{◌≡◌, ◌∷◌, [], IfOk, OnOk, OnErr};
ghost use Rattle.neph_gmap.specs.GuestPages.{IsRising, with_number, without_number};
ghost use Rattle.neph_gmap.specs.Kept.{numbers_in};

use crate::numbers::{add_number, drop_number};
use neph_base::{NoMemory, Vpn};
use std::alloc::Global;
use std::marker::Model;

// Where the numbers are kept. Two or more take memory.
#[derive(Drop)]
enum Kept {
    Nothing,
    One([Vpn; 1]),
    Many(Vec<Vpn>),
}

/// A rising list of virtual pages, which takes no memory for one or none. Contracts see the list.
#[derive(Drop)]
pub struct Vpns {
    kept: Kept,
}

impl Model for Vpns {
    ghost use Rattle.std.specs.Prelude.{ℕ, List};
    ghost use Rattle.neph_gmap.specs.GuestPages.{IsRising};
    ghost use Rattle.neph_gmap.specs.Kept.{numbers_in};

    ghost Value = { List ℕ };

    ghost view = { λ s. numbers_in s.kept };

    ghost invariant = { λ s. IsRising (numbers_in s.kept) };
}

// The numbers in the order in which they are kept.
fn numbers_in(kept: &Kept) -> &[Vpn]
    ensures { result.now ≡ numbers_in kept.now }
{
    match kept {
        Kept::Nothing => &[],
        Kept::One(one) => one,
        Kept::Many(list) => list,
    }
}

// Two numbers, or one if they are the same.
fn both(alloc: Global, u: Vpn, v: Vpn) -> Result<Kept, NoMemory>
    ensures { IfOk result (λ k. numbers_in k ≡ with_number v (u ∷ [])) }
{
    if u.get() == v.get() {
        return Ok(Kept::One([u]));
    }
    let mut list = Vec::new(alloc);
    list.push(u)?;
    add_number(&mut list, v)?;
    Ok(Kept::Many(list))
}

// The same numbers once more.
fn copied(kept: &Kept, alloc: Global) -> Result<Kept, NoMemory>
    ensures { IfOk result (λ k. numbers_in k ≡ numbers_in kept.now) }
{
    match kept {
        Kept::Nothing => Ok(Kept::Nothing),
        Kept::One(one) => Ok(Kept::One(*one)),
        Kept::Many(list) => Ok(Kept::Many(Vec::from_slice(alloc, list)?)),
    }
}

// Adds a number, if it isn't there yet.
fn add_to(kept: &mut Kept, alloc: Global, v: Vpn) -> Result<(), NoMemory>
    requires { IsRising (numbers_in kept.old) }
    ensures ok { OnOk result (numbers_in kept.new ≡ with_number v (numbers_in kept.old)) }
    ensures err { OnErr result (numbers_in kept.new ≡ numbers_in kept.old) }
{
    match kept {
        Kept::Nothing => *kept = Kept::One([v]),
        Kept::One(one) => *kept = both(alloc, one[0], v)?,
        Kept::Many(list) => add_number(list, v)?,
    }
    Ok(())
}

// Takes a number away, if it is there.
fn drop_from(kept: &mut Kept, v: Vpn)
    requires { IsRising (numbers_in kept.old) }
    ensures { numbers_in kept.new ≡ without_number v (numbers_in kept.old) }
{
    match kept {
        Kept::Nothing => {}
        Kept::One(one) => {
            if one[0].get() == v.get() {
                *kept = Kept::Nothing;
            }
        }
        Kept::Many(list) => drop_number(list, v),
    }
}

impl Vpns {
    /// No virtual page.
    pub fn new() -> Vpns
        ensures { result ≡ [] }
    {
        Vpns {
            kept: Kept::Nothing,
        }
    }

    /// The virtual pages, by rising number.
    pub fn numbers(&self) -> &[Vpn]
        ensures numbers { result.now ≡ self.now }
        ensures rising { IsRising result.now }
    {
        numbers_in(&self.kept)
    }

    /// The same list once more.
    pub fn copied(&self, alloc: Global) -> Result<Vpns, NoMemory>
        ensures { IfOk result (λ s. s ≡ self.now) }
    {
        let kept = copied(&self.kept, alloc)?;
        Ok(Vpns { kept })
    }

    /// Adds a virtual page, if it isn't there yet. After `NoMemory` nothing has changed.
    pub fn add(&mut self, alloc: Global, v: Vpn) -> Result<(), NoMemory>
        ensures ok { OnOk result (self.new ≡ with_number v self.old) }
        ensures err { OnErr result (self.new ≡ self.old) }
    {
        add_to(&mut self.kept, alloc, v)
    }

    /// Takes a virtual page away, if it is there.
    pub fn remove(&mut self, v: Vpn)
        ensures { self.new ≡ without_number v self.old }
    {
        drop_from(&mut self.kept, v);
    }
}
