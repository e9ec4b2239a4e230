// The families that the switch knows.
ghost use Rattle.std.specs.Prelude.{◌≡◌, ◌↔◌, ◌%◌, ◌<◌, [], replicate, slice_get, slice_index, slice_set, length, IsNone, IfSome};
ghost use Rattle.neph_net.specs.Families.{is_member, members, with_drop};

use neph_base::{DomId, IDS};
use std::marker::Model;

/// How many families a packet can name.
const FAMILIES: usize = 256;

/// The members of each family, and how many packets to it were dropped.
///
/// A domain is a member of one family at most. A count of drops stops at its end, 2^32 - 1.
#[derive(Drop)]
pub struct Switch {
    family_of: [Option<u8>; 64],
    drops: [u32; 256],
}

impl Model for Switch {
    ghost use Rattle.neph_net.specs.Families.{Families};

    ghost Value = { Families };

    ghost view = { λ s. record { family_of = s.family_of; drops = s.drops } };
}

impl Switch {
    /// The switch without members and drops.
    pub fn new() -> Self
        ensures { result ≡ record { family_of = replicate 64 None; drops = replicate 256 0 } }
    {
        Switch {
            family_of: [None; IDS],
            drops: [0; FAMILIES],
        }
    }

    /// Makes a domain a member of a family, and of no other.
    pub fn join(&mut self, family: u8, d: DomId)
        ensures { self.new
            ≡ record self.old { family_of = slice_set self.old.family_of d (Some family) } }
    {
        self.family_of[d.get() as usize] = Some(family);
    }

    /// Takes a domain out of its family, if it is a member of one.
    pub fn leave(&mut self, d: DomId)
        ensures { self.new ≡ record self.old { family_of = slice_set self.old.family_of d None } }
    {
        self.family_of[d.get() as usize] = None;
    }

    /// How many packets to a family were dropped.
    pub fn drops(&self, family: u8) -> u32
        ensures { result ≡ slice_index self.now.drops family }
    {
        self.drops[family as usize]
    }

    /// Of a family's members, by rising id, the one at the port modulo their number. None
    /// exactly where the family has no member.
    pub fn choose(&self, family: u8, port: u16) -> Option<DomId>
        ensures none { IsNone result ↔ (members self.now family ≡ []) }
        ensures member { IfSome result (λ d. slice_get (members self.now family)
            (port % length (members self.now family)) ≡ Some d) }
    {
        let count = self.count(family);
        if count == 0 {
            return None;
        }
        self.member(family, port % count)
    }

    // Whether a domain is a member of a family.
    fn has(&self, family: u8, id: usize) -> bool
        requires { id < 64 }
        ensures { result ≡ is_member self.now family id }
    {
        match self.family_of[id] {
            Some(f) => f == family,
            None => false,
        }
    }

    // How many members a family has.
    fn count(&self, family: u8) -> u16
        ensures { result ≡ length (members self.now family) }
    {
        let mut count = 0;
        for id in 0..IDS {
            if self.has(family, id) {
                count += 1;
            }
        }
        count
    }

    // The member at a place.
    fn member(&self, family: u8, place: u16) -> Option<DomId>
        ensures { slice_get (members self.now family) place ≡ result }
    {
        let mut before = place;
        for id in 0..IDS {
            if self.has(family, id) {
                if before == 0 {
                    return DomId::new(id as u32);
                }
                before -= 1;
            }
        }
        None
    }

    /// Counts a packet to a family that was dropped.
    pub(crate) fn count_drop(&mut self, family: u8)
        ensures { self.new ≡ with_drop self.old family }
    {
        self.drops[family as usize] = self.drops[family as usize].saturating_add(1);
    }
}
