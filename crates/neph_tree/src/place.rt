// Where in the store a domain's own nodes stand.
ghost use Rattle.std.specs.Prelude.{◌≡◌, ◌≤◌, ◌++◌, length};
ghost use Rattle.neph_tree.specs.Places.{decimal, home};

use neph_base::DomId;
use std::marker::Model;

/// The most bytes of a place's path in front of the id.
pub const PLACE_FRONT_BYTES: usize = 32;

const PLACE_BYTES: usize = PLACE_FRONT_BYTES + 2;

/// The path of a node that is named by a domain's id, kept in place.
#[derive(Drop)]
pub struct Place {
    bytes: [u8; PLACE_BYTES],
    len: usize,
}

impl Model for Place {
    ghost use Rattle.std.specs.Prelude.{ℕ, List, take, ◌≤◌};

    ghost Value = { List ℕ };

    ghost view = { λ a. take a.len a.bytes };

    ghost invariant = { λ a. a.len ≤ 34 };
}

impl Place {
    /// The front and, behind it, the id in decimal.
    pub fn new(front: &[u8], d: DomId) -> Place
        requires { length front.now ≤ PLACE_FRONT_BYTES }
        ensures { result ≡ front.now ++ decimal d }
    {
        let n = front.len();
        let id = d.get() as u8;
        let mut bytes = [0; PLACE_BYTES];
        bytes[..n].copy_from_slice(front);
        if id < 10 {
            bytes[n] = b'0' + id;
            return Place { bytes, len: n + 1 };
        }
        bytes[n] = b'0' + id / 10;
        bytes[n + 1] = b'0' + id % 10;
        Place { bytes, len: n + 2 }
    }

    /// `/local/domain/D`, which the domain may write.
    pub fn home(d: DomId) -> Place
        ensures { result ≡ home d }
    {
        Place::new(b"/local/domain/", d)
    }

    /// The bytes of the path.
    pub fn bytes(&self) -> &[u8]
        ensures { result.now ≡ self.now }
    {
        &self.bytes[..self.len]
    }
}
