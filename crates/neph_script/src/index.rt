// Places by name.
ghost use Rattle.std.specs.Prelude.{◌≡◌, ℕ, List, None, Some, if◌then◌else◌, OnOk};
ghost use Rattle.neph_command.specs.Words.{equals};
ghost use Rattle.neph_script.specs.Index.{place_in, place_after};

use neph_base::NoMemory;
use std::alloc::Global;
use std::collections::BTreeMap;

/// Where each of some names stands among them.
#[derive(Drop)]
pub struct Index {
    places: BTreeMap<Vec<u8>, u16>,
}

impl Index {
    pub fn new(alloc: Global) -> Self
        ensures { (q : List ℕ) → place_in result q ≡ None }
    {
        Index {
            places: BTreeMap::new(alloc),
        }
    }

    /// The place of a name, `None` where it isn't among them.
    pub fn place(&self, name: &[u8]) -> Option<u16>
        ensures { result ≡ place_in self.now name.now }
    {
        self.places.get(name).copied()
    }

    /// Lets a name stand at a place, unless it stands at one already.
    pub fn put(&mut self, name: Vec<u8>, place: u16) -> Result<(), NoMemory>
        ensures { OnOk result ((q : List ℕ)
            → place_in self.new q ≡ place_after (place_in self.old q) (equals q name.items) place) }
    {
        match self.place(name.as_slice()) {
            Some(_) => Ok(()),
            None => {
                self.places.insert(name, place)?;
                Ok(())
            }
        }
    }
}
