// Finite maps from numbers.
ghost use Rattle.std.specs.Prelude.{◌≡◌, OnOk, OnErr, None};
ghost use Rattle.std.specs.Option.{option_copied};
ghost use Rattle.std.specs.FinMap as map;

use crate::list::TryClone;
use crate::memory::NoMemory;
use std::alloc::Global;
use std::collections::BTreeMap;
use std::marker::Model;

/// A finite map from numbers.
#[derive(Drop)]
pub struct NumberMap<V: Drop> {
    alloc: Global,
    entries: BTreeMap<u32, V>,
}

impl<V: Drop> Model for NumberMap<V> {
    ghost use Rattle.std.specs.Ordering.{nat_cmp};
    ghost use Rattle.std.specs.FinMap as map;
    ghost use Rattle.std.specs.Coded.{coded_ℕ};

    ghost Value = { map.FinMap nat_cmp V };

    ghost coded = { map.code coded_ℕ V.code };

    ghost view = { λ a. map.from_entries a.entries.entries };
}

impl<V: Drop> NumberMap<V> {
    /// The empty map.
    pub fn new(alloc: Global) -> Self
        ensures { result ≡ map.empty }
    {
        NumberMap {
            alloc,
            entries: BTreeMap::new(alloc),
        }
    }

    /// What stands at a number, `None` exactly where nothing does.
    pub fn get(&self, at: u32) -> Option<&V>
        ensures { option_copied result ≡ map.get self.now at }
    {
        self.entries.get(&at)
    }

    /// At how many numbers something stands.
    pub fn len(&self) -> usize
        ensures { result ≡ map.len self.now }
    {
        self.entries.len()
    }

    /// Puts this at a number, in place of what stood there. Only a number where nothing stood takes
    /// memory.
    pub fn insert(&mut self, at: u32, to: V) -> Result<(), NoMemory>
        ensures ok { OnOk result (self.new ≡ map.insert self.old at to) }
        ensures err { OnErr result (self.new ≡ self.old) }
        ensures absent { OnErr result (map.get self.old at ≡ None) }
    {
        self.entries.insert(at, to)?;
        Ok(())
    }

    /// Takes away what stands at a number, and hands it back.
    pub fn remove(&mut self, at: u32) -> Option<V>
        ensures value { result ≡ map.get self.old at }
        ensures removed { self.new ≡ map.remove self.old at }
    {
        self.entries.remove(&at)
    }
}

impl<V: TryClone> TryClone for NumberMap<V> {
    fn try_clone(&self) -> Result<Self, NoMemory> {
        let mut copy = Self::new(self.alloc);
        let mut rest = self.entries.iter();
        while let Some((at, value)) = rest.next_back() {
            copy.insert(*at, value.try_clone()?)?;
        }
        Ok(copy)
    }
}
