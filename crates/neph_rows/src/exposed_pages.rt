// The bytes of exposed pages, however they are kept.
ghost use Rattle.std.specs.Prelude.{◌≡◌, ◌+◌, ◌≤◌, ℕ, length, List, take, drop, slice_set, true, OnOk, OnErr};
ghost use Rattle.std.specs.FinMap as fm;
ghost use Rattle.neph_model.specs.Births.{child_exposed};
ghost use Rattle.neph_model.specs.Machine.{Exposed, exposed_at};
ghost use Rattle.neph_model.specs.Trap.{is_exposed, exposed_bytes, with_exposed_bytes};

use neph_base::{DomId, NoMemory, Pfn};

/// The exposed pages of all domains: those that a domain shares with the hypervisor and its peers.
pub trait ExposedPages {
    /// What the calls need of it, and keep.
    ghost fits: { Self → Type 0 };

    /// The bytes of the exposed pages, by domain and page.
    ghost pages: { Self → List Exposed };

    /// What `bear` needs for a child of a parent beside.
    ghost may_bear: { Self → ℕ → ℕ → Type 0 };

    /// What holds of the states before and after `read`, `write` and a `bear` that found no memory:
    /// all but the bytes of exposed pages is as it was.
    ghost stays: { Self → Self → Type 0 };

    /// What holds of the states before and after a `bear` of this child.
    ghost born: { Self → Self → ℕ → Type 0 };

    /// What holds of the states before and after the `end` of this domain.
    ghost left: { Self → Self → ℕ → Type 0 };

    /// Whether a page of a domain is exposed.
    fn has(&self, id: DomId, pfn: Pfn) -> bool
        ensures { result ≡ is_exposed (pages self.now) id pfn };

    /// How many pages of a domain are exposed.
    fn count(&self, id: DomId) -> u32
        requires { fits self.now }
        ensures value { result ≡ fm.len (exposed_at id (pages self.now)) }
        ensures few { result ≤ 1024 };

    /// Reads bytes of an exposed page, from this offset on.
    fn read(&mut self, id: DomId, pfn: Pfn, at: usize, into: &mut [u8])
        requires fits { fits self.old }
        requires there { is_exposed (pages self.old) id pfn ≡ true }
        requires inside { at + length into.old ≤ 4096 }
        ensures bytes { into.new ≡ take (length into.old)
            (drop at (exposed_bytes (pages self.old) id pfn)) }
        ensures same { pages self.new ≡ pages self.old }
        ensures fits { fits self.new }
        ensures stays { stays self.old self.new };

    /// Writes bytes to an exposed page, from this offset on.
    fn write(&mut self, id: DomId, pfn: Pfn, at: usize, bytes: &[u8])
        requires fits { fits self.old }
        requires there { is_exposed (pages self.old) id pfn ≡ true }
        requires inside { at + length bytes.now ≤ 4096 }
        ensures pages { pages self.new ≡ with_exposed_bytes (pages self.old) id pfn at bytes.now }
        ensures fits { fits self.new }
        ensures stays { stays self.old self.new };

    /// Makes the exposed pages of a child from its parent's. Want of memory leaves all as before.
    fn bear(&mut self, child: DomId, parent: DomId) -> Result<(), NoMemory>
        requires fits { fits self.old }
        requires may { may_bear self.old child parent }
        ensures ok { OnOk result (pages self.new ≡ slice_set (pages self.old) child
            (child_exposed (exposed_at parent (pages self.old)))) }
        ensures err { OnErr result (pages self.new ≡ pages self.old) }
        ensures fits { fits self.new }
        ensures born { OnOk result (born self.old self.new child) }
        ensures stays { OnErr result (stays self.old self.new) };

    /// Leaves a domain no exposed page.
    fn end(&mut self, id: DomId)
        requires { fits self.old }
        ensures pages { pages self.new ≡ slice_set (pages self.old) id fm.empty }
        ensures fits { fits self.new }
        ensures left { left self.old self.new id };

    // Where nothing was done, all is as it was.
    ghost stays_itself: { (a : Self) → fits a → stays a a };
}
