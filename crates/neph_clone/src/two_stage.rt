// What the clone daemon asks of a machine.
ghost use Rattle.std.specs.Prelude.{◌≡◌, Some, OnOk, OnErr, ℕ, List};
ghost use Rattle.neph_clone.specs.Waiting.{oldest, TakesOldest};

use neph_base::{DomId, NoMemory};

/// A machine whose clones are made in two stages. At its commit a child is made by the first, and
/// from then on it waits for the second, which joins it to the store and the devices.
pub trait TwoStage {
    /// The children that wait for their second stage, oldest first.
    ghost children: { Self → List ℕ };

    /// From the first state to the second this child is joined.
    ghost joins: { Self → Self → ℕ → Type 0 };

    /// The child that has waited longest, `None` exactly where none waits.
    fn waiting(&self) -> Option<DomId>
        ensures { result ≡ oldest (children self.now) };

    /// Joins the child that has waited longest, which waits no more. After `NoMemory` the machine
    /// is as it was before.
    fn finish(&mut self, child: DomId) -> Result<(), NoMemory>
        requires { oldest (children self.old) ≡ Some child }
        ensures taken { OnOk result (TakesOldest (children self.old) (children self.new) child) }
        ensures joined { OnOk result (joins self.old self.new child) }
        ensures err { OnErr result (self.new ≡ self.old) };
}
