// What the definitions of tables and handles come to.
ghost use Rattle.std.specs.Prelude.{◌≡◌, ◌↔◌, ℕ, None, Some, IsTrue};
ghost use Rattle.neph_grant.specs.Handles.{free_handle, IsFull, IsLeastFree, Mappings};
ghost use Rattle.neph_grant.specs.Table.{Grants, HasEntryOf, names_page};

/// A page is named exactly where some reference has an entry of it.
pub fn named_by_an_entry()
    ensures { (t : Grants) (p : ℕ) → IsTrue (names_page t p) ↔ HasEntryOf t p }
{}

/// The handle that is given out next isn't held, and all below it are.
pub fn free_handle_is_least()
    ensures { (m : Mappings) (h : ℕ) → free_handle m ≡ Some h → IsLeastFree m h }
{}

/// None is given out only where all are held.
pub fn no_handle_where_all_are_held()
    ensures { (m : Mappings) → free_handle m ≡ None → IsFull m }
{}
