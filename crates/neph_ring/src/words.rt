// A page that reads and writes words.
ghost use Rattle.std.specs.Prelude.{◌≡◌, ◌<◌, ℕ, List, length, slice_index, slice_set};

/// A page of 512 words of 8 bytes, wherever it lies.
///
/// Contracts see the list of its words, and the relation 'all else is as before' between two of its
/// states.
pub trait Words {
    /// The words of the page.
    ghost words: { Self → List ℕ };

    /// All else than the words is as before.
    ghost keeps_rest: { Self → Self → Type 0 };

    /// The word at a place.
    fn get(&mut self, w: u16) -> u64
        requires { w < 512 }
        ensures word { result ≡ slice_index (words self.old) w }
        ensures words { words self.new ≡ words self.old }
        ensures rest { keeps_rest self.old self.new };

    /// Changes the word at a place.
    fn set(&mut self, w: u16, v: u64)
        requires { w < 512 }
        ensures words { words self.new ≡ slice_set (words self.old) w v }
        ensures rest { keeps_rest self.old self.new };

    // A page has 512 words.
    ghost full: { (p : Self) → length (words p) ≡ 512 };

    // All else is as before where nothing was done, and after two steps that each left it so.
    ghost rest_same: { (p : Self) → keeps_rest p p };

    ghost rest_trans: { (p q r : Self) → keeps_rest p q → keeps_rest q r → keeps_rest p r };
}
