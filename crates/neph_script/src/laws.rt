//! Laws of the grammar.
ghost use Rattle.std.specs.Prelude.{◌≡◌, ◌↔◌, ℕ, List, Ok};
ghost use Rattle.neph_model.specs.declared.script.Script.{Script};
ghost use Rattle.neph_script.specs.State.{Read};
ghost use Rattle.neph_script.specs.Lines.{judged};
ghost use Rattle.neph_script.specs.Spelling.{Stands};
ghost use Rattle.neph_script.specs.Spells.{Spells};
ghost use Rattle.neph_script.specs.declared.state.Item.{Item};

/// A text spells one script at most.
pub fn one_script()
    ensures { (bytes : List ℕ) (s t : Script) → Spells bytes s → Spells bytes t → s ≡ t }
{}

/// What a line is judged to say is what its words spell there.
pub fn lines_say()
    ensures { (r : Read) (words : List (List ℕ)) (i : Item)
        → (judged r words ≡ Ok i) ↔ Stands r words i }
{}
