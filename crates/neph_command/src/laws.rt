//! Laws of the commands' lines.
ghost use Rattle.std.specs.Prelude.{◌≡◌, ℕ, List, ◌∷◌, map, Some, Ok, Err, nat_lt, length, true};
ghost use Rattle.std.specs.List.{list_all};
ghost use Rattle.neph_base.specs.declared.command.Command.{Command};
ghost use Rattle.neph_model.specs.declared.script.Label.{Label};
ghost use Rattle.neph_model.specs.Words.{command_words};
ghost use Rattle.neph_command.specs.Verbs.{keyword, verb_of};
ghost use Rattle.neph_command.specs.Kinds.{operand_word};
ghost use Rattle.neph_command.specs.Commands.{command_said, said_words, verb_said, parts_of, parts_in, words_of, InRange, CommandFault};
ghost use Rattle.neph_command.specs.declared.command.Said.{Said};
ghost use Rattle.neph_command.specs.declared.verb.Verb.{Verb};
ghost use Rattle.neph_command.specs.declared.why.Why.{Why};

/// The words of a command of a program are those of its row in the table.
pub fn one_table()
    ensures { (labels : List Label) (c : Command)
        → words_of (parts_in labels c) ≡ command_words labels c }
{}

/// The words of a command in range are read as that command.
pub fn printed_is_read()
    ensures first { (v : Verb) → verb_of (keyword v) ≡ Some v }
    ensures rest { (s : Said) → InRange s
        → command_said (verb_said s) (map operand_word (parts_of s).operands) ≡ Ok s }
{}

/// A line that is read is spelled by the words of its command, which is in range.
pub fn read_is_printed()
    ensures first { (word : List ℕ) (v : Verb) → verb_of word ≡ Some v → word ≡ keyword v }
    ensures words { (v : Verb) (words : List (List ℕ)) (s : Said)
        → command_said v words ≡ Ok s → keyword v ∷ words ≡ said_words s }
    ensures range { (v : Verb) (words : List (List ℕ)) (s : Said)
        → command_said v words ≡ Ok s → InRange s }
{}

/// A line is refused for its number of words, else for its first word that says nothing, else for
/// two operands that are wrong together.
pub fn faults_from_the_left()
    ensures { (v : Verb) (words : List (List ℕ)) (w : Why)
        → command_said v words ≡ Err w → CommandFault v words w }
{}
