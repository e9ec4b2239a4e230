// The commands of programs and their keywords.
ghost use Rattle.std.specs.Prelude.{◌≡◌};
ghost use Rattle.neph_command.specs.Verbs.{keyword, verbs, verb_of, is_unbuilt};

/// A command of a program.
#[derive(Clone, Copy, Debug, PartialEq, Eq)]
pub enum Verb {
    W,
    R,
    Map,
    Unmap,
    Jump,
    JChild,
    JFail,
    Exit,
    Free,
    Clone,
    Ungrant,
    Gmap,
    Gunmap,
    Hr,
    Hw,
}

// All of them.
fn verbs() -> &'static [Verb]
    ensures { result.now ≡ verbs }
{
    &[
        Verb::W,
        Verb::R,
        Verb::Map,
        Verb::Unmap,
        Verb::Jump,
        Verb::JChild,
        Verb::JFail,
        Verb::Exit,
        Verb::Free,
        Verb::Clone,
        Verb::Ungrant,
        Verb::Gmap,
        Verb::Gunmap,
        Verb::Hr,
        Verb::Hw,
    ]
}

impl Verb {
    /// Its first word.
    pub fn keyword(self) -> &'static [u8]
        ensures { result.now ≡ keyword self }
    {
        match self {
            Verb::W => b"w",
            Verb::R => b"r",
            Verb::Map => b"map",
            Verb::Unmap => b"unmap",
            Verb::Jump => b"jump",
            Verb::JChild => b"jchild",
            Verb::JFail => b"jfail",
            Verb::Exit => b"exit",
            Verb::Free => b"free",
            Verb::Clone => b"clone",
            Verb::Ungrant => b"ungrant",
            Verb::Gmap => b"gmap",
            Verb::Gunmap => b"gunmap",
            Verb::Hr => b"hr",
            Verb::Hw => b"hw",
        }
    }

    /// Whether it isn't built yet with so many words behind it.
    pub fn is_unbuilt(self, words: usize) -> bool
        ensures { result ≡ is_unbuilt self words }
    {
        self == Verb::Clone && words == 1
    }
}

/// The verb whose keyword a word is.
pub fn begun_by(word: &[u8]) -> Option<Verb>
    ensures { result ≡ verb_of word.now }
{
    for verb in verbs() {
        if word == verb.keyword() {
            return Some(*verb);
        }
    }
    None
}
