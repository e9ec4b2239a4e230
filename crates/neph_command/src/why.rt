// Why a line can't stand.
ghost use Rattle.std.specs.Prelude.{◌≡◌};
ghost use Rattle.neph_command.specs.Why.{kind_word};

/// What is wrong with a line, in the order in which it is tried.
#[derive(Clone, Copy, Debug, PartialEq, Eq)]
pub enum Why {
    /// It has a byte that isn't printed, or too many bytes.
    Bytes,
    /// Its first word can't stand here, or a word is none of those that may stand in its place.
    Word,
    /// It would be one too many of its kind.
    Many,
    /// It has another number of words than its form, or a space too many.
    Form,
    /// A word is no number of the range.
    Number,
    /// A word isn't bytes in hexadecimal, or they don't fit.
    Hex,
    /// A name is ill formed, or stands twice.
    Name,
    /// The program isn't there.
    Program,
    /// A jump before it names no label after that jump.
    Label,
    /// The starting domains need more frames than there are.
    Frames,
    /// A line must come, and the text ends.
    Missing,
    /// Its form isn't built yet.
    Unbuilt,
}

impl Why {
    /// The word for it.
    pub fn word(self) -> &'static [u8]
        ensures { result.now ≡ kind_word self }
    {
        match self {
            Why::Bytes => b"bytes",
            Why::Word => b"word",
            Why::Many => b"many",
            Why::Form => b"form",
            Why::Number => b"number",
            Why::Hex => b"hex",
            Why::Name => b"name",
            Why::Program => b"program",
            Why::Label => b"label",
            Why::Frames => b"frames",
            Why::Missing => b"missing",
            Why::Unbuilt => b"unbuilt",
        }
    }
}
