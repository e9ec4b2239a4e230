// What a word in the place of each kind says.
ghost use Rattle.std.specs.Prelude.{◌≡◌};
ghost use Rattle.neph_command.specs.Words.{name, number};

use crate::why::Why;
use crate::word::{is_name, number};
use neph_base::{DomId, GrantRef, Handle, Mode, PageOffset, Pfn, Piece, VAddr, Vpn};

/// What a word says.
#[derive(Clone, Copy, Debug, PartialEq, Eq)]
pub enum Operand {
    Addr(VAddr),
    Len(u8),
    Bytes(Piece),
    Vpn(Vpn),
    Pfn(Pfn),
    Mode(Mode),
    Label(Piece),
    Dom(DomId),
    Ref(GrantRef),
    Handle(Handle),
    Offset(PageOffset),
}

/// A word in the place of an address.
pub fn addr(word: &[u8]) -> Result<VAddr, Why>
    ensures { result ≡ number 0 1073741823 word.now }
{
    let n = number(word, 0, 1_073_741_823)?;
    VAddr::new(n).ok_or(Why::Number)
}

/// A word in the place of a number of bytes.
pub fn len(word: &[u8]) -> Result<u8, Why>
    ensures { result ≡ number 1 64 word.now }
{
    let n = number(word, 1, 64)?;
    Ok(n as u8)
}

/// A word in the place of the number of a virtual page.
pub fn vpn(word: &[u8]) -> Result<Vpn, Why>
    ensures { result ≡ number 0 262143 word.now }
{
    let n = number(word, 0, 262_143)?;
    Vpn::new(n).ok_or(Why::Number)
}

/// A word in the place of the number of one of the guest's pages.
pub fn pfn(word: &[u8]) -> Result<Pfn, Why>
    ensures { result ≡ number 0 1023 word.now }
{
    let n = number(word, 0, 1023)?;
    Pfn::new(n).ok_or(Why::Number)
}

/// A word in the place of a domain's id, that of domain 0 too.
pub fn dom(word: &[u8]) -> Result<DomId, Why>
    ensures { result ≡ number 0 63 word.now }
{
    let n = number(word, 0, 63)?;
    DomId::new(n).ok_or(Why::Number)
}

/// A word in the place of a grant reference.
pub fn reference(word: &[u8]) -> Result<GrantRef, Why>
    ensures { result ≡ number 0 63 word.now }
{
    let n = number(word, 0, 63)?;
    GrantRef::new(n).ok_or(Why::Number)
}

/// A word in the place of a handle.
pub fn handle(word: &[u8]) -> Result<Handle, Why>
    ensures { result ≡ number 0 63 word.now }
{
    let n = number(word, 0, 63)?;
    Handle::new(n).ok_or(Why::Number)
}

/// A word in the place of an offset in a page.
pub fn offset(word: &[u8]) -> Result<PageOffset, Why>
    ensures { result ≡ number 0 4095 word.now }
{
    let n = number(word, 0, 4095)?;
    PageOffset::new(n).ok_or(Why::Number)
}

/// A word in the place of a label's name.
pub fn label(word: &[u8]) -> Result<Piece, Why>
    ensures { result ≡ name word.now }
{
    if !is_name(word) {
        return Err(Why::Name);
    }
    Piece::new(word).ok_or(Why::Name)
}
