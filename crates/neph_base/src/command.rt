// What a guest may do.
use crate::list::TryClone;
use crate::memory::NoMemory;
use crate::numbers::{DomId, GrantRef, Handle, PageOffset, Pfn, VAddr, Vpn};
use crate::piece::Piece;

/// How a page is mapped.
#[derive(Clone, Copy, Debug, PartialEq, Eq)]
pub enum Mode {
    /// Read-only.
    Ro,
    /// Read and written.
    Rw,
}

/// Whom a grant or an event port is for.
#[derive(Clone, Copy, Debug, PartialEq, Eq)]
pub enum Who {
    /// This domain.
    Dom(DomId),
    /// Each child of the domain that makes it.
    Child,
}

/// A command of a guest's program.
#[derive(Clone, Copy, Debug, PartialEq, Eq)]
pub enum Command {
    /// Writes the bytes at the address.
    W {
        addr: VAddr,
        bytes: Piece,
    },
    /// Reads this many bytes, 1 to 64, at the address.
    R {
        addr: VAddr,
        len: u8,
    },
    /// Lets a virtual page show a page of the guest, in place of what it showed.
    Map {
        vpn: Vpn,
        pfn: Pfn,
        mode: Mode,
    },
    /// Lets a virtual page show nothing.
    Unmap {
        vpn: Vpn,
    },
    /// Goes on at a label: its place among the labels of the program, from 0.
    Jump {
        label: u16,
    },
    /// Goes on at a label where the domain came as a child.
    JChild {
        label: u16,
    },
    /// Goes on at a label where the last command that was no jump was refused.
    JFail {
        label: u16,
    },
    /// Ends the domain.
    Exit,
    /// Asks how many frames are free.
    Free,
    /// Clones the domain.
    Clone,
    /// Takes an entry of the domain's grant table away.
    Ungrant {
        reference: GrantRef,
    },
    /// Maps an entry of the granter's grant table, at the least free handle.
    Gmap {
        granter: DomId,
        reference: GrantRef,
    },
    /// Gives a handle up.
    Gunmap {
        handle: Handle,
    },
    /// Reads this many bytes, 1 to 64, of the page that a handle maps.
    Hr {
        handle: Handle,
        offset: PageOffset,
        len: u8,
    },
    /// Writes the bytes to the page that a handle maps.
    Hw {
        handle: Handle,
        offset: PageOffset,
        bytes: Piece,
    },
}

impl TryClone for Command {
    fn try_clone(&self) -> Result<Self, NoMemory> {
        Ok(*self)
    }
}
