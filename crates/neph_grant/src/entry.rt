// A grant entry, and its bytes as Xen's version 1 `struct grant_entry` has them.
ghost use Rattle.std.specs.Prelude.{◌≡◌};
ghost use Rattle.neph_grant.specs.Entry.{bytes_of, domid_of, flags_of};

use byteorder::{ByteOrder, LittleEndian};
use neph_base::{Mode, Pfn, Who};

/// The entry lets a domain map the page (Xen's `GTF_permit_access`).
pub const GTF_PERMIT_ACCESS: u16 = 1;

/// The page may only be read (Xen's `GTF_readonly`).
pub const GTF_READONLY: u16 = 4;

/// The page is mapped for reading (Xen's `GTF_reading`).
pub const GTF_READING: u16 = 8;

/// The page is mapped for writing (Xen's `GTF_writing`).
pub const GTF_WRITING: u16 = 16;

/// The `domid_t` that stands for each child of the granter. It lies among Xen's reserved ids, which
/// begin at `DOMID_FIRST_RESERVED`, 0x7FF0, and is this project's own.
pub const DOMID_CHILD: u16 = 0x7FF8;

/// A grant entry: whom it lets in, to which page, and how.
#[derive(Clone, Copy, Debug, PartialEq, Eq)]
pub struct GrantEntry {
    /// Whom it lets in.
    pub who: Who,
    /// The granter's page.
    pub pfn: Pfn,
    /// Whether the page may be written.
    pub mode: Mode,
}

/// The `domid_t` of whom an entry lets in.
fn domid(who: Who) -> u16
    ensures { result ≡ domid_of who }
{
    match who {
        Who::Dom(d) => d.get() as u16,
        Who::Child => DOMID_CHILD,
    }
}

/// The flags of an entry that is mapped so.
fn flags(mode: Mode, reading: bool, writing: bool) -> u16
    ensures { result ≡ flags_of mode reading writing }
{
    let readonly = match mode {
        Mode::Ro => GTF_READONLY,
        Mode::Rw => 0,
    };
    let reading = if reading { GTF_READING } else { 0 };
    let writing = if writing { GTF_WRITING } else { 0 };
    GTF_PERMIT_ACCESS + readonly + reading + writing
}

/// The eight bytes of an entry that is mapped so: flags, domid and frame, little-endian. Of a
/// device page's entry the flags are the same at all times.
pub fn bytes(device: bool, entry: &GrantEntry, reading: bool, writing: bool) -> [u8; 8]
    ensures { result ≡ bytes_of device entry.now reading writing }
{
    let flags = if device {
        flags(Mode::Rw, true, true)
    } else {
        flags(entry.mode, reading, writing)
    };
    let mut bytes = [0u8; 8];
    LittleEndian::write_u16(&mut bytes[0..2], flags);
    LittleEndian::write_u16(&mut bytes[2..4], domid(entry.who));
    LittleEndian::write_u32(&mut bytes[4..8], entry.pfn.get());
    bytes
}
