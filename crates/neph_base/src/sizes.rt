// Sizes of the machine.

/// How many ids there are: 0 to 63. Id 0 is Dom0, which is never live here.
pub const IDS: usize = 64;

/// The bytes of a page (Xen's `PAGE_SIZE`).
pub const PAGE_BYTES: usize = 4096;

/// The entries of a page table on x86-64.
pub const TABLE_ENTRIES: usize = 512;

/// The most pages that a guest may have.
pub const MAX_PAGES: usize = 1024;

/// The most frames that a machine may have.
pub const MAX_FRAMES: usize = 16384;
