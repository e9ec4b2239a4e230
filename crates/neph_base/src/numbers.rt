// Numbers of the machine, each within its range.
ghost use Rattle.std.specs.Prelude.{◌≡◌, ◌<◌, ◌^◌, ◌≤◌, ℕ};
ghost use Rattle.std.specs.Option.{SomeIff};

use std::marker::Model;

/// A domain's id, 0 to 63 (Xen's `domid_t`, cut to this machine). Domain 0 is Dom0, which is never
/// live here.
#[derive(Clone, Copy, Debug, PartialEq, Eq, PartialOrd, Ord)]
pub struct DomId {
    number: u32,
}

impl Model for DomId {
    ghost Value = { ℕ };

    ghost view = { λ a. a.number };

    ghost invariant = { λ a. a.number < 64 };

    ghost inverse = { λ n. record { number = n } };
}

impl DomId {
    /// The number, `None` exactly out of range.
    pub fn new(n: u32) -> Option<Self>
        ensures { SomeIff result (n < 64) n }
    {
        if n < 64 {
            Some(DomId { number: n })
        } else {
            None
        }
    }

    /// The number itself.
    pub fn get(self) -> u32
        ensures value { result ≡ self }
        ensures range { result < 64 }
    {
        self.number
    }
}

/// A guest's own number of one of its pages, 0 to 1023 (Xen's pseudo-physical frame number).
#[derive(Clone, Copy, Debug, PartialEq, Eq, PartialOrd, Ord)]
pub struct Pfn {
    number: u32,
}

impl Model for Pfn {
    ghost Value = { ℕ };

    ghost view = { λ a. a.number };

    ghost invariant = { λ a. a.number < 1024 };

    ghost inverse = { λ n. record { number = n } };
}

impl Pfn {
    /// The number, `None` exactly out of range.
    pub fn new(n: u32) -> Option<Self>
        ensures { SomeIff result (n < 1024) n }
    {
        if n < 1024 {
            Some(Pfn { number: n })
        } else {
            None
        }
    }

    /// The number itself.
    pub fn get(self) -> u32
        ensures value { result ≡ self }
        ensures range { result < 1024 }
    {
        self.number
    }
}

/// The number of a virtual page, 0 to 262143: a virtual address divided by 4096.
#[derive(Clone, Copy, Debug, PartialEq, Eq, PartialOrd, Ord)]
pub struct Vpn {
    number: u32,
}

impl Model for Vpn {
    ghost Value = { ℕ };

    ghost view = { λ a. a.number };

    ghost invariant = { λ a. a.number < 262144 };

    ghost inverse = { λ n. record { number = n } };
}

impl Vpn {
    /// The number, `None` exactly out of range.
    pub fn new(n: u32) -> Option<Self>
        ensures { SomeIff result (n < 262144) n }
    {
        if n < 262144 {
            Some(Vpn { number: n })
        } else {
            None
        }
    }

    /// The number itself.
    pub fn get(self) -> u32
        ensures value { result ≡ self }
        ensures range { result < 262144 }
    {
        self.number
    }
}

/// A virtual address in bytes, below 2^30.
#[derive(Clone, Copy, Debug, PartialEq, Eq, PartialOrd, Ord)]
pub struct VAddr {
    number: u32,
}

impl Model for VAddr {
    ghost Value = { ℕ };

    ghost view = { λ a. a.number };

    ghost invariant = { λ a. a.number < 2 ^ 30 };

    ghost inverse = { λ n. record { number = n } };
}

impl VAddr {
    /// The number, `None` exactly out of range.
    pub fn new(n: u32) -> Option<Self>
        ensures { SomeIff result (n < 2 ^ 30) n }
    {
        if n < 1 << 30 {
            Some(VAddr { number: n })
        } else {
            None
        }
    }

    /// The number itself.
    pub fn get(self) -> u32
        ensures value { result ≡ self }
        ensures range { result < 2 ^ 30 }
    {
        self.number
    }
}

impl VAddr {
    ghost use Rattle.std.specs.Prelude.{◌/◌, ◌%◌};

    /// The virtual page that it lies in.
    pub fn vpn(self) -> Vpn
        ensures { result ≡ self / 4096 }
    {
        Vpn {
            number: self.number / 4096,
        }
    }

    /// Its offset in that page, in bytes.
    pub fn offset(self) -> usize
        ensures value { result ≡ self % 4096 }
        ensures range { result < 4096 }
    {
        (self.number % 4096) as usize
    }
}

/// An offset in a page, 0 to 4095.
#[derive(Clone, Copy, Debug, PartialEq, Eq, PartialOrd, Ord)]
pub struct PageOffset {
    number: u32,
}

impl Model for PageOffset {
    ghost Value = { ℕ };

    ghost view = { λ a. a.number };

    ghost invariant = { λ a. a.number < 4096 };

    ghost inverse = { λ n. record { number = n } };
}

impl PageOffset {
    /// The number, `None` exactly out of range.
    pub fn new(n: u32) -> Option<Self>
        ensures { SomeIff result (n < 4096) n }
    {
        if n < 4096 {
            Some(PageOffset { number: n })
        } else {
            None
        }
    }

    /// The number itself.
    pub fn get(self) -> u32
        ensures value { result ≡ self }
        ensures range { result < 4096 }
    {
        self.number
    }
}

/// The number of a frame of the machine, 0 to 16383 (Xen's machine frame number). A frame has 4096
/// bytes.
#[derive(Clone, Copy, Debug, PartialEq, Eq, PartialOrd, Ord)]
pub struct FrameNo {
    number: u32,
}

impl Model for FrameNo {
    ghost Value = { ℕ };

    ghost view = { λ a. a.number };

    ghost invariant = { λ a. a.number < 16384 };

    ghost inverse = { λ n. record { number = n } };
}

impl FrameNo {
    /// The number, `None` exactly out of range.
    pub fn new(n: u32) -> Option<Self>
        ensures { SomeIff result (n < 16384) n }
    {
        if n < 16384 {
            Some(FrameNo { number: n })
        } else {
            None
        }
    }

    /// The number itself.
    pub fn get(self) -> u32
        ensures value { result ≡ self }
        ensures range { result < 16384 }
    {
        self.number
    }
}

/// A grant reference, 0 to 63: the place of an entry in its domain's grant table (Xen's
/// `grant_ref_t`).
#[derive(Clone, Copy, Debug, PartialEq, Eq, PartialOrd, Ord)]
pub struct GrantRef {
    number: u32,
}

impl Model for GrantRef {
    ghost Value = { ℕ };

    ghost view = { λ a. a.number };

    ghost invariant = { λ a. a.number < 64 };

    ghost inverse = { λ n. record { number = n } };
}

impl GrantRef {
    /// The number, `None` exactly out of range.
    pub fn new(n: u32) -> Option<Self>
        ensures { SomeIff result (n < 64) n }
    {
        if n < 64 {
            Some(GrantRef { number: n })
        } else {
            None
        }
    }

    /// The number itself.
    pub fn get(self) -> u32
        ensures value { result ≡ self }
        ensures range { result < 64 }
    {
        self.number
    }
}

/// A handle of a mapped grant, 0 to 63 (Xen's `grant_handle_t`).
#[derive(Clone, Copy, Debug, PartialEq, Eq, PartialOrd, Ord)]
pub struct Handle {
    number: u32,
}

impl Model for Handle {
    ghost Value = { ℕ };

    ghost view = { λ a. a.number };

    ghost invariant = { λ a. a.number < 64 };

    ghost inverse = { λ n. record { number = n } };
}

impl Handle {
    /// The number, `None` exactly out of range.
    pub fn new(n: u32) -> Option<Self>
        ensures { SomeIff result (n < 64) n }
    {
        if n < 64 {
            Some(Handle { number: n })
        } else {
            None
        }
    }

    /// The number itself.
    pub fn get(self) -> u32
        ensures value { result ≡ self }
        ensures range { result < 64 }
    {
        self.number
    }
}

/// An event port, 1 to 63 (Xen's `evtchn_port_t`). Port 0 is never handed out.
#[derive(Clone, Copy, Debug, PartialEq, Eq, PartialOrd, Ord)]
pub struct Port {
    number: u32,
}

impl Model for Port {
    ghost Value = { ℕ };

    ghost view = { λ a. a.number };

    ghost invariant = { λ a. (0 < a.number) × (a.number < 64) };

    ghost inverse = { λ n. record { number = n } };
}

impl Port {
    /// The number, `None` exactly out of range.
    pub fn new(n: u32) -> Option<Self>
        ensures { SomeIff result ((0 < n) × (n < 64)) n }
    {
        if 0 < n && n < 64 {
            Some(Port { number: n })
        } else {
            None
        }
    }

    /// The number itself.
    pub fn get(self) -> u32
        ensures value { result ≡ self }
        ensures low { 0 < result }
        ensures range { result < 64 }
    {
        self.number
    }
}
