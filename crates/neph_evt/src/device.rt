// The ports through which a domain and its devices hear each other.
ghost use Rattle.std.specs.Prelude.{◌≡◌, ◌≤◌};
ghost use Rattle.neph_evt.specs.Sending.{zero_port};

use neph_base::DomId;

/// A starting domain's port for its console.
pub const CONSOLE: u8 = 1;

/// A starting domain's port for its network page.
pub const NETWORK: u8 = 2;

/// A starting domain's port for its 9P page.
pub const P9: u8 = 3;

// Dom0 has this many port numbers for each domain, of which the first is never open.
const ZERO_PORTS: u8 = 4;

/// Dom0 itself.
pub fn dom_zero() -> DomId
    ensures { result ≡ 0 }
{
    DomId::new(0).unwrap()
}

/// Dom0's port for a device of a domain.
pub fn zero_port(dom: DomId, kind: u8) -> u8
    requires { kind ≤ P9 }
    ensures { result ≡ zero_port dom kind }
{
    ZERO_PORTS * dom.get() as u8 + kind
}
