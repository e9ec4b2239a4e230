// How many ports there are.
use neph_base::IDS;

/// Port numbers of a guest: 1 to 63, one less than this. Port 0 is never handed out.
pub const PORTS: u8 = 64;

/// Port numbers that each domain has places for. Dom0's go up to 255.
pub const NUMBERS: usize = 256;

/// The places of all domains.
pub const PLACES: usize = IDS * NUMBERS;
