// How a frame is held, in two bytes.

/// How a frame is held: kept by a row with no reference, a row's own, or by counts that lie
/// elsewhere.
#[derive(Clone, Copy)]
pub enum Kind {
    Kept(u8),
    Own(u8),
    Shared,
}
