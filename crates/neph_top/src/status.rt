// How a call of the program ends.

/// How a call that runs a script ended.
#[derive(Clone, Copy, Debug, PartialEq, Eq)]
pub enum Status {
    /// All domains ended, and the transcript was written.
    Ended,
    /// A line of the bytes can't stand, and it was written which.
    Refused,
    /// The source gave more bytes than a script may have.
    TooLong,
    /// Memory ran out.
    NoMemory,
    /// The source failed.
    ReadFault,
    /// The sink failed.
    WriteFault,
}
