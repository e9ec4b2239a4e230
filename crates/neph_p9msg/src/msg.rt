// What a message says.
ghost use Rattle.std.specs.Prelude.{◌≡◌};
ghost use Rattle.neph_p9msg.specs.Grammar.{type_of};

use crate::kind::{
    RATTACH, RCLUNK, RERROR, ROPEN, RREAD, RVERSION, RWALK, RWRITE, TATTACH, TCLUNK, TOPEN, TREAD,
    TVERSION, TWALK, TWRITE,
};
use neph_base::{Bytes, List, Names, NoMemory, TryClone};

/// The most bytes of a message, its size field included.
pub const MSIZE: usize = 1024;

/// The most names of one Twalk (`MAXWELEM` of 9P2000).
pub const MAXWELEM: usize = 16;

/// The tag of an answer to bytes that are no message, and of a Tversion (`NOTAG` of 9P2000).
pub const NOTAG: u16 = 0xFFFF;

/// The number that stands for no fid (`NOFID` of 9P2000).
pub const NOFID: u32 = 0xFFFF_FFFF;

/// The type byte of a directory's qid (`QTDIR` of 9P2000).
pub const QTDIR: u8 = 128;

/// The type byte of a file's qid (`QTFILE` of 9P2000).
pub const QTFILE: u8 = 0;

/// The server's name for one node. Its version is always 0.
#[derive(Clone, Copy, Debug, PartialEq, Eq)]
pub struct Qid {
    /// Whether it is a directory.
    pub dir: bool,
    /// The number by which the server tells its nodes apart.
    pub path: u64,
}

impl TryClone for Qid {
    fn try_clone(&self) -> Result<Self, NoMemory> {
        Ok(*self)
    }
}

/// Qids, in their order.
pub type Qids = List<Qid>;

/// A message of 9P2000.
#[derive(Debug, Drop)]
pub struct Msg {
    /// The number by which a client tells its requests apart. An answer has that of its request.
    pub tag: u16,
    /// What is asked or answered.
    pub body: MsgBody,
}

/// What a message asks (T) or answers (R), as section 5 of the Plan 9 manual has it.
#[derive(Debug, Drop)]
pub enum MsgBody {
    /// Offers a greatest message size and a version of the protocol, and ends all fids.
    Tversion {
        msize: u32,
        version: Bytes,
    },
    /// The size and the version that hold from now on.
    Rversion {
        msize: u32,
        version: Bytes,
    },
    /// Asks for a fid of the root.
    Tattach {
        fid: u32,
        afid: u32,
        uname: Bytes,
        aname: Bytes,
    },
    /// The root.
    Rattach {
        qid: Qid,
    },
    /// Why the request was refused.
    Rerror {
        ename: Bytes,
    },
    /// Asks for a fid of the node to which the names lead.
    Twalk {
        fid: u32,
        newfid: u32,
        names: Names,
    },
    /// The nodes to which the names led, one by one.
    Rwalk {
        qids: Qids,
    },
    /// Asks to read (0), to write (1) or both (2).
    Topen {
        fid: u32,
        mode: u8,
    },
    /// The node, and the most bytes that one read or write moves as a whole, 0 where that is not
    /// said.
    Ropen {
        qid: Qid,
        iounit: u32,
    },
    /// Asks for so many bytes from an offset on.
    Tread {
        fid: u32,
        offset: u64,
        count: u32,
    },
    /// The bytes.
    Rread {
        bytes: Bytes,
    },
    /// Asks to put bytes at an offset.
    Twrite {
        fid: u32,
        offset: u64,
        bytes: Bytes,
    },
    /// How many bytes were put.
    Rwrite {
        count: u32,
    },
    /// Gives a fid up.
    Tclunk {
        fid: u32,
    },
    /// The fid is given up.
    Rclunk,
}

impl MsgBody {
    /// The number of its type, as it stands in the message.
    pub fn code(&self) -> u8
        ensures { result ≡ type_of self.now }
    {
        match self {
            MsgBody::Tversion { .. } => TVERSION,
            MsgBody::Rversion { .. } => RVERSION,
            MsgBody::Tattach { .. } => TATTACH,
            MsgBody::Rattach { .. } => RATTACH,
            MsgBody::Rerror { .. } => RERROR,
            MsgBody::Twalk { .. } => TWALK,
            MsgBody::Rwalk { .. } => RWALK,
            MsgBody::Topen { .. } => TOPEN,
            MsgBody::Ropen { .. } => ROPEN,
            MsgBody::Tread { .. } => TREAD,
            MsgBody::Rread { .. } => RREAD,
            MsgBody::Twrite { .. } => TWRITE,
            MsgBody::Rwrite { .. } => RWRITE,
            MsgBody::Tclunk { .. } => TCLUNK,
            MsgBody::Rclunk => RCLUNK,
        }
    }
}
