// Why a request is refused.
ghost use Rattle.std.specs.Prelude.{◌≡◌, IfOk};
ghost use Rattle.neph_p9msg.specs.declared.msg.MsgBody.TheVariants.{Rerror};
ghost use Rattle.neph_p9srv.specs.Rules.{IsReply};
ghost use Rattle.neph_p9srv.specs.Texts.{text_of};

use neph_base::{Bytes, NoMemory};
use neph_p9msg::MsgBody;
use std::alloc::Global;

/// Why a request is refused. The answer is an Rerror with the text.
#[derive(Clone, Copy, Debug, PartialEq, Eq)]
pub enum P9Error {
    /// The bytes are no message, or the message is an answer.
    BadMessage,
    /// A fid for authentication is given, which is not built.
    NoAuth,
    /// The number that stands for no fid cannot be one.
    BadFid,
    /// The domain holds that fid.
    FidInUse,
    /// The domain holds as many fids as it may.
    TooManyFids,
    /// The domain does not hold that fid.
    UnknownFid,
    /// The fid is open.
    FidOpen,
    /// The first name leads nowhere.
    NoSuchFile,
    /// The mode is neither of reading, writing and both.
    BadMode,
    /// It is a directory.
    IsADirectory,
    /// The fid is not open for reading.
    NotOpenForReading,
    /// The fid is not open for writing.
    NotOpenForWriting,
    /// The file would have too many bytes.
    FileTooLarge,
}

impl P9Error {
    /// The text that is answered.
    pub fn text(self) -> &'static [u8]
        ensures { result.now ≡ text_of self }
    {
        match self {
            P9Error::BadMessage => b"bad message",
            P9Error::NoAuth => b"no auth",
            P9Error::BadFid => b"bad fid",
            P9Error::FidInUse => b"fid in use",
            P9Error::TooManyFids => b"too many fids",
            P9Error::UnknownFid => b"unknown fid",
            P9Error::FidOpen => b"fid open",
            P9Error::NoSuchFile => b"no such file",
            P9Error::BadMode => b"bad mode",
            P9Error::IsADirectory => b"is a directory",
            P9Error::NotOpenForReading => b"not open for reading",
            P9Error::NotOpenForWriting => b"not open for writing",
            P9Error::FileTooLarge => b"file too large",
        }
    }

    /// The answer.
    pub fn answer(self, alloc: Global) -> Result<MsgBody, NoMemory>
        ensures value { IfOk result (λ b. b ≡ Rerror (text_of self)) }
        ensures message { IfOk result IsReply }
    {
        let ename = Bytes::of(Vec::from_slice(alloc, self.text())?);
        Ok(MsgBody::Rerror { ename })
    }
}
