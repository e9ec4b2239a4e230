// The types of messages and their numbers.
ghost use Rattle.std.specs.Prelude.{◌≡◌};
ghost use Rattle.neph_p9msg.specs.Reading.{kind_at};

/// The type of a message.
#[derive(Clone, Copy, Debug, PartialEq, Eq)]
pub enum MsgType {
    Tversion,
    Rversion,
    Tattach,
    Rattach,
    Rerror,
    Twalk,
    Rwalk,
    Topen,
    Ropen,
    Tread,
    Rread,
    Twrite,
    Rwrite,
    Tclunk,
    Rclunk,
}

/// The numbers of the types, as 9P2000 has them.
pub const TVERSION: u8 = 100;

pub const RVERSION: u8 = 101;

pub const TATTACH: u8 = 104;

pub const RATTACH: u8 = 105;

pub const RERROR: u8 = 107;

pub const TWALK: u8 = 110;

pub const RWALK: u8 = 111;

pub const TOPEN: u8 = 112;

pub const ROPEN: u8 = 113;

pub const TREAD: u8 = 116;

pub const RREAD: u8 = 117;

pub const TWRITE: u8 = 118;

pub const RWRITE: u8 = 119;

pub const TCLUNK: u8 = 120;

pub const RCLUNK: u8 = 121;

impl MsgType {
    /// The type with a number, `None` where there is none.
    #[tactic(auto, unfolding(crate::specs::Reading::kind_at))]
    pub fn of(code: u8) -> Option<MsgType>
        ensures { result ≡ kind_at code }
    {
        match code {
            TVERSION => Some(MsgType::Tversion),
            RVERSION => Some(MsgType::Rversion),
            TATTACH => Some(MsgType::Tattach),
            RATTACH => Some(MsgType::Rattach),
            RERROR => Some(MsgType::Rerror),
            TWALK => Some(MsgType::Twalk),
            RWALK => Some(MsgType::Rwalk),
            TOPEN => Some(MsgType::Topen),
            ROPEN => Some(MsgType::Ropen),
            TREAD => Some(MsgType::Tread),
            RREAD => Some(MsgType::Rread),
            TWRITE => Some(MsgType::Twrite),
            RWRITE => Some(MsgType::Rwrite),
            TCLUNK => Some(MsgType::Tclunk),
            RCLUNK => Some(MsgType::Rclunk),
            _ => None,
        }
    }
}
