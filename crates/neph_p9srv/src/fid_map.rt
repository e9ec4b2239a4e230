// The fids that a domain holds.
ghost use Rattle.std.specs.Prelude.{◌≡◌, OnOk, OnErr, IfOk};
ghost use Rattle.std.specs.FinMap as fin;
ghost use Rattle.neph_p9srv.specs.Rules.{mode_of, reads, writes};

use neph_base::NoMemory;
use std::alloc::Global;
use std::collections::BTreeMap;
use std::marker::Model;

/// The most fids that a domain may hold.
pub const MAX_FIDS: usize = 64;

/// The mode of a Topen for reading (`OREAD` of 9P2000).
pub const OREAD: u8 = 0;

/// The mode of a Topen for writing (`OWRITE` of 9P2000).
pub const OWRITE: u8 = 1;

/// The mode of a Topen for both (`ORDWR` of 9P2000).
pub const ORDWR: u8 = 2;

/// How a fid is open.
#[derive(Clone, Copy, Debug, PartialEq, Eq)]
pub enum OpenMode {
    /// For reading.
    Read,
    /// For writing.
    Write,
    /// For both.
    ReadWrite,
}

impl OpenMode {
    /// The mode with a number, `None` where it is none of the three.
    pub fn of(mode: u8) -> Option<OpenMode>
        ensures { result ≡ mode_of mode }
    {
        match mode {
            OREAD => Some(OpenMode::Read),
            OWRITE => Some(OpenMode::Write),
            ORDWR => Some(OpenMode::ReadWrite),
            _ => None,
        }
    }
}

/// What a fid stands for.
#[derive(Clone, Copy, Debug, PartialEq, Eq)]
pub struct Fid {
    /// The number of its node, 0 for the root.
    pub node: u32,
    /// How it is open, `None` where it isn't.
    pub mode: Option<OpenMode>,
}

impl Fid {
    /// Whether it is open for reading.
    pub fn reads(&self) -> bool
        ensures { result ≡ reads self.now.mode }
    {
        match self.mode {
            None | Some(OpenMode::Write) => false,
            Some(OpenMode::Read | OpenMode::ReadWrite) => true,
        }
    }

    /// Whether it is open for writing.
    pub fn writes(&self) -> bool
        ensures { result ≡ writes self.now.mode }
    {
        match self.mode {
            None | Some(OpenMode::Read) => false,
            Some(OpenMode::Write | OpenMode::ReadWrite) => true,
        }
    }
}

/// The fids of one domain, by their numbers.
#[derive(Drop)]
pub struct FidMap {
    entries: BTreeMap<u32, Fid>,
}

impl Model for FidMap {
    ghost use Rattle.std.specs.Ordering.{nat_cmp};
    ghost use Rattle.std.specs.FinMap as fin;
    ghost use Rattle.neph_p9srv.specs.declared.fid_map.Fid.{Fid};
    ghost use Rattle.std.specs.Coded.{codes, coded_ℕ};

    ghost Value = { fin.FinMap nat_cmp Fid };

    ghost coded = { fin.code coded_ℕ (Prim.hlevel codes) };

    ghost view = { λ a. fin.from_entries a.entries.entries };
}

impl FidMap {
    /// No fid.
    pub fn new(alloc: Global) -> Self
        ensures { result ≡ fin.empty }
    {
        FidMap {
            entries: BTreeMap::new(alloc),
        }
    }

    /// What a fid stands for, `None` where it isn't held.
    pub fn get(&self, fid: u32) -> Option<Fid>
        ensures { result ≡ fin.get self.now fid }
    {
        self.entries.get(&fid).copied()
    }

    /// How many are held.
    pub fn len(&self) -> usize
        ensures { result ≡ fin.len self.now }
    {
        self.entries.len()
    }

    /// Holds a fid for this, in place of what it stood for.
    pub fn insert(&mut self, fid: u32, to: Fid) -> Result<(), NoMemory>
        ensures ok { OnOk result (self.new ≡ fin.insert self.old fid to) }
        ensures err { OnErr result (self.new ≡ self.old) }
    {
        self.entries.insert(fid, to)?;
        Ok(())
    }

    /// Gives a fid up.
    pub fn remove(&mut self, fid: u32)
        ensures { self.new ≡ fin.remove self.old fid }
    {
        self.entries.remove(&fid);
    }

    /// The same fids again.
    pub fn try_clone(&self) -> Result<Self, NoMemory>
        ensures { IfOk result (λ c. c ≡ self.now) }
    {
        Ok(FidMap {
            entries: self.entries.clone()?,
        })
    }
}
