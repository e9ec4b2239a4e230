// A message that is being written.
ghost use Rattle.std.specs.Prelude.{◌≡◌, ◌+◌, ◌≤◌, ◌++◌, [], length, drop};
ghost use Rattle.neph_p9msg.specs.Grammar.{number};

use crate::msg::MSIZE;
use byteorder::{ByteOrder, LittleEndian};
use std::marker::Model;

/// The first bytes of a message, at most [`MSIZE`]. Contracts see them as a list.
#[derive(Drop)]
pub struct Draft {
    room: [u8; MSIZE],
    len: usize,
}

impl Model for Draft {
    ghost use Rattle.std.specs.Prelude.{ℕ, ◌≤◌, List, take};
    ghost use Rattle.neph_p9msg.specs.declared.msg.TheConstants.{MSIZE};

    ghost Value = { List ℕ };

    ghost view = { λ d. take d.len d.room };

    ghost invariant = { λ d. d.len ≤ MSIZE };
}

impl Draft {
    /// No bytes yet.
    pub fn new() -> Self
        ensures { result ≡ [] }
    {
        Draft {
            room: [0; MSIZE],
            len: 0,
        }
    }

    /// The bytes.
    pub fn bytes(&self) -> &[u8]
        ensures { result.now ≡ self.now }
    {
        &self.room[..self.len]
    }

    /// Puts bytes at the end.
    pub fn put(&mut self, piece: &[u8])
        requires { length self.old + length piece.now ≤ MSIZE }
        ensures { self.new ≡ self.old ++ piece.now }
    {
        let end = self.len + piece.len();
        self.room[self.len..end].copy_from_slice(piece);
        self.len = end;
    }

    /// Puts a number of two bytes at the end.
    pub fn put_u16(&mut self, n: u16)
        requires { length self.old + 2 ≤ MSIZE }
        ensures { self.new ≡ self.old ++ number 2 n }
    {
        let mut field = [0u8; 2];
        LittleEndian::write_u16(&mut field, n);
        self.put(&field);
    }

    /// Puts a number of four bytes at the end.
    pub fn put_u32(&mut self, n: u32)
        requires { length self.old + 4 ≤ MSIZE }
        ensures { self.new ≡ self.old ++ number 4 n }
    {
        let mut field = [0u8; 4];
        LittleEndian::write_u32(&mut field, n);
        self.put(&field);
    }

    /// Puts a number of eight bytes at the end.
    pub fn put_u64(&mut self, n: u64)
        requires { length self.old + 8 ≤ MSIZE }
        ensures { self.new ≡ self.old ++ number 8 n }
    {
        let mut field = [0u8; 8];
        LittleEndian::write_u64(&mut field, n);
        self.put(&field);
    }

    /// Puts the number of bytes in place of the first four.
    pub fn seal(&mut self)
        requires { 4 ≤ length self.old }
        ensures { self.new ≡ number 4 (length self.old) ++ drop 4 self.old }
    {
        LittleEndian::write_u32(&mut self.room, self.len as u32);
    }
}
