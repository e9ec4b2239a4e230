// Bytes through sources and sinks that give and take a few at a time, and faults in mid-stream.
ghost use Rattle.std.specs.Prelude.{◌<◌};

use crate::edge::{StdSink, StdSource};
use crate::memory::{MemSink, MemSource};
use crate::streams::{ReadEnd, WriteFault, read_all, write_all};
use std::alloc::{AllocError, Global};
use std::io;
use std::io::{Read, Write};
use std::test::Fail;

// A reader without end. Its third call fails, and it gives two bytes a call.
#[derive(Drop)]
struct Dripping {
    calls: u32,
}

impl Read for Dripping {
    fn read(&mut self, buf: &mut [u8]) -> io::Result<usize> {
        self.calls = self.calls.saturating_add(1);
        if self.calls == 3 {
            return Err(io::Error::from(io::ErrorKind::BrokenPipe));
        }
        Ok(buf.len().min(2))
    }
}

// A writer that takes two bytes a call, and nothing from the third call on.
#[derive(Drop)]
struct Narrow {
    calls: u32,
}

impl Write for Narrow {
    fn write(&mut self, buf: &[u8]) -> io::Result<usize> {
        self.calls = self.calls.saturating_add(1);
        if self.calls < 3 {
            Ok(buf.len().min(2))
        } else {
            Ok(0)
        }
    }

    fn flush(&mut self) -> io::Result<()> {
        Ok(())
    }
}

// A source of these bytes, a sink, and what went through them.
fn passed(alloc: Global, bytes: &[u8], step: u32) -> Result<MemSink, AllocError>
    requires { 0 < step }
{
    let mut given = Vec::new(alloc);
    given.extend_from_slice(bytes)?;
    let mut source = MemSource::new(given, step, Vec::new(alloc));
    let mut sink = MemSink::new(alloc, step, Vec::new(alloc));
    if let Ok(read) = read_all(alloc, &mut source, 1_048_576) {
        let _all = write_all(&mut sink, &read);
    }
    Ok(sink)
}

#[test]
fn all_bytes_go_through(rt: HostRuntime) -> Result<(), Fail> {
    for step in [1, 2, 5, 4096] {
        assert!(rt; step > 0);
        let sink = passed(rt.alloc(), b"over and over", step)?;
        assert!(rt; sink.taken() == b"over and over".as_slice());
    }
    let mut most = Vec::new(rt.alloc());
    most.resize(1_048_576, b'x')?;
    let sink = passed(rt.alloc(), &most, 65536)?;
    assert_eq!(rt; sink.taken().len(), 1_048_576);
    Ok(())
}

#[test]
fn faults_are_told(rt: HostRuntime) -> Result<(), Fail> {
    let mut source = MemSource::new(vec![in rt.alloc(); 1, 2, 3]?, 1, vec![in rt.alloc(); 2]?);
    assert!(rt; read_all(rt.alloc(), &mut source, 9).err() == Some(ReadEnd::ReadFault));
    let mut long = MemSource::new(vec![in rt.alloc(); 1, 2, 3]?, 9, Vec::new(rt.alloc()));
    assert!(rt; read_all(rt.alloc(), &mut long, 2).err() == Some(ReadEnd::TooLong));
    let mut sink = MemSink::new(rt.alloc(), 2, vec![in rt.alloc(); 1]?);
    assert!(rt; write_all(&mut sink, b"abcde") == Err(WriteFault));
    assert!(rt; sink.taken() == b"ab".as_slice());
    Ok(())
}

#[test]
fn readers_and_writers_of_std(rt: HostRuntime) -> Result<(), Fail> {
    let mut source = StdSource::new(Dripping { calls: 0 });
    assert!(rt; read_all(rt.alloc(), &mut source, 9).err() == Some(ReadEnd::ReadFault));
    assert!(rt; read_all(rt.alloc(), &mut source, 9).err() == Some(ReadEnd::TooLong));
    // A write that takes a part is no fault, and one that takes nothing is.
    let mut sink = StdSink::new(Narrow { calls: 0 });
    assert!(rt; write_all(&mut sink, b"four") == Ok(()));
    assert!(rt; write_all(&mut sink, b"more") == Err(WriteFault));
    Ok(())
}
