// A call's status, by its words, its source and its sink.
use super::cases::{Case, ENOUGH, ONE_FRAME_SHORT};
use super::{sink, source};
use crate::{Tally, run_call, top};
use neph_io::MemSink;
use std::alloc::{AllocError, Global};
use std::process::Abort;
use std::sync::Wait;
use std::test::Fail;
use std::thread::Threads;

const USAGE: &[u8] = b"usage: nephele run or race N or gen SEED DOMAINS LINES\n";

// Runs a script from a source that fails at its first call, and into a sink that fails at this call.
fn expect_faults(rt: &impl Abort, alloc: Global, case: &Case, call: u32) -> Result<(), AllocError> {
    let mut from = source(alloc, case.script.as_bytes(), 50, &[0])?;
    let mut to = sink(alloc, 10, &[])?;
    assert_eq!(rt; run_call(alloc, &mut from, &mut to, &mut Tally::new()), 6);
    assert!(rt; to.taken().is_empty());
    let mut from = source(alloc, case.script.as_bytes(), 50, &[])?;
    let mut to = sink(alloc, 10, &[call])?;
    assert_eq!(rt; run_call(alloc, &mut from, &mut to, &mut Tally::new()), 7);
    assert!(rt; case.text.as_bytes().starts_with(to.taken()));
    assert_eq!(rt; to.taken().len(), 10 * call as usize);
    Ok(())
}

#[test]
fn faults_of_source_and_sink(rt: HostRuntime) -> Result<(), Fail> {
    for call in 0..14 {
        expect_faults(&rt, rt.alloc(), &ONE_FRAME_SHORT, call)?;
    }
    Ok(())
}

// The status and the text of a call with these words on a script.
fn call<R: Threads + Wait + Sync>(
    alloc: Global,
    rt: &R,
    line: &[&str],
) -> Result<(u8, MemSink), AllocError> {
    let mut words = Vec::new(alloc);
    for word in line {
        words.push(String::from_str(alloc, word)?)?;
    }
    let mut from = source(alloc, ENOUGH.script.as_bytes(), 50, &[])?;
    let mut to = sink(alloc, 50, &[])?;
    let status = top(alloc, rt, &words, &mut from, &mut to, &mut Tally::new());
    Ok((status, to))
}

#[test]
fn words(rt: HostRuntime) -> Result<(), Fail> {
    let alloc = rt.alloc();
    let lines: [&[&str]; 6] = [
        &[],
        &["race"],
        &["race", "0"],
        &["run", "x"],
        &["Run"],
        &["--help"],
    ];
    for line in lines {
        let (status, to) = call(alloc, &rt, line)?;
        assert_eq!(rt; status, 2);
        assert_eq!(rt; to.taken(), USAGE);
    }
    let (status, to) = call(alloc, &rt, &["run"])?;
    assert_eq!(rt; status, 0);
    assert_eq!(rt; to.taken(), ENOUGH.text.as_bytes());
    Ok(())
}

// The status and the text of a call on so many bytes.
fn long(alloc: Global, count: usize) -> Result<(u8, MemSink), AllocError> {
    let bytes = vec![in alloc; b'#'; count]?;
    let mut from = source(alloc, &bytes, 65536, &[])?;
    let mut to = sink(alloc, 4096, &[])?;
    let status = run_call(alloc, &mut from, &mut to, &mut Tally::new());
    Ok((status, to))
}

#[test]
fn more_bytes_than_a_script_may_have(rt: HostRuntime) -> Result<(), Fail> {
    let (status, to) = long(rt.alloc(), 1_048_577)?;
    assert_eq!(rt; status, 4);
    assert_eq!(rt; to.taken(), b"too long\n".as_slice());
    let (status, to) = long(rt.alloc(), 1_048_576)?;
    assert_eq!(rt; status, 4);
    assert_eq!(rt; to.taken(), b"script 1 bytes\n".as_slice());
    Ok(())
}
