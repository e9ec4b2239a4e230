// What the program writes, byte for byte, and faults of source and sink.
ghost use Rattle.std.specs.Prelude.{◌<◌};

mod calls;
mod cases;
mod examples;
mod plain;
mod refusals;
mod runs;

use crate::{Tally, run_call};
use neph_io::{MemSink, MemSource};
use std::alloc::{AllocError, Global};
use std::process::Abort;

fn source(alloc: Global, text: &[u8], step: u32, failing: &[u32]) -> Result<MemSource, AllocError>
    requires { 0 < step }
{
    let bytes = Vec::from_slice(alloc, text)?;
    Ok(MemSource::new(bytes, step, Vec::from_slice(alloc, failing)?))
}

fn sink(alloc: Global, step: u32, failing: &[u32]) -> Result<MemSink, AllocError>
    requires { 0 < step }
{
    Ok(MemSink::new(alloc, step, Vec::from_slice(alloc, failing)?))
}

// Runs a script, with so many bytes a call.
fn expect(
    rt: &impl Abort,
    alloc: Global,
    script: &[u8],
    step: u32,
    status: u8,
    text: &str,
) -> Result<(), AllocError>
    requires { 0 < step }
{
    let mut from = source(alloc, script, step, &[])?;
    let mut to = sink(alloc, step, &[])?;
    assert_eq!(rt;
        run_call(alloc, &mut from, &mut to, &mut Tally::new()),
        status,
        "for {text}"
    );
    assert_eq!(rt; to.taken(), text.as_bytes());
    Ok(())
}
