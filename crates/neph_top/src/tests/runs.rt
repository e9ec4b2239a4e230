// What a run writes, byte for byte, and its page steps.
use super::cases::{CASES, LIMIT_FIRST};
use super::examples::{CLONE, ONE_GUEST};
use super::{expect, sink, source};
use crate::{Tally, run_call};
use std::alloc::{AllocError, Global};
use std::process::Abort;
use std::test::Fail;

#[test]
fn scripts_and_what_they_write(rt: HostRuntime) -> Result<(), Fail> {
    for case in &CASES {
        expect(&rt, rt.alloc(), case.script.as_bytes(), 4096, 0, case.text)?;
        expect(&rt, rt.alloc(), case.script.as_bytes(), 1, 0, case.text)?;
    }
    Ok(())
}

// Runs a script, whose run makes so many page steps.
fn expect_steps(
    rt: &impl Abort,
    alloc: Global,
    script: &str,
    steps: u64,
) -> Result<(), AllocError> {
    let mut tally = Tally::new();
    let mut from = source(alloc, script.as_bytes(), 4096, &[])?;
    let mut to = sink(alloc, 4096, &[])?;
    assert_eq!(rt; run_call(alloc, &mut from, &mut to, &mut tally), 0);
    assert_eq!(rt; tally.shares(), steps);
    Ok(())
}

// A clone of a domain of eight pages shares four; a refused one shares none.
#[test]
fn page_steps_are_tallied(rt: HostRuntime) -> Result<(), Fail> {
    let alloc = rt.alloc();
    expect_steps(&rt, alloc, ONE_GUEST, 0)?;
    expect_steps(&rt, alloc, CLONE, 4)?;
    expect_steps(&rt, alloc, LIMIT_FIRST.script, 0)?;
    Ok(())
}
