//! Runs scripts of guest programs on a machine of domains over counted frames.
#![tactic(auto)]

use neph_io::{StdSink, StdSource};
use neph_top::{Tally, exit_code};
use std::env;
use std::process::ExitCode;

fn main(rt: HostRuntime) -> ExitCode {
    let mut source = StdSource::new(rt.stdin());
    let mut sink = StdSink::new(rt.stdout());
    let args = env::args(&rt);
    let mut tally = Tally::new();
    exit_code(rt.alloc(), &rt, args, &mut source, &mut sink, &mut tally)
}
