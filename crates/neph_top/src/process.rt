// The words and the status of a process.
ghost use Rattle.std.specs.Prelude.{◌≡◌, ◌≢◌, IfOk, IfErr, drop, map};
ghost use Rattle.std.specs.Vec.Iter.{into_iter_items};
ghost use Rattle.std.specs.IoError.{error_kind};
ghost use Rattle.std.specs.Process.{exit_status};
ghost use Rattle.std.specs.String.{string_bytes};
ghost use Rattle.neph_top.specs.Call.{AnswersUsage, saw};
ghost use Rattle.neph_top.specs.Process.{AnswersWords, LacksWords};

use crate::run::top;
use neph_base::NoMemory;
use neph_core::Tally;
use neph_io::{Sink, Source};
use std::alloc::Global;
use std::env::Args;
use std::io;
use std::io::ErrorKind;
use std::process::ExitCode;
use std::sync::Wait;
use std::thread::Threads;

/// Does what a process was started for: its words are `args`, the program's name first, or why they
/// can't be read. Answers the status that it ends with: that of `top`, and 5 where there is no
/// memory for the words. Words that are no text are none of the program's.
pub fn exit_code<R: Threads + Wait + Sync, S: Source, K: Sink>(
    alloc: Global,
    rt: &R,
    args: io::Result<Args>,
    source: &mut S,
    sink: &mut K,
    tally: &mut Tally,
) -> ExitCode
    ensures words { IfOk args (λ all. AnswersWords (map string_bytes (drop 1 (into_iter_items all)))
        (saw S.left S.faults source.old source.new K.taken K.faults sink.old sink.new
        tally.old tally.new)
        (exit_status result)) }
    ensures lacks { IfErr args (λ e. error_kind e ≡ ErrorKind.OutOfMemory → LacksWords
        (saw S.left S.faults source.old source.new K.taken K.faults sink.old sink.new
        tally.old tally.new)
        (exit_status result)) }
    ensures no_text { IfErr args (λ e. error_kind e ≢ ErrorKind.OutOfMemory → AnswersUsage
        (saw S.left S.faults source.old source.new K.taken K.faults sink.old sink.new
        tally.old tally.new)
        (exit_status result)) }
{
    match args {
        Ok(all) => match words_behind(alloc, all) {
            Ok(words) => ExitCode::from(top(alloc, rt, &words, source, sink, tally)),
            Err(NoMemory) => ExitCode::from(5),
        },
        Err(error) => {
            if error.kind() == ErrorKind::OutOfMemory {
                ExitCode::from(5)
            } else {
                ExitCode::from(top(alloc, rt, &[], source, sink, tally))
            }
        }
    }
}

// The words behind the program's name.
fn words_behind(alloc: Global, args: Args) -> Result<Vec<String>, NoMemory>
    ensures { IfOk result (λ words. words.items ≡ drop 1 (into_iter_items args)) }
{
    let mut words = Vec::with_capacity(alloc, args.len())?;
    let mut rest = args;
    let _name = rest.next();
    for word in rest {
        words.push(word)?;
    }
    Ok(words)
}
