// The public calls.
ghost use Rattle.std.specs.Prelude.{◌≡◌, [], ◌≢◌, codes, ◌∷◌, map, IsTrue, ◌↔◌};
ghost use Rattle.std.specs.String.{string_bytes};
ghost use Rattle.neph_top.specs.Call.{number, AnswersRun, AnswersUsage, saw};

use crate::call::call;
use crate::status::Status;
use neph_core::Tally;
use neph_io::{Sink, Source, WriteFault, write_all};
use std::alloc::Global;
use std::sync::Wait;
use std::thread::Threads;

/// Reads a script from the source, runs it by turns, writes its transcript to the sink, and answers
/// the status: 0 for a transcript, 4 for what is no script, 5 for want of memory, 6 and 7 for a
/// fault of the source and of the sink. With 0 the tally is raised by the run's page steps.
pub fn run_call<S: Source, K: Sink>(
    alloc: Global,
    source: &mut S,
    sink: &mut K,
    tally: &mut Tally,
) -> u8
    // With 0 the transcript written is the one that the plain machine's run of the script read
    // gives.
    ensures { AnswersRun (saw S.left S.faults source.old source.new K.taken K.faults sink.old
        sink.new tally.old tally.new) result }
{
    let status = call(alloc, source, sink, tally);
    number(status)
}

/// Does what the words behind the program's name ask for. The one word `run` runs the script that
/// the source gives. With other words the usage line is written, with status 2.
pub fn top<R: Threads + Wait + Sync, S: Source, K: Sink>(
    alloc: Global,
    _rt: &R,
    words: &[String],
    source: &mut S,
    sink: &mut K,
    tally: &mut Tally,
) -> u8
    ensures run { map string_bytes words.now ≡ codes "run" ∷ [] → AnswersRun
        (saw S.left S.faults source.old source.new K.taken K.faults sink.old sink.new
        tally.old tally.new) result }
    ensures other_words { map string_bytes words.now ≢ codes "run" ∷ [] → AnswersUsage
        (saw S.left S.faults source.old source.new K.taken K.faults sink.old sink.new
        tally.old tally.new) result }
{
    if wants_run(words) {
        return run_call(alloc, source, sink, tally);
    }
    match write_all(sink, USAGE) {
        Ok(()) => 2,
        Err(WriteFault) => 7,
    }
}

const USAGE: &[u8] = b"usage: nephele run or race N or gen SEED DOMAINS LINES\n";

fn wants_run(words: &[String]) -> bool
    ensures { IsTrue result ↔ (map string_bytes words.now ≡ codes "run" ∷ []) }
{
    match words {
        [word] => is_run(word),
        _ => false,
    }
}

fn is_run(word: &String) -> bool
    ensures { IsTrue result ↔ (string_bytes word.now ≡ codes "run") }
{
    word.as_str() == "run"
}

fn number(status: Status) -> u8
    ensures { result ≡ number status }
{
    match status {
        Status::Ended => 0,
        Status::Refused | Status::TooLong => 4,
        Status::NoMemory => 5,
        Status::ReadFault => 6,
        Status::WriteFault => 7,
    }
}
