// The plain machine beside the machine over frames.
use super::cases::CASES;
use super::examples::EXAMPLES;
use super::{sink, source};
use crate::{Tally, run_call};
use neph_base::{DomId, Entry};
use neph_flat::{Plain, Told};
use neph_print::entry_line;
use neph_script::parse;
use std::alloc::Global;
use std::process::Abort;
use std::test::Fail;

// What stands in front of the reply of a transcript's line, and the reply; `None` of the first line
// and those of the dump.
fn parts(line: &str) -> Option<(&str, &str)> {
    line.rsplit_once(" = ")
}

// The entry of such a line.
fn entry_of(head: &str) -> Option<Entry> {
    if head == "daemon" {
        return Some(Entry::Daemon);
    }
    let (dom, place) = head.split_once(':')?;
    let (line, command) = place.split_once(' ')?;
    let dom = DomId::new(dom.parse::<u32>().ok()?)?;
    let line = line.parse::<u16>().ok()?;
    if command == "commit" {
        Some(Entry::Commit { dom, line })
    } else {
        Some(Entry::Line { dom, line })
    }
}

// What the plain machine was told of the free frames, by what it answered.
fn told(reply: &str) -> Told {
    if reply == "no noframe" {
        return Told::Short;
    }
    let free = match reply.strip_prefix("no frames ") {
        Some(counts) => counts.split_once(' ').map_or("", |(_need, free)| free),
        None => reply,
    };
    match free.parse::<u32>() {
        Ok(free) => Told::Free(free),
        Err(_) => Told::Enough,
    }
}

// The plain machine answers each entry of a script's run as the machine over frames did, and no
// domain is live then.
fn expect_plain(rt: &impl Abort, alloc: Global, script: &str) -> Result<(), Fail> {
    let mut from = source(alloc, script.as_bytes(), 4096, &[])?;
    let mut to = sink(alloc, 4096, &[])?;
    assert_eq!(rt; run_call(alloc, &mut from, &mut to, &mut Tally::new()), 0);
    assert!(rt; script.len() <= 1_048_576);
    let script = parse(alloc, script.as_bytes())?;
    let mut plain = Plain::start(alloc, &script)?;
    for line in str::from_utf8(to.taken())?.lines() {
        let Some((head, reply)) = parts(line) else {
            continue;
        };
        let entry = entry_of(head).ok_or("an entry")?;
        let answer = plain.step(&entry, told(reply))?;
        let again = entry_line(alloc, &script, 1, &entry, &answer)?;
        let (_head, said) = parts(str::from_utf8(&again)?.trim_end()).ok_or("a reply")?;
        assert_eq!(rt; said, reply);
    }
    assert!(rt; plain.is_over());
    Ok(())
}

#[test]
fn the_plain_machine_answers_each_run_alike(rt: HostRuntime) -> Result<(), Fail> {
    for case in &CASES {
        expect_plain(&rt, rt.alloc(), case.script)?;
    }
    for script in EXAMPLES {
        expect_plain(&rt, rt.alloc(), script)?;
    }
    Ok(())
}
