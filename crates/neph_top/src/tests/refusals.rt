// What is refused of a script, and how it is told.
use super::expect;
use itoa::Buffer;
use std::alloc::{AllocError, Global};
use std::test::Fail;

// What stands before a line: at each place of a script.
const TOP: &str = "";

const HEADED: &str = "nephele 1\n";

const FRAMED: &str = "nephele 1\nframes 16\n";

const INSIDE: &str = "nephele 1\nframes 16\nprogram p\n";

const BETWEEN: &str = "nephele 1\nframes 16\nprogram p\nend\n";

const STARTED: &str = "nephele 1\nframes 16\nprogram p\nend\ndomain p 8 0 open\n";

const TURNED: &str = "nephele 1\nframes 16\nprogram p\nend\ndomain p 8 0 open\nturns 1\n";

// A place, a line that can't stand there, and what is written: each kind at each place, but for
// `many`.
static REFUSED: [(&str, &str, &str); 90] = [
    // A byte that isn't printed, also on a skipped line.
    (TOP, "nephele\t1", "script 1 bytes\n"),
    (HEADED, "\tframes 16", "script 2 bytes\n"),
    (FRAMED, "# a tab\t", "script 3 bytes\n"),
    (INSIDE, "\tfly", "script 4 bytes\n"),
    (BETWEEN, "domain p 8 0 open\r", "script 5 bytes\n"),
    (STARTED, "turns\t1", "script 6 bytes\n"),
    (TURNED, "\u{7f}", "script 7 bytes\n"),
    // A first word that isn't built yet.
    (TOP, "dir /d", "script 1 unbuilt\n"),
    (HEADED, "file /f -", "script 2 unbuilt\n"),
    (FRAMED, "file /d/f 00", "script 3 unbuilt\n"),
    (INSIDE, "puts 59", "script 4 unbuilt\n"),
    (BETWEEN, "grant 3 0 4 rw", "script 5 unbuilt\n"),
    (STARTED, "kill 1", "script 6 unbuilt\n"),
    (TURNED, "p9get", "script 7 unbuilt\n"),
    // A first word that can't stand there.
    (TOP, "frames 16", "script 1 word\n"),
    (TOP, " nephele 1", "script 1 word\n"),
    (HEADED, "nephele 1", "script 2 word\n"),
    (FRAMED, "domain p 8 0 open", "script 3 word\n"),
    (INSIDE, "fly", "script 4 word\n"),
    (INSIDE, "program q", "script 4 word\n"),
    (BETWEEN, "turns 1", "script 5 word\n"),
    (BETWEEN, "end", "script 5 word\n"),
    (STARTED, "program q", "script 6 word\n"),
    (TURNED, "domain p 8 0 open", "script 7 word\n"),
    // Another number of words, or a space too many.
    (TOP, "nephele", "script 1 form\n"),
    (HEADED, "frames 16 16", "script 2 form\n"),
    (FRAMED, "program", "script 3 form\n"),
    (INSIDE, "r 0", "script 4 form\n"),
    (INSIDE, "exit ", "script 4 form\n"),
    (INSIDE, "label a b", "script 4 form\n"),
    (INSIDE, "end p", "script 4 form\n"),
    (BETWEEN, "program  q", "script 5 form\n"),
    (BETWEEN, "domain p 8 0", "script 5 form\n"),
    (STARTED, "domain p 8 0 open x", "script 6 form\n"),
    (STARTED, "turns", "script 6 form\n"),
    (TURNED, "turns 1  2", "script 7 form\n"),
    // A form that isn't built yet by another word.
    (INSIDE, "clone 2", "script 4 unbuilt\n"),
    (BETWEEN, "domain p 8 0 exclusive", "script 5 unbuilt\n"),
    (STARTED, "domain p 8 0 exclusive", "script 6 unbuilt\n"),
    // A number out of its range, or not plain.
    (TOP, "nephele 2", "script 1 number\n"),
    (HEADED, "frames 15", "script 2 number\n"),
    (INSIDE, "w 1073741824 00", "script 4 number\n"),
    (INSIDE, "r 016384 1", "script 4 number\n"),
    (INSIDE, "r 16384 65", "script 4 number\n"),
    (INSIDE, "r 4095 2", "script 4 number\n"),
    (INSIDE, "map 262144 4 ro", "script 4 number\n"),
    (INSIDE, "map 0 1024 ro", "script 4 number\n"),
    (INSIDE, "unmap x", "script 4 number\n"),
    (INSIDE, "ungrant 64", "script 4 number\n"),
    (INSIDE, "gmap 64 0", "script 4 number\n"),
    (INSIDE, "gmap 1 64", "script 4 number\n"),
    (INSIDE, "gunmap 64", "script 4 number\n"),
    (INSIDE, "hr 0 4096 1", "script 4 number\n"),
    (INSIDE, "hr 0 4095 2", "script 4 number\n"),
    (INSIDE, "hw 64 0 00", "script 4 number\n"),
    (BETWEEN, "domain p 7 0 open", "script 5 number\n"),
    (BETWEEN, "domain p 8 63 open", "script 5 number\n"),
    (STARTED, "domain p 1025 0 open", "script 6 number\n"),
    (STARTED, "turns 64", "script 6 number\n"),
    (TURNED, "turns 0", "script 7 number\n"),
    // Bytes that aren't such, or cross the page's end.
    (INSIDE, "w 16384 FF", "script 4 hex\n"),
    (INSIDE, "w 16384 6", "script 4 hex\n"),
    (INSIDE, "w 4095 0000", "script 4 hex\n"),
    (INSIDE, "hw 0 4095 0000", "script 4 hex\n"),
    // A word that is none of those in its place.
    (INSIDE, "map 10 4 rx", "script 4 word\n"),
    (BETWEEN, "domain p 8 0 shut", "script 5 word\n"),
    (STARTED, "domain p 8 0 shut", "script 6 word\n"),
    (STARTED, "turns fly", "script 6 word\n"),
    (TURNED, "turns 1 fly", "script 7 word\n"),
    // A name that is ill formed, or stands twice.
    (FRAMED, "program web-srv", "script 3 name\n"),
    (INSIDE, "label A", "script 4 name\n"),
    (INSIDE, "jump A", "script 4 name\n"),
    (INSIDE, "jchild 1a", "script 4 name\n"),
    (INSIDE, "jfail abcdefghijklmnopq", "script 4 name\n"),
    (BETWEEN, "program p", "script 5 name\n"),
    (BETWEEN, "domain P 8 0 open", "script 5 name\n"),
    (STARTED, "domain P 8 0 open", "script 6 name\n"),
    (INSIDE, "label a\nlabel a", "script 5 name\n"),
    // A program that isn't there.
    (BETWEEN, "domain q 8 0 open", "script 5 program\n"),
    (STARTED, "domain q 8 0 open", "script 6 program\n"),
    // At `end`, a jump to no label after it.
    (INSIDE, "label a\njump a\nend", "script 6 label\n"),
    (INSIDE, "jchild a\nend", "script 5 label\n"),
    (INSIDE, "jfail a\nend", "script 5 label\n"),
    // Starting domains that need more frames than there are.
    (BETWEEN, "domain p 16 0 open", "script 5 frames\n"),
    (STARTED, "domain p 8 0 open", "script 6 frames\n"),
    // The end of the text where a line must come.
    (TOP, "", "script 1 missing\n"),
    (HEADED, "", "script 2 missing\n"),
    (FRAMED, "", "script 3 missing\n"),
    (INSIDE, "", "script 4 missing\n"),
    (BETWEEN, "", "script 5 missing\n"),
];

// A text with something many times in it, and what is written where it is once too often.
struct Many {
    before: &'static str,
    again: &'static str,
    times: u32,
    told: &'static str,
}

static MANY: [Many; 5] = [
    // Programs.
    Many {
        before: "nephele 1
frames 16
program a
end
program b
end
program c
end
program d
end
program e
end
program f
end
program g
end
program h
end
program i
end
program j
end
program k
end
program l
end
program m
end
program n
end
program o
end
program p
end
",
        again: "program z\n",
        times: 1,
        told: "script 35 many\n",
    },
    // Commands of a program.
    Many {
        before: INSIDE,
        again: "exit\n",
        times: 513,
        told: "script 516 many\n",
    },
    // Starting domains.
    Many {
        before: "nephele 1\nframes 16384\nprogram p\nend\n",
        again: "domain p 8 0 open\n",
        times: 17,
        told: "script 21 many\n",
    },
    // Lines of turns.
    Many {
        before: STARTED,
        again: "turns 1\n",
        times: 65,
        told: "script 70 many\n",
    },
    // Actors of a line.
    Many {
        before: "nephele 1\nframes 16\nprogram p\nend\ndomain p 8 0 open\nturns",
        again: " p9",
        times: 65,
        told: "script 6 many\n",
    },
];

// A text with something in it so many times, and then a line.
fn text_of(
    alloc: Global,
    before: &str,
    again: &str,
    times: u32,
    line: &str,
) -> Result<Vec<u8>, AllocError> {
    let mut text = Vec::from_slice(alloc, before.as_bytes())?;
    for _ in 0..times {
        text.extend_from_slice(again.as_bytes())?;
    }
    text.extend_from_slice(line.as_bytes())?;
    Ok(text)
}

// A program with so many labels.
fn labelled(alloc: Global, count: u32) -> Result<Vec<u8>, AllocError> {
    let mut text = Vec::from_slice(alloc, INSIDE.as_bytes())?;
    for n in 0..count {
        text.extend_from_slice(b"label l")?;
        text.extend_from_slice(Buffer::new().format(n).as_bytes())?;
        text.extend_from_slice(b"\n")?;
    }
    Ok(text)
}

#[test]
fn refusals(rt: HostRuntime) -> Result<(), Fail> {
    for (before, line, told) in &REFUSED {
        let text = text_of(rt.alloc(), before, "", 0, line)?;
        expect(&rt, rt.alloc(), &text, 4096, 4, told)?;
    }
    Ok(())
}

#[test]
fn one_too_many(rt: HostRuntime) -> Result<(), Fail> {
    for many in &MANY {
        let text = text_of(rt.alloc(), many.before, many.again, many.times, "")?;
        expect(&rt, rt.alloc(), &text, 4096, 4, many.told)?;
    }
    let text = labelled(rt.alloc(), 513)?;
    expect(&rt, rt.alloc(), &text, 4096, 4, "script 516 many\n")?;
    Ok(())
}
