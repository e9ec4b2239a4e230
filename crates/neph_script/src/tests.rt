// Faults of scripts, each at its line, and scripts that are printed and read again.
use crate::{BadScript, ParseEnd, Script, Why, parse, print_script};
use itoa::Buffer;
use std::alloc::{AllocError, Global};
use std::test::Fail;

// Texts that are no scripts: the first line that can't stand, and why.
static FAULTS: [(&str, u32, Why); 62] = [
    ("nephele 2\nframes 16\n", 1, Why::Number),
    ("nephele 1\nframes 15\n", 2, Why::Number),
    ("nephele 1\nframes 16\nprogram p\nfly\n", 4, Why::Word),
    ("nephele 1\nframes 16\nprogram p\nr 0\n", 4, Why::Form),
    (
        "nephele 1\nframes 16\nprogram p\nw 4095 0000\n",
        4,
        Why::Hex,
    ),
    (
        "nephele 1\nframes 16\nprogram p\nlabel a\njump a\nend\n",
        6,
        Why::Label,
    ),
    (
        "nephele 1\nframes 16\nprogram p\nend\ndomain q 8 0 open\n",
        5,
        Why::Program,
    ),
    (
        "nephele 1\nframes 16\nprogram p\nend\ndomain p 16 0 open\n",
        5,
        Why::Frames,
    ),
    (
        "nephele 1\nframes 16\nprogram p\nend\nprogram p\n",
        5,
        Why::Name,
    ),
    ("nephele 1\nframes 16\nprogram p\nend\n", 5, Why::Missing),
    (
        "nephele 1\nframes 16\nprogram a\nend\nprogram b\nend\nprogram c\nend\nprogram d\nend\nprogram e\nend\nprogram f\nend\nprogram g\nend\nprogram h\nend\nprogram i\nend\nprogram j\nend\nprogram k\nend\nprogram l\nend\nprogram m\nend\nprogram n\nend\nprogram o\nend\nprogram q\nend\nprogram z\n",
        35,
        Why::Many,
    ),
    ("nephele 1\n\tframes 16\n", 2, Why::Bytes),
    ("", 1, Why::Missing),
    ("\n", 2, Why::Missing),
    ("# nothing\n\n#", 4, Why::Missing),
    ("# tab\t\nnephele 1\n", 1, Why::Bytes),
    ("nephele x\n", 1, Why::Number),
    ("nephele 01\n", 1, Why::Number),
    ("nephele  1\n", 1, Why::Form),
    ("nephele 1 \n", 1, Why::Form),
    (" nephele 1\n", 1, Why::Word),
    ("frames 16\n", 1, Why::Word),
    ("dir /a\n", 1, Why::Unbuilt),
    ("nephele 1\n# c\nframes 16385\n", 3, Why::Number),
    ("nephele 1\nframes 16\ndomain p 8 0 open\n", 3, Why::Word),
    ("nephele 1\nframes 16\nfile /a 00\n", 3, Why::Unbuilt),
    ("nephele 1\nframes 16\nprogram 9p\n", 3, Why::Name),
    (
        "nephele 1\nframes 16\nprogram abcdefghijklmnopq\n",
        3,
        Why::Name,
    ),
    ("nephele 1\nframes 16\nprogram p\nprogram q\n", 4, Why::Word),
    (
        "nephele 1\nframes 16\nprogram p\nlabel a\nlabel a\n",
        5,
        Why::Name,
    ),
    ("nephele 1\nframes 16\nprogram p\njump A\n", 4, Why::Name),
    (
        "nephele 1\nframes 16\nprogram p\njchild a\nend\n",
        5,
        Why::Label,
    ),
    ("nephele 1\nframes 16\nprogram p\nexit \n", 4, Why::Form),
    (
        "nephele 1\nframes 16\nprogram p\nclone 1\n",
        4,
        Why::Unbuilt,
    ),
    (
        "nephele 1\nframes 16\nprogram p\nclone x\n",
        4,
        Why::Unbuilt,
    ),
    ("nephele 1\nframes 16\nprogram p\nclone \n", 4, Why::Form),
    ("nephele 1\nframes 16\nprogram p\nclone 1 2\n", 4, Why::Form),
    (
        "nephele 1\nframes 16\nprogram p\nputs 00\n",
        4,
        Why::Unbuilt,
    ),
    (
        "nephele 1\nframes 16\nprogram p\nw 1073741824 00\n",
        4,
        Why::Number,
    ),
    ("nephele 1\nframes 16\nprogram p\nw 0 0A\n", 4, Why::Hex),
    ("nephele 1\nframes 16\nprogram p\nw 0 000\n", 4, Why::Hex),
    (
        "nephele 1\nframes 16\nprogram p\nr 4096 65\n",
        4,
        Why::Number,
    ),
    (
        "nephele 1\nframes 16\nprogram p\nr 4095 2\n",
        4,
        Why::Number,
    ),
    ("nephele 1\nframes 16\nprogram p\nr 0 +1\n", 4, Why::Number),
    (
        "nephele 1\nframes 16\nprogram p\nmap 262144 4 ro\n",
        4,
        Why::Number,
    ),
    (
        "nephele 1\nframes 16\nprogram p\nmap 0 1024 ro\n",
        4,
        Why::Number,
    ),
    ("nephele 1\nframes 16\nprogram p\nmap 0 4 1\n", 4, Why::Word),
    (
        "nephele 1\nframes 16\nprogram p\nend\ndomain p 7 0 open\n",
        5,
        Why::Number,
    ),
    (
        "nephele 1\nframes 16\nprogram p\nend\ndomain p 8 63 open\n",
        5,
        Why::Number,
    ),
    (
        "nephele 1\nframes 16\nprogram p\nend\ndomain p 8 0 shut\n",
        5,
        Why::Word,
    ),
    (
        "nephele 1\nframes 16\nprogram p\nend\ndomain P 8 0 open\n",
        5,
        Why::Name,
    ),
    (
        "nephele 1\nframes 16\nprogram p\nend\ndomain q 7 0 exclusive\n",
        5,
        Why::Unbuilt,
    ),
    (
        "nephele 1\nframes 16\nprogram p\nend\ndomain p 8 0 exclusive x\n",
        5,
        Why::Form,
    ),
    (
        "nephele 1\nframes 20\nprogram p\nend\ndomain p 8 0 open\ndomain p 9 0 open\n",
        6,
        Why::Frames,
    ),
    (
        "nephele 1\nframes 20\nprogram p\nend\ndomain p 8 0 open\ndomain p 8 0 open\ndomain p 8 0 open\n",
        7,
        Why::Frames,
    ),
    (
        "nephele 1\nframes 16\nprogram p\nend\ndomain p 8 0 open\nprogram q\n",
        6,
        Why::Word,
    ),
    (
        "nephele 1\nframes 16\nprogram p\nend\ndomain p 8 0 open\nturns\n",
        6,
        Why::Form,
    ),
    (
        "nephele 1\nframes 16\nprogram p\nend\ndomain p 8 0 open\nturns 1  2\n",
        6,
        Why::Form,
    ),
    (
        "nephele 1\nframes 16\nprogram p\nend\ndomain p 8 0 open\nturns 64\n",
        6,
        Why::Number,
    ),
    (
        "nephele 1\nframes 16\nprogram p\nend\ndomain p 8 0 open\nturns x\n",
        6,
        Why::Word,
    ),
    (
        "nephele 1\nframes 16\nprogram p\nend\ndomain p 8 0 open\nturns 1 1 1 1 1 1 1 1 1 1 1 1 1 1 1 1 1 1 1 1 1 1 1 1 1 1 1 1 1 1 1 1 1 1 1 1 1 1 1 1 1 1 1 1 1 1 1 1 1 1 1 1 1 1 1 1 1 1 1 1 1 1 1 1 x\n",
        6,
        Why::Many,
    ),
    (
        "nephele 1\nframes 16\nprogram p\nend\ndomain p 8 0 open\nturns 1\ndomain p 8 0 open\n",
        7,
        Why::Word,
    ),
];

// What is read of a text.
fn read(alloc: Global, text: &[u8]) -> Result<Script, ParseEnd> {
    if text.len() > 4_000_000_000 {
        return Err(ParseEnd::NoMemory);
    }
    parse(alloc, text)
}

#[test]
fn faults(rt: HostRuntime) {
    for (text, line, why) in FAULTS {
        let found = read(rt.alloc(), text.as_bytes()).err();
        let wanted = ParseEnd::Bad(BadScript { line, why });
        assert_eq!(rt; found, Some(wanted), "at {text}");
    }
}

// Texts that are printed as they stand.
static PRINTED: [&str; 5] = [
    "nephele 1\nframes 16384\nprogram p\nw 16384 00ff\nr 1073741823 1\nlabel a\nmap 262143 1023 ro\nmap 0 4 rw\nunmap 9\njump b\njchild c\njfail c\nexit\nlabel b\nlabel c\nfree\nclone\nend\ndomain p 8 0 open\n",
    "nephele 1\nframes 16\nprogram abcdefghijklmnop\nend\ndomain abcdefghijklmnop 14 62 open\nturns 63 1 daemon console net p9\n",
    "nephele 1\nframes 64\nprogram a\nlabel z\nend\nprogram b\njump z\nlabel z\nend\ndomain b 8 1 open\ndomain a 9 2 open\ndomain b 8 3 open\n",
    "nephele 1\nframes 20\nprogram p\nmap 512 4 ro\nmap 1024 4 ro\nclone\nclone\nend\ndomain p 8 2 open\ndomain p 8 62 open\n",
    "nephele 1\nframes 16\nprogram p\nend\ndomain p 8 0 open\nturns 1 1 1 1 1 1 1 1 1 1 1 1 1 1 1 1 1 1 1 1 1 1 1 1 1 1 1 1 1 1 1 1 1 1 1 1 1 1 1 1 1 1 1 1 1 1 1 1 1 1 1 1 1 1 1 1 1 1 1 1 1 1 1 2\nturns 3\n",
];

#[test]
fn printed_and_read_again(rt: HostRuntime) -> Result<(), Fail> {
    for text in PRINTED {
        let script = read(rt.alloc(), text.as_bytes())?;
        let printed = print_script(rt.alloc(), &script)?;
        assert_eq!(rt; printed.as_slice(), text.as_bytes());
    }
    Ok(())
}

#[test]
fn skipped_lines_and_short_turns(rt: HostRuntime) -> Result<(), Fail> {
    let text =
        "# a script\n\nnephele 1\nframes 16\nprogram p\n#\nend\ndomain p 8 0 open\nturns 1\n\nturns 2 p9";
    let script = read(rt.alloc(), text.as_bytes())?;
    let printed = print_script(rt.alloc(), &script)?;
    assert_eq!(rt;
        printed.as_slice(),
        b"nephele 1\nframes 16\nprogram p\nend\ndomain p 8 0 open\nturns 1 2 p9\n".as_slice()
    );
    Ok(())
}

// A text with something many times in it, and what is wrong with it where there is once more.
struct Limit {
    before: &'static str,
    again: &'static str,
    most: usize,
    behind: &'static str,
    line: u32,
    why: Why,
}

const END: &str = "end\ndomain p 8 0 open\n";

static LIMITS: [Limit; 6] = [
    // Commands.
    Limit {
        before: "nephele 1\nframes 16\nprogram p\n",
        again: "exit\n",
        most: 512,
        behind: END,
        line: 516,
        why: Why::Many,
    },
    // Domains.
    Limit {
        before: "nephele 1\nframes 16384\nprogram p\nend\n",
        again: "domain p 8 0 open\n",
        most: 16,
        behind: "",
        line: 21,
        why: Why::Many,
    },
    // Lines of turns.
    Limit {
        before: "nephele 1\nframes 16\nprogram p\nend\ndomain p 8 0 open\n",
        again: "turns 1\n",
        most: 64,
        behind: "",
        line: 70,
        why: Why::Many,
    },
    // Actors of one line.
    Limit {
        before: "nephele 1\nframes 16\nprogram p\nend\ndomain p 8 0 open\nturns",
        again: " p9",
        most: 64,
        behind: "\n",
        line: 6,
        why: Why::Many,
    },
    // Bytes of a line.
    Limit {
        before: "nephele 1\n",
        again: "#",
        most: 8192,
        behind: "\nframes 16\nprogram p\nend\ndomain p 8 0 open\n",
        line: 2,
        why: Why::Bytes,
    },
    // Bytes of a write.
    Limit {
        before: "nephele 1\nframes 16\nprogram p\nw 0 ",
        again: "00",
        most: 64,
        behind: "\nend\ndomain p 8 0 open\n",
        line: 4,
        why: Why::Hex,
    },
];

// The text of a limit, with so many times what may be there.
fn text_of(alloc: Global, limit: &Limit, count: usize) -> Result<Vec<u8>, AllocError> {
    let mut text = Vec::from_slice(alloc, limit.before.as_bytes())?;
    for _ in 0..count {
        text.extend_from_slice(limit.again.as_bytes())?;
    }
    text.extend_from_slice(limit.behind.as_bytes())?;
    Ok(text)
}

#[test]
fn limits(rt: HostRuntime) -> Result<(), Fail> {
    for limit in &LIMITS {
        let most = limit.most.min(10_000);
        let fits = text_of(rt.alloc(), limit, most)?;
        assert!(rt; read(rt.alloc(), &fits).is_ok(), "at {}", limit.again);
        let more = text_of(rt.alloc(), limit, most + 1)?;
        let wanted = ParseEnd::Bad(BadScript {
            line: limit.line,
            why: limit.why,
        });
        assert_eq!(rt;
            read(rt.alloc(), &more).err(),
            Some(wanted),
            "at {}",
            limit.again
        );
    }
    Ok(())
}

// A program with so many labels, each with a name of its own.
fn labelled(alloc: Global, count: u32) -> Result<Vec<u8>, AllocError> {
    let mut text = Vec::from_slice(alloc, b"nephele 1\nframes 16\nprogram p\n")?;
    for n in 0..count {
        text.extend_from_slice(b"label l")?;
        text.extend_from_slice(Buffer::new().format(n).as_bytes())?;
        text.extend_from_slice(b"\n")?;
    }
    text.extend_from_slice(END.as_bytes())?;
    Ok(text)
}

#[test]
fn labels(rt: HostRuntime) -> Result<(), Fail> {
    let fits = labelled(rt.alloc(), 512)?;
    assert!(rt; read(rt.alloc(), &fits).is_ok());
    let more = labelled(rt.alloc(), 513)?;
    let wanted = ParseEnd::Bad(BadScript {
        line: 516,
        why: Why::Many,
    });
    assert_eq!(rt; read(rt.alloc(), &more).err(), Some(wanted));
    Ok(())
}
