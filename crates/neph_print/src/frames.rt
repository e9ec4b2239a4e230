// The line of the frames.
ghost use Rattle.std.specs.Prelude.{◌≡◌, ◌++◌, IfOk, OnOk};
ghost use Rattle.neph_model.specs.Transcript.{frames_line};

use neph_base::NoMemory;
use neph_command::{put_labelled, put_word};
use neph_model::FrameCounts;
use std::alloc::Global;

/// The line of a transcript that tells these counts, with its line feed.
pub fn frames_line(alloc: Global, f: &FrameCounts) -> Result<Vec<u8>, NoMemory>
    ensures { IfOk result (λ line. line.items ≡ frames_line f.now) }
{
    let mut line = Vec::new(alloc);
    put_frames_line(&mut line, f)?;
    Ok(line)
}

/// Puts the line of the frames behind a text.
pub fn put_frames_line(text: &mut Vec<u8>, f: &FrameCounts) -> Result<(), NoMemory>
    ensures { OnOk result (text.new.items ≡ text.old.items ++ frames_line f.now) }
{
    put_labelled(text, b"frames ", f.total)?;
    put_labelled(text, b" colours ", f.colours)?;
    put_labelled(text, b" tables ", f.tables)?;
    put_labelled(text, b" spares ", f.spares)?;
    put_labelled(text, b" aside ", f.aside)?;
    put_labelled(text, b" free ", f.free)?;
    put_word(text, b"\n")
}
