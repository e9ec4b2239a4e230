// The transcript of a run in its course.
ghost use Rattle.std.specs.Prelude.{◌≡◌, ◌++◌, ◌∷◌, [], IfOk, List, None, OnOk};
ghost use Rattle.neph_base.specs.declared.reply.Noted.{Noted as Entered};
ghost use Rattle.neph_model.specs.declared.script.Script.{Script};
ghost use Rattle.neph_model.specs.Transcript.{transcript};

use crate::entry::put_entry_line;
use crate::families::{actor_of, note_child, start_families};
use crate::frames::put_frames_line;
use crate::texts::LineTexts;
use neph_base::{NoMemory, Noted};
use neph_command::put_word;
use neph_model::{FrameCounts, Script};
use std::alloc::Global;

// The bytes that are set aside for a transcript at its start, so that it seldom moves: some ten
// thousand lines.
const ROOM: usize = 1 << 20;

/// The transcript of a run in its course. The lines of its entries are put as the entries come; that
/// of the latest waits until there is memory for it.
#[derive(Drop)]
pub struct Transcript {
    /// The lines that are put.
    pub text: Vec<u8>,
    /// Where the latest entry's line is put together.
    pub line: Vec<u8>,
    /// The family of each id behind the entries whose lines are put.
    pub families: [u8; 64],
    /// The texts of lines that were put together.
    pub texts: LineTexts,
    /// The latest entry, where its line isn't put yet.
    pub latest: Option<Noted>,
}

impl Transcript {
    ghost use Rattle.neph_print.specs.Course.{IsTelling, Tells};

    /// The transcript of no entry.
    pub fn new(alloc: Global) -> Result<Transcript, NoMemory>
        ensures { IfOk result (λ t. (s : Script) → Tells s t []) }
    {
        let mut text = Vec::with_capacity(alloc, ROOM)?;
        put_word(&mut text, b"transcript 1\n")?;
        Ok(Transcript {
            text,
            line: Vec::new(alloc),
            families: start_families(),
            texts: LineTexts::none(alloc),
            latest: None,
        })
    }

    /// Puts the line of the latest entry. Tells what it told before, also where memory runs out.
    pub fn put_latest(&mut self, s: &Script) -> Result<(), NoMemory>
        requires { IsTelling s.now self.old }
        ensures tells { (history : List Entered) → Tells s.now self.old history
            → Tells s.now self.new history }
        ensures put { OnOk result (self.new.latest ≡ None) }
    {
        let Some(latest) = &self.latest else {
            return Ok(());
        };
        let Noted { entry, reply } = latest;
        let family = self.families[actor_of(*entry)];
        self.line.clear();
        put_entry_line(&mut self.line, &mut self.texts, s, family, entry, reply)?;
        self.text.extend_from_slice(&self.line)?;
        note_child(&mut self.families, entry, reply);
        self.latest = None;
        Ok(())
    }

    /// Notes an entry behind those whose lines are put.
    pub fn note(&mut self, noted: Noted)
        requires { self.old.latest ≡ None }
        ensures { (s : Script) (history : List Entered) → Tells s self.old history
            → Tells s self.new (history ++ noted ∷ []) }
    {
        self.latest = Some(noted);
    }

    /// The whole transcript of a run that ends now, with what its frames are used for and whether it
    /// stalled. The lines of all its entries are put.
    pub fn end(self, frames: &FrameCounts, stalled: bool) -> Result<Vec<u8>, NoMemory>
        requires { self.latest ≡ None }
        ensures { IfOk result (λ text. (s : Script) (history : List Entered) → Tells s self history
            → text.items ≡ transcript s history frames.now stalled) }
    {
        let mut text = self.text;
        put_frames_line(&mut text, frames)?;
        put_word(
            &mut text,
            if stalled {
                b"end stalled\n"
            } else {
                b"end ended\n"
            },
        )?;
        Ok(text)
    }
}
