// The machine of a run.
ghost use Rattle.std.specs.Prelude.{◌≡◌, ◌+◌, IfOk, List};
ghost use Rattle.neph_model.specs.WellFormed.{IsWellFormed};
ghost use Rattle.neph_model.specs.Machine.{is_over};
ghost use Rattle.neph_model.specs.Books.{counts};
ghost use Rattle.neph_model.specs.Transcript.{transcript};
ghost use Rattle.neph_model.specs.Turns.{turn};
ghost use Rattle.neph_pool.specs.Plain.{plain_world};
ghost use Rattle.neph_machine.specs.Reached.{state_after};
ghost use Rattle.neph_core.specs.Course.{IsRunning, Stands, Starts, entries_after};
ghost use Rattle.neph_core.specs.Does.{GoesOrLacks, counted};

use neph_base::{Actor, NoMemory, Noted};
use neph_boot::boot;
use neph_machine::Turn;
use neph_memory::MAX_HELD;
use neph_model::Script;
use neph_pool::{PlainPool, Tally};
use neph_print::Transcript;
use neph_turns::{counts, turn};
use std::alloc::Global;

/// The machine of a run: the machine over the frames of one thread's pool, and the transcript of the
/// entries that its turns have made.
#[derive(Drop)]
pub struct Machine {
    /// The machine over frames.
    pub frames: neph_machine::Machine<PlainPool>,
    /// The transcript of the entries so far.
    pub transcript: Transcript,
}

impl Machine {
    /// The machine at the start of a script.
    pub fn new(alloc: Global, s: Script) -> Result<Machine, NoMemory>
        requires formed { IsWellFormed s }
        ensures { IfOk result (Starts s) }
    {
        let (pool, seat) = PlainPool::new(alloc, s.frames, MAX_HELD as u16)?;
        Ok(Machine {
            frames: boot(alloc, s, pool, seat)?,
            transcript: Transcript::new(alloc)?,
        })
    }

    /// A turn of an actor. Tells whether it did anything. Where memory runs out the machine stands
    /// for what it stood for before, with the entries that it had.
    pub fn turn(&mut self, alloc: Global, actor: Actor) -> Result<bool, NoMemory>
        requires formed { IsWellFormed self.old.frames.script }
        requires running { IsRunning self.old }
        ensures { (before : List Actor) → Stands self.old before
            → GoesOrLacks self.old self.new before (turn self.old.frames.script
            (state_after self.old.frames.script before) actor) result }
    {
        self.transcript.put_latest(&self.frames.script)?;
        match turn(&mut self.frames, alloc, actor)? {
            Turn::Rested => Ok(false),
            Turn::Moved => Ok(true),
            Turn::Noted(Noted { entry, reply }) => {
                self.transcript.note(Noted { entry, reply });
                Ok(true)
            }
        }
    }

    /// Whether no domain is live.
    pub fn is_over(&self) -> bool
        ensures { (before : List Actor) → Stands self.now before
            → result ≡ is_over (state_after self.now.frames.script before).machine }
    {
        self.frames.is_over()
    }

    /// Gives up the machine of a run that ends now, stalled or not, and gives the run's transcript.
    /// How often its pool has shared a frame goes to the tally, unless memory runs out.
    pub fn end(self, stalled: bool, tally: &mut Tally) -> Result<Vec<u8>, NoMemory>
        requires formed { IsWellFormed self.frames.script }
        requires running { IsRunning self }
        ensures text { IfOk result (λ text. (before : List Actor) → Stands self before
            → text.items ≡ transcript self.frames.script
            (entries_after self.frames.script before)
            (counts self.frames.script (state_after self.frames.script before)) stalled) }
        ensures tally { IfOk result (λ text.
            tally.new ≡ counted (tally.old + plain_world.shares self.frames.pool)) }
    {
        let Machine {
            mut frames,
            mut transcript,
        } = self;
        transcript.put_latest(&frames.script)?;
        let text = transcript.end(&counts(&mut frames), stalled)?;
        frames.pool.end(tally);
        Ok(text)
    }
}
