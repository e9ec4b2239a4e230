// What was read of a script so far.
ghost use Rattle.std.specs.Prelude.{◌≡◌, ◌∷◌, ◌++◌, ◌<◌, ◌≤◌, [], List, ℕ, length, OnOk, IfOk};
ghost use Rattle.neph_base.specs.declared.command.Command.{Command};
ghost use Rattle.neph_script.specs.State.{nothing_read, no_draft, Read};
ghost use Rattle.neph_script.specs.Lines.{taken};
ghost use Rattle.neph_script.specs.Seen.{seen, seen_draft, IsSound, IsDraft, Fits};
ghost use Rattle.neph_script.specs.declared.state.Item.TheVariants as item;

use crate::index::Index;
use neph_base::{Actor, Name, NoMemory};
use neph_command::Said;
use neph_model::{Actors, Commands, Label, Labels, Program, Start};
use std::alloc::Global;
use std::mem;

/// Where the next line stands.
#[derive(Clone, Copy, Debug, PartialEq, Eq)]
pub enum Place {
    /// At the top.
    Top,
    /// Behind the heading.
    Headed,
    /// Behind the number of frames.
    Framed,
    /// In a program.
    Inside,
    /// Behind a program.
    Between,
    /// Behind a domain line.
    Started,
    /// Behind a line with turns.
    Turned,
}

/// What a line says.
#[derive(Debug, Drop)]
pub enum Item {
    Heading,
    Frames(u32),
    Program(Name),
    Command(Said),
    Label(Name),
    End(Commands),
    Start(Start),
    Turns(Actors),
}

/// A program whose `end` is still to come.
#[derive(Drop)]
pub struct Draft {
    pub name: Name,
    pub said: Vec<Said>,
    pub labels: Vec<Label>,
    pub places: Index,
}

/// What was read so far.
#[derive(Drop)]
pub struct Reader {
    pub place: Place,
    pub frames: u32,
    pub programs: Vec<Program>,
    pub places: Index,
    pub draft: Draft,
    pub starts: Vec<Start>,
    pub turn_lines: u32,
    pub turns: Vec<Actor>,
}

impl Draft {
    /// No program.
    pub fn none(alloc: Global) -> Self
        ensures empty { seen_draft result ≡ no_draft }
        ensures sound { IsDraft result }
    {
        Self::of(alloc, Name::of(Vec::new(alloc)))
    }

    /// A program of this name, without commands and labels.
    pub fn of(alloc: Global, name: Name) -> Self
        ensures empty { seen_draft result ≡ record { name = name; said = []; labels = [] } }
        ensures sound { IsDraft result }
    {
        Draft {
            name,
            said: Vec::new(alloc),
            labels: Vec::new(alloc),
            places: Index::new(alloc),
        }
    }

    fn add_command(&mut self, said: Said) -> Result<(), NoMemory>
        requires sound { IsDraft self.old }
        requires few { length self.old.said.items < 512 }
        ensures now { OnOk result (seen_draft self.new
            ≡ record (seen_draft self.old) { said = self.old.said.items ++ said ∷ [] }) }
        ensures sound { OnOk result (IsDraft self.new) }
    {
        self.said.extend_from_slice(&[said])?;
        Ok(())
    }

    fn add_label(&mut self, alloc: Global, name: Name) -> Result<(), NoMemory>
        requires sound { IsDraft self.old }
        requires few { length self.old.labels.items < 512 }
        ensures now { OnOk result (seen_draft self.new
            ≡ record (seen_draft self.old) {
              labels = self.old.labels.items
                  ++ record { name = name; at = length self.old.said.items } ∷ [];
            }) }
        ensures sound { OnOk result (IsDraft self.new) }
    {
        let at = self.said.len() as u16;
        let key = Vec::from_slice(alloc, name.items())?;
        self.places.put(key, self.labels.len() as u16)?;
        self.labels.push(Label { name, at })?;
        Ok(())
    }
}

impl Reader {
    /// Nothing was read yet.
    pub fn new(alloc: Global) -> Self
        ensures now { seen result ≡ nothing_read }
        ensures sound { IsSound result }
    {
        Reader {
            place: Place::Top,
            frames: 0,
            programs: Vec::new(alloc),
            places: Index::new(alloc),
            draft: Draft::none(alloc),
            starts: Vec::new(alloc),
            turn_lines: 0,
            turns: Vec::new(alloc),
        }
    }

    /// Takes a line.
    pub fn take(&mut self, alloc: Global, item: Item) -> Result<(), NoMemory>
        requires sound { IsSound self.old }
        requires fits { Fits (seen self.old) item }
        ensures now { OnOk result (seen self.new ≡ taken (seen self.old) item) }
        ensures sound { OnOk result (IsSound self.new) }
    {
        match item {
            Item::Heading => {
                self.place = Place::Headed;
                Ok(())
            }
            Item::Frames(n) => {
                self.frames = n;
                self.place = Place::Framed;
                Ok(())
            }
            Item::Program(name) => {
                self.draft = Draft::of(alloc, name);
                self.place = Place::Inside;
                Ok(())
            }
            Item::Command(said) => self.draft.add_command(said),
            Item::Label(name) => self.draft.add_label(alloc, name),
            Item::End(commands) => self.end_program(alloc, commands),
            Item::Start(start) => self.add_start(start),
            Item::Turns(more) => self.add_turns(&more),
        }
    }

    fn end_program(&mut self, alloc: Global, commands: Commands) -> Result<(), NoMemory>
        requires sound { IsSound self.old }
        requires fits { Fits (seen self.old) (item.End commands) }
        ensures now { OnOk result (seen self.new ≡ taken (seen self.old) (item.End commands)) }
        ensures sound { OnOk result (IsSound self.new) }
    {
        let draft = mem::replace(&mut self.draft, Draft::none(alloc));
        let key = Vec::from_slice(alloc, draft.name.items())?;
        self.places.put(key, self.programs.len() as u16)?;
        self.programs.push(Program {
            name: draft.name,
            commands,
            labels: Labels::of(draft.labels),
        })?;
        self.place = Place::Between;
        Ok(())
    }

    fn add_start(&mut self, start: Start) -> Result<(), NoMemory>
        requires sound { IsSound self.old }
        requires fits { Fits (seen self.old) (item.Start start) }
        ensures now { OnOk result (seen self.new ≡ taken (seen self.old) (item.Start start)) }
        ensures sound { OnOk result (IsSound self.new) }
    {
        self.starts.push(start)?;
        self.place = Place::Started;
        Ok(())
    }

    fn add_turns(&mut self, more: &Actors) -> Result<(), NoMemory>
        requires sound { IsSound self.old }
        requires fits { Fits (seen self.old) (item.Turns more.now) }
        ensures now { OnOk result (seen self.new ≡ taken (seen self.old) (item.Turns more.now)) }
        ensures sound { OnOk result (IsSound self.new) }
    {
        self.turns.extend_from_slice(more.items())?;
        self.turn_lines += 1;
        self.place = Place::Turned;
        Ok(())
    }
}
