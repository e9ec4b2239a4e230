// A script: what its programs do, and which domains start.
ghost use Rattle.std.specs.Prelude.{◌≡◌};
ghost use Rattle.neph_model.specs.Programs.{command_at, label_line, label_line_at};

use neph_base::{Actor, Command, List, Name, NoMemory, TryClone};

/// A script.
#[derive(Debug, Drop)]
pub struct Script {
    /// How many frames of 4096 bytes the machine has, 16 to 16384.
    pub frames: u32,
    /// The programs, in the order of their lines.
    pub programs: Programs,
    /// The starting domains, in the order of their lines.
    pub starts: Starts,
    /// Who has the first turns, in order.
    pub turns: Actors,
}

impl Script {
    /// The command at a line of the program with this number. Behind the last there is an exit that
    /// isn't written.
    pub fn command_at(&self, program: u8, line: u16) -> Command
        ensures { result ≡ command_at self.now program line }
    {
        let Some(program) = self.programs.items().get(program as usize) else {
            return Command::Exit;
        };
        match program.commands.items().get(line as usize) {
            Some(command) => *command,
            None => Command::Exit,
        }
    }

    /// The line that a label of the program with this number names, by the label's place.
    pub fn label_line(&self, program: u8, label: u16) -> u16
        ensures { result ≡ label_line_at self.now program label }
    {
        match self.programs.items().get(program as usize) {
            Some(program) => program.label_line(label),
            None => 0,
        }
    }
}

impl TryClone for Script {
    fn try_clone(&self) -> Result<Self, NoMemory> {
        Ok(Script {
            frames: self.frames,
            programs: self.programs.try_clone()?,
            starts: self.starts.try_clone()?,
            turns: self.turns.try_clone()?,
        })
    }
}

/// What a guest runs: its commands, numbered from 0. Behind the last stands an exit that isn't
/// written.
#[derive(Debug, Drop)]
pub struct Program {
    /// The program's name.
    pub name: Name,
    /// At most 512 commands.
    pub commands: Commands,
    /// At most 512 labels, in the order of their lines.
    pub labels: Labels,
}

impl Program {
    /// The line that a label names, by the label's place.
    pub fn label_line(&self, label: u16) -> u16
        ensures { result ≡ label_line self.now.labels label }
    {
        match self.labels.items().get(label as usize) {
            Some(label) => label.at,
            None => 0,
        }
    }
}

impl TryClone for Program {
    fn try_clone(&self) -> Result<Self, NoMemory> {
        Ok(Program {
            name: self.name.try_clone()?,
            commands: self.commands.try_clone()?,
            labels: self.labels.try_clone()?,
        })
    }
}

/// A place in a program that jumps name.
#[derive(Debug, Drop)]
pub struct Label {
    /// The label's name.
    pub name: Name,
    /// The number of the next command, or the number of commands where none is left.
    pub at: u16,
}

impl TryClone for Label {
    fn try_clone(&self) -> Result<Self, NoMemory> {
        Ok(Label {
            name: self.name.try_clone()?,
            at: self.at,
        })
    }
}

/// A starting domain.
#[derive(Clone, Copy, Debug, PartialEq, Eq)]
pub struct Start {
    /// The number of its program, from 0.
    pub program: u8,
    /// How many pages it has, 8 to 1024.
    pub pages: u16,
    /// How many clones it may make, 0 to 62.
    pub limit: u8,
}

impl TryClone for Start {
    fn try_clone(&self) -> Result<Self, NoMemory> {
        Ok(*self)
    }
}

/// A list of commands.
pub type Commands = List<Command>;

/// A list of programs.
pub type Programs = List<Program>;

/// A list of starting domains.
pub type Starts = List<Start>;

/// A list of labels.
pub type Labels = List<Label>;

/// A list of actors.
pub type Actors = List<Actor>;
