// The labels of jumps.
ghost use Rattle.std.specs.Prelude.{◌≡◌, ◌≤◌, ℕ, List, length, IfOk};
ghost use Rattle.neph_script.specs.Lines.{ahead, label_place, settled, settled_one};
ghost use Rattle.neph_script.specs.Outcomes.{Shows};
ghost use Rattle.neph_script.specs.Seen.{IsDraft};

use crate::state::Draft;
use crate::why::LineEnd;
use neph_base::Command;
use neph_command::{Said, Why};
use std::alloc::Global;

impl Draft {
    /// The commands, each jump with the place of its label.
    pub fn settled(&self, alloc: Global) -> Result<Vec<Command>, LineEnd>
        requires { IsDraft self.now }
        ensures { Shows (λ v. v.items) result
            (settled self.now.labels.items 0 self.now.said.items) }
    {
        let mut commands = Vec::with_capacity(alloc, self.said.len())?;
        for (line, said) in self.said.iter().enumerate() {
            match self.settled_one(line as u16, said) {
                Err(why) => return Err(LineEnd::Bad(why)),
                Ok(command) => commands.push(command)?,
            }
        }
        Ok(commands)
    }

    fn settled_one(&self, line: u16, said: &Said) -> Result<Command, Why>
        requires { IsDraft self.now }
        ensures { result ≡ settled_one self.now.labels.items line said.now }
    {
        match said {
            Said::Whole(command) => Ok(*command),
            Said::Jump(target) => Ok(Command::Jump {
                label: self.ahead(line, target.bytes())?,
            }),
            Said::JChild(target) => Ok(Command::JChild {
                label: self.ahead(line, target.bytes())?,
            }),
            Said::JFail(target) => Ok(Command::JFail {
                label: self.ahead(line, target.bytes())?,
            }),
        }
    }

    // The place of a label that stands behind a line.
    fn ahead(&self, line: u16, target: &[u8]) -> Result<u16, Why>
        requires { IsDraft self.now }
        ensures { result ≡ ahead self.now.labels.items line
            (label_place self.now.labels.items target.now) }
    {
        let Some(place) = self.places.place(target) else {
            return Err(Why::Label);
        };
        let Some(label) = self.labels.get(place as usize) else {
            return Err(Why::Label);
        };
        if line < label.at {
            Ok(place)
        } else {
            Err(Why::Label)
        }
    }
}
