// Jumps to labels.
ghost use Rattle.std.specs.Prelude.{◌≡◌, ◌+◌, ◌<◌, ℕ, Some, IfSome, if◌then◌else◌};
ghost use Rattle.neph_model.specs.declared.own.Own.{Own};
ghost use Rattle.neph_model.specs.declared.script.Script.{Script};
ghost use Rattle.neph_model.specs.declared.told.Told.TheVariants.{Enough};
ghost use Rattle.neph_model.specs.Own.{local_step};
ghost use Rattle.neph_model.specs.Programs.{program_at};
ghost use Rattle.neph_guest.specs.Turns.{IsJump, IsJumped, JumpDone};

use crate::live::Guest;
use neph_base::{Command, Reply};
use neph_model::Program;

// Jumps to a line, where the jump is taken.
fn land(guest: &mut Guest, line: u16, taken: bool) -> Reply
    requires room { guest.old.line < 65535 }
    ensures guest { guest.new
        ≡ record guest.old { line = (if taken then line else guest.old.line + 1) } }
    ensures reply { result ≡ (if taken then Reply.Go else Reply.On) }
{
    if taken {
        guest.line = line;
        Reply::Go
    } else {
        guest.line += 1;
        Reply::On
    }
}

/// Does a jump of a guest that runs this program. Nothing is answered, and nothing changes, exactly
/// where the command is no jump.
pub fn jump(guest: &mut Guest, program: &Program, command: &Command) -> Option<Reply>
    requires room { guest.old.line < 65535 }
    ensures step { (s : Script) (p : ℕ) (o : Own) → program_at s p ≡ Some program.now
        → o.line ≡ guest.old.line → o.came ≡ guest.old.came → o.refused ≡ guest.old.failed
        → JumpDone o guest.new.line command.now (local_step s p o Enough command.now) result }
    ensures guest { IsJumped guest.old guest.new result }
    ensures some { IfSome result (λ reply. IsJump command.now) }
{
    match command {
        Command::Jump { label } => {
            let line = program.label_line(*label);
            Some(land(guest, line, true))
        }
        Command::JChild { label } => {
            let line = program.label_line(*label);
            let taken = guest.came;
            Some(land(guest, line, taken))
        }
        Command::JFail { label } => {
            let line = program.label_line(*label);
            let taken = guest.failed;
            Some(land(guest, line, taken))
        }
        _ => None,
    }
}
