// What a command does to its own domain by itself.
ghost use Rattle.std.specs.Prelude.{◌≡◌, ◌<◌, length, Option, Some, Result};
ghost use Rattle.neph_base.specs.declared.reply.Reply.{Reply};
ghost use Rattle.neph_base.specs.declared.reply.Refusal.{Refusal};
ghost use Rattle.neph_model.specs.declared.own.Own.{Own};
ghost use Rattle.neph_model.specs.Own.{local_step, settle, LocalResult};
ghost use Rattle.neph_model.specs.WellFormed.{FitsPage};
ghost use Rattle.std.specs.Option.{option_map};
ghost use Rattle.neph_flat.specs.Sound.{IsMapped};
ghost use Rattle.neph_flat.specs.Local.{RowDone, LocalDone, Settled};

use crate::jump::jump;
use crate::memory::{Row, map, read, unmap, write};
use neph_base::{Command, NoMemory, Reply};
use neph_model::{Own, Script, Told};

/// Does a command of a domain that runs the program with this number by itself. Nothing is answered
/// where the hypervisor has to be asked.
pub fn local(
    script: &Script,
    program: u8,
    o: &mut Own,
    told: Told,
    command: &Command,
) -> Result<Option<Reply>, NoMemory>
    requires fits { FitsPage command.now }
    requires mapped { IsMapped o.old }
    requires alone { length o.old.alone ≡ length o.old.pages }
    requires room { o.old.line < 65535 }
    ensures { LocalDone command.now told o.old o.new result
        (local_step script.now program o.old told command.now) }
{
    match command {
        Command::W { addr, bytes } => {
            let row = write(o, told, *addr, bytes);
            Ok(settle(o, row))
        }
        Command::R { addr, len } => {
            let row = read(o, *addr, *len);
            Ok(settle(o, row))
        }
        Command::Map { vpn, pfn, mode } => {
            let row = map(o, told, *vpn, *pfn, *mode)?;
            Ok(settle(o, row))
        }
        Command::Unmap { vpn } => {
            let row = unmap(o, *vpn);
            Ok(settle(o, row))
        }
        Command::Jump { label } => {
            let line = script.label_line(program, *label);
            Ok(Some(jump(o, line, true)))
        }
        Command::JChild { label } => {
            let line = script.label_line(program, *label);
            let taken = o.came;
            Ok(Some(jump(o, line, taken)))
        }
        Command::JFail { label } => {
            let line = script.label_line(program, *label);
            let taken = o.refused;
            Ok(Some(jump(o, line, taken)))
        }
        Command::Exit
        | Command::Free
        | Command::Clone
        | Command::Ungrant { .. }
        | Command::Gmap { .. }
        | Command::Gunmap { .. }
        | Command::Hr { .. }
        | Command::Hw { .. } => Ok(None),
    }
}

// Goes on to the next line, and marks whether the command was refused.
fn settle(o: &mut Own, row: Row) -> Option<Reply>
    requires { o.old.line < 65535 }
    ensures { (first : Own) (step : LocalResult) → first.line ≡ o.old.line
        → RowDone first o.old row step
        → Settled o.old o.new result (option_map (settle first) step) }
{
    let did = row?;
    o.line += 1;
    o.refused = did.is_err();
    Some(match did {
        Ok(reply) => reply,
        Err(why) => Reply::Refused(why),
    })
}
