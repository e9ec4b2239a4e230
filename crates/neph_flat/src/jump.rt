// Jumps to labels.
ghost use Rattle.std.specs.Prelude.{◌≡◌, ◌<◌, Some};
ghost use Rattle.neph_model.specs.Own.{jump_step};

use neph_base::Reply;
use neph_model::Own;

/// Jumps to a line, where the jump is taken.
pub fn jump(o: &mut Own, line: u16, taken: bool) -> Reply
    requires { o.old.line < 65535 }
    ensures { jump_step o.old line taken ≡ Some (o.new, result) }
{
    if taken {
        o.line = line;
        Reply::Go
    } else {
        o.line += 1;
        Reply::On
    }
}
