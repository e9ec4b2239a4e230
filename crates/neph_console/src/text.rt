// The text of a console.
ghost use Rattle.std.specs.Prelude.{◌≡◌, ◌+◌, ◌≤◌, ◌++◌, [], length, vec_len, vec_capacity, IsOk, IfOk, OnOk, OnErr};
ghost use Rattle.neph_ring.specs.Bytes.{bytes_of_words};
ghost use Rattle.neph_ring.specs.Console.{IsConsole, out_queue, without_output};

use neph_base::NoMemory;
use neph_ring::{Words, drain_out};

/// Appends what waits in a console's output ring to the console's text, and tells how many bytes
/// that were.
///
/// The ring is empty then; its bytes stay in their places. Where memory is out, nothing is taken,
/// and so nothing is lost; it isn't out where the text has room for what waits.
pub fn drain<W: Words>(page: &mut W, text: &mut Vec<u8>) -> Result<u32, NoMemory>
    requires { IsConsole (bytes_of_words (W.words page.old)) }
    ensures text { OnOk result (text.new.items
        ≡ text.old.items ++ out_queue (bytes_of_words (W.words page.old))) }
    ensures count { IfOk result (λ n. n ≡ length (out_queue (bytes_of_words (W.words page.old)))) }
    ensures empty { OnOk result (out_queue (bytes_of_words (W.words page.new)) ≡ []) }
    ensures page { OnOk result (bytes_of_words (W.words page.new)
        ≡ without_output (bytes_of_words (W.words page.old))) }
    ensures err { OnErr result (text.new.items ≡ text.old.items) }
    ensures err_page { OnErr result (W.words page.new ≡ W.words page.old) }
    ensures room { vec_len text.old + length (out_queue (bytes_of_words (W.words page.old)))
        ≤ vec_capacity text.old → IsOk result }
    ensures kept { IsConsole (bytes_of_words (W.words page.new)) }
    ensures rest { W.keeps_rest page.old page.new }
{
    drain_out(page, text)
}
