// The 9P page: one message at most.
ghost use Rattle.std.specs.Prelude.{◌≡◌, ◌↔◌, ◌≤◌, length, IsTrue, IfOk, OnOk, OnErr, []};
ghost use Rattle.std.specs.Bool.{OnTrue, OnFalse};
ghost use Rattle.neph_ring.specs.Bytes.{bytes_of_words};
ghost use Rattle.neph_ring.specs.P9Page.{IsP9Page, IsIn, Holds, state_number, p9_message, with_message};

use crate::bytes::{read_bytes, write_bytes};
use crate::layout::{P9_LENGTH, P9_MESSAGE, P9_MOST, P9_STATE};
use crate::numbers::{read_u32, write_u32};
use crate::words::Words;
use neph_base::{List, Message, NoMemory};
use std::alloc::Global;

/// The state of a 9P page.
#[derive(Clone, Copy, Debug, PartialEq, Eq)]
pub enum P9State {
    /// There is no message. Its number is 0.
    Idle,
    /// The guest's request waits for its answer. Its number is 1.
    Asked,
    /// The answer waits for the guest. Its number is 2.
    Answered,
}

impl P9State {
    /// The number of the state.
    pub fn number(self) -> u32
        ensures { result ≡ state_number self }
    {
        match self {
            P9State::Idle => 0,
            P9State::Asked => 1,
            P9State::Answered => 2,
        }
    }
}

// Puts a message, its length and a state.
fn put_message<W: Words>(page: &mut W, state: P9State, bytes: &[u8])
    requires { length bytes.now ≤ P9_MOST }
    ensures page { bytes_of_words (W.words page.new)
        ≡ with_message (bytes_of_words (W.words page.old)) state bytes.now }
    ensures holds { Holds (bytes_of_words (W.words page.new)) state bytes.now }
    ensures kept { IsP9Page (bytes_of_words (W.words page.new)) }
    ensures rest { W.keeps_rest page.old page.new }
{
    write_u32(page, P9_STATE, state.number());
    write_u32(page, P9_LENGTH, bytes.len() as u32);
    write_bytes(page, P9_MESSAGE, bytes);
}

/// The state of the page.
pub fn p9_state<W: Words>(page: &mut W) -> P9State
    requires { IsP9Page (bytes_of_words (W.words page.old)) }
    ensures state { IsIn (bytes_of_words (W.words page.old)) result }
    ensures words { W.words page.new ≡ W.words page.old }
    ensures kept { IsP9Page (bytes_of_words (W.words page.new)) }
    ensures rest { W.keeps_rest page.old page.new }
{
    match read_u32(page, P9_STATE) {
        0 => P9State::Idle,
        1 => P9State::Asked,
        _ => P9State::Answered,
    }
}

// The message of the page.
fn message<W: Words>(alloc: Global, page: &mut W) -> Result<Message, NoMemory>
    requires { IsP9Page (bytes_of_words (W.words page.old)) }
    ensures message { IfOk result (λ m. m ≡ p9_message (bytes_of_words (W.words page.old))) }
    ensures words { W.words page.new ≡ W.words page.old }
    ensures rest { W.keeps_rest page.old page.new }
{
    let n = read_u32(page, P9_LENGTH) as usize;
    let mut bytes = vec![in alloc; 0u8; n]?;
    read_bytes(page, P9_MESSAGE, &mut bytes);
    Ok(List::of(bytes))
}

/// Puts a request of at most 1,024 bytes. False exactly where the page isn't idle.
pub fn p9_put<W: Words>(page: &mut W, bytes: &[u8]) -> bool
    requires page { IsP9Page (bytes_of_words (W.words page.old)) }
    requires size { length bytes.now ≤ P9_MOST }
    ensures exactly { IsTrue result ↔ IsIn (bytes_of_words (W.words page.old)) P9State.Idle }
    ensures put { OnTrue result (bytes_of_words (W.words page.new)
        ≡ with_message (bytes_of_words (W.words page.old)) P9State.Asked bytes.now) }
    ensures asked { OnTrue result
        (Holds (bytes_of_words (W.words page.new)) P9State.Asked bytes.now) }
    ensures busy { OnFalse result (W.words page.new ≡ W.words page.old) }
    ensures kept { IsP9Page (bytes_of_words (W.words page.new)) }
    ensures rest { W.keeps_rest page.old page.new }
{
    if p9_state(page) != P9State::Idle {
        return false;
    }
    put_message(page, P9State::Asked, bytes);
    true
}

/// Takes the answer. The page is idle then, and the message's bytes stay in their place.
pub fn p9_take<W: Words>(alloc: Global, page: &mut W) -> Result<Message, NoMemory>
    requires page { IsP9Page (bytes_of_words (W.words page.old)) }
    requires answered { IsIn (bytes_of_words (W.words page.old)) P9State.Answered }
    ensures message { IfOk result (λ m. m ≡ p9_message (bytes_of_words (W.words page.old))) }
    ensures took { OnOk result (bytes_of_words (W.words page.new)
        ≡ with_message (bytes_of_words (W.words page.old)) P9State.Idle []) }
    ensures idle { OnOk result (Holds (bytes_of_words (W.words page.new)) P9State.Idle []) }
    ensures err { OnErr result (W.words page.new ≡ W.words page.old) }
    ensures kept { IsP9Page (bytes_of_words (W.words page.new)) }
    ensures rest { W.keeps_rest page.old page.new }
{
    let answer = message(alloc, page)?;
    put_message(page, P9State::Idle, &[]);
    Ok(answer)
}

/// The request that waits for its answer. The page stays as it is.
pub fn p9_ask<W: Words>(alloc: Global, page: &mut W) -> Result<Message, NoMemory>
    requires page { IsP9Page (bytes_of_words (W.words page.old)) }
    requires asked { IsIn (bytes_of_words (W.words page.old)) P9State.Asked }
    ensures message { IfOk result (λ m. m ≡ p9_message (bytes_of_words (W.words page.old))) }
    ensures words { W.words page.new ≡ W.words page.old }
    ensures kept { IsP9Page (bytes_of_words (W.words page.new)) }
    ensures rest { W.keeps_rest page.old page.new }
{
    message(alloc, page)
}

/// Puts the answer, of at most 1,024 bytes, in the request's place.
pub fn p9_reply<W: Words>(page: &mut W, bytes: &[u8])
    requires page { IsP9Page (bytes_of_words (W.words page.old)) }
    requires asked { IsIn (bytes_of_words (W.words page.old)) P9State.Asked }
    requires size { length bytes.now ≤ P9_MOST }
    ensures put { bytes_of_words (W.words page.new)
        ≡ with_message (bytes_of_words (W.words page.old)) P9State.Answered bytes.now }
    ensures answered { Holds (bytes_of_words (W.words page.new)) P9State.Answered bytes.now }
    ensures kept { IsP9Page (bytes_of_words (W.words page.new)) }
    ensures rest { W.keeps_rest page.old page.new }
{
    put_message(page, P9State::Answered, bytes);
}
