// What holds of messages and the bytes that spell them.
ghost use Rattle.std.specs.Prelude.{◌≡◌, ◌++◌, ℕ, List, Option, Some};
ghost use Rattle.neph_p9msg.specs.Grammar.{Spells, IsMessage, IsFound, bytes_of};
ghost use Rattle.neph_p9msg.specs.declared.msg.Msg.{Msg};

/// Bytes spell one message at most.
pub fn one_message_for_bytes()
    ensures { (bytes : List ℕ) (m n : Msg) → Spells bytes m → Spells bytes n → m ≡ n }
{}

/// A message has one spelling, and no spelling of a message begins another's.
pub fn none_begins_another()
    ensures { (a b x y : List ℕ) (m n : Msg) → Spells a m → Spells b n
        → a ++ x ≡ b ++ y → (a ≡ b) × (m ≡ n) }
{}

/// What is found in the bytes of a message is that message: what `encode` wrote `decode` reads.
pub fn read_again()
    ensures { (m : Msg) (found : Option Msg) → IsMessage m
        → IsFound (bytes_of m) found → found ≡ Some m }
{}
