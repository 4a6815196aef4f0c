// The answer of a frame as one number of 64 bits (docs/C-FORM.md, "The answer of kz_frame").
#![tactic(auto)]

ghost use Rattle.std.specs.Prelude.{◌≡◌, ◌<◌};
ghost use Rattle.c_answer.specs.Answer.{packed, answer_of, count_of};

use model::Reply;

// Number, reply kind, nibble, reason and byte count; there is no bit count. A kind is a number, as C reads it (docs/C-FORM.md).
#[tactic(auto, unfolding(crate::specs::Answer::packed))]
fn packed(number: u8, kind: u8, nibble: u8, reason: u8, count: u16) -> u64
    ensures { result ≡ packed number kind nibble reason count 0 }
{
    let [low, high] = count.to_le_bytes();
    u64::from_le_bytes([number, kind, nibble, reason, low, high, 0, 0])
}

// The answer of a number, the place of the rule that stopped a WRITE, and a reply.
pub fn answer_of(number: u8, place: u8, reply: Reply) -> u64
    requires { count_of reply < 65536 }
    ensures { result ≡ answer_of number place reply }
{
    match reply {
        Reply::Silence => packed(number, 0, 0, place, 0),
        Reply::Nibble(n) => packed(number, 1, n, place, 0),
        Reply::Bytes(n) => packed(number, 2, 0, place, n as u16),
    }
}
