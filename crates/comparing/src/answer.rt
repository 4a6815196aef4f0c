// An answer, compared all at once: the number, the reply, and the whole reply buffer.
ghost use Rattle.std.specs.Prelude.{◌≡◌, ◌/◌, ◌%◌, get_or, length, min, replicate};
ghost use Rattle.std.proofs.lemmas.List.Edits.{sets};
ghost use Rattle.reports.specs.Digits.{octets_from};
ghost use Rattle.text.specs.Digits.{digit_of};
ghost use Rattle.comparing.specs.Told.{reply_of};

use model::Reply;
use reports::report::STDOUT_FILENO;
use reports::{digits, report};

// The reply buffer has the bytes that document 01 asks for.
pub const SIZE: usize = 242;

// A buffer is full of this before a call, so that a byte that was written shows.
pub const UNWRITTEN: u8 = 0x5a;

// What a call answered, or is to answer: its number, which is document 01's, the reply, and the reply buffer.
#[derive(Clone, Copy, PartialEq, Eq)]
pub struct Told {
    pub number: u8,
    pub reply: Reply,
    pub buffer: [u8; SIZE],
}

impl Told {
    // The answer of two texts: the number, one digit, and the reply. The buffer has what is told of the bytes at its start.
    pub fn of_texts(number: &[u8], reply: &[u8]) -> Told
        ensures number_value { result.number ≡ digit_of (get_or number.now 0 0) % 16 }
        ensures reply_value { result.reply ≡ reply_of reply.now }
        ensures buffer_value { result.buffer ≡ sets (replicate 242 0x5a) 0 (octets_from reply.now 0 (min (length reply.now / 2) 242)) }
    {
        let mut buffer = [UNWRITTEN; SIZE];
        digits::lay(reply, 0, &mut buffer);
        Told {
            number: digits::value(octets::at(number, 0)),
            reply: reply_of(reply),
            buffer,
        }
    }

    // The number, the reply and what was written of the reply buffer: what follows is as it was before the call. By `io`, as reports::report says.
    fn print(&self) {
        let end = self
            .buffer
            .iter()
            .rposition(|b| *b != UNWRITTEN)
            .map_or(0, |last| last + 1);
        io::print_decimal(STDOUT_FILENO, u64::from(self.number));
        io::write_all(STDOUT_FILENO, b" ");
        let (kind, amount) = match self.reply {
            Reply::Silence => ("silence", 0),
            Reply::Nibble(nibble) => ("nibble", u64::from(nibble)),
            // a number of bytes that no reply has is told as 255
            Reply::Bytes(count) => ("bytes", count.min(255) as u64),
        };
        io::write_all(STDOUT_FILENO, kind.as_bytes());
        io::write_all(STDOUT_FILENO, b" ");
        io::print_decimal(STDOUT_FILENO, amount);
        io::write_all(STDOUT_FILENO, b" ");
        report::print_bytes(&self.buffer[..end]);
    }
}

// The reply of a text: no digit is silence, one digit is a nibble, more are bytes.
#[tactic(auto, unfolding(crate::specs::Told::reply_of))]
fn reply_of(text: &[u8]) -> Reply
    ensures { result ≡ reply_of text.now }
{
    match text {
        [] => Reply::Silence,
        [digit] => Reply::Nibble(digits::value(*digit)),
        _ => Reply::Bytes(text.len() / 2),
    }
}

// The line of an answer: as `report::line`, but an answer is no run of bytes.
pub fn line(name: &[u8], got: &Told, expected: &Told) {
    let same = got == expected;
    report::verdict(name, same);
    if !same {
        got.print();
        io::write_all(STDOUT_FILENO, b", expected ");
        expected.print();
        io::write_all(STDOUT_FILENO, b"\n");
    }
}
