// Document 01: "The command is told by its first byte, and each code has one length." The codes and lengths are 009 Table 20's.
#![tactic(auto)]

ghost use Rattle.std.specs.Prelude.{◌≡◌, IfOk, IsSomeAnd};
ghost use Rattle.model.specs.Telling.{damaged, code_of, told, allowed, told_number};
ghost use Rattle.numbers.specs.Refusals.{number_told};

use memory::record;
use model::{Command, State};
use numbers::{Refusal, refuse_if};

// Under 3 or over 64 bytes, or the CRC_A in the last two bytes, low byte first, is not that of the bytes before them.
#[tactic(auto, unfolding(model::specs::Telling::damaged))]
pub fn damaged(f: &[u8]) -> bool
    ensures { result ≡ damaged f.now }
{
    if !(3..=64).contains(&f.len()) {
        return true;
    }
    let Some((bytes, trailer)) = f.split_last_chunk::<2>() else {
        return true;
    };
    crc::crc_a(bytes) != u16::from_le_bytes(*trailer)
}

// What a code byte tells: a command, and the length of its payload, the frame without CRC_A. A function and no `TryFrom`, which only crate `model` may have for
// its `Command`; the other codes are written as ranges, as document 01 asks.
#[tactic(auto, unfolding(model::specs::Telling::told))]
pub fn told(code: u8) -> Option<(Command, u8)>
    ensures { result ≡ told code }
{
    match code {
        0x1a => Some((Command::Authenticate, 2)),
        0x30 => Some((Command::Read, 2)),
        0x39 => Some((Command::ReadCnt, 2)),
        0x3a => Some((Command::FastRead, 3)),
        0x50 => Some((Command::Halt, 2)),
        0xa2 => Some((Command::Write, 6)),
        0xa5 => Some((Command::IncrCnt, 6)),
        0xaf => Some((Command::Proof, 33)),
        0x00..=0x19
        | 0x1b..=0x2f
        | 0x31..=0x38
        | 0x3b..=0x4f
        | 0x51..=0xa1
        | 0xa3..=0xa4
        | 0xa6..=0xae
        | 0xb0..=0xff => None,
    }
}

// The code byte of a command: its discriminant.
pub fn code_of(c: Command) -> u8
    ensures { result ≡ code_of c }
{
    c as u8
}

// While CHALLENGED only the second part of AUTHENTICATE is allowed; otherwise it is not.
#[tactic(auto, unfolding(model::specs::Telling::allowed))]
pub fn allowed(st: State, c: Command) -> bool
    ensures { result ≡ allowed st c }
{
    record::is_challenged(st) == (code_of(c) == code_of(Command::Proof))
}

// The command that a code tells, or why it is refused: the code is unknown or not allowed now, or the frame has another length n.
#[tactic(auto, unfolding(model::specs::Telling::told_number, model::specs::Numbers::first, model::specs::Numbers::number_if))]
pub fn check_told(t: Option<(Command, u8)>, st: State, n: usize) -> Result<Command, Refusal>
    ensures number { number_told result ≡ told_number t st n }
    ensures command { IfOk result (λ c. IsSomeAnd t (λ known. known.0 ≡ c)) }
{
    let (c, payload) = t.ok_or(Refusal::Unknown)?;
    refuse_if(!allowed(st, c), Refusal::Unknown)?;
    refuse_if(n != usize::from(payload) + 2, Refusal::Length)?;
    Ok(c)
}
