// Why a call is refused, and the numbers of it (document 01, "The numbers a call answers with"). The rule that stops a write gives its number, and its place in
// document 02's order (E6).
#![tactic(auto)]

ghost use Rattle.std.specs.Prelude.{◌≡◌, ◌≤◌, cond, Ok, Err};
ghost use Rattle.model.specs.Numbers.{nibble_of};
ghost use Rattle.model.specs.Writing.{barred_number, barred_place};
ghost use Rattle.numbers.specs.Refusals.{number_of, number_told};

use model::Barred;

// Why a call is refused, in document 01's words; the discriminant is its number there.
#[derive(Clone, Copy)]
pub enum Refusal {
    // the tag is WAITING
    Waiting = 1,
    // a frame under 3 or over 64 bytes, or its CRC_A is wrong
    Damaged = 2,
    // the code is unknown, or not allowed now
    Unknown = 3,
    // the length isn't that command's
    Length = 4,
    // page, counter, key number or order is wrong
    Argument = 5,
    // authentication is needed
    Protected = 6,
    // the page or key is locked
    Locked = 7,
    // the authentication proof is false
    FalseProof = 8,
    // the counter would pass its end
    CounterEnd = 9,
    // a buffer of a wrong length, or a record that no tag can have
    Misfit = 10,
    // the limit of failed attempts is reached
    LimitReached = 11,
    // the file is not an image
    NoImage = 12,
}

impl Refusal {
    // Its number: the discriminant, so that a `From` would say no more.
    pub fn number(self) -> u8
        ensures { result ≡ number_of self }
    {
        self as u8
    }
}

// Refused where t holds. `refuse_if(..)?` lets the checks behind it be judged only where it doesn't, so that the first check that applies gives the number.
pub fn refuse_if(t: bool, why: Refusal) -> Result<(), Refusal>
    ensures { result ≡ cond t (Err why) (Ok tt) }
{
    if t { Err(why) } else { Ok(()) }
}

// The NAK nibble of a number, 009 Table 21: damaged frame 1h, a count past its end 4h, every other refusal 0h. Of a number and not of a `Refusal`, as the
// definition is, which `refused` cites.
#[tactic(auto, unfolding(model::specs::Numbers::nibble_of))]
pub fn nibble_of(n: u8) -> u8
    ensures { result ≡ nibble_of n }
{
    match n {
        2 => 0x1,
        9 | 11 => 0x4,
        _ => 0x0,
    }
}

// Whether a rule stops a write, and as what.
pub fn check_rule(b: Barred) -> Result<(), Refusal>
    ensures { number_told result ≡ barred_number b }
{
    match b {
        Barred::Open => Ok(()),
        Barred::Auth0 | Barred::RandomId => Err(Refusal::Protected),
        Barred::OwnLock | Barred::PairLock | Barred::KeyLock | Barred::ConfigLock => {
            Err(Refusal::Locked)
        }
    }
}

// The place in document 02's order of the rule that stops a write, 0 where none does. A function and no `From`, which only crate `model` may have for its
// `Barred`; that crate holds no code.
pub fn barred_place(b: Barred) -> u8
    ensures value { result ≡ barred_place b }
    ensures upper_bound { result ≤ 6 }
{
    b as u8
}
