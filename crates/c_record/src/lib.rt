// The tag's record read from bytes, as the C form passes it (docs/C-FORM.md, "The record").
#![tactic(auto)]

ghost use Rattle.std.specs.Prelude.{◌≡◌};
ghost use Rattle.c_record.specs.Record.{state_of, record_of};

use fields::{block_of, number2, number4};
use model::{State, Tag};

pub const RECORD_SIZE: usize = 48;

// The key number counts only while CHALLENGED. A function, since `From` for crate model's `State` may stand only there.
#[tactic(auto, unfolding(crate::specs::Record::state_of))]
fn state_of(number: u8, key: u8) -> State
    ensures { result ≡ state_of number key }
{
    match number {
        0 => State::Waiting,
        1 => State::Active,
        2 => State::Traceable,
        3 => State::Authenticated,
        4 => State::Challenged(key),
        _ => State::Unknown(number),
    }
}

// The record that the bytes hold. Its three counters stand one by one: `from_fn` would hide their places, and is no plainer.
#[tactic(auto, unfolding(crate::specs::Record::record_of))]
pub fn record_of(b: &[u8]) -> Tag
    ensures { result ≡ record_of b.now }
{
    Tag {
        counters: [number4(b, 0), number4(b, 4), number4(b, 8)],
        failed: number2(b, 12),
        originality: block_of(b, 16),
        state: state_of(octets::at(b, 14), octets::at(b, 15)),
        challenge: block_of(b, 32),
    }
}
