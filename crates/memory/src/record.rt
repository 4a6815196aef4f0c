// The tag's record: which state it is in, and whether a tag can have it (document 01, "Stored and fleeting").
ghost use Rattle.std.specs.Prelude.{◌≡◌};
ghost use Rattle.model.specs.Record.{state_number, is_waiting, is_active, is_authenticated, is_challenged, key_number, exists, possible};

use model::{State, Tag};

// The highest value of a counter, 24 bits (009 8.5.9), and of the failed count.
pub const HIGHEST_COUNTER: u32 = 0xffffff;

pub const HIGHEST_FAILED: u16 = 1023;

// A number for each state, as the definitions compare states by; 5 is for every one that doesn't exist.
pub fn state_number(st: State) -> u8
    ensures { result ≡ state_number st }
{
    match st {
        State::Waiting => 0,
        State::Active => 1,
        State::Traceable => 2,
        State::Authenticated => 3,
        State::Challenged(_) => 4,
        State::Unknown(_) => 5,
    }
}

// The four tests of a state by `matches!`: with `==` the fourth would need a key number, and the four are plainer alike.
pub fn is_waiting(st: State) -> bool
    ensures { result ≡ is_waiting st }
{
    matches!(st, State::Waiting)
}

pub fn is_active(st: State) -> bool
    ensures { result ≡ is_active st }
{
    matches!(st, State::Active)
}

pub fn is_authenticated(st: State) -> bool
    ensures { result ≡ is_authenticated st }
{
    matches!(st, State::Authenticated)
}

pub fn is_challenged(st: State) -> bool
    ensures { result ≡ is_challenged st }
{
    matches!(st, State::Challenged(_))
}

// The number of the key that was asked for, kept while CHALLENGED, else 0 and no None: the definition `key_number` gives 0, and the C form's record holds it.
pub fn key_number(st: State) -> u8
    ensures { result ≡ key_number st }
{
    if let State::Challenged(k) = st { k } else { 0 }
}

// The state exists, and so does its key number; only CHALLENGED has one.
#[tactic(auto, unfolding(model::specs::Record::exists))]
pub fn exists(st: State) -> bool
    ensures { result ≡ exists st }
{
    !matches!(st, State::Unknown(_)) && key_number(st) <= 2
}

// A record that a tag can have.
#[tactic(auto, unfolding(model::specs::Record::possible))]
pub fn possible(tag: Tag) -> bool
    ensures { result ≡ possible tag }
{
    tag.counters.iter().all(|c| *c <= HIGHEST_COUNTER)
        && tag.failed <= HIGHEST_FAILED
        && exists(tag.state)
}
