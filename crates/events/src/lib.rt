// What a call hands back, and the two events.
#![tactic(auto)]

ghost use Rattle.std.specs.Prelude.{◌≡◌};
ghost use Rattle.model.specs.declared.Barred.TheVariants.{Open};
ghost use Rattle.model.specs.declared.Reply.TheVariants.{Silence};
ghost use Rattle.model.specs.Record.{zeros, fleeting, power, select};

use model::{Barred, Reply, State, Tag};

// What a call hands back: its number, its reply, the rule that stopped a write, and the record that the next call is given. No Result: document 01 has one
// numbered answer for each call, and the claims of `runs` (proofs/Demands.antt) read its number.
#[derive(Clone, Copy)]
pub struct Answer {
    pub number: u8,
    pub reply: Reply,
    pub reason: Barred,
    pub tag: Tag,
}

// What an event hands back: 0 with silence, and the record in another state with no challenge.
fn event(tag: Tag, st: State) -> Answer
    ensures { result ≡ record { number = 0; reply = Silence; reason = Open; tag = fleeting st zeros tag } }
{
    let next = Tag {
        state: st,
        challenge: [0; 16],
        ..tag
    };
    Answer {
        number: 0,
        reply: Reply::Silence,
        reason: Barred::Open,
        tag: next,
    }
}

// The field comes on: the tag waits.
pub fn power(tag: Tag) -> Answer
    ensures { result ≡ record { number = 0; reply = Silence; reason = Open; tag = power tag } }
{
    event(tag, State::Waiting)
}

// The reader selects the tag, whatever its state.
pub fn select(tag: Tag) -> Answer
    ensures { result ≡ record { number = 0; reply = Silence; reason = Open; tag = select tag } }
{
    event(tag, State::Active)
}
