// The decisions of a frame that is carried out, but for the two steps of an authentication, which say a block.
#![tactic(auto)]

ghost use Rattle.std.specs.Prelude.{◌≡◌};
ghost use Rattle.model.specs.Numbers.{answered, acknowledged};
ghost use Rattle.model.specs.Frame.{halted};

use model::{Barred, Decision, Effect, Say, State, Tag};
use refusals::plain;

const ACK: u8 = 0xa;

// Number 0 with data: the state stays, and a challenge is dropped.
#[tactic(auto, unfolding(model::specs::Numbers::answered, refusals::specs::Deciding::plain))]
pub fn answered(tag: Tag, y: Say) -> Decision
    ensures { result ≡ answered tag y }
{
    plain(0, Barred::Open, Effect::Keep, y, tag.state)
}

// Number 0 with ACK and what it stores.
#[tactic(auto, unfolding(model::specs::Numbers::acknowledged, refusals::specs::Deciding::plain))]
pub fn acknowledged(tag: Tag, e: Effect) -> Decision
    ensures { result ≡ acknowledged tag e }
{
    plain(0, Barred::Open, e, Say::Nibble(ACK), tag.state)
}

// HLTA carried out: silence, and the session ends.
#[tactic(auto, unfolding(model::specs::Frame::halted, refusals::specs::Deciding::plain))]
pub fn halted() -> Decision
    ensures { result ≡ halted }
{
    plain(0, Barred::Open, Effect::Keep, Say::Silence, State::Waiting)
}
