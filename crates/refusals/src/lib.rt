// What a command is given, and what a frame that is not carried out comes to: refused, or nothing changed. The shape that most decisions share.
#![tactic(auto)]

pub mod asked;

ghost use Rattle.std.specs.Prelude.{◌≡◌};
ghost use Rattle.model.specs.Numbers.{kept, refused};
ghost use Rattle.refusals.specs.Deciding.{plain, decided};

use model::{Barred, Decision, Effect, Say, State, Tag};
use numbers::Refusal;

// Why a frame is refused, the rule that stopped a write, and what the refusal stores: a false proof may raise the failed count.
#[derive(Clone, Copy)]
pub struct RefusedFrame {
    pub why: Refusal,
    pub reason: Barred,
    pub effect: Effect,
}

// Most refusals have no rule and store nothing.
impl From<Refusal> for RefusedFrame {
    ghost use Rattle.std.specs.Prelude.{◌≡◌};
    ghost use Rattle.model.specs.declared.Barred.TheVariants.{Open};
    ghost use Rattle.model.specs.declared.Effect.TheVariants.{Keep};

    ghost from_gives = { λ r x. x ≡ record { why = r; reason = Open; effect = Keep } };

    fn from(why: Refusal) -> RefusedFrame {
        RefusedFrame {
            why,
            reason: Barred::Open,
            effect: Effect::Keep,
        }
    }
}

// A decision that says no block and leaves no challenge.
#[tactic(auto, unfolding(crate::specs::Deciding::plain))]
pub fn plain(number: u8, reason: Barred, effect: Effect, say: Say, state: State) -> Decision
    ensures { result ≡ plain number reason effect say state }
{
    Decision {
        number,
        reason,
        effect,
        say,
        block: [0; 16],
        state,
        challenge: [0; 16],
    }
}

// Numbers 1 and 10: silence, and the record as it came, its challenge too. Of a number, here and in `refused`, as the definitions are.
#[tactic(auto, unfolding(model::specs::Numbers::kept, crate::specs::Deciding::plain))]
pub fn kept(n: u8, tag: Tag) -> Decision
    ensures { result ≡ kept n tag }
{
    let challenge = tag.challenge;
    Decision {
        challenge,
        ..plain(n, Barred::Open, Effect::Keep, Say::Silence, tag.state)
    }
}

// Every other number but 0: a NAK, the rule that stopped a write, and the session ends.
#[tactic(auto, unfolding(model::specs::Numbers::refused, crate::specs::Deciding::plain))]
pub fn refused(n: u8, b: Barred, e: Effect) -> Decision
    ensures { result ≡ refused n b e }
{
    let nibble = numbers::nibble_of(n);
    plain(n, b, e, Say::Nibble(nibble), State::Waiting)
}

// What a frame's outcome comes to: the one place where a refusal becomes a decision.
#[tactic(auto, unfolding(crate::specs::Deciding::decided))]
pub fn decided(tag: Tag, outcome: Result<Decision, RefusedFrame>) -> Decision
    ensures { result ≡ decided tag outcome }
{
    match outcome {
        Ok(decision) => decision,
        Err(
            RefusedFrame {
                why,
                reason,
                effect,
            },
        ) => match why {
            Refusal::Waiting | Refusal::Misfit => kept(why.number(), tag),
            _ => refused(why.number(), reason, effect),
        },
    }
}
