// Part 1 of AUTHENTICATE, 009 8.6.1, 8.6.5 and 10.10: the challenge.
#![tactic(auto)]

ghost use Rattle.std.specs.Prelude.{◌≡◌, length};
ghost use Rattle.model.specs.declared.Command.TheVariants.{Authenticate};
ghost use Rattle.model.specs.Authentication.{challenged};
ghost use Rattle.refusals.specs.Deciding.{decided, commanded_of};

use memory::pages::Pages;
use model::{Barred, Decision, Effect, Say, State, Tag};
use refusals::RefusedFrame;
use refusals::asked::Asked;

// Part 1 done: the random block, enciphered, goes out and is kept.
#[tactic(auto, unfolding(model::specs::Authentication::challenged))]
fn challenge(pages: &Pages, tag: Tag, k: u8, random: [u8; 16]) -> Decision
    ensures { result ≡ challenged pages.now.map tag pages.now.bytes.now k random }
{
    let sent = keys::enciphered(keys::key_of(pages, tag, k), random);
    Decision {
        number: 0,
        reason: Barred::Open,
        effect: Effect::Keep,
        say: Say::Block(0xaf),
        block: sent,
        state: State::Challenged(k),
        challenge: random,
    }
}

// AUTHENTICATE, part 1.
// Not inlined, as `deciding::command` says.
#[inline(never)]
pub fn authenticate(asked: &Asked) -> Result<Decision, RefusedFrame>
    requires { length asked.now.random.now ≡ 16 }
    ensures { decided asked.now.tag result ≡ commanded_of Authenticate asked.now }
{
    let k = octets::at(asked.frame, 1);
    limit::check_challenge(&asked.pages, asked.tag, k)?;
    Ok(challenge(&asked.pages, asked.tag, k, keys::block_of(asked.random)))
}
