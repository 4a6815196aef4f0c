// The failed-attempt limit and part 1 of AUTHENTICATE (document 01, "Authentication"; 009 8.6.5 and 10.10): code that only reads.
#![tactic(auto)]

ghost use Rattle.std.specs.Prelude.{◌≡◌, cond, ◌<◌, eqb};
ghost use Rattle.model.specs.declared.Effect.TheVariants.{Keep, Failed};
ghost use Rattle.model.specs.Authentication.{limit_reached, raised, lowered, challenge_number};
ghost use Rattle.numbers.specs.Refusals.{number_told};

use memory::pages::Pages;
use model::{Effect, Tag};
use numbers::{Refusal, refuse_if};

// The failed count is at or above AUTH_LIM; 0 switches the limit off.
#[tactic(auto, unfolding(model::specs::Authentication::limit_reached))]
pub fn limit_reached(pages: &Pages, tag: Tag) -> bool
    ensures { result ≡ limit_reached pages.now.map tag pages.now.bytes.now }
{
    let limit = pages.auth_limit();
    limit != 0 && limit <= tag.failed
}

// The failed count becomes count; a limit of 0 leaves it as it is.
fn counted(limit: u16, count: u16) -> Effect
    ensures { result ≡ cond (eqb limit 0) Keep (Failed count) }
{
    if limit == 0 {
        Effect::Keep
    } else {
        Effect::Failed(count)
    }
}

// The failed count after a false proof: one more. No count that a tag can have is near the end of 16 bits.
#[tactic(auto, unfolding(model::specs::Authentication::raised))]
pub fn raised(pages: &Pages, tag: Tag) -> Effect
    requires { tag.failed < 65535 }
    ensures { result ≡ raised pages.now.map tag pages.now.bytes.now }
{
    counted(pages.auth_limit(), tag.failed + 1)
}

// The failed count after a right proof: 16 less, and 0 at 16 or below.
#[tactic(auto, unfolding(model::specs::Authentication::lowered))]
pub fn lowered(pages: &Pages, tag: Tag) -> Effect
    ensures { result ≡ lowered pages.now.map tag pages.now.bytes.now }
{
    counted(pages.auth_limit(), tag.failed.saturating_sub(16))
}

// Part 1 of AUTHENTICATE with key number k.
#[tactic(auto, unfolding(model::specs::Authentication::challenge_number, model::specs::Numbers::first, model::specs::Numbers::number_if))]
pub fn check_challenge(pages: &Pages, tag: Tag, k: u8) -> Result<(), Refusal>
    ensures { number_told result ≡ challenge_number pages.now.map tag pages.now.bytes.now k }
{
    refuse_if(2 < k, Refusal::Argument)?;
    refuse_if(limit_reached(pages, tag), Refusal::LimitReached)
}
