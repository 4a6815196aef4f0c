// WRITE: it judges its own numbers, and says what it comes to where none applies.
#![tactic(auto)]

ghost use Rattle.std.specs.Prelude.{◌≡◌};
ghost use Rattle.model.specs.declared.Command.TheVariants.{Write};
ghost use Rattle.refusals.specs.Deciding.{decided, commanded_of};

use judge::frame::data_of;
use model::{Decision, Effect};
use refusals::RefusedFrame;
use refusals::asked::Asked;

// WRITE, 009 10.4. The rule that stops it gives the number, and is passed up.
#[inline(always)]
pub fn write(asked: &Asked) -> Result<Decision, RefusedFrame>
    ensures { decided asked.now.tag result ≡ commanded_of Write asked.now }
{
    let p = octets::at(asked.frame, 1);
    let q = data_of(asked.frame);
    let reason = locks::barred(&asked.pages, asked.tag.state, p, q);
    // tried: `map_err(..)?`, where what its closure gives was left to show
    match locks::check_write(asked.pages.map, p, reason) {
        Ok(()) => {
            let w = pagewrite::written(&asked.pages, p, q);
            Ok(decisions::acknowledged(asked.tag, Effect::Page(p, w)))
        }
        Err(why) => Err(RefusedFrame {
            why,
            reason,
            effect: Effect::Keep,
        }),
    }
}
