// INCR_CNT and HLTA: each judges its own numbers, and says what it comes to where none applies. The functions of all commands, here and in `reads`,
// `writes`, `challenges` and `login`, have the same signature, so that the dispatch is one line an arm.
#![tactic(auto)]

ghost use Rattle.std.specs.Prelude.{◌≡◌};
ghost use Rattle.model.specs.declared.Command.TheVariants.{IncrCnt, Halt};
ghost use Rattle.refusals.specs.Deciding.{decided, commanded_of};

use judge::frame::data_of;
use model::{Decision, Effect};
use numbers::{Refusal, refuse_if};
use refusals::RefusedFrame;
use refusals::asked::Asked;

// INCR_CNT, 009 10.6.
#[inline(always)]
pub fn incr_cnt(asked: &Asked) -> Result<Decision, RefusedFrame>
    ensures { decided asked.now.tag result ≡ commanded_of IncrCnt asked.now }
{
    let k = octets::at(asked.frame, 1);
    let q = data_of(asked.frame);
    counters::check_incr_cnt(&asked.pages, asked.tag, k, q)?;
    let v = counters::counter(asked.tag, k);
    let more = counters::increment(q);
    Ok(decisions::acknowledged(asked.tag, Effect::Counter(k, v + more)))
}

// HLTA, 009 Table 20.
#[tactic(auto, unfolding(model::specs::Numbers::number_if))]
#[inline(always)]
pub fn halt(asked: &Asked) -> Result<Decision, RefusedFrame>
    ensures { decided asked.now.tag result ≡ commanded_of Halt asked.now }
{
    refuse_if(octets::at(asked.frame, 1) != 0, Refusal::Argument)?;
    Ok(decisions::halted())
}
