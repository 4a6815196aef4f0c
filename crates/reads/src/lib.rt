// The commands that read: each judges its own numbers, and says what it comes to where none applies.
#![tactic(auto)]

ghost use Rattle.std.specs.Prelude.{◌≡◌};
ghost use Rattle.model.specs.declared.Command.TheVariants.{Read, FastRead, ReadCnt};
ghost use Rattle.refusals.specs.Deciding.{decided, commanded_of};

use counters::check_read_cnt;
use judge::reading::{check_fast_read, check_read};
use model::{Decision, Say};
use refusals::RefusedFrame;
use refusals::asked::Asked;

// READ, 009 10.2.
#[inline(always)]
pub fn read(asked: &Asked) -> Result<Decision, RefusedFrame>
    ensures { decided asked.now.tag result ≡ commanded_of Read asked.now }
{
    let p = octets::at(asked.frame, 1);
    check_read(&asked.pages, asked.tag.state, p)?;
    Ok(decisions::answered(asked.tag, Say::Window(p)))
}

// FAST_READ, 009 10.3.
#[inline(always)]
pub fn fast_read(asked: &Asked) -> Result<Decision, RefusedFrame>
    ensures { decided asked.now.tag result ≡ commanded_of FastRead asked.now }
{
    let p = octets::at(asked.frame, 1);
    let q = octets::at(asked.frame, 2);
    check_fast_read(&asked.pages, asked.tag.state, p, q)?;
    Ok(decisions::answered(asked.tag, Say::Range(p, q)))
}

// READ_CNT, 009 10.5.
#[inline(always)]
pub fn read_cnt(asked: &Asked) -> Result<Decision, RefusedFrame>
    ensures { decided asked.now.tag result ≡ commanded_of ReadCnt asked.now }
{
    let k = octets::at(asked.frame, 1);
    check_read_cnt(&asked.pages, asked.tag.state, k)?;
    Ok(decisions::answered(asked.tag, Say::Count(k)))
}
