// Part 2 of AUTHENTICATE, 009 8.6.1, 8.6.5 and 10.10: the reader's proof, and what a login does.
#![tactic(auto)]

ghost use Rattle.std.specs.Prelude.{◌≡◌, false, ◌≤◌, ◌<◌, length};
ghost use Rattle.model.specs.declared.Command.TheVariants.{Proof};
ghost use Rattle.model.specs.Authentication.{key_of, limit_reached, lowered, rotated, logged_in};
ghost use Rattle.model.specs.Record.{zeros, key_number};
ghost use Rattle.model.specs.declared.Barred.TheVariants.{Open};
ghost use Rattle.model.specs.declared.Say.TheVariants.{Block};
ghost use Rattle.fips197.specs.Cbc.{cbc_encipher};
ghost use Rattle.refusals.specs.Deciding.{decided, commanded_of};

use memory::pages::Pages;
use memory::record::key_number;
use model::{Barred, Decision, Say, State, Tag};
use numbers::{Refusal, refuse_if};
use refusals::RefusedFrame;
use refusals::asked::Asked;

// The state that key number k leads to. A number, as the definition has it, and the record for C can hold any.
fn logged_in(k: u8) -> State
    ensures { result ≡ logged_in k }
{
    match k {
        0 => State::Authenticated,
        1 => State::Traceable,
        _ => State::Active,
    }
}

// The key of the challenge that is under way.
fn asked_key(pages: &Pages, tag: Tag) -> [u8; 16]
    ensures { result ≡ key_of pages.now.map tag pages.now.bytes.now (key_number tag.state) }
{
    keys::key_of(pages, tag, key_number(tag.state))
}

// Part 2 done: the reader's block, rotated and enciphered, goes out.
fn logged(pages: &Pages, tag: Tag, key: [u8; 16], theirs: [u8; 16]) -> Decision
    ensures { result ≡ record { number = 0; reason = Open; effect = lowered pages.now.map tag pages.now.bytes.now; say = Block 0x00; block = cbc_encipher key zeros (rotated theirs); state = logged_in (key_number tag.state); challenge = zeros } }
{
    let sent = keys::enciphered(key, keys::rotated(theirs));
    Decision {
        number: 0,
        reason: Barred::Open,
        effect: limit::lowered(pages, tag),
        say: Say::Block(0x00),
        block: sent,
        state: logged_in(key_number(tag.state)),
        challenge: [0; 16],
    }
}

// Part 2, where the limit is not reached: the reader's answer is deciphered from the frame's bytes behind its code, where they lie.
fn judge_answer(asked: &Asked) -> Result<Decision, RefusedFrame>
    requires in_bounds { 1 ≤ length asked.now.frame.now }
    requires failed_bound { asked.now.tag.failed < 65535 }
    requires limit_value { limit_reached asked.now.pages.map asked.now.tag asked.now.pages.bytes.now ≡ false }
    ensures { decided asked.now.tag result ≡ commanded_of Proof asked.now }
{
    let key = asked_key(&asked.pages, asked.tag);
    let answer = keys::deciphered(key, &asked.frame[1..]);
    let theirs = answer.first;
    let ours = answer.second;
    let challenge = asked.tag.challenge;
    if keys::same_bytes(ours, keys::rotated(challenge)) {
        return Ok(logged(&asked.pages, asked.tag, key, theirs));
    }
    Err(RefusedFrame {
        why: Refusal::FalseProof,
        reason: Barred::Open,
        effect: limit::raised(&asked.pages, asked.tag),
    })
}

// AUTHENTICATE, part 2.
// Not inlined, as `deciding::command` says.
#[inline(never)]
pub fn prove(asked: &Asked) -> Result<Decision, RefusedFrame>
    requires in_bounds { 1 ≤ length asked.now.frame.now }
    requires failed_bound { asked.now.tag.failed < 65535 }
    ensures { decided asked.now.tag result ≡ commanded_of Proof asked.now }
{
    let reached = limit::limit_reached(&asked.pages, asked.tag);
    refuse_if(reached, Refusal::LimitReached)?;
    judge_answer(asked)
}
