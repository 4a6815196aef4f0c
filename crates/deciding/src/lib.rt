// What a frame comes to: the checks in document 01's order, then the command. It only reads.
#![tactic(auto)]

ghost use Rattle.std.specs.Prelude.{◌≡◌, ◌≤◌, ◌<◌, length, IfOk, IfErr, OnOk};
ghost use Rattle.model.specs.Frame.{commanded, decide};
ghost use Rattle.refusals.specs.Deciding.{decided, commanded_of};
ghost use Rattle.deciding.specs.Refused.{refused_for};

use memory::pages::Pages;
use memory::record;
use model::{Command, Decision, Tag};
use numbers::{Refusal, refuse_if};
use refusals::RefusedFrame;
use refusals::asked::Asked;

// What a command comes to, whose code and length are right. Each is inlined here, and so is this, so that the compiler sees the memory map as the constant that it
// is: lent down to a function of its own, `asked` would lie in memory, and a WRITE take a third longer (docs/DECISIONS.md, D79). The two parts of AUTHENTICATE
// have AES to do and are too long for that; they are lent a copy, so that `asked` itself is lent to none.
#[inline(always)]
fn command(c: Command, asked: &Asked) -> Decision
    requires in_bounds { 1 ≤ length asked.now.frame.now }
    requires random_len { length asked.now.random.now ≡ 16 }
    requires failed_bound { asked.now.tag.failed < 65535 }
    ensures { result ≡ commanded_of c asked.now }
{
    let tag = asked.tag;
    match c {
        Command::Read => refusals::decided(tag, reads::read(asked)),
        Command::FastRead => refusals::decided(tag, reads::fast_read(asked)),
        Command::Write => refusals::decided(tag, writes::write(asked)),
        Command::ReadCnt => refusals::decided(tag, reads::read_cnt(asked)),
        Command::IncrCnt => refusals::decided(tag, commands::incr_cnt(asked)),
        Command::Authenticate => refusals::decided(tag, challenges::authenticate(&{ *asked })),
        Command::Proof => refusals::decided(tag, login::prove(&{ *asked })),
        Command::Halt => refusals::decided(tag, commands::halt(asked)),
    }
}

// The checks in their order: the first that applies refuses; else the command that the frame asks for. room is the reply buffer's length.
#[inline(always)]
fn checked(
    pages: &Pages,
    tag: Tag,
    f: &[u8],
    random: &[u8],
    room: usize,
) -> Result<Command, Refusal>
    ensures err { IfErr result (λ why. decided tag (refused_for why) ≡ decide pages.now.map tag pages.now.bytes.now f.now random.now room) }
    ensures ok { IfOk result (λ c. commanded c pages.now.map tag pages.now.bytes.now f.now random.now ≡ decide pages.now.map tag pages.now.bytes.now f.now random.now room) }
    ensures in_bounds { OnOk result (1 ≤ length f.now) }
    ensures random_len { OnOk result (length random.now ≡ 16) }
    ensures failed_bound { OnOk result (tag.failed < 65535) }
{
    let misfit = judge::frame::misfit(pages, tag, random, room);
    refuse_if(misfit, Refusal::Misfit)?;
    let waiting = record::is_waiting(tag.state);
    refuse_if(waiting, Refusal::Waiting)?;
    let damaged = telling::damaged(f);
    refuse_if(damaged, Refusal::Damaged)?;
    let told = telling::told(octets::at(f, 0));
    telling::check_told(told, tag.state, f.len())
}

// What a frame comes to. What a command is given is put together for it alone, so that a frame that is refused before costs no more than its checks.
// Its parts are passed apart. Tried: an `Asked` made in `tag::frame`, where the check does not cover a struct that holds references at two lifetimes of the
// signature.
pub fn decide(pages: &Pages, tag: Tag, f: &[u8], random: &[u8], room: usize) -> Decision
    ensures { result ≡ decide pages.now.map tag pages.now.bytes.now f.now random.now room }
{
    match checked(pages, tag, f, random, room) {
        Ok(c) => command(
            c,
            &Asked {
                pages: *pages,
                tag,
                frame: f,
                random,
            },
        ),
        Err(why) => refusals::decided(tag, Err(RefusedFrame::from(why))),
    }
}
