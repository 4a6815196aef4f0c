// Pages as READ and FAST_READ show them, laid over a reply, which is a buffer of C's with the count of its bytes beside it.
#![tactic(auto)]

pub mod window;

ghost use Rattle.std.specs.Prelude.{◌≡◌, ◌≤◌};
ghost use Rattle.std.proofs.lemmas.List.Edits.{sets};
ghost use Rattle.framing.specs.Laid.{Laid};
ghost use Rattle.model.specs.Reading.{pages_from, shown_pages};
ghost use Rattle.shown.specs.Run.{shown_run};

use hiding::shown_byte;
use memory::pages::Pages;
use model::State;

// The n bytes from byte first on, as they are shown, from byte at of the reply on.
// By place: what lies past the reply's end is dropped, as `sets` does. `iter_mut().enumerate()` would need both ends cut to the reply first, and is no plainer.
fn lay_run(pages: &Pages, st: State, first: u16, n: u16, at: u16, reply: &mut [u8])
    ensures { reply.new ≡ sets reply.old at (shown_run pages.now.map st pages.now.bytes.now first n) }
{
    for i in 0..n {
        let byte = shown_byte(pages, st, first as usize + i as usize);
        octets::put(reply, at as usize + i as usize, byte);
    }
}

// The pages from first on, as they are shown; returns how many bytes they are.
pub fn lay_pages(pages: &Pages, st: State, first: u8, count: usize, reply: &mut [u8]) -> usize
    requires { count ≤ 256 }
    ensures { Laid reply.old reply.new result (shown_pages pages.now.map st pages.now.bytes.now (pages_from first count)) }
{
    let n = 4 * count;
    lay_run(pages, st, 4 * (first as u16), n as u16, 0, reply);
    n
}
