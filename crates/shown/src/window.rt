// The window of READ, 009 10.2: behind the last page that may be read it continues at page 00h, as often as needed.
ghost use Rattle.std.specs.Prelude.{◌≡◌};
ghost use Rattle.std.proofs.lemmas.List.Edits.{sets};
ghost use Rattle.framing.specs.Laid.{Laid};
ghost use Rattle.model.specs.Reading.{read_window, shown_page, shown_pages};

use crate::lay_run;
use memory::pages::Pages;
use model::State;
use rollover::{last_readable, page_after};

// A page as it is shown, from byte at of the reply on.
fn lay_page(pages: &Pages, st: State, p: u8, at: u16, reply: &mut [u8])
    ensures { reply.new ≡ sets reply.old at (shown_page pages.now.map st pages.now.bytes.now p) }
{
    lay_run(pages, st, 4 * (p as u16), 4, at, reply);
}

// The four pages of READ from p on, one by one, as 009 10.2 names them; returns how many bytes they are.
pub fn lay_window(pages: &Pages, st: State, p: u8, reply: &mut [u8]) -> usize
    ensures { Laid reply.old reply.new result (shown_pages pages.now.map st pages.now.bytes.now (read_window pages.now.map st pages.now.bytes.now p)) }
{
    let last = last_readable(pages, st);
    let second = page_after(last, p);
    let third = page_after(last, second);
    let fourth = page_after(last, third);
    lay_page(pages, st, p, 0, reply);
    lay_page(pages, st, second, 4, reply);
    lay_page(pages, st, third, 8, reply);
    lay_page(pages, st, fourth, 12, reply);
    16
}
