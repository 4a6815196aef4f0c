// Document 01, "Reading": READ and FAST_READ, 009 10.2 and 10.3.
ghost use Rattle.std.specs.Prelude.{◌≡◌};
ghost use Rattle.model.specs.Reading.{read_barred, read_number, fast_read_number};
ghost use Rattle.numbers.specs.Refusals.{number_told};

use memory::pages::Pages;
use memory::record;
use memory::sizes::last_page;
use model::State;
use numbers::{Refusal, refuse_if};

// Page p is protected from reading.
#[tactic(auto, unfolding(model::specs::Reading::read_barred))]
pub fn read_barred(pages: &Pages, st: State, p: u8) -> bool
    ensures { result ≡ read_barred pages.now.map st pages.now.bytes.now p }
{
    pages.read_protected() && !record::is_authenticated(st) && pages.auth0() <= p
}

// READ: of its four pages only the first is judged, since behind the last that may be read it continues at page 00h.
#[tactic(auto, unfolding(model::specs::Reading::read_number, model::specs::Numbers::first, model::specs::Numbers::number_if))]
pub fn check_read(pages: &Pages, st: State, p: u8) -> Result<(), Refusal>
    ensures { number_told result ≡ read_number pages.now.map st pages.now.bytes.now p }
{
    refuse_if(last_page(pages.map) < p, Refusal::Argument)?;
    refuse_if(read_barred(pages, st, p), Refusal::Protected)
}

// FAST_READ of the pages from p to q.
#[tactic(auto, unfolding(model::specs::Reading::fast_read_number, model::specs::Numbers::first, model::specs::Numbers::number_if))]
pub fn check_fast_read(pages: &Pages, st: State, p: u8, q: u8) -> Result<(), Refusal>
    ensures { number_told result ≡ fast_read_number pages.now.map st pages.now.bytes.now p q }
{
    refuse_if(q < p || last_page(pages.map) < q, Refusal::Argument)?;
    refuse_if(read_barred(pages, st, q), Refusal::Protected)
}
