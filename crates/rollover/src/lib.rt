// Where the window of READ goes on, 009 10.2: behind the last page that may be read it continues at page 00h.
#![tactic(auto)]

ghost use Rattle.std.specs.Prelude.{◌≡◌};
ghost use Rattle.model.specs.Reading.{last_readable, page_after};

use judge::reading::read_barred;
use memory::pages::Pages;
use memory::sizes::last_page;
use model::State;

// The last page that may be read: the one before AUTH0 where AUTH0 protects a page from reading.
#[tactic(auto, unfolding(model::specs::Reading::last_readable))]
pub fn last_readable(pages: &Pages, st: State) -> u8
    ensures { result ≡ last_readable pages.now.map st pages.now.bytes.now }
{
    let last = last_page(pages.map);
    if read_barred(pages, st, last) {
        pages.auth0().saturating_sub(1)
    } else {
        last
    }
}

// The page that follows p.
pub fn page_after(last: u8, p: u8) -> u8
    ensures { result ≡ page_after last p }
{
    if p < last { p + 1 } else { 0 }
}
