// Document 01, "Writing": the rules that stop a WRITE, 009 10.4, 8.5.2 to 8.5.4 and Tables 9, 10, 14 and 15.
#![tactic(auto)]

ghost use Rattle.std.specs.Prelude.{◌≡◌};
ghost use Rattle.model.specs.Writing.{page_bars, auth0_bars, random_id_bars, config_lock_bars, barred, write_number};
ghost use Rattle.numbers.specs.Refusals.{number_told};

use lock_bits::{key_lock_bars, own_lock_bars, pair_lock_bars};
use memory::pages::Pages;
use memory::settings::bit_set;
use memory::{record, sizes};
use model::{Barred, Map, Quad, State};
use numbers::{Refusal, check_rule, refuse_if};

// Page p is none of 02h to 3Bh, which alone can be written.
#[tactic(auto, unfolding(model::specs::Writing::page_bars))]
pub fn page_bars(map: Map, p: u8) -> bool
    ensures { result ≡ page_bars map p }
{
    p < map.locks || sizes::last_page(map) < p
}

// At or above AUTH0 and not AUTHENTICATED, whatever PROT says.
#[tactic(auto, unfolding(model::specs::Writing::auth0_bars))]
pub fn auth0_bars(pages: &Pages, st: State, p: u8) -> bool
    ensures { result ≡ auth0_bars pages.now.map st pages.now.bytes.now p }
{
    !record::is_authenticated(st) && pages.auth0() <= p
}

// CFG_0 with another Random ID bit, while ACTIVE.
#[tactic(auto, unfolding(model::specs::Writing::random_id_bars))]
pub fn random_id_bars(pages: &Pages, st: State, p: u8, q: Quad) -> bool
    ensures { result ≡ random_id_bars pages.now.map st pages.now.bytes.now p q }
{
    p == pages.map.cfg0 && record::is_active(st) && bit_set(0, q.a.into()) != pages.random_id_on()
}

// CFG_0 and CFG_1 under LOCK_USR_CFG.
#[tactic(auto, unfolding(model::specs::Writing::config_lock_bars))]
pub fn config_lock_bars(pages: &Pages, p: u8) -> bool
    ensures { result ≡ config_lock_bars pages.now.map pages.now.bytes.now p }
{
    (p == pages.map.cfg0 || p == pages.map.cfg1) && pages.config_locked()
}

// The rule that stops a write of q to page p: the first that applies. Its number and its place follow from it (`numbers`); a page that can't be written is 5
// before any rule applies.
#[tactic(auto, unfolding(model::specs::Writing::barred))]
pub fn barred(pages: &Pages, st: State, p: u8, q: Quad) -> Barred
    ensures { result ≡ barred pages.now.map st pages.now.bytes.now p q }
{
    if page_bars(pages.map, p) {
        Barred::Open
    } else if auth0_bars(pages, st, p) {
        Barred::Auth0
    } else if random_id_bars(pages, st, p, q) {
        Barred::RandomId
    } else if own_lock_bars(pages, p) {
        Barred::OwnLock
    } else if pair_lock_bars(pages, p) {
        Barred::PairLock
    } else if key_lock_bars(pages, p) {
        Barred::KeyLock
    } else if config_lock_bars(pages, p) {
        Barred::ConfigLock
    } else {
        Barred::Open
    }
}

// A WRITE to page p that the rule b stops, or none.
#[tactic(auto, unfolding(model::specs::Writing::write_number, model::specs::Numbers::first, model::specs::Numbers::number_if))]
pub fn check_write(map: Map, p: u8, b: Barred) -> Result<(), Refusal>
    ensures { number_told result ≡ write_number map p b }
{
    refuse_if(page_bars(map, p), Refusal::Argument)?;
    check_rule(b)
}
